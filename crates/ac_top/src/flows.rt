// The work of `flow`: the sources of the reads of one file, under its own context.
ghost use Rattle.std.specs.Prelude.{◌≡◌, [], IfOk};
ghost use Rattle.ac_syntax.specs.ReadyPrograms.{ReadyProgram};
ghost use Rattle.ac_parse.specs.Program.{IsProgramOf};
ghost use Rattle.ac_flow.specs.Contexts.{ContextStops};
ghost use Rattle.ac_poly.specs.Model.{HasContext};
ghost use Rattle.ac_walk.specs.UnknownCauses.{HasValuation};
ghost use Rattle.ac_top.specs.ProgramAnswers.{TextReports, OneFileReports};
ghost use Rattle.ac_top.specs.FlowReports.{FlowReports, lowered, default_budget};
ghost use Rattle.ac_top.specs.Reads.{AreReads};
ghost use Rattle.ac_top.specs.Reports.{report as a_report};
ghost use Rattle.ac_top.specs.RunStages.{IsRead, written};

use crate::lowering::{OneLowered, lowered_program};
use crate::refusals::refusal_line;
use crate::report::{Report, Source, read_source, refused, unread};
use crate::runs::Named;
use crate::sources::{Parsed, program_of};
use crate::status::Status;
use crate::texts::{read_fault_line, too_long_line};
use ac_flow::types::{ContextStop, Limits};
use ac_flow::{context_point, flow};
use ac_poly::types::Model;
use ac_port::Files;
use ac_report::{context_stop_text, flow_stop_text, flow_text};
use ac_syntax::tree::Program;
use std::alloc::{AllocError, Global};

/// The budget of each question.
const LIMITS: Limits = Limits { budget: 50_000 };

/// The report of a flow that stops early.
fn stopped(text: Vec<u8>) -> Report
    ensures { written result ≡ a_report Status.Stopped text.items }
{
    Report {
        status: Status::Stopped,
        text,
        proof: None,
    }
}

/// What is reported of a program whose context has no valuation, as far as its question tells.
fn report_context_stop(
    alloc: Global,
    program: &Program,
    stop: &ContextStop,
) -> Result<Report, AllocError>
    requires context { HasContext program.now.context (lowered program.now) }
    requires stop { ContextStops default_budget (lowered program.now) stop.now }
    ensures { IfOk result (λ r. FlowReports program.now (written r)) }
{
    let text = context_stop_text(alloc, stop)?;
    match stop {
        ContextStop::EmptyContext => Ok(refused(text)),
        ContextStop::Overflow(_) => Ok(stopped(text)),
        ContextStop::Spent { .. } => Ok(stopped(text)),
        ContextStop::Memory(_) => Ok(stopped(text)),
    }
}

/// What is reported of the reads of a program.
fn report_reads(alloc: Global, program: &Program, model: &Model) -> Result<Report, AllocError>
    requires program { ReadyProgram program.now }
    requires model { model.now ≡ lowered program.now }
    requires valuation { HasValuation default_budget (lowered program.now) }
    ensures { IfOk result (λ r. FlowReports program.now (written r)) }
{
    match flow(alloc, model, &LIMITS) {
        Ok(found) => Ok(Report {
            status: Status::Done,
            text: flow_text(alloc, program, &found)?,
            proof: None,
        }),
        Err(stop) => Ok(stopped(flow_stop_text(alloc, &stop)?)),
    }
}

/// What `flow` reports of a program and its model under its own context.
fn report_model(alloc: Global, program: &Program, model: &Model) -> Result<Report, AllocError>
    requires program { ReadyProgram program.now }
    requires model { model.now ≡ lowered program.now }
    requires context { HasContext program.now.context model.now }
    ensures { IfOk result (λ r. FlowReports program.now (written r)) }
{
    match context_point(alloc, model, &LIMITS) {
        Ok(_point) => report_reads(alloc, program, model),
        Err(stop) => report_context_stop(alloc, program, &stop),
    }
}

/// What `flow` reports of a file that holds a program.
fn report_program(alloc: Global, file: &Named<'_>, program: &Program) -> Result<Report, AllocError>
    requires is { IsProgramOf file.now.bytes.now program.now }
    requires read { IsRead program.now }
    ensures { IfOk result (λ r. TextReports file.now.name.now file.now.bytes.now (written r)) }
{
    match lowered_program(alloc, program, &program.context)? {
        OneLowered::Model(model) => report_model(alloc, program, &model),
        OneLowered::Refused(complaint) => {
            Ok(refused(refusal_line(alloc, file.name, file.bytes, complaint)?))
        }
    }
}

/// What `flow` reports of a file.
fn report_text(alloc: Global, file: &Named<'_>) -> Result<Report, AllocError>
    ensures { IfOk result (λ r. TextReports file.now.name.now file.now.bytes.now (written r)) }
{
    match program_of(alloc, file.bytes)? {
        Parsed::Program(program) => report_program(alloc, file, &program),
        Parsed::Refused(complaint) => {
            Ok(refused(refusal_line(alloc, file.name, file.bytes, complaint)?))
        }
    }
}

/// Reads a file and reports on the sources of its reads.
pub fn report_flow<F: Files>(
    alloc: Global,
    files: &mut F,
    name: &[u8],
) -> Result<Report, AllocError>
    ensures report { IfOk result (λ r. OneFileReports (F.contents files.old) (AreReads (F.transcript files.old) (F.transcript files.new)) name.now (written r)) }
    ensures same { F.contents files.new ≡ F.contents files.old }
    ensures same_writes { F.write_faults files.new ≡ F.write_faults files.old }
{
    let bytes = match read_source(alloc, files, name)? {
        Source::Bytes(bytes) => bytes,
        Source::Unread => return Ok(unread(read_fault_line(alloc, name)?)),
        Source::TooLong => return Ok(refused(too_long_line(alloc, name)?)),
    };
    let file = Named {
        name,
        bytes: bytes.as_slice(),
    };
    report_text(alloc, &file)
}
