// The work of `legal`: whether the order that a file gives the assignments of another keeps what they depend on.
ghost use Rattle.std.specs.Prelude.{◌≡◌, ◌∷◌, [], Some, IfOk};
ghost use Rattle.ac_syntax.specs.ReadyPrograms.{ReadyProgram};
ghost use Rattle.ac_parse.specs.Program.{IsProgramOf};
ghost use Rattle.ac_flow.specs.Contexts.{ContextStops};
ghost use Rattle.ac_poly.specs.Model.{HasContext};
ghost use Rattle.ac_walk.specs.UnknownCauses.{HasValuation};
ghost use Rattle.ac_top.specs.ProgramAnswers.{OrderOfTextReports, LegalReports};
ghost use Rattle.ac_top.specs.FlowReports.{lowered, default_budget};
ghost use Rattle.ac_top.specs.OrderReports.{OrderReports, OrderTextReports, flow_stop_of, stop_text};
ghost use Rattle.ac_top.specs.Reads.{AreReads};
ghost use Rattle.ac_top.specs.Reports.{report as a_report};
ghost use Rattle.ac_top.specs.RunStages.{IsRead, written};

use crate::lowering::{OneLowered, lowered_program};
use crate::refusals::refusal_line;
use crate::report::{Report, Source, read_source, refused, unread};
use crate::runs::Named;
use crate::sources::{Parsed, program_of};
use crate::status::Status;
use crate::texts::{
    kept_line, order_fault_line, order_too_long_line, read_fault_line, too_long_line,
};
use ac_flow::context_point;
use ac_flow::types::{ContextStop, FlowStop, Limits};
use ac_legal::legal;
use ac_legal::types::{Legal, LegalStop, Schedule};
use ac_legal_text::types::OrderFault;
use ac_legal_text::{broken_line, read_order};
use ac_poly::types::Model;
use ac_port::Files;
use ac_report::{context_stop_text, flow_stop_text};
use ac_syntax::tree::Program;
use std::alloc::{AllocError, Global};

/// The budget of each question.
const LIMITS: Limits = Limits { budget: 50_000 };

/// A report without a file.
fn answered(status: Status, text: Vec<u8>) -> Report
    ensures { written result ≡ a_report status text.items }
{
    Report {
        status,
        text,
        proof: None,
    }
}

/// The stop, as one of a flow.
fn flow_stop(stop: LegalStop) -> FlowStop
    ensures { result ≡ flow_stop_of stop }
{
    match stop {
        LegalStop::Overflow(question) => FlowStop::Overflow(question),
        LegalStop::Spent { question, cost } => FlowStop::Spent { question, cost },
        LegalStop::Memory(want) => FlowStop::Memory(want),
    }
}

/// The text of a stop. Want of memory has none: it is handed on.
fn legal_stop_text(alloc: Global, stop: LegalStop) -> Result<Vec<u8>, AllocError>
    ensures { IfOk result (λ bytes. stop_text stop ≡ Some bytes.items) }
{
    let stop = flow_stop(stop);
    flow_stop_text(alloc, &stop)
}

/// What is reported of a program and a schedule under a context that has a valuation.
fn report_schedule(
    alloc: Global,
    program: &Program,
    model: &Model,
    order: &Schedule,
) -> Result<Report, AllocError>
    requires program { ReadyProgram program.now }
    requires model { model.now ≡ lowered program.now }
    requires valuation { HasValuation default_budget (lowered program.now) }
    ensures { IfOk result (λ r. OrderReports program.now order.now.times (written r)) }
{
    match legal(alloc, model, order, &LIMITS) {
        Ok(Legal::Kept) => Ok(answered(Status::Done, kept_line(alloc)?)),
        Ok(Legal::Broken { at, first, second }) => {
            let text = broken_line(
                alloc,
                at.as_slice(),
                first.0,
                first.1.as_slice(),
                second.0,
                second.1.as_slice(),
            )?;
            Ok(answered(Status::Different, text))
        }
        Err(stop) => Ok(answered(Status::Stopped, legal_stop_text(alloc, stop)?)),
    }
}

/// What is reported of a program whose context has no valuation, as far as its question tells.
fn report_no_valuation(
    alloc: Global,
    program: &Program,
    order: &Schedule,
    stop: &ContextStop,
) -> Result<Report, AllocError>
    requires context { HasContext program.now.context (lowered program.now) }
    requires stop { ContextStops default_budget (lowered program.now) stop.now }
    ensures { IfOk result (λ r. OrderReports program.now order.now.times (written r)) }
{
    let text = context_stop_text(alloc, stop)?;
    match stop {
        ContextStop::EmptyContext => Ok(refused(text)),
        ContextStop::Overflow(_) => Ok(answered(Status::Stopped, text)),
        ContextStop::Spent { .. } => Ok(answered(Status::Stopped, text)),
        ContextStop::Memory(_) => Ok(answered(Status::Stopped, text)),
    }
}

/// What is reported of a program and a schedule under the program's own context.
fn report_order(
    alloc: Global,
    program: &Program,
    model: &Model,
    order: &Schedule,
) -> Result<Report, AllocError>
    requires program { ReadyProgram program.now }
    requires model { model.now ≡ lowered program.now }
    requires context { HasContext program.now.context model.now }
    ensures { IfOk result (λ r. OrderReports program.now order.now.times (written r)) }
{
    match context_point(alloc, model, &LIMITS) {
        Ok(_point) => report_schedule(alloc, program, model, order),
        Err(stop) => report_no_valuation(alloc, program, order, &stop),
    }
}

/// What is reported of a program and the text of a schedule.
fn report_order_text(
    alloc: Global,
    program: &Program,
    model: &Model,
    spelled: &[u8],
) -> Result<Report, AllocError>
    requires program { ReadyProgram program.now }
    requires model { model.now ≡ lowered program.now }
    requires context { HasContext program.now.context model.now }
    ensures { IfOk result (λ r. OrderTextReports program.now spelled.now (written r)) }
{
    match read_order(alloc, spelled, model) {
        Ok(order) => report_order(alloc, program, model, &order),
        Err(OrderFault::Line(number)) => Ok(refused(order_fault_line(alloc, number)?)),
        Err(OrderFault::Memory(want)) => Err(want),
    }
}

/// What is reported of a file that holds a program, and the text of a schedule.
fn report_program(
    alloc: Global,
    file: &Named<'_>,
    spelled: &[u8],
    program: &Program,
) -> Result<Report, AllocError>
    requires is { IsProgramOf file.now.bytes.now program.now }
    requires read { IsRead program.now }
    ensures { IfOk result (λ r. OrderOfTextReports file.now.name.now file.now.bytes.now spelled.now (written r)) }
{
    match lowered_program(alloc, program, &program.context)? {
        OneLowered::Model(model) => report_order_text(alloc, program, &model, spelled),
        OneLowered::Refused(complaint) => {
            Ok(refused(refusal_line(alloc, file.name, file.bytes, complaint)?))
        }
    }
}

/// What is reported of a file and the text of a schedule.
fn report_texts(alloc: Global, file: &Named<'_>, spelled: &[u8]) -> Result<Report, AllocError>
    ensures { IfOk result (λ r. OrderOfTextReports file.now.name.now file.now.bytes.now spelled.now (written r)) }
{
    match program_of(alloc, file.bytes)? {
        Parsed::Program(program) => report_program(alloc, file, spelled, &program),
        Parsed::Refused(complaint) => {
            Ok(refused(refusal_line(alloc, file.name, file.bytes, complaint)?))
        }
    }
}

/// Reads a file and one with an order of its assignments, and reports whether the order is legal.
pub fn report_legal<F: Files>(
    alloc: Global,
    files: &mut F,
    name: &[u8],
    order: &[u8],
) -> Result<Report, AllocError>
    ensures report { IfOk result (λ r. LegalReports (F.contents files.old) (AreReads (F.transcript files.old) (F.transcript files.new)) name.now order.now (written r)) }
    ensures same { F.contents files.new ≡ F.contents files.old }
    ensures same_writes { F.write_faults files.new ≡ F.write_faults files.old }
{
    let bytes = match read_source(alloc, files, name)? {
        Source::Bytes(bytes) => bytes,
        Source::Unread => return Ok(unread(read_fault_line(alloc, name)?)),
        Source::TooLong => return Ok(refused(too_long_line(alloc, name)?)),
    };
    let spelled = match read_source(alloc, files, order)? {
        Source::Bytes(bytes) => bytes,
        Source::Unread => return Ok(unread(read_fault_line(alloc, order)?)),
        Source::TooLong => return Ok(refused(order_too_long_line(alloc)?)),
    };
    let file = Named {
        name,
        bytes: bytes.as_slice(),
    };
    report_texts(alloc, &file, spelled.as_slice())
}
