ghost use Rattle.std.specs.Prelude.{◌≡◌, IfOk};
ghost use Rattle.ac_syntax.specs.ExecutedCalls.{HaveArities};
ghost use Rattle.ac_top.specs.ProgramAnswers.{ArePaired, SourceReports, PairReports};
ghost use Rattle.ac_top.specs.Reads.{AreReads};
ghost use Rattle.ac_top.specs.Reports.{report as a_report};
ghost use Rattle.ac_top.specs.RunStages.{IsReadPair, IsSource, IsWithin, TaskReports, models_of, written};

use crate::check::report_check;
use crate::lowering::{Lowered, lowered_pair};
use crate::prove::report_prove;
use crate::runs::{Named, Task, report_instance};
use crate::sources::{Paired, pair_sources};
use crate::status::Status;
use crate::texts::{read_fault_line, too_long_line};
use ac_poly::types::Model;
use ac_port::{Files, ReadStop};
use ac_syntax::tree::Pair;
use std::alloc::{AllocError, Global};

/// The longest source file, in bytes.
const MAX_SOURCE: u64 = 65536;

/// A file to be written: its name, and the bytes that it is to hold.
#[derive(Drop)]
pub struct ProofFile {
    pub name: Vec<u8>,
    pub bytes: Vec<u8>,
}

/// How a run ends, the text that it puts, and the file for a proof, if there is one.
#[derive(Drop)]
pub struct Report {
    pub status: Status,
    pub text: Vec<u8>,
    pub proof: Option<ProofFile>,
}

/// What the read of a source file gave.
#[derive(Drop)]
pub enum Source {
    Bytes(Vec<u8>),
    Unread,
    TooLong,
}

/// The report of a refusal.
pub fn refused(text: Vec<u8>) -> Report
    ensures { written result ≡ a_report Status.Refused text.items }
{
    Report {
        status: Status::Refused,
        text,
        proof: None,
    }
}

/// The report of a read that failed.
pub fn unread(text: Vec<u8>) -> Report
    ensures { written result ≡ a_report Status.ReadFault text.items }
{
    Report {
        status: Status::ReadFault,
        text,
        proof: None,
    }
}

/// Reads a source file.
pub fn read_source<F: Files>(
    alloc: Global,
    files: &mut F,
    name: &[u8],
) -> Result<Source, AllocError>
    ensures source { IfOk result (IsSource (F.contents files.old) (AreReads (F.transcript files.old) (F.transcript files.new)) name.now) }
    ensures same { F.contents files.new ≡ F.contents files.old }
    ensures same_writes { F.write_faults files.new ≡ F.write_faults files.old }
{
    match files.read(alloc, name, MAX_SOURCE) {
        Ok(bytes) => Ok(Source::Bytes(bytes)),
        Err(ReadStop::Failed) => Ok(Source::Unread),
        Err(ReadStop::TooBig) => Ok(Source::TooLong),
        Err(ReadStop::Memory(error)) => Err(error),
    }
}

/// What a task reports of a pair of two files and its models.
fn report_task<F: Files>(
    alloc: Global,
    files: &mut F,
    left: &Named<'_>,
    right: &Named<'_>,
    pair: &Pair,
    models: &[Model; 2],
    task: &Task<'_>,
) -> Result<Report, AllocError>
    requires pair { IsReadPair pair.now }
    requires models { models.now ≡ models_of pair.now }
    requires arities { HaveArities pair.now.left.body × HaveArities pair.now.right.body }
    requires within { IsWithin task.now }
    ensures report { IfOk result (λ r. TaskReports task.now (F.contents files.old) (AreReads (F.transcript files.old) (F.transcript files.new)) left.now.name.now right.now.name.now left.now.bytes.now right.now.bytes.now pair.now (written r)) }
    ensures same { F.contents files.new ≡ F.contents files.old }
    ensures same_writes { F.write_faults files.new ≡ F.write_faults files.old }
{
    match task {
        Task::Prove { budget, proof } => report_prove(alloc, pair, models, *budget, *proof),
        Task::Check { proof } => report_check(alloc, files, pair, &models[0], &models[1], proof),
        Task::Instance { at, limit } => report_instance(alloc, left, right, pair, *at, *limit),
    }
}

/// What a task reports of the pair of two files, where both programs are lowered.
fn report_lowered<F: Files>(
    alloc: Global,
    files: &mut F,
    left: &Named<'_>,
    right: &Named<'_>,
    pair: &Pair,
    task: &Task<'_>,
) -> Result<Report, AllocError>
    requires are { ArePaired left.now.bytes.now right.now.bytes.now pair.now }
    requires pair { IsReadPair pair.now }
    requires within { IsWithin task.now }
    ensures report { IfOk result (λ r. SourceReports left.now.name.now right.now.name.now left.now.bytes.now right.now.bytes.now (AreReads (F.transcript files.old) (F.transcript files.new)) (TaskReports task.now (F.contents files.old) (AreReads (F.transcript files.old) (F.transcript files.new)) left.now.name.now right.now.name.now left.now.bytes.now right.now.bytes.now) (written r)) }
    ensures same { F.contents files.new ≡ F.contents files.old }
    ensures same_writes { F.write_faults files.new ≡ F.write_faults files.old }
{
    match lowered_pair(alloc, left, right, pair)? {
        Lowered::Refused(line) => Ok(refused(line)),
        Lowered::Models {
            left: first,
            right: second,
        } => report_task(alloc, files, left, right, pair, &[first, second], task),
    }
}

/// What a task reports of two files.
fn report_sources<F: Files>(
    alloc: Global,
    files: &mut F,
    left: &Named<'_>,
    right: &Named<'_>,
    task: &Task<'_>,
) -> Result<Report, AllocError>
    requires within { IsWithin task.now }
    ensures report { IfOk result (λ r. SourceReports left.now.name.now right.now.name.now left.now.bytes.now right.now.bytes.now (AreReads (F.transcript files.old) (F.transcript files.new)) (TaskReports task.now (F.contents files.old) (AreReads (F.transcript files.old) (F.transcript files.new)) left.now.name.now right.now.name.now left.now.bytes.now right.now.bytes.now) (written r)) }
    ensures same { F.contents files.new ≡ F.contents files.old }
    ensures same_writes { F.write_faults files.new ≡ F.write_faults files.old }
{
    match pair_sources(alloc, left, right)? {
        Paired::Together(pair) => report_lowered(alloc, files, left, right, &pair, task),
        Paired::Refused(text) => Ok(refused(text)),
    }
}

/// Reads two files and reports on them.
pub fn report_files<F: Files>(
    alloc: Global,
    files: &mut F,
    a: &[u8],
    b: &[u8],
    task: &Task<'_>,
) -> Result<Report, AllocError>
    requires within { IsWithin task.now }
    ensures report { IfOk result (λ r. PairReports (F.contents files.old) (AreReads (F.transcript files.old) (F.transcript files.new)) a.now b.now (λ first second more. TaskReports task.now (F.contents files.old) more a.now b.now first second) (written r)) }
    ensures same { F.contents files.new ≡ F.contents files.old }
    ensures same_writes { F.write_faults files.new ≡ F.write_faults files.old }
{
    let first = match read_source(alloc, files, a)? {
        Source::Bytes(bytes) => bytes,
        Source::Unread => return Ok(unread(read_fault_line(alloc, a)?)),
        Source::TooLong => return Ok(refused(too_long_line(alloc, a)?)),
    };
    let second = match read_source(alloc, files, b)? {
        Source::Bytes(bytes) => bytes,
        Source::Unread => return Ok(unread(read_fault_line(alloc, b)?)),
        Source::TooLong => return Ok(refused(too_long_line(alloc, b)?)),
    };
    let left = Named {
        name: a,
        bytes: first.as_slice(),
    };
    let right = Named {
        name: b,
        bytes: second.as_slice(),
    };
    report_sources(alloc, files, &left, &right, task)
}
