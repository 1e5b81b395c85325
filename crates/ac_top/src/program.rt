ghost use Rattle.std.specs.Prelude.{◌≡◌, None, map, IfOk};
ghost use Rattle.std.specs.List.{AllByRecursion};
ghost use Rattle.std.specs.Str.{IsUtf8};
ghost use Rattle.ac_port.specs.CallCounts.{Rose};
ghost use Rattle.ac_cli_args.specs.Commands.{spelled, asked_by};
ghost use Rattle.ac_cli_args.specs.UniqueCommands.{IsInRange};
ghost use Rattle.ac_top.specs.ProgramAnswers.{Reports, CommandReports, Puts, Delivers, Ends, DoneMeansTheSame, DifferentMeansDifferent, KeepsFiles, AskForAProof};
ghost use Rattle.ac_top.specs.Reads.{AreReads};
ghost use Rattle.ac_top.specs.Reports.{report as a_report};
ghost use Rattle.ac_top.specs.RunStages.{written};
ghost use Rattle.ac_top.specs.ConsoleLines as text;

use crate::aprove::report_aprove;
use crate::flows::report_flow;
use crate::generated::report_generated;
use crate::legality::report_legal;
use crate::report::{Report, report_files};
use crate::runs::Task;
use crate::status::Status;
use crate::texts::{usage_line, write_fault_line};
use ac_cli_args::{Command, command_of, texts_of};
use ac_port::{Files, Sink, SinkStop, WriteStop};
use std::alloc::{AllocError, Global};

/// The report of a faulty command line.
fn usage(alloc: Global) -> Result<Report, AllocError>
    ensures { IfOk result (λ r. written r ≡ a_report Status.Usage text.usage_line) }
{
    Ok(Report {
        status: Status::Usage,
        text: usage_line(alloc)?,
        proof: None,
    })
}

/// What is reported of a command.
fn report_command<F: Files>(
    alloc: Global,
    command: &Command<'_>,
    files: &mut F,
) -> Result<Report, AllocError>
    requires { IsInRange (asked_by command.now) }
    ensures report { IfOk result (λ r. CommandReports (F.contents files.old) (AreReads (F.transcript files.old) (F.transcript files.new)) (asked_by command.now) (written r)) }
    ensures same { F.contents files.new ≡ F.contents files.old }
    ensures same_writes { F.write_faults files.new ≡ F.write_faults files.old }
{
    match *command {
        Command::Prove {
            left,
            right,
            budget,
            proof,
        } => report_files(alloc, files, left, right, &Task::Prove { budget, proof }),
        Command::Instance {
            left,
            right,
            at,
            limit,
        } => report_files(alloc, files, left, right, &Task::Instance { at, limit }),
        Command::Check { left, right, proof } => {
            report_files(alloc, files, left, right, &Task::Check { proof })
        }
        Command::Flow { file } => report_flow(alloc, files, file),
        Command::Gen { seed, size } => report_generated(alloc, seed, size),
        Command::Legal { file, order } => report_legal(alloc, files, file, order),
        Command::Aprove {
            left,
            right,
            symbols,
        } => report_aprove(alloc, files, left, right, symbols),
    }
}

/// What is reported of words in UTF-8.
fn report_texts<F: Files>(
    alloc: Global,
    texts: &[&str],
    files: &mut F,
) -> Result<Report, AllocError>
    requires { AllByRecursion IsUtf8 (map (λ s. s.now) texts.now) }
    ensures report { IfOk result (λ r. Reports (map (λ s. s.now) texts.now) (F.contents files.old) (AreReads (F.transcript files.old) (F.transcript files.new)) (written r)) }
    ensures same { F.contents files.new ≡ F.contents files.old }
    ensures same_writes { F.write_faults files.new ≡ F.write_faults files.old }
{
    let found = command_of(alloc, texts)?;
    match found {
        Some(command) => report_command(alloc, &command, files),
        None => usage(alloc),
    }
}

/// What is reported of the words.
fn report<F: Files>(alloc: Global, words: &[Vec<u8>], files: &mut F) -> Result<Report, AllocError>
    ensures report { IfOk result (λ r. Reports (spelled words.now) (F.contents files.old) (AreReads (F.transcript files.old) (F.transcript files.new)) (written r)) }
    ensures same { F.contents files.new ≡ F.contents files.old }
    ensures same_writes { F.write_faults files.new ≡ F.write_faults files.old }
{
    let found = texts_of(alloc, words)?;
    match found {
        Some(texts) => report_texts(alloc, texts.as_slice(), files),
        None => usage(alloc),
    }
}

/// Puts a report.
fn put<S: Sink>(out: &mut S, report: &Report) -> Status
    ensures { Puts (written report.now) (Rose (S.faults out.old) (S.faults out.new)) (S.sent out.old) (S.sent out.new) result }
{
    match out.put(&report.text) {
        Ok(()) => report.status,
        Err(SinkStop::Failed) => Status::WriteFault,
        Err(SinkStop::Memory(_)) => Status::Memory,
    }
}

/// Puts the line of a file that could not be written.
fn put_write_fault<S: Sink>(alloc: Global, out: &mut S, name: &[u8]) -> Status
    ensures { Puts (a_report Status.WriteFault (text.write_fault_line name.now)) (Rose (S.faults out.old) (S.faults out.new)) (S.sent out.old) (S.sent out.new) result }
{
    match write_fault_line(alloc, name) {
        Ok(text) => {
            let report = Report {
                status: Status::WriteFault,
                text,
                proof: None,
            };
            put(out, &report)
        }
        Err(_) => Status::Memory,
    }
}

/// Writes the file of a report, if it has one, and then puts its text.
fn deliver<F: Files, S: Sink>(alloc: Global, files: &mut F, out: &mut S, report: &Report) -> Status
    ensures delivers { Delivers (written report.now) (Rose (F.write_faults files.old) (F.write_faults files.new)) (Rose (S.faults out.old) (S.faults out.new)) (F.contents files.old) (F.contents files.new) (S.sent out.old) (S.sent out.new) result }
    ensures untouched { report.now.proof ≡ None → files.new ≡ files.old }
    ensures same_reads { F.transcript files.new ≡ F.transcript files.old }
{
    match &report.proof {
        None => put(out, report),
        Some(file) => match files.write(file.name.as_slice(), file.bytes.as_slice()) {
            Ok(()) => put(out, report),
            Err(WriteStop::Failed) => put_write_fault(alloc, out, file.name.as_slice()),
            Err(WriteStop::Memory(_)) => Status::Memory,
        },
    }
}

/// Does what the words ask for: reads the files that they name, compares their programs, and puts the report in one put.
///
/// The words are those after the program's name. `prove A B [--budget n] [--proof P]` compares two source files, of at most 65,536 bytes each,
/// at all valuations of their context; where some output is equal it first writes the file P, which proves those that are.
/// `check A B P` tests the proof file P against both, read in parts of 65,536 bytes, of at most 67,108,864 bytes in all and nested at most
/// 10,000 deep; `instance A B [--at N=5,M=3] [--limit n]` runs both at one valuation; `flow A` tells where each read of a file has
/// its value from; `gen SEED SIZE` makes a pair of that many stages from the seed, proves it with the default budget and runs it at N=1000.
/// `legal A S` tells whether the order that the file S, of at most 65,536 bytes, gives the assignments of the file A keeps what conflicts;
/// `aprove A B SYMBOLS` compares both files, with each of 1 to 8 symbols taken as associative and commutative inside one assignment.
/// Options stand in any order that clap allows; any other words, and a request for help, are a faulty command line.
///
/// Each output of the pair has a line of `prove`, `X equal`, `X different ..` or `X unknown ..`, and one of `instance`; of `check` each output
/// that an accepted proof names has a line `X accepted`, and a proof that is not accepted the line that says which of its lines is refused by
/// which rule. `gen` has the line that says which pair it is, the lines of `prove`, and one of the run. `legal` has a line `kept`, or one with two
/// instances between which the order is broken. Where it says `kept`, each list of the trace's entries along which times never fall leaves the
/// same state, in every cell, under every table and from all contents. Each output of `aprove` has a line, which says that it is the same under
/// chains, or not known.
///
/// What is said of files is said of the bytes that their reads handed out in this call, and a report says all of these reads.
/// A read fault of a file is answered only where the read of that file failed, and a write fault only where the files' count of write faults
/// or the sink's count rose in this call.
/// No file changes but P. After want of memory nothing is put.
pub fn run<F: Files, S: Sink>(
    alloc: Global,
    words: &[Vec<u8>],
    files: &mut F,
    out: &mut S,
) -> Status
    // What is answered, what is read, what is written, and what is put.
    ensures answer { Ends (spelled words.now) (F.contents files.old) (F.contents files.new) (AreReads (F.transcript files.old) (F.transcript files.new)) (Rose (F.write_faults files.old) (F.write_faults files.new)) (Rose (S.faults out.old) (S.faults out.new)) (S.sent out.old) (S.sent out.new) result }

    // What is reported equal is equal, of the very texts that the reads handed out.
    ensures headline { DoneMeansTheSame (spelled words.now) (F.contents files.old) (AreReads (F.transcript files.old) (F.transcript files.new)) result }

    // What is reported different is different.
    ensures different { DifferentMeansDifferent (spelled words.now) (F.contents files.old) (AreReads (F.transcript files.old) (F.transcript files.new)) result }

    // No file changes but that of a proof of what is equal, which is then written.
    ensures same { KeepsFiles (spelled words.now) (Rose (F.write_faults files.old) (F.write_faults files.new)) (F.contents files.old) (F.contents files.new) (AreReads (F.transcript files.old) (F.transcript files.new)) }
    ensures same_writes { ¬ (AskForAProof (spelled words.now)) → F.write_faults files.new ≡ F.write_faults files.old }
{
    match report(alloc, words, files) {
        Ok(report) => deliver(alloc, files, out, &report),
        Err(_) => Status::Memory,
    }
}
