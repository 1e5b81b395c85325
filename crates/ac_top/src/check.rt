// The work of `check`: a proof file is fed to a checker, part by part, and what is reported of it.
ghost use Rattle.std.specs.Prelude.{◌≡◌, ◌++◌, [], ℕ, List, IfOk};
ghost use Rattle.ac_claims_paths.specs.PathSteps.{Pairing};
ghost use Rattle.ac_claims.specs.Soundness.{AreModels, pairing_of};
ghost use Rattle.ac_claims.specs.Soundness as judge;
ghost use Rattle.ac_prooftext.specs.CheckProgress.{IsFed as Took, IsReady};
ghost use Rattle.ac_top.specs.ProgramAnswers.{ProofReports, CheckReports};
ghost use Rattle.ac_top.specs.Reads.{AreReads};
ghost use Rattle.ac_top.specs.Reports.{report as a_report};
ghost use Rattle.ac_top.specs.RunStages.{written, IsPiece, IsPartRead, IsFeeding};

use crate::proof_lines::{accepted_lines, rejected_line, rejected_too_long_line};
use crate::report::{Report, unread};
use crate::status::Status;
use crate::texts::read_fault_line;
use ac_poly::types::Model;
use ac_port::Files;
use ac_prooftext::types::CheckFault;
use ac_prooftext::{Checker, named_outputs_are_the_same};
use ac_syntax::tree::Pair;
use std::alloc::{AllocError, Global};

/// One byte more than a proof file may have.
const MOST: u64 = 67_108_865;

/// The bytes of a part.
const PART: u64 = 65_536;

/// Reads a part of a file, from a place on and of so many bytes at most; none where the read failed.
fn read_part<F: Files>(
    alloc: Global,
    files: &mut F,
    name: &[u8],
    from: u64,
    room: usize,
) -> Result<Option<Vec<u8>>, AllocError>
    ensures part { IfOk result (IsPiece (F.contents files.old) (AreReads (F.transcript files.old) (F.transcript files.new)) name.now from room) }
    ensures same { F.contents files.new ≡ F.contents files.old }
    ensures same_writes { F.write_faults files.new ≡ F.write_faults files.old }
{
    let mut part = vec![in alloc; 0u8; room]?;
    let Ok(count) = files.part(name, from, &mut part) else {
        return Ok(None);
    };
    part.truncate(count);
    Ok(Some(part))
}

/// Reads a part of a file, from a place on and of so many bytes at most, and feeds it to a checker; gives the number of its
/// bytes, or none where the read failed.
fn feed_part<F: Files>(
    alloc: Global,
    files: &mut F,
    name: &[u8],
    from: u64,
    room: usize,
    checker: &mut Checker<'_>,
) -> Result<Option<usize>, AllocError>
    requires { IsReady checker.old }
    ensures part { IfOk result (IsPartRead (F.contents files.old) (AreReads (F.transcript files.old) (F.transcript files.new)) name.now from room checker.old checker.new) }
    ensures same { F.contents files.new ≡ F.contents files.old }
    ensures same_writes { F.write_faults files.new ≡ F.write_faults files.old }
    ensures ready { IsReady checker.new }
{
    let Some(piece) = read_part(alloc, files, name, from, room)? else {
        return Ok(None);
    };
    checker.feed(piece.as_slice())?;
    Ok(Some(piece.len()))
}

/// Feeds a file to a checker, part by part, up to one byte more than a proof file may have; false where a read failed.
fn feed_file<F: Files>(
    alloc: Global,
    files: &mut F,
    name: &[u8],
    checker: &mut Checker<'_>,
) -> Result<bool, AllocError>
    requires { IsReady checker.old }
    ensures fed { IfOk result (λ read. (g : Pairing) (outputs : List ℕ) → Took g outputs [] checker.old → IsFeeding (F.contents files.old) (AreReads (F.transcript files.old) (F.transcript files.new)) name.now g outputs checker.new read) }
    ensures same { F.contents files.new ≡ F.contents files.old }
    ensures same_writes { F.write_faults files.new ≡ F.write_faults files.old }
{
    let mut at = 0;
    while at < MOST {
        let room = PART.min(MOST - at) as usize;
        match feed_part(alloc, files, name, at, room, checker)? {
            None => return Ok(false),
            Some(0) => return Ok(true),
            Some(count) => at += count as u64,
        }
    }
    Ok(true)
}

/// The report of a proof that is rejected.
fn rejected(text: Vec<u8>) -> Report
    ensures { written result ≡ a_report Status.Different text.items }
{
    Report {
        status: Status::Different,
        text,
        proof: None,
    }
}

/// What is reported of a proof that was fed whole to a checker of the pair.
fn report_checked(
    alloc: Global,
    pair: &Pair,
    left: &Model,
    right: &Model,
    checker: Checker<'_>,
) -> Result<Report, AllocError>
    requires paired { judge.ArePaired pair.now }
    requires models { AreModels pair.now left.now right.now }
    ensures { IfOk result (λ r. (stream : List ℕ) → Took (pairing_of pair.now left.now right.now) pair.now.outputs stream checker.entry → ProofReports pair.now stream (written r)) }
{
    named_outputs_are_the_same(alloc);
    match checker.finish() {
        Ok(outputs) => Ok(Report {
            status: Status::Done,
            text: accepted_lines(alloc, pair.left.arrays.as_slice(), &outputs)?,
            proof: None,
        }),
        Err(CheckFault::TooLong) => Ok(rejected(rejected_too_long_line(alloc)?)),
        Err(CheckFault::TooDeep) => Ok(rejected(rejected_too_long_line(alloc)?)),
        Err(CheckFault::Refused { line, rule }) => {
            Ok(rejected(rejected_line(alloc, line, rule)?))
        }
        Err(CheckFault::Memory(error)) => Err(error),
    }
}

/// What `check` reports of a pair, its models and a named proof file.
pub fn report_check<F: Files>(
    alloc: Global,
    files: &mut F,
    pair: &Pair,
    left: &Model,
    right: &Model,
    name: &[u8],
) -> Result<Report, AllocError>
    requires paired { judge.ArePaired pair.now }
    requires models { AreModels pair.now left.now right.now }
    ensures report { IfOk result (λ r. CheckReports (F.contents files.old) (AreReads (F.transcript files.old) (F.transcript files.new)) name.now pair.now (written r)) }
    ensures same { F.contents files.new ≡ F.contents files.old }
    ensures same_writes { F.write_faults files.new ≡ F.write_faults files.old }
{
    let mut checker = Checker::new(alloc, pair, left, right);
    if !feed_file(alloc, files, name, &mut checker)? {
        return Ok(unread(read_fault_line(alloc, name)?));
    }
    report_checked(alloc, pair, left, right, checker)
}
