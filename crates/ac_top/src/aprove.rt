//! The work of `aprove`: two files are read, and their pair is reported on once its chains have no fault and its programs are lowered.
ghost use Rattle.std.specs.Prelude.{◌≡◌, [], Some, None, IfOk};
ghost use Rattle.std.specs.List.{AllByRecursion};
ghost use Rattle.ac_assoc.specs.ArrangementFaults.{fault_of};
ghost use Rattle.ac_assoc.specs.ProgramChains.{chains_of_pair};
ghost use Rattle.ac_cli_args.specs.SymbolLists.{FitsAName, listed_in};
ghost use Rattle.ac_top.specs.ArrangementLines as lines;
ghost use Rattle.ac_top.specs.ConsoleLines as text;
ghost use Rattle.ac_top.specs.InstanceReports.{of_side};
ghost use Rattle.ac_top.specs.ProgramAnswers.{ArePaired, ChainReports, FileReports};
ghost use Rattle.ac_top.specs.Reads.{AreReads};
ghost use Rattle.ac_top.specs.RunStages.{IsReadPair, said_by, written};

use crate::lowering::{Lowered, lowered_pair};
use crate::refusals::{Complaint, about, refusal_line};
use crate::regrouped::report_regrouped;
use crate::report::{Report, Source, read_source, refused, unread};
use crate::runs::Named;
use crate::sources::{Paired, pair_sources};
use crate::texts::{read_fault_line, too_long_line};
use ac_assoc::chains;
use ac_assoc::types::{AssocFault, Chain};
use ac_cli_args::symbol_names;
use ac_instance::Side;
use ac_port::Files;
use ac_syntax::name::Name;
use ac_syntax::tree::Pair;
use std::alloc::{AllocError, Global};

/// The line that says what is wrong with the text of the file of a side, and where.
fn side_line(
    alloc: Global,
    left: &Named<'_>,
    right: &Named<'_>,
    side: Side,
    complaint: Complaint,
) -> Result<Vec<u8>, AllocError>
    ensures { IfOk result (λ line. line.items ≡ text.refusal_line (of_side side left.now.name.now right.now.name.now) (of_side side left.now.bytes.now right.now.bytes.now) (said_by complaint)) }
{
    match side {
        Side::Left => refusal_line(alloc, left.name, left.bytes, complaint),
        Side::Right => refusal_line(alloc, right.name, right.bytes, complaint),
    }
}

/// The line of a fault of a chain. Want of memory has none.
fn fault_line(
    alloc: Global,
    left: &Named<'_>,
    right: &Named<'_>,
    fault: AssocFault,
) -> Result<Vec<u8>, AllocError>
    ensures { IfOk result (λ line. lines.fault_line left.now.name.now right.now.name.now left.now.bytes.now right.now.bytes.now fault ≡ Some line.items) }
{
    match fault {
        AssocFault::Arity(side, place) => {
            side_line(alloc, left, right, side, about(place, b"misused"))
        }
        AssocFault::Long(side, place) => {
            side_line(alloc, left, right, side, about(place, b"limit chain"))
        }
        AssocFault::Memory(error) => Err(error),
    }
}

/// What is reported of the pair of two files, whose chains have no fault.
fn report_chains(
    alloc: Global,
    left: &Named<'_>,
    right: &Named<'_>,
    pair: &Pair,
    symbols: &[Name],
    chains: &[Chain],
) -> Result<Report, AllocError>
    requires are { ArePaired left.now.bytes.now right.now.bytes.now pair.now }
    requires pair { IsReadPair pair.now }
    requires fault { fault_of symbols.now pair.now ≡ None }
    requires chains { chains.now ≡ chains_of_pair symbols.now pair.now }
    ensures { IfOk result (λ r. ChainReports left.now.name.now right.now.name.now left.now.bytes.now right.now.bytes.now symbols.now (written r)) }
{
    match lowered_pair(alloc, left, right, pair)? {
        Lowered::Refused(line) => Ok(refused(line)),
        Lowered::Models { .. } => report_regrouped(alloc, pair, symbols, chains),
    }
}

/// What is reported of the pair of two files.
fn report_pair(
    alloc: Global,
    left: &Named<'_>,
    right: &Named<'_>,
    pair: &Pair,
    symbols: &[Name],
) -> Result<Report, AllocError>
    requires are { ArePaired left.now.bytes.now right.now.bytes.now pair.now }
    requires pair { IsReadPair pair.now }
    ensures { IfOk result (λ r. ChainReports left.now.name.now right.now.name.now left.now.bytes.now right.now.bytes.now symbols.now (written r)) }
{
    match chains(alloc, pair, symbols) {
        Ok(found) => report_chains(alloc, left, right, pair, symbols, found.as_slice()),
        Err(fault) => Ok(refused(fault_line(alloc, left, right, fault)?)),
    }
}

/// What is reported of two files.
fn report_texts(
    alloc: Global,
    left: &Named<'_>,
    right: &Named<'_>,
    symbols: &[Name],
) -> Result<Report, AllocError>
    ensures { IfOk result (λ r. ChainReports left.now.name.now right.now.name.now left.now.bytes.now right.now.bytes.now symbols.now (written r)) }
{
    match pair_sources(alloc, left, right)? {
        Paired::Together(pair) => report_pair(alloc, left, right, &pair, symbols),
        Paired::Refused(text) => Ok(refused(text)),
    }
}

/// Reads two files and reports on them, where each symbol that a word lists is taken as associative and commutative inside one assignment.
pub fn report_aprove<F: Files>(
    alloc: Global,
    files: &mut F,
    a: &[u8],
    b: &[u8],
    symbols: &[u8],
) -> Result<Report, AllocError>
    requires { AllByRecursion FitsAName (listed_in symbols.now) }
    ensures report { IfOk result (λ r. FileReports (F.contents files.old) (AreReads (F.transcript files.old) (F.transcript files.new)) a.now b.now (λ first second more s. more [] × ChainReports a.now b.now first second (listed_in symbols.now) s) (written r)) }
    ensures same { F.contents files.new ≡ F.contents files.old }
    ensures same_writes { F.write_faults files.new ≡ F.write_faults files.old }
{
    let names = symbol_names(alloc, symbols)?;
    let first = match read_source(alloc, files, a)? {
        Source::Bytes(bytes) => bytes,
        Source::Unread => return Ok(unread(read_fault_line(alloc, a)?)),
        Source::TooLong => return Ok(refused(too_long_line(alloc, a)?)),
    };
    let second = match read_source(alloc, files, b)? {
        Source::Bytes(bytes) => bytes,
        Source::Unread => return Ok(unread(read_fault_line(alloc, b)?)),
        Source::TooLong => return Ok(refused(too_long_line(alloc, b)?)),
    };
    let left = Named {
        name: a,
        bytes: first.as_slice(),
    };
    let right = Named {
        name: b,
        bytes: second.as_slice(),
    };
    report_texts(alloc, &left, &right, names.as_slice())
}
