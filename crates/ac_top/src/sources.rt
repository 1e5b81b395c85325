ghost use Rattle.std.specs.Prelude.{IfOk};
ghost use Rattle.ac_top.specs.RunStages.{IsPairing, IsPairingOf, IsParsed};

use crate::refusals::{Complaint, complaint_of, refusal_line};
use crate::runs::Named;
use crate::texts::{no_output_line, signature_line};
use ac_parse::{PairFault, pair, parse};
use ac_syntax::tree::{Pair, Program};
use std::alloc::{AllocError, Global};

/// The program of a text, or what is wrong with it.
#[derive(Drop)]
pub enum Parsed {
    Program(Program),
    Refused(Complaint),
}

/// A pair, or the line that says why there is none.
#[derive(Drop)]
pub enum Paired {
    Together(Pair),
    Refused(Vec<u8>),
}

/// The program of a text, or what is wrong with it.
pub fn program_of(alloc: Global, bytes: &[u8]) -> Result<Parsed, AllocError>
    ensures { IfOk result (IsParsed bytes.now) }
{
    match parse(alloc, bytes) {
        Ok(program) => Ok(Parsed::Program(program)),
        Err(fault) => Ok(Parsed::Refused(complaint_of(fault)?)),
    }
}

/// The pair of two programs, or the line that says why they are none.
fn pair_programs(alloc: Global, left: Program, right: Program) -> Result<Paired, AllocError>
    ensures { IfOk result (IsPairing left right) }
{
    match pair(alloc, left, right) {
        Ok(pair) => Ok(Paired::Together(pair)),
        Err(PairFault::Signature(number)) => Ok(Paired::Refused(signature_line(alloc, number)?)),
        Err(PairFault::NoOutput) => Ok(Paired::Refused(no_output_line(alloc)?)),
        Err(PairFault::Memory(error)) => Err(error),
    }
}

/// The pair of two files, or the line that says why there is none: what is wrong with the first, else with the second, else with
/// both.
pub fn pair_sources(
    alloc: Global,
    left: &Named<'_>,
    right: &Named<'_>,
) -> Result<Paired, AllocError>
    ensures { IfOk result (IsPairingOf left.now.name.now right.now.name.now left.now.bytes.now right.now.bytes.now) }
{
    let first = match program_of(alloc, left.bytes)? {
        Parsed::Program(program) => program,
        Parsed::Refused(complaint) => {
            return Ok(Paired::Refused(refusal_line(alloc, left.name, left.bytes, complaint)?));
        }
    };
    let second = match program_of(alloc, right.bytes)? {
        Parsed::Program(program) => program,
        Parsed::Refused(complaint) => {
            return Ok(Paired::Refused(refusal_line(alloc, right.name, right.bytes, complaint)?));
        }
    };
    pair_programs(alloc, first, second)
}
