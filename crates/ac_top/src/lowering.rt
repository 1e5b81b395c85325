// The programs of a pair lowered to integer points, and what is said where one is not.
ghost use Rattle.std.specs.Prelude.{◌≡◌, length, IfOk};
ghost use Rattle.ac_syntax.specs.ReadyPrograms.{ReadyProgram, FitParts};
ghost use Rattle.ac_top.specs.ProgramAnswers.{ArePaired};
ghost use Rattle.ac_top.specs.RunStages.{told, IsLowering, IsLoweringOf, IsReadPair};
ghost use Rattle.ac_top.specs.ConsoleLines as text;

use crate::refusals::{Complaint, about, refusal_line};
use crate::runs::Named;
use ac_poly::lower;
use ac_poly::types::{LowerFault, Model};
use ac_syntax::tree::{Cond, Pair, Program};
use std::alloc::{AllocError, Global};

/// The model of a program, or what is wrong with it.
#[derive(Drop)]
pub enum OneLowered {
    Model(Model),
    Refused(Complaint),
}

/// The models of both programs of a pair, or the line that says which has none.
#[derive(Drop)]
pub enum Lowered {
    Models { left: Model, right: Model },
    Refused(Vec<u8>),
}

/// What a fault says of a program that is not lowered. Want of memory says nothing of it.
fn lower_complaint_of(fault: LowerFault) -> Result<Complaint, AllocError>
    ensures { told result ≡ text.lower_complaint fault }
{
    match fault {
        LowerFault::Pieces(place) => Ok(about(place, b"limit pieces")),
        LowerFault::Wide(place) => Ok(about(place, b"wide")),
        LowerFault::Memory(error) => Err(error),
    }
}

/// The model of a program under a context, or what is wrong with it.
pub fn lowered_program(
    alloc: Global,
    program: &Program,
    context: &Cond,
) -> Result<OneLowered, AllocError>
    requires program { ReadyProgram program.now }
    requires context { FitParts (length program.now.params) 0 context.now.parts }
    ensures { IfOk result (IsLowering program.now context.now) }
{
    match lower(alloc, program, context) {
        Ok(model) => Ok(OneLowered::Model(model)),
        Err(fault) => Ok(OneLowered::Refused(lower_complaint_of(fault)?)),
    }
}

/// The models of the programs of the pair of two files under its context, or the line that says which has none, of the first such one.
pub fn lowered_pair(
    alloc: Global,
    left: &Named<'_>,
    right: &Named<'_>,
    pair: &Pair,
) -> Result<Lowered, AllocError>
    requires are { ArePaired left.now.bytes.now right.now.bytes.now pair.now }
    requires pair { IsReadPair pair.now }
    ensures { IfOk result (IsLoweringOf left.now.name.now right.now.name.now left.now.bytes.now right.now.bytes.now pair.now) }
{
    let first = match lowered_program(alloc, &pair.left, &pair.context)? {
        OneLowered::Model(model) => model,
        OneLowered::Refused(complaint) => {
            return Ok(Lowered::Refused(refusal_line(alloc, left.name, left.bytes, complaint)?));
        }
    };
    let second = match lowered_program(alloc, &pair.right, &pair.context)? {
        OneLowered::Model(model) => model,
        OneLowered::Refused(complaint) => {
            return Ok(Lowered::Refused(refusal_line(alloc, right.name, right.bytes, complaint)?));
        }
    };
    Ok(Lowered::Models {
        left: first,
        right: second,
    })
}
