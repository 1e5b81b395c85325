//! The first assignment inside a scope that can't be lowered.
ghost use Rattle.ac_poly.specs.LoweringSteps.{Seeks, SeeksAll};

use crate::types::LowerFault;
use crate::ways::pieces_by;
use ac_syntax::tree::Stmt;
use std::alloc::AllocError;

/// The fault of the first assignment in a statement, where there are so many pieces and either they are more than 16 or a
/// number around the statement leaves `i128`; without an assignment the number after its loops.
#[cycle(seek)]
#[tactic(auto, using(crate::proofs::Seeking::seek_steps))]
pub(crate) fn seek(s: &Stmt, number: usize, pieces: usize) -> Result<usize, LowerFault>
    ensures { Seeks result s.now number pieces }
{
    match s {
        Stmt::For { body, .. } => {
            let next = number.checked_add(1).ok_or(AllocError)?;
            seek_all(body.as_slice(), next, pieces)
        }
        Stmt::If {
            cond,
            taken,
            other,
            ..
        } => {
            let next = seek_all(taken.as_slice(), number, pieces)?;
            let inner = pieces_by(pieces, cond)?;
            seek_all(other.as_slice(), next, inner)
        }
        Stmt::Assign { place, .. } => Err(if pieces > 16 {
            LowerFault::Pieces(*place)
        } else {
            LowerFault::Wide(*place)
        }),
    }
}

/// The same in statements one after another.
#[cycle(seek)]
#[tactic(auto, using(crate::proofs::Seeking::sought_steps))]
pub(crate) fn seek_all(ss: &[Stmt], number: usize, pieces: usize) -> Result<usize, LowerFault>
    ensures { SeeksAll result ss.now number pieces }
{
    let mut next = number;
    for s in ss {
        next = seek(s, next, pieces)?;
    }
    Ok(next)
}
