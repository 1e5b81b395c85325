//! In how many ways a condition fails.
ghost use Rattle.std.specs.Prelude.{◌≡◌, length, IfOk};
ghost use Rattle.ac_poly.specs.LoweringSteps.{ways_by, ways, pieces_by};

use ac_poly_quotients::Scope;
use ac_syntax::tree::{Comparison, Cond, Rel};
use std::alloc::AllocError;

/// In how many ways a comparison fails.
fn ways_by(rel: Rel) -> usize
    ensures { result ≡ ways_by rel }
{
    match rel {
        Rel::NonNegative | Rel::Divides(_) => 1,
        Rel::Zero => 2,
    }
}

/// In how many ways a condition fails.
#[tactic(auto, using(crate::proofs::Failing::count_steps))]
fn count_ways(parts: &[Comparison]) -> Result<usize, AllocError>
    ensures { IfOk result (λ count. count ≡ ways parts.now) }
{
    let mut count = 0usize;
    for part in parts {
        count = count.checked_add(ways_by(part.rel)).ok_or(AllocError)?;
    }
    Ok(count)
}

/// How many pieces that many pieces become where a condition fails; above 16 their number stays.
pub(crate) fn pieces_by(pieces: usize, cond: &Cond) -> Result<usize, AllocError>
    ensures { IfOk result (λ count. count ≡ pieces_by pieces (ways cond.now.parts)) }
{
    if pieces > 16 {
        return Ok(pieces);
    }
    let count = count_ways(cond.parts.as_slice())?;
    pieces.checked_mul(count).ok_or(AllocError)
}

/// How many pieces there are where a condition fails; above 16 pieces around it, their number.
pub(crate) fn other_pieces(scope: &Scope, cond: &Cond) -> Result<usize, AllocError>
    ensures { IfOk result (λ count. count ≡ pieces_by (length scope.now.pieces) (ways cond.now.parts)) }
{
    pieces_by(scope.pieces.len(), cond)
}
