//! Parts, claim by claim.
ghost use Rattle.std.specs.Prelude.{◌≡◌, [], ◌∷◌, ◌++◌, IfOk};
ghost use Rattle.ac_walk_state.specs.PartExtension.{StaysPlanned, StaysStopping};

use crate::types::Part;
use ac_claims::types::{Claim, ClaimTree};
use std::alloc::{AllocError, Global};

/// A part without claims.
pub fn no_part(alloc: Global) -> Part
    ensures claims { result.claims.items ≡ [] }
    ensures trees { result.trees.items ≡ [] }
{
    Part {
        claims: Vec::new(alloc),
        trees: Vec::new(alloc),
    }
}

/// Plans with further ones behind them.
pub(crate) fn with_trees(
    trees: Vec<ClaimTree>,
    more: Vec<ClaimTree>,
) -> Result<Vec<ClaimTree>, AllocError>
    ensures { IfOk result (λ all. all.items ≡ trees.items ++ more.items) }
{
    let mut all = trees;
    for tree in more {
        all.push(tree)?;
    }
    Ok(all)
}

/// A part with one more claim and its plans, one for each pair of pieces of its positions, in order. Where the claims have their plans,
/// and this one does, all have; where the plans stop, and these do, all stop.
pub fn with_claim(part: Part, claim: Claim, trees: Vec<ClaimTree>) -> Result<Part, AllocError>
    ensures claims { IfOk result (λ longer. longer.claims.items ≡ part.claims.items ++ claim ∷ []) }
    ensures trees { IfOk result (λ longer. longer.trees.items ≡ part.trees.items ++ trees.items) }
    ensures planned { IfOk result (StaysPlanned part claim trees.items) }
    ensures stops { IfOk result (StaysStopping part claim trees.items) }
{
    let Part {
        claims,
        trees: plans,
    } = part;
    let mut claims = claims;
    claims.push(claim)?;
    Ok(Part {
        claims,
        trees: with_trees(plans, trees)?,
    })
}
