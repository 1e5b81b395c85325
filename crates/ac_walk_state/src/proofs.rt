//! Proofs, part by part.
ghost use Rattle.std.specs.Prelude.{◌≡◌, ◌++◌, true, IfOk, ℕ, List};
ghost use Rattle.ac_claims_paths.specs.PathSteps.{Pairing};
ghost use Rattle.ac_claims.specs.ProofFaults.{is_point};
ghost use Rattle.ac_walk_state.specs.PartExtension.{NamesWithPart, StaysAccepted, StopsWithPart};
ghost use Rattle.ac_walk_state.specs.Heads.{AreHeadsOf};
ghost use Rattle.ac_walk_state.specs.ProofParts.{IsAccepted, IsEmpty, IsLonger};

use crate::growing::with_trees;
use crate::types::Part;
use ac_base::Items;
use ac_claims::types::{Claim, Heads, Proof};
use std::alloc::{AllocError, Global};

/// A proof that names no output. A judge accepts it where the point is a valuation of the context, and the shapes are those of the
/// programs.
pub fn empty_proof(alloc: Global, point: Vec<i128>, heads: Option<Heads>) -> Proof
    ensures empty { IsEmpty point.items heads result }
    ensures accepted { (g : Pairing) (outputs : List ℕ) → is_point g.left point.items ≡ true → AreHeadsOf g heads → IsAccepted g outputs result }
{
    Proof {
        point: Items::from(point),
        heads,
        claims: Items::new(alloc),
        outputs: Items::new(alloc),
        trees: Vec::new(alloc),
    }
}

/// Claims with further ones behind them.
fn with_claims(claims: Items<Claim>, more: Vec<Claim>) -> Result<Items<Claim>, AllocError>
    ensures { IfOk result (λ all. all ≡ claims ++ more.items) }
{
    let mut all = claims;
    for claim in more {
        all.push(claim)?;
    }
    Ok(all)
}

/// A proof with the part of one more output behind it. Where a judge accepts the proof, and each plan of the part's claims behind those
/// of the proof, it accepts the longer proof; and where the part stops at the recurrence pairs, the longer proof does with the part's
/// claims, and names the output by one of them.
pub fn with_part(proof: Proof, part: Part, array: usize) -> Result<Proof, AllocError>
    ensures longer { IfOk result (IsLonger proof part array) }
    ensures accepted { IfOk result (StaysAccepted proof part array) }
    ensures stops { IfOk result (StopsWithPart proof part array) }
    ensures named { IfOk result (NamesWithPart proof part array) }
{
    let number = proof.claims.len();
    let mut outputs = proof.outputs;
    outputs.push((array, number))?;
    Ok(Proof {
        point: proof.point,
        heads: proof.heads,
        claims: with_claims(proof.claims, part.claims)?,
        outputs,
        trees: with_trees(proof.trees, part.trees)?,
    })
}
