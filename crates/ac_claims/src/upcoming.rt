//! Which plan comes next: the plans of a proof stand in the order of the claims, and for each claim in that of the pieces of
//! its left and then of its right position.
ghost use Rattle.std.specs.Prelude.{◌≡◌, ℕ, ◌+◌, ◌<◌, ◌≤◌, IfOk, drop, length, slice_get};
ghost use Rattle.ac_claims_paths.specs.ModelCalls.{pairing};
ghost use Rattle.ac_claims.specs.ProofFaults.{domain, due_from};
ghost use Rattle.ac_claims.specs.RemainingPlans.{remaining, count_by, next_in, AtClaim, Settled};

use crate::domains::size_at;
use crate::types::Claim;
use ac_claims_paths::path::Programs;
use ac_poly::types::Model;
use ac_syntax::tree::Position;
use std::alloc::{AllocError, Global};

/// The next plan: its claim, and the numbers of a piece of each of its positions.
#[derive(Clone, Copy, PartialEq, Eq)]
pub struct Upcoming {
    pub claim: usize,
    pub left_piece: usize,
    pub right_piece: usize,
}

/// How many pieces the model has for a position; 0 where it has no such position.
fn piece_count(alloc: Global, model: &Model, position: &Position) -> Result<usize, AllocError>
    ensures { IfOk result (λ count. count ≡ count_by (domain model.now position.now)) }
{
    match size_at(alloc, model, position)? {
        Some(size) => Ok(size.pieces),
        None => Ok(0),
    }
}

/// The next plan of the same claim, of which there are so many left and right pieces.
fn next_in(left: usize, right: usize, next: Upcoming) -> Option<Upcoming>
    ensures { result ≡ next_in left right next }
{
    if next.left_piece >= left || right == 0 {
        return None;
    }
    if next.right_piece < right {
        return Some(next);
    }
    if next.left_piece + 1 < left {
        return Some(Upcoming {
            claim: next.claim,
            left_piece: next.left_piece + 1,
            right_piece: 0,
        });
    }
    None
}

/// The next plan, if it is one of the same claim.
fn at_claim(
    alloc: Global,
    programs: &Programs,
    claims: &[Claim],
    next: Upcoming,
) -> Result<Option<Upcoming>, AllocError>
    requires { next.claim < length claims.now }
    ensures { IfOk result (AtClaim (pairing programs.now) claims.now next) }
{
    let claim = &claims[next.claim];
    let left = piece_count(alloc, programs.left, &claim.left)?;
    let right = piece_count(alloc, programs.right, &claim.right)?;
    Ok(next_in(left, right, next))
}

/// The first plan of the claims from one on.
#[tactic(auto, using(crate::proofs::UpcomingSteps::first_steps))]
fn first_from(
    alloc: Global,
    programs: &Programs,
    claims: &[Claim],
    from: usize,
) -> Result<Upcoming, AllocError>
    requires { from ≤ length claims.now }
    ensures { IfOk result (Settled (pairing programs.now) claims.now (due_from (pairing programs.now) from (drop from claims.now))) }
{
    for i in from..claims.len() {
        let first = Upcoming {
            claim: i,
            left_piece: 0,
            right_piece: 0,
        };
        if let Some(found) = at_claim(alloc, programs, claims, first)? {
            return Ok(found);
        }
    }
    Ok(Upcoming {
        claim: claims.len(),
        left_piece: 0,
        right_piece: 0,
    })
}

/// The next plan whose pieces are there.
#[tactic(auto, using(crate::proofs::UpcomingSteps::settle_steps))]
pub(crate) fn settled(
    alloc: Global,
    programs: &Programs,
    claims: &[Claim],
    next: Upcoming,
) -> Result<Upcoming, AllocError>
    ensures { IfOk result (Settled (pairing programs.now) claims.now (remaining (pairing programs.now) claims.now next)) }
{
    if next.claim >= claims.len() {
        return Ok(next);
    }
    match at_claim(alloc, programs, claims, next)? {
        Some(found) => Ok(found),
        None => first_from(alloc, programs, claims, next.claim + 1),
    }
}
