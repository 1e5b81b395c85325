//! What a search asks: the economical walk first, and the full one where that stops.
ghost use Rattle.std.specs.Prelude.{◌≡◌, ◌≤◌, ◌*◌, ◌^◌, ◌↔◌, ℕ, ℤ, List, length, IfOk, IfErr};
ghost use Rattle.ac_forms.specs.Rows.{IsWellMade};
ghost use Rattle.ac_cert.specs.AcceptedTrees.{Accepts, absurd_refusals};
ghost use Rattle.ac_omega_steps.specs.IntegerPoints.{IsPoint};
ghost use Rattle.ac_omega.specs.Decisions.{IfEmpty, IfPoint, IfCertified, IfMet, walk_of};
ghost use Rattle.ac_omega.specs.DifferenceRows.{AreDifferences, AreAllDifferences, StopsBelow};
ghost use Rattle.ac_omega.specs.Either.{EliminatesEither, FindsEither, SettlesEither};
ghost use Rattle.ac_omega.specs.ColumnElimination.{pieces_of};
ghost use Rattle.ac_omega.specs.Projection.{HoldsFor, AllEmpty, MeetsRest};
ghost use Rattle.ac_forms.specs.PieceMembership.{IsInSome};
ghost use Rattle.ac_omega.specs.Replays.{AreReached, HaveAllFrom, AreOver};
ghost use Rattle.ac_omega_certify.specs.declared.strategy.Strategy.TheVariants.{Full, Economical};

use crate::decision::{Decided, Decision, decide, decide_by, find_point, find_point_by};
use crate::piece::Piece;
use crate::pieces::{Stop, eliminate, eliminate_by};
use ac_base::Items;
use ac_forms::Conj;
use ac_omega_certify::Strategy;
use std::alloc::Global;

/// Whether a question has an integer point (W. Pugh, The Omega test, 1991): what the economical walk answers within a budget;
/// where that one stops, what the full walk answers within the same.
///
/// The economical walk stops where a number leaves `i128` first, where its cost exceeds the budget first, or where it finds no
/// point and its greatest numbers are too large for a certificate. A stop of this call is the full walk's, with its question
/// and its cost, and comes exactly where both walks stop. Either walk may want memory.
///
/// A question of differences over n columns, at most 60, with numbers of at most 2^48 by absolute value, is always decided
/// within a budget of 2 (n + 1)^3.
pub fn settle(alloc: Global, conj: &Conj, budget: u64) -> Result<Decision, Stop>
    requires { IsWellMade conj.now }
    ensures exact { SettlesEither result conj.now (walk_of Economical budget conj.now) (walk_of Full budget conj.now) }
    ensures point { IfOk result (λ d. IfMet d (λ p. IsPoint conj.now p)) }
    ensures accepted { IfOk result (λ d. IfCertified d (λ tree. Accepts tree absurd_refusals conj.now)) }
    ensures empty { IfOk result (λ d. IfCertified d (λ tree. (p : List ℤ) → IsPoint conj.now p → ⊥)) }
    ensures differences { conj.now.columns ≤ 60 → AreDifferences (2 ^ 48) conj.now.rows → IfErr result (StopsBelow conj.now.columns budget) }
{
    match decide_by(alloc, Strategy::Economical, conj, budget) {
        Ok(decision) => Ok(decision),
        Err(Stop::Memory(want)) => Err(Stop::Memory(want)),
        Err(_) => decide(alloc, conj, budget),
    }
}

/// The same as `settle` without a certificate: a point, or that there is none, with the greatest numbers that the walk meets.
///
/// No walk stops because of its greatest numbers here.
pub fn settle_point(alloc: Global, conj: &Conj, budget: u64) -> Result<Decided, Stop>
    requires { IsWellMade conj.now }
    ensures exact { FindsEither result conj.now (walk_of Economical budget conj.now) (walk_of Full budget conj.now) }
    ensures point { IfOk result (λ d. IfPoint d (λ p. IsPoint conj.now p)) }
    ensures empty { IfOk result (λ d. IfEmpty d ((p : List ℤ) → IsPoint conj.now p → ⊥)) }
    ensures differences { conj.now.columns ≤ 60 → AreDifferences (2 ^ 48) conj.now.rows → IfErr result (StopsBelow conj.now.columns budget) }
{
    match find_point_by(alloc, Strategy::Economical, conj, budget) {
        Ok(decided) => Ok(decided),
        Err(Stop::Memory(want)) => Err(Stop::Memory(want)),
        Err(_) => find_point(alloc, conj, budget),
    }
}

/// The pieces that are left where columns are eliminated (W. Pugh, The Omega test, 1991): those of the economical walk within
/// a budget; where that one stops, those of the full walk within the same. The pieces are as of `eliminate`.
///
/// A walk stops where a number leaves `i128` first, or where its cost exceeds the budget first. A stop of this call is the full
/// walk's, with its question and its cost, and comes exactly where both walks stop. Either walk may want memory.
///
/// A question of differences over n columns, at most 60, with numbers of at most 2^48 by absolute value, is always answered
/// within a budget of 2 (n + 1)^3; with numbers of at most b, the pieces are rows of differences with numbers of at most
/// 2^c b, where c is the number of the columns.
pub fn settle_pieces(
    alloc: Global,
    conj: &Conj,
    vars: &[usize],
    budget: u64,
) -> Result<Items<Piece>, Stop>
    requires { IsWellMade conj.now }
    ensures exact { EliminatesEither result conj.now (pieces_of Economical vars.now budget conj.now) (pieces_of Full vars.now budget conj.now) }
    ensures gone { IfOk result (λ pieces. AllEmpty vars.now pieces) }
    ensures projection { IfOk result (λ pieces. (p : List ℤ) → length p ≡ conj.now.columns → HoldsFor vars.now conj.now.rows p ↔ IsInSome MeetsRest pieces p) }
    ensures reached { IfOk result (λ pieces. AreReached vars.now conj.now pieces) }
    ensures over { (n : ℕ) → HaveAllFrom n conj.now.columns vars.now → IfOk result (λ pieces. AreOver n pieces) }
    ensures differences { conj.now.columns ≤ 60 → AreDifferences (2 ^ 48) conj.now.rows → IfErr result (StopsBelow conj.now.columns budget) }
    ensures difference_pieces { (b : ℕ) → conj.now.columns ≤ 60 → 1 ≤ b → b ≤ 2 ^ 48 → AreDifferences b conj.now.rows → IfOk result (λ pieces. AreAllDifferences (2 ^ length vars.now * b) pieces) }
{
    match eliminate_by(alloc, Strategy::Economical, conj, vars, budget) {
        Ok(pieces) => Ok(pieces),
        Err(Stop::Memory(want)) => Err(Stop::Memory(want)),
        Err(_) => eliminate(alloc, conj, vars, budget),
    }
}
