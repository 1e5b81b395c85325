//! The attempt, and the checks of what it finds.
ghost use Rattle.std.specs.Prelude.{ℤ, List, IfOk, IfSome};
ghost use Rattle.ac_forms.specs.Rows.{IsWellMade};
ghost use Rattle.ac_omega_steps.specs.IntegerPoints.{IsPoint};
ghost use Rattle.ac_cert.specs.AcceptedTrees.{Accepts, absurd_refusals};
ghost use Rattle.ac_simplex.specs.Finding.{IfEmpty, IfPoint};

use crate::bounds::Bound;
use crate::equalities::{Solved, lift_each};
use crate::one_sided::{Dropped, drop_all, lift_dropped};
use crate::search::{Outcome, Search};
use crate::system::System;
use crate::tableau::Tableau;
use ac_cert::{Absurd, Tree, TreeFault, check_tree};
use ac_forms::Conj;
use ac_simplex_lines::{Derivations, Halt, Refutation, tree_of};
use std::alloc::{AllocError, Global};

/// What an attempt finds.
#[derive(Drop)]
pub enum Found {
    /// There is no point: `check_tree` accepts the tree.
    Empty(Tree<Absurd>),
    /// A point.
    Point(Vec<i128>),
}

/// How much an attempt may do.
#[derive(Clone, Copy, Drop)]
pub struct Effort {
    /// How many pivots.
    pub pivots: u32,
    /// How many cuts.
    pub cuts: u32,
    /// How many numbers the tableau may have before the first pivot.
    pub cells: u32,
}

/// The effort that a search gives a question.
pub const USUAL: Effort = Effort {
    pivots: 200,
    cuts: 20,
    cells: 20_000,
};

/// The tree of a refutation, not checked yet.
fn write_tree(
    alloc: Global,
    conj: &Conj,
    derivations: &Derivations,
    refutation: &Refutation,
) -> Result<Found, Halt> {
    let tree = tree_of(alloc, conj.rows.len(), derivations, refutation)?;
    Ok(Found::Empty(tree))
}

/// A point of the bounds as one of the question, not tested yet.
fn lift(
    point: Vec<i128>,
    columns: usize,
    solved: &[Solved],
    dropped: &[Dropped],
) -> Result<Found, Halt> {
    let mut point = point;
    lift_dropped(point.as_mut_slice(), dropped)?;
    lift_each(point.as_mut_slice(), solved)?;
    point.truncate(columns);
    Ok(Found::Point(point))
}

/// The search among bounds over so many columns.
fn search_bounds(
    alloc: Global,
    columns: usize,
    bounds: Vec<Bound>,
    effort: Effort,
    derivations: &mut Derivations,
) -> Result<Outcome, Halt> {
    let tableau = Tableau::of(alloc, columns, &bounds)?;
    if tableau.cells() as u64 > u64::from(effort.cells) {
        return Err(Halt::Open);
    }
    let mut search = Search {
        tableau,
        columns,
        bounds,
        effort,
    };
    search.outcome(alloc, derivations)
}

/// A tree or a point, neither checked yet.
fn candidate(alloc: Global, conj: &Conj, effort: Effort) -> Result<Found, Halt> {
    let mut system = System::new(alloc, conj);
    if let Some(refutation) = system.add_rows(alloc, conj)? {
        return write_tree(alloc, conj, &system.derivations, &refutation);
    }
    let System {
        columns,
        mut derivations,
        solved,
        left: _,
        bounds,
    } = system;
    let mut dropped = Vec::new(alloc);
    let bounds = drop_all(alloc, columns, bounds, &mut dropped)?;
    match search_bounds(alloc, columns, bounds, effort, &mut derivations)? {
        Outcome::Empty(refutation) => write_tree(alloc, conj, &derivations, &refutation),
        Outcome::Point(point) => lift(point, conj.columns, &solved, &dropped),
    }
}

/// The tree, if the check accepts it.
#[tactic(auto, using(crate::proofs::Accepting::accepted_anywhere))]
fn accept(alloc: Global, conj: &Conj, tree: Tree<Absurd>) -> Result<Option<Found>, AllocError>
    requires { IsWellMade conj.now }
    ensures accepted { IfOk result (λ found. IfSome found (λ found. IfEmpty found (λ tree. Accepts tree absurd_refusals conj.now))) }
    ensures empty { IfOk result (λ found. IfSome found (λ found. IfEmpty found (λ _. (p : List ℤ) → ¬ (IsPoint conj.now p)))) }
    ensures point { IfOk result (λ found. IfSome found (λ found. IfPoint found (λ p. IsPoint conj.now p))) }
{
    match check_tree(alloc, conj, &tree, &()) {
        Ok(()) => Ok(Some(Found::Empty(tree))),
        Err(TreeFault::Refused { .. }) => Ok(None),
        Err(TreeFault::Memory(want)) => Err(want),
    }
}

/// The point, if the rows hold there.
#[tactic(auto, using(crate::proofs::Accepting::point_of))]
fn test(conj: &Conj, point: Vec<i128>) -> Option<Found>
    requires { IsWellMade conj.now }
    ensures accepted { IfSome result (λ found. IfEmpty found (λ tree. Accepts tree absurd_refusals conj.now)) }
    ensures empty { IfSome result (λ found. IfEmpty found (λ _. (p : List ℤ) → ¬ (IsPoint conj.now p))) }
    ensures point { IfSome result (λ found. IfPoint found (λ p. IsPoint conj.now p)) }
{
    if point.len() != conj.columns {
        return None;
    }
    match conj.holds_at(point.as_slice()) {
        Ok(true) => Some(Found::Point(point)),
        Ok(false) | Err(_) => None,
    }
}

/// A certificate that a conjunction has no point, or a point of it. None says nothing: a number left `i128`, the effort was spent,
/// or the tableau is larger than the effort allows. The only refusal is want of memory.
pub fn attempt(alloc: Global, conj: &Conj, effort: Effort) -> Result<Option<Found>, AllocError>
    requires { IsWellMade conj.now }
    ensures accepted { IfOk result (λ found. IfSome found (λ found. IfEmpty found (λ tree. Accepts tree absurd_refusals conj.now))) }
    ensures empty { IfOk result (λ found. IfSome found (λ found. IfEmpty found (λ _. (p : List ℤ) → ¬ (IsPoint conj.now p)))) }
    ensures point { IfOk result (λ found. IfSome found (λ found. IfPoint found (λ p. IsPoint conj.now p))) }
{
    match candidate(alloc, conj, effort) {
        Ok(Found::Empty(tree)) => accept(alloc, conj, tree),
        Ok(Found::Point(point)) => Ok(test(conj, point)),
        Err(Halt::Open) => Ok(None),
        Err(Halt::Memory(want)) => Err(want),
    }
}
