//! What the lines of a proof come to, but for those of plans.
ghost use Rattle.std.specs.Prelude.{◌≡◌, ℕ, ◌<◌, ◌∷◌, IfOk, OnOk, List, length, slice_get, nat_le};
ghost use Rattle.std.specs.List.{AllByRecursion};
ghost use Rattle.ac_forms.specs.Rows.{AreRowsOver, HasModulus, form_of};
ghost use Rattle.ac_cert.specs.declared.types.Rule.TheVariants as rule;
ghost use Rattle.ac_claims_paths.specs.ModelCalls.{pairing};
ghost use Rattle.ac_claims_paths.specs.PathSteps.{Pairing};
ghost use Rattle.ac_claims.specs.CheckKnowledge.{known_of, refusal_unless, Comes, columns_by, IsClaimMade, IsFrontMade};
ghost use Rattle.ac_claims.specs.PlanStarts.{is_it, IsStartOf, StartsNext};
ghost use Rattle.ac_claims.specs.Dues.{AreDueFormed};
ghost use Rattle.ac_claims.specs.Machine.{Due};
ghost use Rattle.ac_claims.specs.ProofFaults.{domain, have_shapes, is_point, output_stands};
ghost use Rattle.ac_claims.specs.ProofMachine.{yes_if, with_claims, with_last, with_output, open_claim, open_tree, closed};
ghost use Rattle.ac_claims.specs.ReadyModels.{AreReady};
ghost use Rattle.ac_claims.specs.RemainingPlans.{remaining};

use crate::domains::size_at;
use crate::entry::Refusal;
use crate::front::Front;
use crate::head::{have_shapes, is_point};
use crate::outputs::output_stands;
use crate::stack::Stack;
use crate::starts::{start_at, start_columns};
use crate::types::Claim;
use crate::upcoming::{Upcoming, settled};
use ac_cert::Rule;
use ac_claims_paths::path::{Path, Programs};
use ac_forms::{Row, column_after};
use ac_poly::types::Model;
use ac_syntax::tree::Position;
use std::alloc::{AllocError, Global};

/// The refusal of a line by a rule, unless a test holds.
fn refusal_unless(holds: bool, line: u64, rule: Rule) -> Option<Refusal>
    ensures { result ≡ refusal_unless holds line rule }
{
    if holds {
        None
    } else {
        Some(Refusal { line, rule })
    }
}

/// A valuation of the parameters.
pub(crate) fn take_point(model: &Model, point: &[i128], line: u64) -> Option<Refusal>
    requires { AreRowsOver model.now.params model.now.context }
    ensures { result ≡ refusal_unless (is_point model.now point.now) line rule.Point }
{
    refusal_unless(is_point(model, point), line, Rule::Point)
}

/// The numbers of counters and quotients of a program's assignments.
pub(crate) fn take_shapes(model: &Model, shapes: &[(u64, u64)], line: u64) -> Option<Refusal>
    ensures { result ≡ refusal_unless (have_shapes shapes.now model.now.stmts) line rule.Coords }
{
    let holds = have_shapes(shapes, model.stmts.as_slice());
    refusal_unless(holds, line, Rule::Coords)
}

/// How many columns the rows of a claim of two positions have, if these are there.
#[tactic(auto, using(crate::proofs::LineSteps::column_steps))]
fn claim_columns(
    alloc: Global,
    programs: &Programs,
    left: &Position,
    right: &Position,
) -> Result<Option<usize>, AllocError>
    ensures { IfOk result (λ columns. columns ≡ columns_by (pairing programs.now) (domain programs.now.left.now left.now) (domain programs.now.right.now right.now)) }
{
    match size_at(alloc, programs.left, left)? {
        Some(first) => match size_at(alloc, programs.right, right)? {
            Some(second) => Ok(Some(start_columns(programs, first.width, second.width)?)),
            None => Ok(None),
        },
        None => Ok(None),
    }
}

/// A claim.
#[tactic(auto, using(crate::proofs::LineSteps::claim_steps))]
pub(crate) fn take_claim(
    alloc: Global,
    programs: &Programs,
    front: &mut Front,
    left: Position,
    right: Position,
    line: u64,
) -> Result<Option<Refusal>, AllocError>
    ensures exact { (due : List Due) → Comes (open_claim (pairing programs.now) (domain programs.now.left.now left) (domain programs.now.right.now right) left right line (known_of (pairing programs.now) front.old due)) result (known_of (pairing programs.now) front.new due) }
    ensures made { IsFrontMade (pairing programs.now) front.old → IsFrontMade (pairing programs.now) front.new }
{
    match claim_columns(alloc, programs, &left, &right)? {
        Some(columns) => {
            front.open_claim(alloc, left, right, columns)?;
            Ok(None)
        }
        None => Ok(Some(Refusal {
            line,
            rule: Rule::Claim,
        })),
    }
}

/// Whether a row has no coefficient past so many columns.
fn is_within(row: &Row, columns: usize) -> bool
    ensures { result ≡ nat_le (length (form_of row.now).coefs) columns }
{
    row.form().columns() <= columns
}

/// A row of a claim.
#[tactic(auto, using(crate::proofs::LineSteps::row_steps))]
pub(crate) fn take_row(
    alloc: Global,
    front: &mut Front,
    row: &Row,
    line: u64,
) -> Result<Option<Refusal>, AllocError>
    requires { HasModulus row.now }
    ensures exact { (g : Pairing) (due : List Due) → Comes (yes_if (nat_le (length (form_of row.now).coefs) front.old.columns) line rule.Claim (with_claims g (known_of g front.old due) (with_last front.old.claims row.now) front.old.columns)) result (known_of g front.new due) }
    ensures made { (g : Pairing) → IsFrontMade g front.old → IsFrontMade g front.new }
{
    if !is_within(row, front.columns) {
        return Ok(Some(Refusal {
            line,
            rule: Rule::Claim,
        }));
    }
    front.add_row(alloc, row)?;
    Ok(None)
}

/// An output with its claim.
#[tactic(auto, using(crate::proofs::LineSteps::output_steps))]
pub(crate) fn take_output(
    alloc: Global,
    programs: &Programs,
    outputs: &[usize],
    front: &mut Front,
    array: usize,
    claim: usize,
    line: u64,
) -> Result<Option<Refusal>, AllocError>
    requires ready { AreReady programs.now }
    requires made { IsFrontMade (pairing programs.now) front.old }
    ensures exact { (due : List Due) → Comes (yes_if (output_stands (pairing programs.now) outputs.now array (slice_get front.old.claims claim)) line rule.Output (with_output (known_of (pairing programs.now) front.old due) array)) result (known_of (pairing programs.now) front.new due) }
    ensures made { IsFrontMade (pairing programs.now) front.new }
{
    let claims = front.claims.as_slice();
    if !output_stands(alloc, programs, outputs, claims, array, claim)? {
        return Ok(Some(Refusal {
            line,
            rule: Rule::Output,
        }));
    }
    front.name(array)?;
    Ok(None)
}

/// The end of a proof.
#[tactic(auto, using(crate::proofs::LineSteps::end_steps))]
pub(crate) fn take_end(
    alloc: Global,
    programs: &Programs,
    front: &Front,
    line: u64,
) -> Result<Option<Refusal>, AllocError>
    ensures { (due : List Due) → Comes (closed (remaining (pairing programs.now) front.now.claims front.now.next) line (known_of (pairing programs.now) front.now due)) result (known_of (pairing programs.now) front.now due) }
{
    let claims = front.claims.as_slice();
    let next = settled(alloc, programs, claims, front.next)?;
    if next.claim < claims.len() {
        return Ok(Some(Refusal {
            line,
            rule: Rule::End,
        }));
    }
    Ok(None)
}

/// A plan that starts, and the numbers behind it.
#[derive(Drop)]
pub(crate) struct Start {
    pub path: Path,
    pub behind: Upcoming,
}

/// Whether a plan with these numbers is the next one.
fn is_it(at: Upcoming, next: Upcoming) -> bool
    ensures { result ≡ is_it at next }
{
    at.claim == next.claim && at.left_piece == next.left_piece && at.right_piece == next.right_piece
}

/// The plan for a claim and two of its pieces, if it starts.
#[tactic(auto, using(crate::proofs::TreeSteps::made_steps))]
fn start_of(
    alloc: Global,
    programs: &Programs,
    claims: &[Claim],
    next: Upcoming,
) -> Result<Option<Start>, AllocError>
    requires ready { AreReady programs.now }
    requires claims { AllByRecursion (IsClaimMade (pairing programs.now)) claims.now }
    requires there { next.claim < length claims.now }
    ensures { IfOk result (IsStartOf (pairing programs.now) claims.now next) }
{
    let behind = column_after(next.right_piece, 1)?;
    let claim = &claims[next.claim];
    match start_at(alloc, programs, claim, next.left_piece, next.right_piece)? {
        Some(path) => Ok(Some(Start {
            path,
            behind: Upcoming {
                claim: next.claim,
                left_piece: next.left_piece,
                right_piece: behind,
            },
        })),
        None => Ok(None),
    }
}

/// The next plan, if it is the one with these numbers, and starts.
#[tactic(auto, using(crate::proofs::TreeSteps::next_steps))]
fn next_start(
    alloc: Global,
    programs: &Programs,
    front: &Front,
    at: Upcoming,
) -> Result<Option<Start>, AllocError>
    requires ready { AreReady programs.now }
    requires made { IsFrontMade (pairing programs.now) front.now }
    ensures { IfOk result (StartsNext (pairing programs.now) front.now.claims (remaining (pairing programs.now) front.now.claims front.now.next) at) }
{
    let claims = front.claims.as_slice();
    let next = settled(alloc, programs, claims, front.next)?;
    if next.claim >= claims.len() || !is_it(at, next) {
        return Ok(None);
    }
    start_of(alloc, programs, claims, next)
}

/// A plan.
#[tactic(auto, using(crate::proofs::TreeSteps::tree_steps))]
pub(crate) fn take_tree(
    alloc: Global,
    programs: &Programs,
    front: &mut Front,
    due: &mut Stack,
    at: Upcoming,
    line: u64,
) -> Result<Option<Refusal>, AllocError>
    requires ready { AreReady programs.now }
    requires made { IsFrontMade (pairing programs.now) front.old }
    requires formed { AreDueFormed programs.now.left.now.params due.old }
    ensures exact { Comes (open_tree at.claim at.left_piece at.right_piece line (known_of (pairing programs.now) front.old due.old) (remaining (pairing programs.now) front.old.claims front.old.next)) result (known_of (pairing programs.now) front.new due.new) }
    ensures made { IsFrontMade (pairing programs.now) front.new }
    ensures formed { AreDueFormed programs.now.left.now.params due.new }
{
    match next_start(alloc, programs, front, at)? {
        Some(start) => {
            let Start { path, behind } = start;
            due.open(path)?;
            front.next = behind;
            Ok(None)
        }
        None => Ok(Some(Refusal {
            line,
            rule: Rule::Tree,
        })),
    }
}
