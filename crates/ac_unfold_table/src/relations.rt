//! The relation of a question: what it says of the parameters and of the coordinates of its own pair.
ghost use Rattle.std.specs.Prelude.{◌≡◌, ◌≤◌, ◌↔◌, ◌&&◌, ℤ, IfOk, IfSome, List, MatchOption, None, false, true};
ghost use Rattle.ac_forms.specs.ListMembers.{IsAmong};
ghost use Rattle.ac_forms.specs.Renaming.{picked};
ghost use Rattle.ac_forms.specs.Rows.{IsWellMade, Meets};
ghost use Rattle.ac_omega_steps.specs.IntegerPoints.{IsPoint};
ghost use Rattle.ac_claims_paths.specs.ModelCalls.{pairing};
ghost use Rattle.ac_claims.specs.CheckKnowledge.{IsClaimMade};
ghost use Rattle.ac_claims.specs.ProofEnds.{same_position};
ghost use Rattle.ac_claims.specs.declared.types.Claim.{Claim as Asked};
ghost use Rattle.ac_unfold_plans.specs.PlanStops.{claim_positions};
ghost use Rattle.ac_unfold_table.specs.ColumnProjection.{AreLeftOn, IsLeftOn};
ghost use Rattle.ac_unfold_table.specs.QuestionRelations.{HasNoPiece, HasNoRelation, IsRelationOf, IsSeated, LacksPoint, columns_first, place_of, places_of};
ghost use Rattle.ac_unfold_table.specs.TableCoverage.{HasClaim, IsCovered};

use ac_base::Items;
use ac_claims::domains::size_at;
use ac_claims::ending::same_position;
use ac_claims::starts::start_columns;
use ac_claims::types::Claim;
use ac_claims_paths::columns::columns_of_both;
use ac_claims_paths::path::Path;
use ac_flow::{CutStop, kill_pieces};
use ac_forms::{Conj, FormStop, Row, column_after, is_among, renamed_rows};
use ac_omega::{Decided, Piece, Stop, settle_point};
use ac_simplex::{Found, USUAL, attempt};
use ac_unfold::types::ProgramFlows;
use std::alloc::{AllocError, Global};

/// The place of a column in a list, if it is there.
fn place_of(own: &[usize], column: usize) -> Option<usize>
    ensures { result ≡ place_of own.now column }
{
    for at in 0..own.len() {
        if own[at] == column {
            return Some(at);
        }
    }
    None
}

/// The new columns of so many ones, by which those of a list come first, in its order, and the others behind them.
fn places(alloc: Global, own: &[usize], columns: usize) -> Result<Vec<usize>, AllocError>
    ensures { IfOk result (λ made. made.items ≡ places_of own.now columns) }
{
    let mut places = Vec::new(alloc);
    let mut further = own.len();
    for column in 0..columns {
        if let Some(at) = place_of(own, column) {
            places.push(at)?;
        } else {
            places.push(further)?;
            further = column_after(further, 1)?;
        }
    }
    Ok(places)
}

/// The rows of a question where the columns of a list come first. None where a number leaves `i128`.
fn reordered(alloc: Global, own: &[usize], conj: &Conj) -> Result<Option<Conj>, AllocError>
    ensures value { IfOk result (λ made. made ≡ columns_first own.now conj.now) }
    ensures points { IfOk result (λ made. IfSome made (λ c. (p : List ℤ) → Meets c.rows p ↔ Meets conj.now.rows (picked (places_of own.now conj.now.columns) p))) }
{
    let places = places(alloc, own, conj.columns)?;
    match renamed_rows(alloc, conj.rows.as_slice(), places.as_slice()) {
        Ok(rows) => Ok(Some(Conj {
            columns: conj.columns,
            rows,
        })),
        Err(FormStop::Wide) => Ok(None),
        Err(FormStop::Memory(want)) => Err(want),
    }
}

/// What is left of a conjunction on its first columns. None where it is not well made, or it costs more than the budget or is
/// too wide.
fn projected(
    alloc: Global,
    conj: &Conj,
    first: usize,
    budget: u64,
) -> Result<Option<Items<Piece>>, AllocError>
    requires { first ≤ conj.now.columns }
    ensures { IfOk result (λ made. MatchOption made (HasNoPiece budget first conj.now) (AreLeftOn budget first conj.now)) }
{
    if !conj.is_well_made() {
        return Ok(None);
    }
    match kill_pieces(alloc, conj, first, budget) {
        Ok(pieces) => Ok(Some(pieces)),
        Err(CutStop::Memory(want)) => Err(want),
        Err(_) => Ok(None),
    }
}

/// Whether a conjunction is known to have a point.
fn has_point(alloc: Global, conj: &Conj, budget: u64) -> Result<bool, AllocError>
    ensures some { IfOk result (λ has. has ≡ true → (p : List ℤ) × IsPoint conj.now p) }
    ensures none { IfOk result (λ has. has ≡ false → LacksPoint budget conj.now) }
{
    if !conj.is_well_made() {
        return Ok(false);
    }
    match attempt(alloc, conj, USUAL)? {
        Some(Found::Point(_)) => Ok(true),
        Some(Found::Empty(_)) => Ok(false),
        None => has_point_by_elimination(alloc, conj, budget),
    }
}

/// The same, of a conjunction that the attempt leaves open.
fn has_point_by_elimination(alloc: Global, conj: &Conj, budget: u64) -> Result<bool, AllocError>
    requires { IsWellMade conj.now }
    ensures some { IfOk result (λ has. has ≡ true → (p : List ℤ) × IsPoint conj.now p) }
    ensures none { IfOk result (λ has. has ≡ false → LacksPoint budget conj.now) }
{
    match settle_point(alloc, conj, budget) {
        Ok(Decided::Point(_)) => Ok(true),
        Ok(Decided::Empty(_)) => Ok(false),
        Err(Stop::Memory(want)) => Err(want),
        Err(_) => Ok(false),
    }
}

/// What is left of a conjunction on its first columns, where it is one piece that has a point.
fn relation_on(
    alloc: Global,
    conj: &Conj,
    first: usize,
    budget: u64,
) -> Result<Option<Items<Row>>, AllocError>
    requires { first ≤ conj.now.columns }
    ensures { IfOk result (λ made. MatchOption made (HasNoPiece budget first conj.now) (IsLeftOn first conj.now)) }
{
    let Some(pieces) = projected(alloc, conj, first, budget)? else {
        return Ok(None);
    };
    let mut pieces = pieces;
    let Some(piece) = pieces.pop() else {
        return Ok(None);
    };
    if !pieces.is_empty() || !has_point(alloc, &piece.rest, budget)? {
        return Ok(None);
    }
    Ok(Some(piece.rest.rows))
}

/// The relation of a question: a claim on its pair, whose rows are those that are left on the parameters and the coordinates of
/// both positions. None where more than one piece is left, or none, or it has no point; or where that costs more than the budget or
/// is too wide.
pub(crate) fn relation_of(
    alloc: Global,
    params: usize,
    question: &Path,
    budget: u64,
) -> Result<Option<Claim>, AllocError>
    requires { IsSeated params question.now }
    ensures { IfOk result (λ made. MatchOption made (HasNoRelation budget params question.now) (IsRelationOf params question.now)) }
{
    let own = columns_of_both(alloc, params, &question.left, &question.right)?;
    let Some(conj) = reordered(alloc, own.as_slice(), &question.conj)? else {
        return Ok(None);
    };
    match relation_on(alloc, &conj, own.len(), budget)? {
        Some(rows) => Ok(Some(Claim {
            left: question.left.position,
            right: question.right.position,
            rows,
        })),
        None => Ok(None),
    }
}

/// The same claim again.
pub(crate) fn copy_of(alloc: Global, claim: &Claim) -> Result<Claim, AllocError>
    ensures { IfOk result (λ made. made ≡ claim.now) }
{
    let mut rows = Items::new(alloc);
    for row in claim.rows.as_slice() {
        rows.push(row.copy(alloc)?)?;
    }
    Ok(Claim {
        left: claim.left,
        right: claim.right,
        rows,
    })
}

/// Whether two claims are of one pair.
pub(crate) fn is_of_pair(claim: &Claim, other: &Claim) -> bool
    ensures { result ≡ (same_position claim.now.left other.now.left && same_position claim.now.right other.now.right) }
{
    same_position(&claim.left, &other.left) && same_position(&claim.right, &other.right)
}

/// Whether each of some rows is one of the rows.
fn are_among(rows: &[Row], among: &[Row]) -> bool
    ensures { result ≡ true → (p : List ℤ) → Meets among.now p → Meets rows.now p }
{
    for row in rows {
        if !is_among(row, among) {
            return false;
        }
    }
    true
}

/// Whether one of the claims has each point of a relation of its pair: each of its rows is one of the relation's.
pub(crate) fn is_covered(known: &[Claim], relation: &Claim) -> bool
    ensures { result ≡ true → IsCovered known.now relation.now }
{
    for claim in known {
        if is_of_pair(claim, relation)
            && are_among(claim.rows.as_slice(), relation.rows.as_slice())
        {
            return true;
        }
    }
    false
}

/// Whether one of the claims is of the pair of a relation.
pub(crate) fn is_claimed(claims: &[Claim], relation: &Claim) -> bool
    ensures none { result ≡ false → (d : Asked) → IsAmong d claims.now → ¬ (claim_positions d ≡ claim_positions relation.now) }
    ensures claimed { result ≡ true → HasClaim claims.now (claim_positions relation.now) }
{
    for number in 0..claims.len() {
        let claim = &claims[number];
        if is_of_pair(relation, claim) {
            return true;
        }
    }
    false
}

/// A relation, where both positions are there, and its rows are over the parameters and their coordinates.
pub(crate) fn fitting(
    alloc: Global,
    program_flows: &ProgramFlows<'_>,
    relation: Claim,
) -> Result<Option<Claim>, AllocError>
    ensures fit { IfOk result (λ fit. IfSome fit (λ c. (c ≡ relation) × IsClaimMade (pairing program_flows.now.programs) relation)) }
    ensures unfit { IfOk result (λ fit. fit ≡ None → ¬ (IsClaimMade (pairing program_flows.now.programs) relation)) }
{
    let lefts = size_at(alloc, program_flows.programs.left, &relation.left)?;
    let rights = size_at(alloc, program_flows.programs.right, &relation.right)?;
    let (Some(lefts), Some(rights)) = (lefts, rights) else {
        return Ok(None);
    };
    let columns = start_columns(&program_flows.programs, lefts.width, rights.width)?;
    let Claim { left, right, rows } = relation;
    let conj = Conj { columns, rows };
    if !conj.is_well_made() {
        return Ok(None);
    }
    Ok(Some(Claim {
        left,
        right,
        rows: conj.rows,
    }))
}
