//! The ends of a plan: a claim, two equal numbers, one initial cell.
ghost use Rattle.std.specs.Prelude.{true, ◌≡◌, ◌+◌, ◌++◌, IfOk, Option, Some, None, slice_get, cond, nat_eq, ◌&&◌, [], ◌∷◌};
ghost use Rattle.ac_forms.specs.Rows.{HaveModuli};
ghost use Rattle.ac_poly.specs.Model.{is_input};
ghost use Rattle.ac_claims_paths.specs.ModelCalls.{pairing};
ghost use Rattle.ac_claims_paths.specs.PathColumns.{base, columns_of, equal_forms};
ghost use Rattle.ac_claims_paths.specs.OptionalRows.{HaveIf};
ghost use Rattle.ac_claims_paths.specs.ModelPositions.{number_at, initial_cell};
ghost use Rattle.ac_claims.specs.Dues.{RowsHaveModuli};
ghost use Rattle.ac_claims.specs.ProofEnds.{same_position, hits, is_hit, equal_numbers, equal_cells};

use crate::types::Claim;
use ac_base::Items;
use ac_claims_paths::NormalForms;
use ac_claims_paths::columns::{columns_of_both, equal_at, equal_form_at, moved_rows};
use ac_claims_paths::path::{Path, Programs};
use ac_claims_paths::places::{CellForms, initial_cell, number_at};
use ac_claims_paths::standing::made_and_stand;
use ac_forms::{Form, Row};
use ac_poly::types::Model;
use ac_syntax::tree::{Kind, Position};
use std::alloc::{AllocError, Global};

/// Whether two positions are one.
#[tactic(auto, using(crate::proofs::Plans::position_is))]
pub fn same_position(first: &Position, second: &Position) -> bool
    ensures exact { result ≡ same_position first.now second.now }
    ensures equal { result ≡ true → first.now ≡ second.now }
{
    match (first, second) {
        (Position::Output(o), Position::Output(p)) => *o == *p,
        (Position::Node { stmt: s, node: k }, Position::Node { stmt: t, node: l }) => {
            *s == *t && *k == *l
        }
        (Position::InitialOutput(o), Position::InitialOutput(p)) => *o == *p,
        (Position::InitialNode { stmt: s, node: k }, Position::InitialNode { stmt: t, node: l }) =>
            *s == *t && *k == *l,
        _ => false,
    }
}

/// Whether a path ends at a claim: a step of the pair was taken, the positions are the claim's, and its rows stand.
#[tactic(auto, using(ac_claims_paths::proofs::Moduli::moduli_steps))]
fn hits(
    alloc: Global,
    params: usize,
    path: &Path,
    claim: &Claim,
    forms: &mut NormalForms,
) -> Result<bool, AllocError>
    requires path { HaveModuli path.now.conj.rows }
    requires claim { HaveModuli claim.now.rows }
    ensures { IfOk result (λ answer. answer ≡ hits params path.now (Some claim.now)) }
{
    if !path.gone
        || !same_position(&path.left.position, &claim.left)
        || !same_position(&path.right.position, &claim.right)
    {
        return Ok(false);
    }
    let columns = columns_of_both(alloc, params, &path.left, &path.right)?;
    let rows = moved_rows(alloc, columns.as_slice(), claim.rows.as_slice())?;
    made_and_stand(alloc, path.conj.rows.as_slice(), &rows, forms)
}

/// Whether a path ends at the claim with a number.
#[tactic(auto, using(crate::proofs::EndSteps::claim_steps))]
pub(crate) fn is_hit(
    alloc: Global,
    programs: &Programs,
    claims: &[Claim],
    claim: usize,
    path: &Path,
    forms: &mut NormalForms,
) -> Result<bool, AllocError>
    requires path { HaveModuli path.now.conj.rows }
    requires claims { RowsHaveModuli claims.now }
    ensures { IfOk result (λ answer. answer ≡ is_hit (pairing programs.now) path.now (slice_get claims.now claim)) }
{
    if claim >= claims.len() {
        return Ok(false);
    }
    hits(alloc, programs.left.params, path, &claims[claim], forms)
}

/// The equality of the numbers at both positions of a path, if there are two.
pub(crate) fn equal_numbers(
    alloc: Global,
    programs: &Programs,
    path: &Path,
) -> Result<Option<Items<Row>>, AllocError>
    ensures value { IfOk result (λ made. made ≡ equal_numbers (pairing programs.now) path.now (number_at programs.now.left.now path.now.left.position) (number_at programs.now.right.now path.now.right.position)) }
    ensures moduli { IfOk result (λ made. HaveIf made) }
{
    match number_at(programs.left, &path.left.position) {
        None => Ok(None),
        Some(form) => match number_at(programs.right, &path.right.position) {
            None => Ok(None),
            Some(other) => equal_form_at(
                alloc,
                programs.left.params,
                &path.left,
                form,
                &path.right,
                other,
            ),
        },
    }
}

/// Whether an array of a model is an input.
fn is_input(m: &Model, array: usize) -> bool
    ensures { result ≡ is_input (slice_get m.now.kinds array) }
{
    match m.kinds.get(array) {
        Some(Kind::Input) => true,
        Some(Kind::Local) => false,
        None => false,
    }
}

/// The equality of the subscripts of two initial cells, if they are of one input.
fn cells_equal(
    alloc: Global,
    programs: &Programs,
    path: &Path,
    cell: &CellForms,
    other: &CellForms,
) -> Result<Option<Items<Row>>, AllocError>
    ensures value { IfOk result (λ made. made ≡ equal_cells (pairing programs.now) path.now (Some cell.now) (Some other.now)) }
    ensures moduli { IfOk result (λ made. HaveIf made) }
{
    if cell.array != other.array || !is_input(programs.left, cell.array) {
        return Ok(None);
    }
    equal_at(
        alloc,
        programs.left.params,
        &path.left,
        cell.subs.as_slice(),
        &path.right,
        other.subs.as_slice(),
    )
}

/// The equality of the initial cells at both positions of a path, if there are two.
pub(crate) fn equal_cells(
    alloc: Global,
    programs: &Programs,
    path: &Path,
) -> Result<Option<Items<Row>>, AllocError>
    ensures value { IfOk result (λ made. made ≡ equal_cells (pairing programs.now) path.now (initial_cell programs.now.left.now path.now.left.position) (initial_cell programs.now.right.now path.now.right.position)) }
    ensures moduli { IfOk result (λ made. HaveIf made) }
{
    match initial_cell(alloc, programs.left, &path.left.position)? {
        None => Ok(None),
        Some(cell) => match initial_cell(alloc, programs.right, &path.right.position)? {
            None => Ok(None),
            Some(other) => cells_equal(alloc, programs, path, &cell, &other),
        },
    }
}
