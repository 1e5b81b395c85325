//! Divisibilities that follow from equalities.
ghost use Rattle.std.specs.Prelude.{ℤ, List, [], ◌∷◌, ◌++◌, pos, ◌≡◌, ◌↔◌, IfOk, IsTrue, unsigned_abs};
ghost use Rattle.ac_base.specs.Gcd.{DividesEach};
ghost use Rattle.ac_base.specs.Multiple.{IsMultiple};
ghost use Rattle.ac_forms.specs.Affine.{value_at};
ghost use Rattle.ac_forms.specs.Rows.{Holds};
ghost use Rattle.ac_forms.specs.declared.row.Row.{Row};
ghost use Rattle.ac_hull.specs.Hulls.{Vanish};
ghost use Rattle.ac_walk_state.specs.RowRedundancy.{AreEnoughOn};

use ac_base::{Items, is_multiple};
use ac_cert_short::unit_column;
use ac_forms::{Form, FormStop, Row};
use std::alloc::{AllocError, Global};

/// The factor with which an equality takes a column out of a form, where it has the coefficient 1 or -1 there; none where it leaves
/// `i128`.
fn factor_of(coef: i128, is_one: bool) -> Option<i128> {
    if is_one {
        coef.checked_neg()
    } else {
        Some(coef)
    }
}

/// A form without the column in which an equality has the coefficient 1 or -1: of the same value wherever the equality holds.
/// The form itself, where there is no such column or a number leaves `i128`.
#[tactic(auto, using(crate::proofs::Reducing::reduce_steps))]
fn reduced(alloc: Global, form: Form, equality: &Form) -> Result<Form, AllocError>
    ensures { IfOk result (λ rest. (q : List ℤ) → value_at equality.now q ≡ pos 0 → value_at rest q ≡ value_at form q) }
{
    let Some((column, is_one)) = unit_column(equality) else {
        return Ok(form);
    };
    let Some(factor) = factor_of(form.coef(column), is_one) else {
        return Ok(form);
    };
    match form.combine(alloc, 1, equality, factor) {
        Ok(rest) => Ok(rest),
        Err(FormStop::Wide) => Ok(form),
        Err(FormStop::Memory(want)) => Err(want),
    }
}

/// A form of the same value wherever the equalities hold.
fn reduced_by_all(alloc: Global, form: &Form, equalities: &[Form]) -> Result<Form, AllocError>
    ensures { IfOk result (λ rest. (q : List ℤ) → Vanish equalities.now q → value_at rest q ≡ value_at form.now q) }
{
    let mut rest = form.copy(alloc)?;
    for equality in equalities {
        rest = reduced(alloc, rest, equality)?;
    }
    Ok(rest)
}

/// Whether a number is a multiple of another.
fn divides(modulus: i128, number: i128) -> bool
    ensures { IsTrue result ↔ IsMultiple modulus number }
{
    is_multiple(number, modulus)
}

/// Whether a number divides the constant and all coefficients of a form.
fn divides_all(modulus: i128, form: &Form) -> bool
    ensures { IsTrue result ↔ (DividesEach (unsigned_abs modulus) form.now.coefs × IsMultiple modulus form.now.konst) }
{
    for column in 0..form.columns() {
        if !divides(modulus, form.coef(column)) {
            return false;
        }
    }
    divides(modulus, form.konst())
}

/// Whether a row is a divisibility that is seen to follow from equalities.
fn follows(alloc: Global, row: &Row, equalities: &[Form]) -> Result<bool, AllocError>
    ensures { IfOk result (λ is. IsTrue is → (q : List ℤ) → Vanish equalities.now q → Holds row.now q) }
{
    let Row::Div(_, form) = row else {
        return Ok(false);
    };
    let rest = reduced_by_all(alloc, form, equalities)?;
    Ok(divides_all(row.modulus(), &rest))
}

/// The rows that are left of some, and a further row, unless it is a divisibility that is seen to follow from equalities.
fn with_row(
    alloc: Global,
    left: Items<Row>,
    row: &Row,
    equalities: &[Form],
) -> Result<Items<Row>, AllocError>
    ensures { IfOk result (λ made. (rows : List Row) → AreEnoughOn equalities.now rows left → AreEnoughOn equalities.now (rows ++ row.now ∷ []) made) }
{
    if follows(alloc, row, equalities)? {
        return Ok(left);
    }
    let mut left = left;
    left.push(row.copy(alloc)?)?;
    Ok(left)
}

/// The rows but those divisibilities that are seen to follow from equalities.
pub(crate) fn without_following(
    alloc: Global,
    rows: &[Row],
    equalities: &[Form],
) -> Result<Items<Row>, AllocError>
    ensures { IfOk result (AreEnoughOn equalities.now rows.now) }
{
    let mut left = Items::new(alloc);
    for row in rows {
        left = with_row(alloc, left, row, equalities)?;
    }
    Ok(left)
}
