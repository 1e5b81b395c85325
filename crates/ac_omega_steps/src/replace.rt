ghost use Rattle.std.specs.Prelude.{◌≡◌, ◌<◌, ◌++◌, cond, Some, None, IfOk, map, slice_get, length, take, drop, ◌+◌, ◌+ℤ◌, ◌*ℤ◌};
ghost use Rattle.ac_forms.specs.Affine.{coef};
ghost use Rattle.ac_forms.specs.Fits.{fits};
ghost use Rattle.ac_forms.specs.declared.row.Row.TheVariants.{Eq};
ghost use Rattle.ac_omega_steps.specs.Choices.{size_of, against, replaced, replaced_row, others, by_equality, substitute_residue, substitute_residue_row};
ghost use Rattle.ac_omega_steps.specs.ChoiceFits.{replaced_fits, replaced_row_fits, all_replaced_fit, equality_fits, spread_fits, spread_row_fits, all_spread_fit};

use crate::column::without;
use crate::combine::combination;
use ac_base::Items;
use ac_forms::{Conj, Form, Row};
use std::alloc::{AllocError, Global};

/// The absolute value, if it is a number of `i128`.
#[tactic(auto, using(ac_base::proofs::Bits::again_128, crate::proofs::Fitting::fits_true, crate::proofs::Fitting::fits_false))]
pub(crate) fn size(number: &i128) -> Option<i128>
    ensures { result ≡ cond (fits (size_of number.now)) (Some (size_of number.now)) None }
{
    number.checked_abs()
}

/// The second number with the sign that is opposite to that of the first, if it is a number of `i128`.
#[tactic(auto, using(ac_base::proofs::Bits::again_128, crate::proofs::Fitting::fits_true, crate::proofs::Fitting::fits_false))]
pub(crate) fn against(sign: &i128, number: &i128) -> Option<i128>
    ensures { result ≡ cond (fits (against sign.now number.now)) (Some (against sign.now number.now)) None }
{
    if *sign < 0 {
        Some(*number)
    } else {
        number.checked_neg()
    }
}

/// A form where an equality replaces the column, times the absolute value of the equality's coefficient.
#[tactic(auto, unfolding(crate::specs::Combination::combination), using(ac_base::proofs::Bits::again_128))]
fn replaced(
    alloc: Global,
    z: usize,
    equality: &Form,
    size: &i128,
    form: &Form,
) -> Result<Option<Form>, AllocError>
    requires { size.now ≡ size_of (coef z equality.now) }
    ensures { IfOk result (λ made. made ≡ cond (replaced_fits z equality.now form.now) (Some (replaced z equality.now form.now)) None) }
{
    let Some(factor) = against(&equality.coef(z), &form.coef(z)) else {
        return Ok(None);
    };
    combination(alloc, *size, form, factor, equality)
}

/// A product, if it is a number of `i128`.
#[tactic(auto, using(ac_base::proofs::Bits::again_128, crate::proofs::Fitting::fits_true, crate::proofs::Fitting::fits_false))]
pub(crate) fn product(left: &i128, right: &i128) -> Option<i128>
    ensures { result ≡ cond (fits (left.now *ℤ right.now)) (Some (left.now *ℤ right.now)) None }
{
    left.checked_mul(*right)
}

/// A sum, if it is a number of `i128`.
#[tactic(auto, using(ac_base::proofs::Bits::again_128, crate::proofs::Fitting::fits_true, crate::proofs::Fitting::fits_false))]
pub(crate) fn sum(left: &i128, right: &i128) -> Option<i128>
    ensures { result ≡ cond (fits (left.now +ℤ right.now)) (Some (left.now +ℤ right.now)) None }
{
    left.checked_add(*right)
}

/// A row where an equality replaces the column.
#[tactic(auto, using(ac_base::proofs::Bits::again_128))]
fn replaced_row(
    alloc: Global,
    z: usize,
    equality: &Form,
    size: &i128,
    row: &Row,
) -> Result<Option<Row>, AllocError>
    requires { size.now ≡ size_of (coef z equality.now) }
    ensures { IfOk result (λ made. made ≡ cond (replaced_row_fits z equality.now row.now) (Some (replaced_row z equality.now row.now)) None) }
{
    let Some(form) = replaced(alloc, z, equality, size, row.form())? else {
        return Ok(None);
    };
    match row {
        Row::Ge(_) => Ok(Some(Row::Ge(form))),
        Row::Eq(_) => Ok(Some(Row::Eq(form))),
        Row::Div(modulus, _) => match product(size, modulus) {
            Some(modulus) => Ok(Some(Row::Div(modulus, form))),
            None => Ok(None),
        },
    }
}

/// The rows where an equality replaces the column, behind others.
#[tactic(auto, using(ac_base::proofs::Bits::again_128))]
fn replaced_rows(
    alloc: Global,
    z: usize,
    equality: &Form,
    size: &i128,
    rows: &[Row],
    made: Items<Row>,
) -> Result<Option<Items<Row>>, AllocError>
    requires { size.now ≡ size_of (coef z equality.now) }
    ensures { IfOk result (λ after. after ≡ cond (all_replaced_fit z equality.now rows.now) (Some (made ++ map (replaced_row z equality.now) rows.now)) None) }
{
    let mut made = made;
    for row in rows {
        let Some(row) = replaced_row(alloc, z, equality, size, row)? else {
            return Ok(None);
        };
        made.push(row)?;
    }
    Ok(Some(made))
}

/// The rows before a place.
fn before(rows: &[Row], at: usize) -> &[Row]
    requires { at < length rows.now }
    ensures { result.now ≡ take at rows.now }
{
    &rows[..at]
}

/// The rows behind a place.
fn behind(rows: &[Row], at: usize) -> &[Row]
    requires { at < length rows.now }
    ensures { result.now ≡ drop (at + 1) rows.now }
{
    &rows[at + 1..]
}

/// The other rows, where the equality at a place replaces the column.
#[tactic(auto, using(crate::proofs::Parts::others_fit, crate::proofs::Parts::others_map))]
fn replaced_others(
    alloc: Global,
    z: usize,
    at: usize,
    equality: &Form,
    size: &i128,
    rows: &[Row],
) -> Result<Option<Items<Row>>, AllocError>
    requires at { at < length rows.now }
    requires size { size.now ≡ size_of (coef z equality.now) }
    ensures { IfOk result (λ made. made ≡ cond (all_replaced_fit z equality.now (others at rows.now)) (Some (map (replaced_row z equality.now) (others at rows.now))) None) }
{
    let made = Items::from(Vec::with_capacity(alloc, rows.len())?);
    let Some(made) = replaced_rows(alloc, z, equality, size, before(rows, at), made)? else {
        return Ok(None);
    };
    let made = replaced_rows(alloc, z, equality, size, behind(rows, at), made)?;
    Ok(made)
}

/// The other rows, where the equality at a place replaces the column, and that its coefficient divides the rest of it.
#[tactic(auto, using(ac_base::proofs::Bits::again_128))]
fn replaced_by(
    alloc: Global,
    z: usize,
    at: usize,
    equality: &Form,
    rows: &[Row],
) -> Result<Option<Items<Row>>, AllocError>
    requires { at < length rows.now }
    ensures { IfOk result (λ made. made ≡ cond (equality_fits z at (Some (Eq equality.now)) rows.now) (Some (by_equality z at (Some (Eq equality.now)) rows.now)) None) }
{
    let Some(size) = size(&equality.coef(z)) else {
        return Ok(None);
    };
    let Some(mut made) = replaced_others(alloc, z, at, equality, &size, rows)? else {
        return Ok(None);
    };
    made.push(Row::Div(size, without(alloc, z, equality)?))?;
    Ok(Some(made))
}

/// The same for the row at a place; where this is no equality, the rows stay.
pub(crate) fn by_equality(
    alloc: Global,
    z: usize,
    at: usize,
    conj: &Conj,
) -> Result<Option<Items<Row>>, AllocError>
    ensures { IfOk result (λ made. made ≡ cond (equality_fits z at (slice_get conj.now.rows at) conj.now.rows) (Some (by_equality z at (slice_get conj.now.rows at) conj.now.rows)) None) }
{
    match conj.rows.get(at) {
        Some(Row::Eq(equality)) => replaced_by(alloc, z, at, equality, conj.rows.as_slice()),
        _ => Ok(Some(conj.copy(alloc)?.rows)),
    }
}

/// A form at `m z + r` in place of the column z.
#[tactic(auto, using(ac_base::proofs::Bits::again_128))]
fn substitute_residue(
    alloc: Global,
    z: usize,
    m: &i128,
    r: &i128,
    form: &Form,
) -> Result<Option<Form>, AllocError>
    ensures { IfOk result (λ made. made ≡ cond (spread_fits m.now r.now (coef z form.now) form.now.konst) (Some (substitute_residue z m.now r.now form.now)) None) }
{
    let coef = form.coef(z);
    let Some(multiple) = product(&coef, m) else {
        return Ok(None);
    };
    let Some(shift) = product(&coef, r) else {
        return Ok(None);
    };
    let Some(konst) = sum(&form.konst(), &shift) else {
        return Ok(None);
    };
    Ok(Some(form.with_numbers(alloc, z, &multiple, &konst)?))
}

/// A row at `m z + r` in place of the column z.
#[tactic(auto, using(ac_base::proofs::Bits::again_128))]
fn substitute_residue_row(
    alloc: Global,
    z: usize,
    m: &i128,
    r: &i128,
    row: &Row,
) -> Result<Option<Row>, AllocError>
    ensures { IfOk result (λ made. made ≡ cond (spread_row_fits z m.now r.now row.now) (Some (substitute_residue_row z m.now r.now row.now)) None) }
{
    let Some(form) = substitute_residue(alloc, z, m, r, row.form())? else {
        return Ok(None);
    };
    match row {
        Row::Ge(_) => Ok(Some(Row::Ge(form))),
        Row::Eq(_) => Ok(Some(Row::Eq(form))),
        Row::Div(modulus, _) => Ok(Some(Row::Div(*modulus, form))),
    }
}

/// The rows at `m z + r` in place of the column z.
#[tactic(auto, using(ac_base::proofs::Bits::again_128))]
pub(crate) fn substitute_residue_rows(
    alloc: Global,
    z: usize,
    m: &i128,
    r: &i128,
    rows: &[Row],
) -> Result<Option<Items<Row>>, AllocError>
    ensures { IfOk result (λ made. made ≡ cond (all_spread_fit z m.now r.now rows.now) (Some (map (substitute_residue_row z m.now r.now) rows.now)) None) }
{
    let mut made = Items::from(Vec::with_capacity(alloc, rows.len())?);
    for row in rows {
        let Some(row) = substitute_residue_row(alloc, z, m, r, row)? else {
            return Ok(None);
        };
        made.push(row)?;
    }
    Ok(Some(made))
}
