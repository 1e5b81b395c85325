ghost use Rattle.std.specs.Prelude.{◌≡◌, ◌≢◌, ◌≤◌, int_div, [], ◌∷◌, ◌&&◌, true, cond, Some, None, OkIff, IfOk, ℤ, pos, neg_ℤ, ◌+ℤ◌, ◌*ℤ◌, length, set, get_or, slice_get};
ghost use Rattle.std.specs.Int.{int_div_euclid};
ghost use Rattle.ac_forms.specs.Affine.{value_at, coef};
ghost use Rattle.ac_forms.specs.Fits.{fits};
ghost use Rattle.ac_forms.specs.Rows.{IsRowOver, AreRowsOver, IsWellMade};
ghost use Rattle.ac_forms.specs.FormStops.{MadeWhere};
ghost use Rattle.ac_forms.specs.RangeTests.{can_evaluate};
ghost use Rattle.ac_forms.specs.declared.row.Row.TheVariants.{Eq};
ghost use Rattle.ac_omega_steps.specs.Bounds.{is_low, is_high};
ghost use Rattle.ac_forms.specs.RowColumns.{has_column};
ghost use Rattle.ac_omega_steps.specs.Choices.{rest_at, low_values, high_values, between, solved, is_equality_of, is_legal, lifted};
ghost use Rattle.ac_omega_steps.specs.ChoiceFits.{low_values_fit, high_values_fit, between_fits, solved_fits, lift_fits};
ghost use Rattle.ac_omega_steps.specs.Extremes.{greater, lesser, greatest_from, least_from};

use crate::choose::Choice;
use crate::column::{is_high, is_low};
use crate::replace::{product, sum};
use ac_forms::{Conj, Form, FormStop, Row, Wide, coefficient, set_number};
use std::alloc::{AllocError, Global};

/// A point with another number at a column.
fn with_value(
    alloc: Global,
    z: usize,
    point: &[i128],
    value: &i128,
) -> Result<Vec<i128>, AllocError>
    ensures { IfOk result (λ made. made.items ≡ set point.now z value.now) }
{
    let mut made = Vec::from_slice(alloc, point)?;
    set_number(made.as_mut_slice(), z, value);
    Ok(made)
}

/// The value of a form, if the numbers of the evaluation are numbers of `i128`.
#[tactic(auto, using(crate::proofs::Fitting::evaluate_true, crate::proofs::Fitting::evaluate_false))]
fn value(form: &Form, point: &[i128]) -> Option<i128>
    requires { length form.now.coefs ≤ length point.now }
    ensures { result ≡ cond (can_evaluate form.now point.now) (Some (value_at form.now point.now)) None }
{
    match form.eval(point) {
        Ok(value) => Some(value),
        Err(Wide) => None,
    }
}

/// The least number that a lower row allows for its column, at a point that has 0 there.
#[tactic(auto, using(ac_base::proofs::Bits::again_128, crate::proofs::Fitting::fits_true, crate::proofs::Fitting::fits_false, crate::proofs::Values::low_divisor))]
fn low_value(z: usize, form: &Form, point: &[i128]) -> Option<i128>
    requires within { length form.now.coefs ≤ length point.now }
    requires low { is_low z form.now ≡ true }
    requires cleared { set point.now z (pos 0) ≡ point.now }
    ensures { result ≡ cond (can_evaluate form.now (set point.now z (pos 0)) && fits (neg_ℤ (int_div_euclid (rest_at z form.now point.now) (coef z form.now)))) (Some (neg_ℤ (int_div_euclid (rest_at z form.now point.now) (coef z form.now)))) None }
{
    let Some(rest) = value(form, point) else {
        return None;
    };
    rest.div_euclid(form.coef(z)).checked_neg()
}

/// The greatest number that an upper row allows for its column, at a point that has 0 there.
#[tactic(auto, using(ac_base::proofs::Bits::again_128, crate::proofs::Fitting::fits_true, crate::proofs::Fitting::fits_false, crate::proofs::Values::high_divisor))]
fn high_value(z: usize, form: &Form, point: &[i128]) -> Option<i128>
    requires within { length form.now.coefs ≤ length point.now }
    requires high { is_high z form.now ≡ true }
    requires cleared { set point.now z (pos 0) ≡ point.now }
    ensures { result ≡ cond (can_evaluate form.now (set point.now z (pos 0)) && fits (neg_ℤ (coef z form.now))) (Some (int_div_euclid (rest_at z form.now point.now) (neg_ℤ (coef z form.now)))) None }
{
    let Some(rest) = value(form, point) else {
        return None;
    };
    let Some(size) = form.coef(z).checked_neg() else {
        return None;
    };
    Some(rest.div_euclid(size))
}

/// The greater of a number and of one that may be there.
#[tactic(auto, using(ac_base::proofs::Bits::again_128))]
fn greater(best: &Option<i128>, number: &i128) -> i128
    ensures { result ≡ greater best.now number.now }
{
    match best {
        None => *number,
        Some(best) => (*best).max(*number),
    }
}

/// The lesser of a number and of one that may be there.
#[tactic(auto, using(ac_base::proofs::Bits::again_128))]
fn lesser(best: &Option<i128>, number: &i128) -> i128
    ensures { result ≡ lesser best.now number.now }
{
    match best {
        None => *number,
        Some(best) => (*best).min(*number),
    }
}

/// The greatest of a number that may be there and of what a row allows, if it is a lower one.
#[tactic(auto, using(ac_base::proofs::Bits::again_128))]
fn low_step(z: usize, row: &Row, point: &[i128], best: &Option<i128>) -> Result<Option<i128>, Wide>
    requires within { IsRowOver (length point.now) row.now }
    requires cleared { set point.now z (pos 0) ≡ point.now }
    ensures { OkIff result (low_values_fit z (row.now ∷ []) point.now ≡ true) (greatest_from best.now (low_values z (row.now ∷ []) point.now)) }
{
    let Row::Ge(form) = row else {
        return Ok(*best);
    };
    if !is_low(z, form) {
        return Ok(*best);
    }
    let Some(number) = low_value(z, form, point) else {
        return Err(Wide);
    };
    Ok(Some(greater(best, &number)))
}

/// The least of a number that may be there and of what a row allows, if it is an upper one.
#[tactic(auto, using(ac_base::proofs::Bits::again_128))]
fn high_step(z: usize, row: &Row, point: &[i128], best: &Option<i128>) -> Result<Option<i128>, Wide>
    requires within { IsRowOver (length point.now) row.now }
    requires cleared { set point.now z (pos 0) ≡ point.now }
    ensures { OkIff result (high_values_fit z (row.now ∷ []) point.now ≡ true) (least_from best.now (high_values z (row.now ∷ []) point.now)) }
{
    let Row::Ge(form) = row else {
        return Ok(*best);
    };
    if !is_high(z, form) {
        return Ok(*best);
    }
    let Some(number) = high_value(z, form, point) else {
        return Err(Wide);
    };
    Ok(Some(lesser(best, &number)))
}

/// The least number that all lower rows of the column allow, if there is one.
#[tactic(auto, using(ac_forms::proofs::RowTests::rows_at, crate::proofs::Values::low_more, crate::proofs::Values::low_wide, crate::proofs::Values::low_end))]
fn greatest_low(z: usize, rows: &[Row], point: &[i128]) -> Result<Option<i128>, Wide>
    requires within { AreRowsOver (length point.now) rows.now }
    requires cleared { set point.now z (pos 0) ≡ point.now }
    ensures { OkIff result (low_values_fit z rows.now point.now ≡ true) (greatest_from None (low_values z rows.now point.now)) }
{
    let mut best = None;
    for row in rows {
        match low_step(z, row, point, &best) {
            Ok(next) => best = next,
            Err(Wide) => return Err(Wide),
        }
    }
    Ok(best)
}

/// The greatest number that all upper rows of the column allow, if there is one.
#[tactic(auto, using(ac_forms::proofs::RowTests::rows_at, crate::proofs::Values::high_more, crate::proofs::Values::high_wide, crate::proofs::Values::high_end))]
fn least_high(z: usize, rows: &[Row], point: &[i128]) -> Result<Option<i128>, Wide>
    requires within { AreRowsOver (length point.now) rows.now }
    requires cleared { set point.now z (pos 0) ≡ point.now }
    ensures { OkIff result (high_values_fit z rows.now point.now ≡ true) (least_from None (high_values z rows.now point.now)) }
{
    let mut best = None;
    for row in rows {
        match high_step(z, row, point, &best) {
            Ok(next) => best = next,
            Err(Wide) => return Err(Wide),
        }
    }
    Ok(best)
}

/// The number that replaces the column, whose bounds are from one side or have room between them: the least that all lower
/// rows allow; without one, the greatest that all upper rows allow; 0 without bounds.
#[tactic(auto, using(crate::proofs::Values::between_low, crate::proofs::Values::between_wide, crate::proofs::Values::between_high, crate::proofs::Values::between_none, crate::proofs::Values::between_stop))]
fn between(z: usize, rows: &[Row], point: &[i128]) -> Result<i128, Wide>
    requires within { AreRowsOver (length point.now) rows.now }
    requires cleared { set point.now z (pos 0) ≡ point.now }
    ensures { OkIff result (between_fits z rows.now point.now ≡ true) (between (low_values z rows.now point.now) (high_values z rows.now point.now)) }
{
    match greatest_low(z, rows, point) {
        Ok(Some(number)) => Ok(number),
        Ok(None) => match least_high(z, rows, point) {
            Ok(Some(number)) => Ok(number),
            Ok(None) => Ok(0),
            Err(Wide) => Err(Wide),
        },
        Err(Wide) => Err(Wide),
    }
}

/// The same number with the other sign, if it is one of `i128`.
#[tactic(auto, using(ac_base::proofs::Bits::again_128, crate::proofs::Fitting::fits_true, crate::proofs::Fitting::fits_false))]
fn negated(number: &i128) -> Option<i128>
    ensures { result ≡ cond (fits (neg_ℤ number.now)) (Some (neg_ℤ number.now)) None }
{
    number.checked_neg()
}

/// A number over another that is not 0, rounded toward 0, if that is a number of `i128`.
#[tactic(auto, using(ac_base::proofs::Bits::again_128, crate::proofs::Values::is_divisor, crate::proofs::Fitting::fits_true, crate::proofs::Fitting::fits_false))]
fn quotient(number: &i128, divisor: &i128) -> Option<i128>
    requires { divisor.now ≢ pos 0 }
    ensures { result ≡ cond (fits (int_div number.now divisor.now)) (Some (int_div number.now divisor.now)) None }
{
    number.checked_div(*divisor)
}

/// The number that replaces the column by an equality: `-e / c` for `c z + e = 0`.
#[tactic(auto, using(ac_base::proofs::Bits::again_128, crate::proofs::Values::has_divisor))]
fn solution(z: usize, equality: &Form, point: &[i128]) -> Option<i128>
    requires within { length equality.now.coefs ≤ length point.now }
    requires has { has_column z (Eq equality.now) ≡ true }
    requires cleared { set point.now z (pos 0) ≡ point.now }
    ensures { result ≡ cond (solved_fits z (Some (Eq equality.now)) point.now) (Some (solved z (Some (Eq equality.now)) point.now)) None }
{
    let Some(rest) = value(equality, point) else {
        return None;
    };
    quotient(&negated(&rest)?, &equality.coef(z))
}

/// The same for the equality at a place.
#[tactic(auto, using(crate::proofs::Keeping::row_within))]
fn solved_at(z: usize, at: usize, conj: &Conj, point: &[i128]) -> Option<i128>
    requires within { AreRowsOver (length point.now) conj.now.rows }
    requires has { is_equality_of z (slice_get conj.now.rows at) ≡ true }
    requires cleared { set point.now z (pos 0) ≡ point.now }
    ensures { result ≡ cond (solved_fits z (slice_get conj.now.rows at) point.now) (Some (solved z (slice_get conj.now.rows at) point.now)) None }
{
    match conj.rows.get(at) {
        Some(Row::Eq(equality)) => solution(z, equality, point),
        _ => Some(0),
    }
}

/// The point with the number between the column's bounds.
#[tactic(auto, using(ac_base::proofs::Bits::again_128))]
fn between_bounds(
    alloc: Global,
    z: usize,
    rows: &[Row],
    point: &[i128],
) -> Result<Vec<i128>, FormStop>
    requires { AreRowsOver (length point.now) rows.now }
    ensures { MadeWhere result (between_fits z rows.now point.now ≡ true) (λ made. made.items ≡ set point.now z (between (low_values z rows.now point.now) (high_values z rows.now point.now))) }
{
    let cleared = with_value(alloc, z, point, &0)?;
    match between(z, rows, cleared.as_slice()) {
        Ok(number) => Ok(with_value(alloc, z, point, &number)?),
        Err(Wide) => Err(FormStop::Wide),
    }
}

/// The point with the number that the equality at a place gives for the column.
#[tactic(auto, using(ac_base::proofs::Bits::again_128))]
fn by_solution(
    alloc: Global,
    z: usize,
    at: usize,
    conj: &Conj,
    point: &[i128],
) -> Result<Vec<i128>, FormStop>
    requires within { AreRowsOver (length point.now) conj.now.rows }
    requires has { is_equality_of z (slice_get conj.now.rows at) ≡ true }
    ensures { MadeWhere result (solved_fits z (slice_get conj.now.rows at) point.now ≡ true) (λ made. made.items ≡ set point.now z (solved z (slice_get conj.now.rows at) point.now)) }
{
    let cleared = with_value(alloc, z, point, &0)?;
    match solved_at(z, at, conj, cleared.as_slice()) {
        Some(number) => Ok(with_value(alloc, z, point, &number)?),
        None => Err(FormStop::Wide),
    }
}

/// The point with `m z + r` in place of the number z.
#[tactic(auto, using(ac_base::proofs::Bits::again_128))]
fn by_residue(
    alloc: Global,
    z: usize,
    m: &i128,
    r: &i128,
    point: &[i128],
) -> Result<Vec<i128>, FormStop>
    ensures { MadeWhere result ((fits (m.now *ℤ get_or point.now z (pos 0)) && fits (m.now *ℤ get_or point.now z (pos 0) +ℤ r.now)) ≡ true) (λ made. made.items ≡ set point.now z (m.now *ℤ get_or point.now z (pos 0) +ℤ r.now)) }
{
    let Some(multiple) = product(m, &coefficient(point, z)) else {
        return Err(FormStop::Wide);
    };
    let Some(number) = sum(&multiple, r) else {
        return Err(FormStop::Wide);
    };
    Ok(with_value(alloc, z, point, &number)?)
}

/// The point of a conjunction that a point of what a choice leaves goes back to.
pub(crate) fn lifted(
    alloc: Global,
    conj: &Conj,
    choice: &Choice,
    point: &[i128],
) -> Result<Vec<i128>, FormStop>
    requires made { IsWellMade conj.now }
    requires legal { is_legal choice.now conj.now ≡ true }
    requires columns { length point.now ≡ conj.now.columns }
    ensures { MadeWhere result (lift_fits choice.now conj.now.rows point.now ≡ true) (λ p. p.items ≡ lifted choice.now conj.now.rows point.now) }
{
    let rows = conj.rows.as_slice();
    match choice {
        Choice::Drop(z) | Choice::Shadow(z) => between_bounds(alloc, *z, rows, point),
        Choice::Equal(z, at) => by_solution(alloc, *z, *at, conj, point),
        Choice::Residue(z, m, r) => by_residue(alloc, *z, m, r, point),
        Choice::Splinter(_, _, _) => Ok(Vec::from_slice(alloc, point)?),
    }
}
