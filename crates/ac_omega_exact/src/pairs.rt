//! The exact pairs of a lower and an upper row of a column.
ghost use Rattle.std.specs.Prelude.{◌≡◌, ◌&&◌, ◌||◌, ◌-ℤ◌, ◌*ℤ◌, neg_ℤ, ◌≤ℤ◌, pos, true, cond, is_some, IfOk, IfSome, Some, None};
ghost use Rattle.ac_forms.specs.Affine.{coef};
ghost use Rattle.ac_forms.specs.Fits.{fits};
ghost use Rattle.ac_forms.specs.NormalRows.{normal_ge};
ghost use Rattle.ac_forms.specs.Rows.{HasModulus};
ghost use Rattle.ac_forms.specs.Standing.{normal_of};
ghost use Rattle.ac_forms.specs.FormStops.{MadeIff, MadeWhere};
ghost use Rattle.ac_forms.specs.RangeTests.{normal_fits};
ghost use Rattle.ac_omega_steps.specs.Bounds.{without, is_low, is_high, low_bound, high_bound, rows_without};
ghost use Rattle.ac_omega_steps.specs.ChoiceFits.{shadow_fits};
ghost use Rattle.ac_omega_steps.specs.Choices.{shadow_form};
ghost use Rattle.ac_omega_exact.specs.Exact.{real_form};
ghost use Rattle.ac_omega_exact.specs.Reasons.{IsImpliedBy, IsLeftFor, IsReason};
ghost use Rattle.ac_omega_exact.specs.ExactnessTests.{is_same_left, is_implied, is_exact, pair_fits};

use crate::implied::{implying_row, implying_rows};
use ac_forms::{Form, FormStop, NormalRow, Row};
use ac_omega_steps::combination;
use std::alloc::{AllocError, Global};

/// Why the dark shadow of a pair loses no point of the real one.
#[derive(Clone, Copy, PartialEq, Eq)]
pub enum Reason {
    /// Both shadows have the same normal form.
    SameNormalForm,
    /// The row at the place implies the dark shadow.
    Row(usize),
    /// The sum of the rows at the two places does.
    Rows(usize, usize),
}

/// The real shadow of a pair, and the constant of the dark one, which has the same coefficients.
#[derive(Drop)]
struct Shadows {
    real: Form,
    dark: i128,
}

/// What is left of the dark and of the real shadow of a pair in normal form.
#[derive(Drop)]
struct LeftShadows {
    dark: NormalRow,
    real: NormalRow,
}

/// The form without a column.
#[tactic(auto, using(ac_base::proofs::Bits::again_128))]
fn without(alloc: Global, z: usize, form: &Form) -> Result<Form, AllocError>
    ensures { IfOk result (λ made. made ≡ without z form.now) }
{
    form.with_numbers(alloc, z, &0, &form.konst())
}

/// The opposite of a column's coefficient, if it is a number of `i128`.
#[tactic(auto, using(ac_base::proofs::Bits::again_128, ac_omega_steps::proofs::Fitting::fits_true, ac_omega_steps::proofs::Fitting::fits_false))]
fn opposite_coef(z: usize, form: &Form) -> Option<i128>
    ensures { result ≡ cond (fits (neg_ℤ (coef z form.now))) (Some (neg_ℤ (coef z form.now))) None }
{
    form.coef(z).checked_neg()
}

/// A positive number less 1.
#[tactic(auto, using(ac_base::proofs::Bits::again_128))]
fn less_one(number: &i128) -> i128
    requires { pos 1 ≤ℤ number.now }
    ensures { result ≡ number.now -ℤ pos 1 }
{
    *number - 1
}

/// A product, if it is a number of `i128`.
#[tactic(auto, using(ac_base::proofs::Bits::again_128, ac_omega_steps::proofs::Fitting::fits_true, ac_omega_steps::proofs::Fitting::fits_false))]
fn product(left: &i128, right: &i128) -> Option<i128>
    ensures { result ≡ cond (fits (left.now *ℤ right.now)) (Some (left.now *ℤ right.now)) None }
{
    left.checked_mul(*right)
}

/// A difference, if it is a number of `i128`.
#[tactic(auto, using(ac_base::proofs::Bits::again_128, ac_omega_steps::proofs::Fitting::fits_true, ac_omega_steps::proofs::Fitting::fits_false))]
fn difference(left: &i128, right: &i128) -> Option<i128>
    ensures { result ≡ cond (fits (left.now -ℤ right.now)) (Some (left.now -ℤ right.now)) None }
{
    left.checked_sub(*right)
}

/// The shadows of bounds `b z + e >= 0` and `-a z + f >= 0`, where the numbers of the dark one stay in `i128`.
#[tactic(auto, unfolding(ac_omega_steps::specs::Combination::combination), using(ac_base::proofs::Bits::again_128))]
fn shadows_between(
    alloc: Global,
    b: &i128,
    e: &Form,
    a: &i128,
    f: &Form,
) -> Result<Option<Shadows>, AllocError>
    requires low { pos 1 ≤ℤ b.now }
    requires high { pos 1 ≤ℤ a.now }
    ensures { IfOk result (λ made. made ≡ cond (shadow_fits (record { size = b.now; rest = e.now }) (record { size = a.now; rest = f.now })) (Some (record { real = real_form (record { size = b.now; rest = e.now }) (record { size = a.now; rest = f.now }); dark = (shadow_form (record { size = b.now; rest = e.now }) (record { size = a.now; rest = f.now })).konst })) None) }
{
    let Some(real) = combination(alloc, *a, e, *b, f)? else {
        return Ok(None);
    };
    let Some(lost) = product(&less_one(a), &less_one(b)) else {
        return Ok(None);
    };
    let Some(dark) = difference(&real.konst(), &lost) else {
        return Ok(None);
    };
    Ok(Some(Shadows { real, dark }))
}

/// The shadows of a lower and an upper row of a column, where the numbers of the dark one stay in `i128`.
#[tactic(auto, using(ac_base::proofs::Bits::again_128, crate::proofs::Sizes::low_size, crate::proofs::Sizes::high_size))]
fn shadows_of(
    alloc: Global,
    z: usize,
    low: &Form,
    high: &Form,
) -> Result<Option<Shadows>, AllocError>
    requires low { is_low z low.now ≡ true }
    requires high { is_high z high.now ≡ true }
    ensures { IfOk result (λ made. made ≡ cond (fits (neg_ℤ (coef z high.now)) && shadow_fits (low_bound z low.now) (high_bound z high.now)) (Some (record { real = real_form (low_bound z low.now) (high_bound z high.now); dark = (shadow_form (low_bound z low.now) (high_bound z high.now)).konst })) None) }
{
    let b = low.coef(z);
    let Some(a) = opposite_coef(z, high) else {
        return Ok(None);
    };
    let below = without(alloc, z, low)?;
    let above = without(alloc, z, high)?;
    let made = shadows_between(alloc, &b, &below, &a, &above)?;
    Ok(made)
}

/// The normal form of a row, where its numbers stay in `i128`.
#[tactic(auto, using(ac_forms::proofs::Standings::normal_steps))]
fn normal_of(alloc: Global, row: &Row) -> Result<Option<NormalRow>, AllocError>
    requires { HasModulus row.now }
    ensures { IfOk result (λ made. made ≡ normal_of row.now) }
{
    match row.normalise(alloc) {
        Ok(normal) => Ok(Some(normal)),
        Err(FormStop::Wide) => Ok(None),
        Err(FormStop::Memory(want)) => Err(want),
    }
}

/// What is left of the dark shadow and of the real one, where the numbers stay in `i128`.
fn left_of(alloc: Global, shadows: Shadows) -> Result<Option<LeftShadows>, AllocError>
    ensures { IfOk result (λ made. made ≡ cond (normal_fits (Row.Ge shadows.real)) (Some (record { dark = normal_ge (record { konst = shadows.dark; coefs = shadows.real.coefs }); real = normal_ge shadows.real })) None) }
{
    let dark = Row::Ge(Form::from_parts(alloc, shadows.dark, shadows.real.coefs())?);
    let Shadows { real, dark: _ } = shadows;
    let real = Row::Ge(real);
    let Some(dark) = normal_of(alloc, &dark)? else {
        return Ok(None);
    };
    let Some(real) = normal_of(alloc, &real)? else {
        return Ok(None);
    };
    Ok(Some(LeftShadows { dark, real }))
}

/// What is left of the shadows of a lower and an upper row of a column, where the numbers stay in `i128`.
fn left_shadows(
    alloc: Global,
    z: usize,
    low: &Form,
    high: &Form,
) -> Result<Option<LeftShadows>, AllocError>
    requires low { is_low z low.now ≡ true }
    requires high { is_high z high.now ≡ true }
    ensures { IfOk result (λ made. made ≡ cond (pair_fits (low_bound z low.now) (high_bound z high.now)) (Some (record { dark = normal_ge (shadow_form (low_bound z low.now) (high_bound z high.now)); real = normal_ge (real_form (low_bound z low.now) (high_bound z high.now)) })) None) }
{
    let Some(shadows) = shadows_of(alloc, z, low, high)? else {
        return Ok(None);
    };
    let made = left_of(alloc, shadows)?;
    Ok(made)
}

/// Whether the same of two inequalities is left.
fn is_same_left(first: &NormalRow, second: &NormalRow) -> bool
    ensures { result ≡ is_same_left first.now second.now }
{
    match (first, second) {
        (NormalRow::Kept(Row::Ge(f)), NormalRow::Kept(Row::Ge(g))) => *f == *g,
        (NormalRow::Dropped, NormalRow::Dropped) | (NormalRow::Absurd, NormalRow::Absurd) => true,
        _ => false,
    }
}

/// Why rows without a column imply what is left of an inequality.
fn implied(z: usize, rows: &[Row], left: &NormalRow) -> Option<Reason>
    ensures found { is_some result ≡ is_implied (rows_without z rows.now) left.now }
    ensures reason { IfSome result (λ r. IsImpliedBy z rows.now left.now r) }
{
    let NormalRow::Kept(Row::Ge(wanted)) = left else {
        return None;
    };
    if let Some(i) = implying_row(z, rows, wanted) {
        return Some(Reason::Row(i));
    }
    let (i, j) = implying_rows(z, rows, wanted)?;
    Some(Reason::Rows(i, j))
}

/// Why a pair is exact beside rows, by what is left of its shadows.
fn reason_for(z: usize, rows: &[Row], left: &LeftShadows) -> Option<Reason>
    ensures found { is_some result ≡ (is_same_left left.now.dark left.now.real || is_implied (rows_without z rows.now) left.now.dark) }
    ensures reason { IfSome result (λ r. IsLeftFor z rows.now left.now.dark left.now.real r) }
{
    if is_same_left(&left.dark, &left.real) {
        return Some(Reason::SameNormalForm);
    }
    implied(z, rows, &left.dark)
}

/// Why the pair of a lower and an upper row of a column is exact beside the rows of a conjunction, none where it isn't:
/// what is left of its dark and of its real shadow in normal form is the same, or an inequality of the rows without the
/// column, or the sum of two, has the coefficients of the dark shadow's normal form and at most its constant. `Wide` exactly
/// where a number of the dark shadow or of its normal form leaves `i128`.
pub fn reason_of(
    alloc: Global,
    z: usize,
    rows: &[Row],
    low: &Form,
    high: &Form,
) -> Result<Option<Reason>, FormStop>
    requires low { is_low z low.now ≡ true }
    requires high { is_high z high.now ≡ true }
    ensures exact { MadeWhere result (pair_fits (low_bound z low.now) (high_bound z high.now) ≡ true) (λ why. is_some why ≡ is_exact z rows.now (low_bound z low.now) (high_bound z high.now)) }
    ensures reason { IfOk result (λ why. IfSome why (λ r. IsReason z rows.now (low_bound z low.now) (high_bound z high.now) r)) }
{
    let Some(left) = left_shadows(alloc, z, low, high)? else {
        return Err(FormStop::Wide);
    };
    Ok(reason_for(z, rows, &left))
}

/// Whether the pair of a lower and an upper row of a column is exact beside the rows of a conjunction: its dark shadow loses
/// no point of the real one at which the rows hold. `Wide` exactly where a number of the dark shadow or of its normal form
/// leaves `i128`.
pub fn is_exact(
    alloc: Global,
    z: usize,
    rows: &[Row],
    low: &Form,
    high: &Form,
) -> Result<bool, FormStop>
    requires low { is_low z low.now ≡ true }
    requires high { is_high z high.now ≡ true }
    ensures { MadeIff result (pair_fits (low_bound z low.now) (high_bound z high.now) ≡ true) (is_exact z rows.now (low_bound z low.now) (high_bound z high.now)) }
{
    let why = reason_of(alloc, z, rows, low, high)?;
    Ok(why.is_some())
}
