ghost use Rattle.std.specs.Prelude.{◌≡◌, ◌<◌, ◌^◌, not, pos, ◌≤ℤ◌, SomeIff, IfSome, Some, true, [], ◌∷◌};
ghost use Rattle.ac_forms.specs.Fits.{Fits};
ghost use Rattle.ac_forms.specs.Rows.{HasModulus, HaveModuli};
ghost use Rattle.ac_omega_steps.specs.Bounds.{lows, highs, is_none, is_one_sided};
ghost use Rattle.ac_forms.specs.RowColumns.{has_column};
ghost use Rattle.ac_omega_steps.specs.Choices.{is_equality_of, is_lower_row};
ghost use Rattle.ac_omega_steps.specs.ChoiceFits.{sizes_fit};
ghost use Rattle.ac_omega.specs.CommonMultiple.{IsLcm};
ghost use Rattle.ac_omega_certify.specs.Alternatives.{first_equality, has_divisibility, lcm, common_modulus, greatest_size, last_splinter, last_splinter_fits};

use ac_base::greatest_common_divisor;
use ac_forms::{Row, has_column};

/// Whether a row is an equality that has a column.
fn is_equality_of(z: usize, row: &Row) -> bool
    ensures { result ≡ is_equality_of z (Some row.now) }
{
    match row {
        Row::Eq(_) => has_column(z, row),
        Row::Div(_, _) | Row::Ge(_) => false,
    }
}

/// The place of the first equality that has a column.
#[tactic(auto, using(crate::proofs::Scans::first_steps))]
pub(crate) fn first_equality(z: usize, rows: &[Row]) -> Option<usize>
    ensures { result ≡ first_equality z 0 rows.now }
{
    for (i, row) in rows.iter().enumerate() {
        if is_equality_of(z, row) {
            return Some(i);
        }
    }
    None
}

/// Whether a row is a divisibility that has a column.
fn is_divisibility_of(z: usize, row: &Row) -> bool
    ensures { result ≡ has_divisibility z (row.now ∷ []) }
{
    match row {
        Row::Div(_, _) => has_column(z, row),
        Row::Eq(_) | Row::Ge(_) => false,
    }
}

/// Whether some divisibility has a column.
pub(crate) fn has_divisibility(z: usize, rows: &[Row]) -> bool
    ensures { result ≡ has_divisibility z rows.now }
{
    for row in rows {
        if is_divisibility_of(z, row) {
            return true;
        }
    }
    false
}

/// The least common multiple of two numbers, where it is below `2^128`.
fn least_common_multiple(a: u128, b: u128) -> Option<u128>
    requires { 0 < a }
    ensures exact { SomeIff result (lcm a b < 2 ^ 128) (lcm a b) }
    ensures least { IfSome result (λ m. IsLcm a b m) }
{
    let divisor = greatest_common_divisor(a, b);
    (a / divisor).checked_mul(b)
}

/// The least common multiple of a number and of a row's modulus, if the row is a divisibility that has a column.
fn with_modulus(z: usize, multiple: u128, row: &Row) -> Option<u128>
    requires positive { 0 < multiple }
    requires modulus { HasModulus row.now }
    ensures { SomeIff result (common_modulus z multiple (row.now ∷ []) < 2 ^ 128) (common_modulus z multiple (row.now ∷ [])) }
{
    match row {
        Row::Div(modulus, _) => {
            if has_column(z, row) {
                least_common_multiple(multiple, modulus.unsigned_abs())
            } else {
                Some(multiple)
            }
        }
        Row::Eq(_) | Row::Ge(_) => Some(multiple),
    }
}

/// The least common multiple of the moduli of all divisibilities that have a column; none exactly where it leaves `i128`.
pub(crate) fn common_modulus(z: usize, rows: &[Row]) -> Option<i128>
    requires { HaveModuli rows.now }
    ensures { SomeIff result (Fits (pos (common_modulus z 1 rows.now))) (pos (common_modulus z 1 rows.now)) }
{
    let mut multiple: u128 = 1;
    for row in rows {
        match with_modulus(z, multiple, row) {
            Some(next) => multiple = next,
            None => return None,
        }
    }
    i128::try_from(multiple).ok()
}

/// Whether a row bounds a column from below.
#[tactic(auto, using(ac_base::proofs::Bits::again_128))]
pub(crate) fn is_lower_row(z: usize, row: &Row) -> bool
    ensures { result ≡ is_lower_row z (Some row.now) }
{
    match row {
        Row::Ge(form) => form.coef(z) > 0,
        Row::Eq(_) | Row::Div(_, _) => false,
    }
}

/// Whether a row bounds a column from above.
#[tactic(auto, using(ac_base::proofs::Bits::again_128, crate::proofs::Sides::upper_is))]
fn is_upper_row(z: usize, row: &Row) -> bool
    ensures { not result ≡ is_none (highs z (row.now ∷ [])) }
{
    match row {
        Row::Ge(form) => form.coef(z) < 0,
        Row::Eq(_) | Row::Div(_, _) => false,
    }
}

/// Whether no row bounds a column from below.
#[tactic(auto, using(crate::proofs::Sides::side_steps))]
fn has_no_lower(z: usize, rows: &[Row]) -> bool
    ensures { result ≡ is_none (lows z rows.now) }
{
    for row in rows {
        if is_lower_row(z, row) {
            return false;
        }
    }
    true
}

/// Whether no row bounds a column from above.
#[tactic(auto, using(crate::proofs::Sides::side_steps))]
fn has_no_upper(z: usize, rows: &[Row]) -> bool
    ensures { result ≡ is_none (highs z rows.now) }
{
    for row in rows {
        if is_upper_row(z, row) {
            return false;
        }
    }
    true
}

/// Whether the rows bound a column from one side only, or not at all.
pub(crate) fn is_one_sided(z: usize, rows: &[Row]) -> bool
    ensures { result ≡ is_one_sided z rows.now }
{
    has_no_lower(z, rows) || has_no_upper(z, rows)
}

/// The size of a column's coefficient in a row that bounds it from above, 0 for any other row; none exactly where it
/// leaves `i128`.
#[tactic(auto, using(ac_base::proofs::Bits::again_128, crate::proofs::Sides::size_steps))]
fn upper_size(z: usize, row: &Row) -> Option<i128>
    ensures { SomeIff result (sizes_fit (highs z (row.now ∷ [])) ≡ true) (greatest_size (highs z (row.now ∷ []))) }
{
    match row {
        Row::Ge(form) => {
            let coef = form.coef(z);
            if coef < 0 {
                coef.checked_neg()
            } else {
                Some(0)
            }
        }
        Row::Eq(_) | Row::Div(_, _) => Some(0),
    }
}

/// The greatest size of a column's coefficient in the rows that bound it from above, 0 where there is none; none exactly
/// where one of the sizes leaves `i128`.
#[tactic(auto, using(ac_base::proofs::Bits::again_128))]
pub(crate) fn greatest_size(z: usize, rows: &[Row]) -> Option<i128>
    ensures { SomeIff result (sizes_fit (highs z rows.now) ≡ true) (greatest_size (highs z rows.now)) }
{
    let mut greatest: i128 = 0;
    for row in rows {
        match upper_size(z, row) {
            Some(size) => greatest = greatest.max(size),
            None => return None,
        }
    }
    Some(greatest)
}

/// The last splinter of a lower row with coefficient `b`, where `a` is the greatest size of an upper row; none exactly
/// where a number that makes it leaves `i128`.
#[tactic(auto, using(ac_base::proofs::Bits::again_128, crate::proofs::Sides::last_steps))]
pub(crate) fn last_splinter(a: i128, b: i128) -> Option<i128>
    requires { pos 1 ≤ℤ a }
    ensures { SomeIff result (last_splinter_fits a b ≡ true) (last_splinter a b) }
{
    let Some(product) = a.checked_mul(b) else {
        return None;
    };
    let Some(less) = product.checked_sub(a) else {
        return None;
    };
    let Some(bound) = less.checked_sub(b) else {
        return None;
    };
    Some(bound.div_euclid(a))
}
