//! The search for rows that imply an inequality: one row, or the sum of two.
ghost use Rattle.std.specs.Prelude.{◌≡◌, ◌+ℤ◌, int_le, not, is_some, IfSome, Some, slice_get, [], ◌∷◌};
ghost use Rattle.std.specs.Ordering.{int_eq, is_eq};
ghost use Rattle.ac_forms.specs.Affine.{plus, added};
ghost use Rattle.ac_forms.specs.FormOrder.{columns_cmp};
ghost use Rattle.ac_omega_steps.specs.Bounds.{rows_without};
ghost use Rattle.ac_forms.specs.RowColumns.{has_column};
ghost use Rattle.ac_omega_exact.specs.ExactnessTests.{is_at_most, is_implied_by_one, is_implied_with, is_implied_by_two};
ghost use Rattle.ac_omega_exact.specs.Reasons.{ImpliesAt, ImpliesWith, ImplyAt};

use ac_forms::{Form, Row, coefficient};

/// Whether two numbers add up to a third.
#[tactic(auto, using(ac_base::proofs::Bits::again_128, crate::proofs::Summing::past_sum))]
fn adds_up(x: i128, y: i128, sum: i128) -> bool
    ensures { result ≡ int_eq (x +ℤ y) sum }
{
    match x.checked_add(y) {
        Some(made) => made == sum,
        None => false,
    }
}

/// Whether the sum of two numbers is at most a third.
#[tactic(auto, using(ac_base::proofs::Bits::again_128, crate::proofs::Summing::sum_below))]
fn adds_to_at_most(x: i128, y: i128, bound: i128) -> bool
    ensures { result ≡ int_le (x +ℤ y) bound }
{
    match x.checked_add(y) {
        Some(made) => made <= bound,
        None => x < 0,
    }
}

/// Whether two lists of coefficients are the same, a missing one being 0.
fn are_same(left: &[i128], right: &[i128]) -> bool
    ensures { result ≡ is_eq (columns_cmp left.now right.now) }
{
    let columns = left.len().max(right.len());
    for column in 0..columns {
        if coefficient(left, column) != coefficient(right, column) {
            return false;
        }
    }
    true
}

/// Whether two lists of coefficients add up to a third, a missing one being 0.
#[tactic(auto, using(ac_base::proofs::Bits::again_128, crate::proofs::Summing::sum_steps))]
fn add_up(left: &[i128], right: &[i128], sum: &[i128]) -> bool
    ensures { result ≡ is_eq (columns_cmp (plus left.now right.now) sum.now) }
{
    let columns = left.len().max(right.len()).max(sum.len());
    for column in 0..columns {
        let x = coefficient(left, column);
        let y = coefficient(right, column);
        let made = coefficient(sum, column);
        if !adds_up(x, y, made) {
            return false;
        }
    }
    true
}

/// Whether `form >= 0` implies `wanted >= 0` by its constant.
fn is_at_most(form: &Form, wanted: &Form) -> bool
    ensures { result ≡ is_at_most form.now wanted.now }
{
    form.konst() <= wanted.konst() && are_same(form.coefs(), wanted.coefs())
}

/// Whether the sum of two forms implies a third by its constant.
fn is_sum_at_most(first: &Form, second: &Form, wanted: &Form) -> bool
    ensures { result ≡ is_at_most (added first.now second.now) wanted.now }
{
    adds_to_at_most(first.konst(), second.konst(), wanted.konst())
        && add_up(first.coefs(), second.coefs(), wanted.coefs())
}

/// Whether the form of a row does not have a column.
#[tactic(auto, using(ac_base::proofs::Bits::again_128))]
fn is_free(z: usize, form: &Form) -> bool
    ensures { result ≡ not (has_column z (Row.Ge form.now)) }
{
    form.coef(z) == 0
}

/// Whether a row without a column implies a form.
fn implies(z: usize, row: &Row, wanted: &Form) -> bool
    ensures { result ≡ is_implied_by_one (rows_without z (row.now ∷ [])) wanted.now }
{
    match row {
        Row::Ge(form) => is_free(z, form) && is_at_most(form, wanted),
        Row::Eq(_) | Row::Div(_, _) => false,
    }
}

/// Whether the sum of a form and a row without a column implies another form.
fn implies_with(z: usize, first: &Form, row: &Row, wanted: &Form) -> bool
    ensures { result ≡ is_implied_with first.now (rows_without z (row.now ∷ [])) wanted.now }
{
    match row {
        Row::Ge(form) => is_free(z, form) && is_sum_at_most(first, form, wanted),
        Row::Eq(_) | Row::Div(_, _) => false,
    }
}

/// The place of the first row without a column that implies a form.
pub(crate) fn implying_row(z: usize, rows: &[Row], wanted: &Form) -> Option<usize>
    ensures found { is_some result ≡ is_implied_by_one (rows_without z rows.now) wanted.now }
    ensures place { IfSome result (λ i. ImpliesAt z rows.now i wanted.now) }
{
    for (i, row) in rows.iter().enumerate() {
        if implies(z, row, wanted) {
            return Some(i);
        }
    }
    None
}

/// The place of the first row without a column whose sum with a form implies another.
fn second_row(z: usize, first: &Form, rows: &[Row], wanted: &Form) -> Option<usize>
    ensures found { is_some result ≡ is_implied_with first.now (rows_without z rows.now) wanted.now }
    ensures place { IfSome result (λ i. ImpliesWith z first.now rows.now i wanted.now) }
{
    for (i, row) in rows.iter().enumerate() {
        if implies_with(z, first, row, wanted) {
            return Some(i);
        }
    }
    None
}

/// The place of the first row without a column whose sum with a row implies a form, if the row does not have the column.
fn beside(z: usize, row: &Row, rows: &[Row], wanted: &Form) -> Option<usize>
    ensures found { is_some result ≡ is_implied_by_two (rows_without z (row.now ∷ [])) (rows_without z rows.now) wanted.now }
    ensures place { IfSome result (λ j. ImplyAt z (row.now ∷ []) rows.now 0 j wanted.now) }
{
    let Row::Ge(form) = row else {
        return None;
    };
    if !is_free(z, form) {
        return None;
    }
    second_row(z, form, rows, wanted)
}

/// The places of two rows without a column whose sum implies a form.
pub(crate) fn implying_rows(z: usize, rows: &[Row], wanted: &Form) -> Option<(usize, usize)>
    ensures found { is_some result ≡ is_implied_by_two (rows_without z rows.now) (rows_without z rows.now) wanted.now }
    ensures place { IfSome result (λ p. ImplyAt z rows.now rows.now p.0 p.1 wanted.now) }
{
    for (i, row) in rows.iter().enumerate() {
        if let Some(j) = beside(z, row, rows, wanted) {
            return Some((i, j));
        }
    }
    None
}
