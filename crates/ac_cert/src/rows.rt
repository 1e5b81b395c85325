ghost use Rattle.std.specs.Prelude.{◌≡◌, ℕ, Option, Some, true, option_map, option_copied, ◌≤ℤ◌, ◌*ℤ◌, neg_ℤ, pos, IfOk, slice_get, unsigned_abs};
ghost use Rattle.std.specs.Ordering.{int_eq};
ghost use Rattle.ac_forms.specs.Fits.{Fits};
ghost use Rattle.ac_forms.specs.declared.row.Row.TheVariants.{Eq, Div, Ge};
ghost use Rattle.ac_omega_steps.specs.Combination.{combination};
ghost use Rattle.ac_cert.specs.Rules.{term_form, sum_from, are_equalities, is_equality, sum_row, cut_row, div_scale_row, div_add_row, div_mod_stands, divides_form, div_mod_row, reduced_row, div_eq_row, eq_cut_row, zero_form};

use crate::numbers::{
    divides_each, divides_number, greater_modulus, is_zero, multiple, quotient_form,
};
use ac_forms::{Conj, Form, Row};
use ac_omega_steps::combination;
use std::alloc::{AllocError, Global};

/// The form of a row that may stand in a sum with this factor.
#[tactic(auto, using(ac_base::proofs::Bits::again_128))]
fn term_form<'a>(rows: &'a [Row], row: usize, factor: i128) -> Option<&'a Form>
    ensures { option_copied result ≡ term_form factor (slice_get rows.now row) }
{
    match rows.get(row) {
        Some(Row::Eq(form)) => Some(form),
        Some(Row::Ge(form)) => { if factor >= 0 { Some(form) } else { None } }
        _ => None,
    }
}

/// The sum of multiples of rows.
#[tactic(auto, using(ac_base::proofs::Bits::again_128))]
fn sum_of(alloc: Global, rows: &[Row], terms: &[(usize, i128)]) -> Result<Option<Form>, AllocError>
    ensures { IfOk result (λ sum. sum ≡ sum_from zero_form terms.now rows.now) }
{
    let mut sum = Form::constant(alloc, 0, 0)?;
    for term in terms {
        let Some(form) = term_form(rows, term.0, term.1) else {
            return Ok(None);
        };
        match combination(alloc, 1, &sum, term.1, form)? {
            Some(next) => sum = next,
            None => return Ok(None),
        }
    }
    Ok(Some(sum))
}

/// Whether a row is there and is `Eq`.
#[tactic(auto, using(ac_base::proofs::Bits::again_128))]
fn is_equality(rows: &[Row], row: usize) -> bool
    ensures { result ≡ is_equality (slice_get rows.now row) }
{
    match rows.get(row) {
        Some(Row::Eq(_)) => true,
        _ => false,
    }
}

/// Whether all terms are of `Eq` rows.
#[tactic(auto, using(ac_base::proofs::Bits::again_128))]
fn are_equalities(rows: &[Row], terms: &[(usize, i128)]) -> bool
    ensures { result ≡ are_equalities terms.now rows.now }
{
    for term in terms {
        if !is_equality(rows, term.0) {
            return false;
        }
    }
    true
}

/// The row of a sum.
#[tactic(auto, unfolding(crate::specs::Rules::sum_row))]
pub(crate) fn sum_row(
    alloc: Global,
    rows: &[Row],
    terms: &[(usize, i128)],
) -> Result<Option<Row>, AllocError>
    ensures { IfOk result (λ row. row ≡ sum_row terms.now rows.now) }
{
    if terms.len() == 0 {
        return Ok(None);
    }
    let Some(sum) = sum_of(alloc, rows, terms)? else {
        return Ok(None);
    };
    if are_equalities(rows, terms) {
        Ok(Some(Row::Eq(sum)))
    } else {
        Ok(Some(Row::Ge(sum)))
    }
}

/// The row of a cut.
#[tactic(auto, using(ac_base::proofs::Bits::again_128))]
pub(crate) fn cut_row(
    alloc: Global,
    rows: &[Row],
    row: usize,
    divisor: &i128,
) -> Result<Option<Row>, AllocError>
    ensures { IfOk result (λ made. made ≡ cut_row divisor.now (slice_get rows.now row)) }
{
    match rows.get(row) {
        Some(Row::Ge(form)) => cut_by(alloc, form, divisor),
        _ => Ok(None),
    }
}

/// The cut of `form >= 0`.
#[tactic(auto, using(ac_base::proofs::Bits::again_128))]
fn cut_by(alloc: Global, form: &Form, divisor: &i128) -> Result<Option<Row>, AllocError>
    ensures { IfOk result (λ made. made ≡ cut_row divisor.now (Some (Ge form.now))) }
{
    if *divisor < 1 {
        return Ok(None);
    }
    if !divides_each(*divisor, form.coefs()) {
        return Ok(None);
    }
    Ok(Some(Row::Ge(quotient_form(alloc, *divisor, form)?)))
}

/// The row of a multiple of a divisibility.
pub(crate) fn div_scale_row(
    alloc: Global,
    rows: &[Row],
    row: usize,
    k: &i128,
) -> Result<Option<Row>, AllocError>
    ensures { IfOk result (λ made. made ≡ div_scale_row k.now (slice_get rows.now row)) }
{
    match rows.get(row) {
        Some(Row::Div(modulus, form)) => div_scaled(alloc, modulus, form, k),
        _ => Ok(None),
    }
}

/// A multiple of a divisibility.
#[tactic(auto, using(ac_base::proofs::Bits::again_128))]
fn div_scaled(
    alloc: Global,
    modulus: &i128,
    form: &Form,
    k: &i128,
) -> Result<Option<Row>, AllocError>
    ensures { IfOk result (λ made. made ≡ div_scale_row k.now (Some (Div modulus.now form.now))) }
{
    if *k == 0 {
        return Ok(None);
    }
    let Some(greater) = greater_modulus(*modulus, *k) else {
        return Ok(None);
    };
    match multiple(alloc, *k, form)? {
        Some(form) => Ok(Some(Row::Div(greater, form))),
        None => Ok(None),
    }
}

/// The row of a combination of two divisibilities.
pub(crate) fn div_add_row(
    alloc: Global,
    rows: &[Row],
    row: usize,
    k: &i128,
    other: usize,
    l: &i128,
) -> Result<Option<Row>, AllocError>
    ensures { IfOk result (λ made. made ≡ div_add_row k.now (slice_get rows.now row) l.now (slice_get rows.now other)) }
{
    let Some(Row::Div(modulus, form)) = rows.get(row) else {
        return Ok(None);
    };
    let Some(Row::Div(same, further)) = rows.get(other) else {
        return Ok(None);
    };
    div_summed(alloc, modulus, form, k, same, further, l)
}

/// A combination of two divisibilities.
#[tactic(auto, using(ac_base::proofs::Bits::again_128))]
fn div_summed(
    alloc: Global,
    modulus: &i128,
    form: &Form,
    k: &i128,
    same: &i128,
    further: &Form,
    l: &i128,
) -> Result<Option<Row>, AllocError>
    ensures { IfOk result (λ made. made ≡ div_add_row k.now (Some (Div modulus.now form.now)) l.now (Some (Div same.now further.now))) }
{
    if same_number(modulus, same) {
        Ok(div_added(modulus, combination(alloc, *k, form, *l, further)?))
    } else {
        Ok(None)
    }
}

/// Whether two numbers are equal.
#[tactic(auto, using(ac_base::proofs::Bits::again_128))]
fn same_number(number: &i128, other: &i128) -> bool
    ensures { result ≡ int_eq number.now other.now }
{
    *number == *other
}

/// The divisibility of a form that may be there.
#[tactic(auto, using(ac_base::proofs::Bits::again_128))]
fn div_added(modulus: &i128, sum: Option<Form>) -> Option<Row>
    ensures { result ≡ option_map (λ h. Div modulus.now h) sum }
{
    match sum {
        Some(sum) => Some(Row::Div(*modulus, sum)),
        None => None,
    }
}

/// Whether the numbers of a `DivMod` step are positive, its form is over the columns, and the product divides the modulus.
#[tactic(auto, unfolding(crate::specs::Rules::div_mod_stands), using(crate::proofs::Fitting::number_steps, crate::proofs::Stands::stands_steps, ac_base::proofs::Bits::again_128))]
fn div_mod_stands(columns: usize, g: &i128, n: &i128, modulus: &i128, form: &Form) -> bool
    ensures stands { result ≡ div_mod_stands columns g.now n.now modulus.now form.now }
    ensures numbers { result ≡ true → (pos 1 ≤ℤ g.now) × (pos 1 ≤ℤ (g.now *ℤ n.now)) × Fits (g.now *ℤ n.now) }
{
    if *g < 1 || *n < 1 || form.columns() > columns {
        return false;
    }
    let Some(product) = g.checked_mul(*n) else {
        return false;
    };
    divides_number(product, *modulus)
}

/// Whether a positive number divides each number of a form.
#[tactic(auto, using(ac_base::proofs::Bits::again_128))]
fn divides_form(divisor: i128, form: &Form) -> bool
    requires { pos 1 ≤ℤ divisor }
    ensures { result ≡ divides_form divisor form.now }
{
    divides_number(divisor, form.konst()) && divides_each(divisor, form.coefs())
}

/// The row that a divisibility says of another form.
pub(crate) fn div_mod_row(
    alloc: Global,
    conj: &Conj,
    row: usize,
    g: &i128,
    n: &i128,
    form: &Form,
) -> Result<Option<Row>, AllocError>
    ensures { IfOk result (λ made. made ≡ div_mod_row conj.now.columns g.now n.now form.now (slice_get conj.now.rows row)) }
{
    match conj.rows.as_slice().get(row) {
        Some(Row::Div(modulus, dividend)) => {
            if div_mod_stands(conj.columns, g, n, modulus, form) {
                div_reduced(alloc, dividend, g, n, form)
            } else {
                Ok(None)
            }
        }
        _ => Ok(None),
    }
}

/// The divisibility by n of a form, where `g n` divides each number of another form less g times this one.
#[tactic(auto, using(ac_base::proofs::Bits::again_128))]
fn div_reduced(
    alloc: Global,
    dividend: &Form,
    g: &i128,
    n: &i128,
    form: &Form,
) -> Result<Option<Row>, AllocError>
    requires positive { pos 1 ≤ℤ g.now }
    requires product { pos 1 ≤ℤ (g.now *ℤ n.now) }
    requires fits { Fits (g.now *ℤ n.now) }
    ensures { IfOk result (λ made. made ≡ reduced_row g.now n.now form.now (combination (pos 1) dividend.now (neg_ℤ g.now) form.now)) }
{
    let Some(difference) = combination(alloc, 1, dividend, -*g, form)? else {
        return Ok(None);
    };
    if divides_form(*g * *n, &difference) {
        Ok(Some(Row::Div(*n, form.copy(alloc)?)))
    } else {
        Ok(None)
    }
}

/// The divisibility of a form that is 0.
#[tactic(auto, using(ac_base::proofs::Bits::again_128))]
pub(crate) fn div_eq_row(
    alloc: Global,
    rows: &[Row],
    row: usize,
    n: &i128,
) -> Result<Option<Row>, AllocError>
    ensures { IfOk result (λ made. made ≡ div_eq_row n.now (slice_get rows.now row)) }
{
    match rows.get(row) {
        Some(Row::Eq(form)) => div_from_zero(alloc, form, n),
        _ => Ok(None),
    }
}

/// The divisibility of a form that is 0 by a number.
#[tactic(auto, using(ac_base::proofs::Bits::again_128))]
fn div_from_zero(alloc: Global, form: &Form, n: &i128) -> Result<Option<Row>, AllocError>
    ensures { IfOk result (λ made. made ≡ div_eq_row n.now (Some (Eq form.now))) }
{
    if *n < 1 {
        return Ok(None);
    }
    Ok(Some(Row::Div(*n, form.copy(alloc)?)))
}

/// The equality of two opposite rows.
#[tactic(auto, using(ac_base::proofs::Bits::again_128))]
pub(crate) fn eq_cut_row(
    alloc: Global,
    rows: &[Row],
    row: usize,
    other: usize,
) -> Result<Option<Row>, AllocError>
    ensures { IfOk result (λ made. made ≡ eq_cut_row (slice_get rows.now row) (slice_get rows.now other)) }
{
    let Some(Row::Ge(form)) = rows.get(row) else {
        return Ok(None);
    };
    let Some(Row::Ge(opposite)) = rows.get(other) else {
        return Ok(None);
    };
    let Some(sum) = combination(alloc, 1, form, 1, opposite)? else {
        return Ok(None);
    };
    if !is_zero(&sum) {
        return Ok(None);
    }
    Ok(Some(Row::Eq(form.copy(alloc)?)))
}
