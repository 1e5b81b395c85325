ghost use Rattle.std.specs.Prelude.{◌≡◌, ◌≤◌, ◌↔◌, ℤ, List, pos, ◌≤ℤ◌, ◌+◌, ◌<◌, ◌^◌, OkIff, IfOk, IsTrue, take, unsigned_abs};
ghost use Rattle.ac_base.specs.Dot.{floored, residues};
ghost use Rattle.ac_base.specs.Gcd.{content, gcd, gcd_all};
ghost use Rattle.ac_base.specs.Multiple.{divides};
ghost use Rattle.ac_forms.specs.Fits.{AllFit};
ghost use Rattle.ac_forms.specs.declared.row.Row.TheVariants.{Eq};
ghost use Rattle.ac_forms.specs.declared.normal.NormalRow.TheVariants.{Kept};
ghost use Rattle.ac_forms.specs.NormalRows.{trim, divided, reduced, leads_negative, signed, normal_eq, normal_div, normal_ge, normal_row, modular_content, absolutes, sign_numbers, eq_numbers, NormalFits, LeftHolds};
ghost use Rattle.ac_forms.specs.Rows.{Holds, HasModulus};
ghost use Rattle.ac_forms.specs.FormStops.{MadeIff};

use crate::form::Form;
use crate::row::Row;
use crate::stop::{FormStop, Wide};
use smallvec::SmallVec;
use std::alloc::{AllocError, Global};

/// What is left of a row in normal form.
#[derive(Drop)]
pub enum NormalRow {
    /// This row, with the same integer points.
    Kept(Row),
    /// Nothing: each point meets the row.
    Dropped,
    /// No integer point meets the row.
    Absurd,
}

impl Row {
    /// The normal form of the row, with the same integer points. `Ge` is divided by the greatest common divisor of its
    /// coefficients, the constant rounded down; `Eq` too, where it divides the constant, with a positive first
    /// coefficient; `Div` has its numbers modulo the modulus, and all three divided by what modulus and coefficients
    /// have in common. No form has zeros at its end. `Wide` exactly where the absolute value of a coefficient of
    /// `Eq` or `Ge`, or the opposite of an `Eq` row whose sign changes, leaves `i128`.
    pub fn normalise(&self, alloc: Global) -> Result<NormalRow, FormStop>
        requires { HasModulus self.now }
        ensures exact { MadeIff result (NormalFits self.now) (normal_row self.now) }
        ensures points { IfOk result (λ left. (p : List ℤ) → LeftHolds left p ↔ Holds self.now p) }
    {
        left_of(alloc, self)
    }
}

/// The normal form of a row.
fn left_of(alloc: Global, row: &Row) -> Result<NormalRow, FormStop>
    requires { HasModulus row.now }
    ensures { MadeIff result (NormalFits row.now) (normal_row row.now) }
{
    match row {
        Row::Eq(form) => normal_equality(alloc, form),
        Row::Div(modulus, form) => Ok(normal_divisibility(alloc, *modulus, form)?),
        Row::Ge(form) => normal_inequality(alloc, form),
    }
}

/// The normal form of `form = 0`.
fn normal_equality(alloc: Global, form: &Form) -> Result<NormalRow, FormStop>
    ensures { MadeIff result (AllFit (absolutes form.now.coefs) × AllFit (eq_numbers form.now)) (normal_eq form.now) }
{
    let divisor = common_size(form.coefs())?;
    if divisor == 0 {
        return Ok(if form.konst() == 0 {
            NormalRow::Dropped
        } else {
            NormalRow::Absurd
        });
    }
    if !divides_out(divisor, form.konst()) {
        return Ok(NormalRow::Absurd);
    }
    kept_equality(alloc, quotient_of(alloc, form, divisor)?)
}

/// The row `form = 0` or its opposite, with a positive first coefficient.
fn kept_equality(alloc: Global, form: Form) -> Result<NormalRow, FormStop>
    ensures { MadeIff result (AllFit (sign_numbers form)) (Kept (Eq (signed form))) }
{
    Ok(NormalRow::Kept(Row::Eq(with_sign(alloc, form)?)))
}

/// The normal form of `modulus divides form`.
fn normal_divisibility(alloc: Global, modulus: i128, form: &Form) -> Result<NormalRow, AllocError>
    requires { pos 1 ≤ℤ modulus }
    ensures { IfOk result (λ left. left ≡ normal_div modulus form.now) }
{
    let rest = remainder_of(alloc, form, modulus)?;
    let divisor = common_with(modulus, rest.coefs());
    if !divides_out(divisor, rest.konst()) {
        return Ok(NormalRow::Absurd);
    }
    let quotient = ac_base::floor_quotient(modulus, divisor);
    if quotient == 1 {
        return Ok(NormalRow::Dropped);
    }
    let form = quotient_of(alloc, &rest, divisor)?;
    Ok(NormalRow::Kept(Row::Div(quotient, form)))
}

/// The normal form of `form >= 0`.
fn normal_inequality(alloc: Global, form: &Form) -> Result<NormalRow, FormStop>
    ensures { MadeIff result (AllFit (absolutes form.now.coefs)) (normal_ge form.now) }
{
    let divisor = common_size(form.coefs())?;
    if divisor == 0 {
        return Ok(if form.konst() >= 0 {
            NormalRow::Dropped
        } else {
            NormalRow::Absurd
        });
    }
    Ok(NormalRow::Kept(Row::Ge(quotient_of(alloc, form, divisor)?)))
}

/// The greatest common divisor of the absolute values, 0 where all are 0; `Wide` exactly where one leaves `i128`.
#[tactic(auto, using(crate::proofs::Sizes::size_steps))]
fn common_size(coefs: &[i128]) -> Result<i128, Wide>
    ensures { OkIff result (AllFit (absolutes coefs.now)) (pos (content coefs.now)) }
{
    let mut divisor: u128 = 0;
    for coef in coefs {
        match coef.checked_abs() {
            Some(size) => divisor = common_divisor(divisor, size.unsigned_abs()),
            None => return Err(Wide),
        }
    }
    Ok(divisor as i128)
}

/// The greatest common divisor of a positive number and of a list.
#[tactic(auto, using(crate::proofs::Sizes::common_steps))]
fn common_with(modulus: i128, coefs: &[i128]) -> i128
    requires { pos 1 ≤ℤ modulus }
    ensures value { result ≡ pos (gcd_all (unsigned_abs modulus) coefs.now) }
    ensures positive { pos 1 ≤ℤ result }
{
    let mut divisor = modulus.unsigned_abs();
    for coef in coefs {
        divisor = common_divisor(divisor, coef.unsigned_abs());
    }
    divisor as i128
}

/// The greatest common divisor of two numbers, without a division where one of them is 0 or 1, as most are.
fn common_divisor(a: u128, b: u128) -> u128
    ensures { result ≡ gcd a b }
{
    if b == 0 {
        a
    } else if a == 0 {
        b
    } else if a == 1 {
        a
    } else if b == 1 {
        b
    } else {
        ac_base::greatest_common_divisor(a, b)
    }
}

/// Whether a positive number divides another.
fn divides_out(divisor: i128, number: i128) -> bool
    requires { pos 1 ≤ℤ divisor }
    ensures { result ≡ divides (unsigned_abs divisor) number }
{
    if divisor == 1 {
        true
    } else {
        ac_base::is_multiple(number, divisor)
    }
}

/// The form divided by a positive number and rounded down, without zeros at its end.
fn quotient_of(alloc: Global, form: &Form, divisor: i128) -> Result<Form, AllocError>
    requires { pos 1 ≤ℤ divisor }
    ensures { IfOk result (λ quotient. quotient ≡ divided divisor form.now) }
{
    if divisor == 1 {
        let coefs = SmallVec::from_slice(alloc, form.coefs())?;
        return Ok(trimmed(form.konst(), coefs));
    }
    let coefs = quotients(alloc, form.coefs(), divisor)?;
    Ok(trimmed(form.konst().div_euclid(divisor), coefs))
}

/// The form with each number taken modulo a positive number.
fn remainder_of(alloc: Global, form: &Form, modulus: i128) -> Result<Form, AllocError>
    requires { pos 1 ≤ℤ modulus }
    ensures { IfOk result (λ rest. rest ≡ reduced modulus form.now) }
{
    let coefs = remainders(alloc, form.coefs(), modulus)?;
    Ok(Form::with_coefs(form.konst().rem_euclid(modulus), coefs))
}

/// The form or its opposite, so that the first coefficient that is not 0 is positive.
fn with_sign(alloc: Global, form: Form) -> Result<Form, FormStop>
    ensures { MadeIff result (AllFit (sign_numbers form)) (signed form) }
{
    if has_negative_lead(form.coefs()) {
        form.scale(alloc, -1)
    } else {
        Ok(form)
    }
}

/// Whether the first coefficient that is not 0 is negative.
fn has_negative_lead(coefs: &[i128]) -> bool
    ensures { result ≡ leads_negative coefs.now }
{
    for coef in coefs {
        if *coef != 0 {
            return *coef < 0;
        }
    }
    false
}

/// The quotients by a positive number, rounded down.
#[tactic(auto, using(ac_base::proofs::Bits::again_128))]
fn quotients(alloc: Global, coefs: &[i128], divisor: i128) -> Result<SmallVec<i128, 8>, AllocError>
    requires { pos 1 ≤ℤ divisor }
    ensures { IfOk result (λ made. made.items ≡ floored divisor coefs.now) }
{
    let mut made = SmallVec::with_capacity(alloc, coefs.len())?;
    for coef in coefs {
        made.push(coef.div_euclid(divisor))?;
    }
    Ok(made)
}

/// The remainders by a positive number, none of them negative.
#[tactic(auto, using(ac_base::proofs::Bits::again_128))]
fn remainders(alloc: Global, coefs: &[i128], modulus: i128) -> Result<SmallVec<i128, 8>, AllocError>
    requires { pos 1 ≤ℤ modulus }
    ensures { IfOk result (λ made. made.items ≡ residues modulus coefs.now) }
{
    let mut made = SmallVec::with_capacity(alloc, coefs.len())?;
    for coef in coefs {
        made.push(coef.rem_euclid(modulus))?;
    }
    Ok(made)
}

/// The form of a constant and of coefficients, without the zeros at their end.
pub(crate) fn trimmed(konst: i128, coefs: SmallVec<i128, 8>) -> Form
    ensures { result ≡ record { konst = konst; coefs = trim coefs.items } }
{
    let mut coefs = coefs;
    let kept = significant(coefs.as_slice());
    coefs.truncate(kept);
    Form::with_coefs(konst, coefs)
}

/// How many numbers are left without the zeros at the end.
#[tactic(auto, using(crate::proofs::Trims::trim_steps))]
fn significant(coefs: &[i128]) -> usize
    ensures { trim coefs.now ≡ take result coefs.now }
{
    let mut kept = 0;
    for (at, coef) in coefs.iter().enumerate() {
        if *coef != 0 {
            kept = at + 1;
        }
    }
    kept
}
