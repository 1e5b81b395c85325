ghost use Rattle.std.specs.Prelude.{◌≡◌, pos, negsuc, ◌≤ℤ◌, ◌-ℤ◌, neg_ℤ, IfOk, unsigned_abs};
ghost use Rattle.ac_base.specs.Dot.{floored};
ghost use Rattle.ac_base.specs.Multiple.{divides};
ghost use Rattle.ac_forms.specs.Fits.{fits};
ghost use Rattle.ac_cert.specs.Rules.{rest_of, multiple_of, greater_modulus, quotient_form, divides_each, all_zero, is_zero};

use ac_forms::{Form, FormStop};
use std::alloc::{AllocError, Global};

/// `k` times a form, where the numbers stay in `i128`.
#[tactic(auto, using(crate::proofs::Fitting::number_steps))]
pub(crate) fn multiple(alloc: Global, k: i128, form: &Form) -> Result<Option<Form>, AllocError>
    ensures { IfOk result (λ made. made ≡ multiple_of k form.now) }
{
    match form.scale(alloc, k) {
        Ok(form) => Ok(Some(form)),
        Err(FormStop::Wide) => Ok(None),
        Err(FormStop::Memory(want)) => Err(want),
    }
}

/// A number less a form, where the numbers stay in `i128`.
#[tactic(auto, using(crate::proofs::Fitting::number_steps))]
pub(crate) fn rest(alloc: Global, k: i128, form: &Form) -> Result<Option<Form>, AllocError>
    ensures { IfOk result (λ made. made ≡ rest_of k form.now) }
{
    let opposite = match form.opposite(alloc) {
        Ok(opposite) => opposite,
        Err(FormStop::Wide) => return Ok(None),
        Err(FormStop::Memory(want)) => return Err(want),
    };
    match opposite.shift(alloc, k) {
        Ok(form) => Ok(Some(form)),
        Err(FormStop::Wide) => Ok(None),
        Err(FormStop::Memory(want)) => Err(want),
    }
}

/// A modulus times the absolute value of a number, where both are numbers of `i128`.
#[tactic(auto, using(crate::proofs::Fitting::number_steps, ac_base::proofs::Bits::again_128))]
pub(crate) fn greater_modulus(modulus: i128, k: i128) -> Option<i128>
    ensures { result ≡ greater_modulus modulus k }
{
    let Some(size) = k.checked_abs() else {
        return None;
    };
    modulus.checked_mul(size)
}

/// Whether a positive number divides another.
pub(crate) fn divides_number(divisor: i128, number: i128) -> bool
    requires { pos 1 ≤ℤ divisor }
    ensures { result ≡ divides (unsigned_abs divisor) number }
{
    ac_base::is_multiple(number, divisor)
}

/// Whether a positive number divides each of the numbers.
pub(crate) fn divides_each(divisor: i128, numbers: &[i128]) -> bool
    requires { pos 1 ≤ℤ divisor }
    ensures { result ≡ divides_each divisor numbers.now }
{
    for number in numbers {
        if !divides_number(divisor, *number) {
            return false;
        }
    }
    true
}

/// A form divided by a positive number, the constant and each coefficient rounded down.
#[tactic(auto, using(ac_base::proofs::Bits::again_128))]
pub(crate) fn quotient_form(alloc: Global, divisor: i128, form: &Form) -> Result<Form, AllocError>
    requires { pos 1 ≤ℤ divisor }
    ensures { IfOk result (λ quotient. quotient ≡ quotient_form divisor form.now) }
{
    let coefs = quotients(alloc, form.coefs(), divisor)?;
    Form::from_parts(alloc, form.konst().div_euclid(divisor), &coefs)
}

/// The quotients by a positive number, rounded down.
#[tactic(auto, using(ac_base::proofs::Bits::again_128))]
fn quotients(alloc: Global, coefs: &[i128], divisor: i128) -> Result<Vec<i128>, AllocError>
    requires { pos 1 ≤ℤ divisor }
    ensures { IfOk result (λ made. made.items ≡ floored divisor coefs.now) }
{
    let mut made = Vec::new(alloc);
    for coef in coefs {
        made.push(coef.div_euclid(divisor))?;
    }
    Ok(made)
}

/// Whether all numbers are 0.
pub(crate) fn is_all_zero(numbers: &[i128]) -> bool
    ensures { result ≡ all_zero numbers.now }
{
    for number in numbers {
        if *number != 0 {
            return false;
        }
    }
    true
}

/// Whether a form is 0 at each point.
pub(crate) fn is_zero(form: &Form) -> bool
    ensures { result ≡ is_zero form.now }
{
    is_all_zero(form.coefs()) && form.konst() == 0
}

/// Whether a form's constant less a number is one of `i128`.
#[tactic(auto, using(crate::proofs::Fitting::number_steps))]
pub(crate) fn can_lose(form: &Form, number: i128) -> bool
    ensures { result ≡ fits (form.now.konst -ℤ number) }
{
    form.konst().checked_sub(number).is_some()
}
