//! The values of index expressions and conditions at a point, computed in 128 bits.
ghost use Rattle.std.specs.Prelude.{◌≡◌, ◌+ℤ◌, ◌*ℤ◌, IfSome};
ghost use Rattle.ac_syntax.specs.CheckedArithmetic.{checked, summed, checked_plain, checked_argument, rounded, checked_quot, plus_times, plus_quot, summed_quots, checked_value, checked_comparison, checked_holds};
ghost use Rattle.ac_syntax.specs.Index.{point, quot_argument, quot_value, index_value, rel_holds, comparison_holds, holds};

use crate::tree::{Comparison, Cond, IndexExpr, Quot, Rel};
use ac_base::{floor_quotient, is_multiple};

// `sum + c * x`, or none where it leaves 128 bits.
fn add_product(sum: i128, c: i64, x: i64) -> Option<i128>
    ensures { result ≡ checked (sum +ℤ (c *ℤ x)) }
{
    sum.checked_add(c as i128 * x as i128)
}

// The products added to `start` one after another, or none where a sum leaves 128 bits.
fn sum_products(start: i128, coefs: &[i64], values: &[i64]) -> Option<i128>
    ensures { result ≡ summed start coefs.now values.now }
{
    let mut sum = start;
    for i in 0..coefs.len().min(values.len()) {
        sum = add_product(sum, coefs[i], values[i])?;
    }
    Some(sum)
}

// The value of a form without quotients, or none where a partial sum leaves 128 bits.
fn sum_plain(
    konst: i64,
    of_params: &[i64],
    of_iters: &[i64],
    params: &[i64],
    iters: &[i64],
) -> Option<i128>
    ensures { result ≡ checked_plain (point params.now iters.now) konst of_params.now of_iters.now }
{
    let sum = sum_products(konst as i128, of_params, params)?;
    sum_products(sum, of_iters, iters)
}

/// The quotient of a number by a divisor, rounded down; none exactly where the divisor is below 1.
pub fn round(divisor: i64, number: i128) -> Option<i128>
    ensures { result ≡ rounded divisor number }
{
    if divisor < 1 {
        return None;
    }
    Some(floor_quotient(number, divisor as i128))
}

// `sum + c * x`, or none where the product or the sum leaves 128 bits.
fn add_times(sum: i128, c: i64, x: i128) -> Option<i128>
    ensures { result ≡ plus_times sum c x }
{
    let product = (c as i128).checked_mul(x)?;
    sum.checked_add(product)
}

impl Quot {
    /// The value of the form that is divided, as `IndexExpr::value` says it of a form without quotients.
    pub fn argument(&self, params: &[i64], iters: &[i64]) -> Option<i128>
        ensures checked { result ≡ checked_argument (point params.now iters.now) self.now }
        ensures value { IfSome result (λ v. v ≡ quot_argument (point params.now iters.now) self.now) }
    {
        sum_plain(
            self.konst,
            self.params.as_slice(),
            self.iters.as_slice(),
            params,
            iters,
        )
    }

    /// The value of the quotient, without its coefficient; none exactly where its form has no value in 128 bits or the
    /// divisor is below 1.
    pub fn value(&self, params: &[i64], iters: &[i64]) -> Option<i128>
        ensures checked { result ≡ checked_quot (point params.now iters.now) self.now }
        ensures value { IfSome result (λ v. v ≡ quot_value (point params.now iters.now) self.now) }
    {
        let argument = self.argument(params, iters)?;
        round(self.div, argument)
    }
}

// The quotient times its coefficient added to a sum.
fn add_quot(sum: i128, quot: &Quot, params: &[i64], iters: &[i64]) -> Option<i128>
    ensures { result ≡ plus_quot (point params.now iters.now) sum quot.now }
{
    let value = quot.value(params, iters)?;
    add_times(sum, quot.coef, value)
}

// The quotients added to `start` one after another.
fn sum_quots(start: i128, quots: &[Quot], params: &[i64], iters: &[i64]) -> Option<i128>
    ensures { result ≡ summed_quots (point params.now iters.now) start quots.now }
{
    let mut sum = start;
    for quot in quots {
        sum = add_quot(sum, quot, params, iters)?;
    }
    Some(sum)
}

// The value, or none where a partial sum leaves 128 bits.
fn sum_form(form: &IndexExpr, params: &[i64], iters: &[i64]) -> Option<i128>
    ensures { result ≡ checked_value (point params.now iters.now) form.now }
{
    let sum = sum_plain(
        form.konst,
        form.params.as_slice(),
        form.iters.as_slice(),
        params,
        iters,
    )?;
    sum_quots(sum, form.quots.as_slice(), params, iters)
}

impl IndexExpr {
    /// The value at a valuation of the parameters and at values of the iterators, the outermost first; a list that ends
    /// before the coefficients do stands for zeros. None exactly where a partial sum or the product of a quotient leaves 128
    /// bits, in the order constant, parameters, iterators, quotients, or where a divisor is below 1.
    pub fn value(&self, params: &[i64], iters: &[i64]) -> Option<i128>
        ensures checked { result ≡ checked_value (point params.now iters.now) self.now }
        ensures value { IfSome result (λ v. v ≡ index_value (point params.now iters.now) self.now) }
    {
        sum_form(self, params, iters)
    }
}

/// Whether a comparison with this relation holds of a value.
pub fn rel_holds(rel: Rel, value: i128) -> bool
    ensures { result ≡ rel_holds rel value }
{
    match rel {
        Rel::NonNegative => value >= 0,
        Rel::Zero => value == 0,
        Rel::Divides(divisor) => is_multiple(value, divisor as i128),
    }
}

impl Comparison {
    /// Whether the comparison holds there; none exactly where its form has no value in 128 bits, as `value` says.
    pub fn holds(&self, params: &[i64], iters: &[i64]) -> Option<bool>
        ensures checked { result ≡ checked_comparison (point params.now iters.now) self.now }
        ensures value { IfSome result (λ b. b ≡ comparison_holds (point params.now iters.now) self.now) }
    {
        let value = self.form.value(params, iters)?;
        Some(rel_holds(self.rel, value))
    }
}

impl Cond {
    /// Whether all comparisons hold there, tested in order up to the first that does not; none exactly where one that is
    /// tested has no value in 128 bits.
    pub fn holds(&self, params: &[i64], iters: &[i64]) -> Option<bool>
        ensures checked { result ≡ checked_holds (point params.now iters.now) self.now.parts }
        ensures value { IfSome result (λ b. b ≡ holds (point params.now iters.now) self.now) }
    {
        for part in self.parts.as_slice() {
            if !part.holds(params, iters)? {
                return Some(false);
            }
        }
        Some(true)
    }
}
