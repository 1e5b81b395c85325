//! Quotients that are noted one after another, equal ones once, as the quotients of an assignment are.
ghost use Rattle.std.specs.Prelude.{◌≡◌, ◌&&◌, pos, IfOk, OnOk};
ghost use Rattle.std.specs.List.{list_all, list_any};
ghost use Rattle.ac_syntax.specs.Index.{is_zero};
ghost use Rattle.ac_syntax.specs.Quotients as spec;

use crate::copy::copy_quot;
use crate::tree::{Comparison, IndexExpr, Quot, Rel, Value};
use ac_base::Items;
use std::alloc::{AllocError, Global};

// Whether all numbers are 0.
fn are_zeros(numbers: &[i64]) -> bool
    ensures { result ≡ list_all is_zero numbers.now }
{
    for number in numbers {
        if *number != 0 {
            return false;
        }
    }
    true
}

// Whether the coefficients are equal, where a list that ends first stands for zeros.
fn same_iters(left: &[i64], right: &[i64]) -> bool
    ensures { result ≡ spec.same_iters left.now right.now }
{
    let common = left.len().min(right.len());
    for i in 0..common {
        if left[i] != right[i] {
            return false;
        }
    }
    are_zeros(&left[common..]) && are_zeros(&right[common..])
}

/// Whether two quotients have one form and one divisor, whatever their coefficients and places. One that stands inside fewer
/// loops has fewer coefficients of iterators.
pub fn same_quot(left: &Quot, right: &Quot) -> bool
    ensures { result ≡ spec.same_quot left.now right.now }
{
    left.konst == right.konst
        && left.params == right.params
        && same_iters(left.iters.as_slice(), right.iters.as_slice())
        && left.div == right.div
}

/// Whether one of the quotients is the same.
pub fn is_noted(seen: &[Quot], quot: &Quot) -> bool
    ensures { result ≡ list_any (spec.same_quot quot.now) seen.now }
{
    for other in seen {
        if same_quot(quot, other) {
            return true;
        }
    }
    false
}

/// Notes a quotient behind the others, unless it stands there.
pub fn note(alloc: Global, seen: &mut Items<Quot>, quot: &Quot) -> Result<(), AllocError>
    ensures { OnOk result (seen.new ≡ spec.noted seen.old quot.now) }
{
    if !is_noted(seen.as_slice(), quot) {
        seen.push(copy_quot(alloc, quot)?)?;
    }
    Ok(())
}

/// Notes the quotients of an index expression, in order.
pub fn note_form(alloc: Global, seen: &mut Items<Quot>, form: &IndexExpr) -> Result<(), AllocError>
    ensures { OnOk result (seen.new ≡ spec.noted_form seen.old form.now) }
{
    for quot in form.quots.as_slice() {
        note(alloc, seen, quot)?;
    }
    Ok(())
}

/// Notes the quotients of index expressions, in order.
pub fn note_forms(
    alloc: Global,
    seen: &mut Items<Quot>,
    forms: &[IndexExpr],
) -> Result<(), AllocError>
    ensures { OnOk result (seen.new ≡ spec.noted_subs seen.old forms.now) }
{
    for form in forms {
        note_form(alloc, seen, form)?;
    }
    Ok(())
}

// The quotient of a form by the divisor that a comparison tests.
fn part_quot(alloc: Global, form: &IndexExpr, divisor: i64) -> Result<Quot, AllocError>
    ensures { IfOk result (λ quot. quot ≡ spec.part_quot form.now divisor) }
{
    Ok(Quot {
        coef: 1,
        konst: form.konst,
        params: Items::from_slice(alloc, form.params.as_slice())?,
        iters: Items::from_slice(alloc, form.iters.as_slice())?,
        div: divisor,
        place: form.place,
    })
}

/// Notes the quotients of a comparison, and then the one that it tests.
pub fn note_part(alloc: Global, seen: &mut Items<Quot>, part: &Comparison) -> Result<(), AllocError>
    ensures { OnOk result (seen.new ≡ spec.noted_part seen.old part.now) }
{
    note_form(alloc, seen, &part.form)?;
    match part.rel {
        Rel::NonNegative => Ok(()),
        Rel::Zero => Ok(()),
        Rel::Divides(divisor) => {
            let quot = part_quot(alloc, &part.form, divisor)?;
            note(alloc, seen, &quot)
        }
    }
}

/// Notes the quotients of comparisons, in order.
pub fn note_parts(
    alloc: Global,
    seen: &mut Items<Quot>,
    parts: &[Comparison],
) -> Result<(), AllocError>
    ensures { OnOk result (seen.new ≡ spec.noted_parts seen.old parts.now) }
{
    for part in parts {
        note_part(alloc, seen, part)?;
    }
    Ok(())
}

/// Notes the quotients of a value, node by node in preorder.
#[cycle(noting)]
#[tactic(auto, using(crate::proofs::Noted::noted_cases))]
pub fn note_value(alloc: Global, seen: &mut Items<Quot>, value: &Value) -> Result<(), AllocError>
    ensures { OnOk result (seen.new ≡ spec.noted_value seen.old value.now) }
{
    match value {
        Value::Number(form) => note_form(alloc, seen, form),
        Value::Access { subs, .. } => note_forms(alloc, seen, subs.as_slice()),
        Value::Call { args, .. } => note_values(alloc, seen, args.as_slice()),
    }
}

/// Notes the quotients of values, in order.
#[cycle(noting)]
pub fn note_values(
    alloc: Global,
    seen: &mut Items<Quot>,
    values: &[Value],
) -> Result<(), AllocError>
    ensures { OnOk result (seen.new ≡ spec.noted_all seen.old values.now) }
{
    for value in values {
        note_value(alloc, seen, value)?;
    }
    Ok(())
}
