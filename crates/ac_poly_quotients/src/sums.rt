//! Index expressions as forms over the parameters and the columns behind them.
ghost use Rattle.std.specs.Prelude.{◌≡◌, ◌+◌, map, pos, IfOk};
ghost use Rattle.std.specs.List.{list_any};
ghost use Rattle.ac_forms.specs.Affine.{CanAddTimes, combined, column_form};
ghost use Rattle.ac_forms.specs.FormStops.{MadeIff};
ghost use Rattle.ac_poly_quotients.specs.LoweredForms.{replaced, among};
ghost use Rattle.ac_poly_quotients.specs.QuotientScopes.{is_named, column_of, coef_of, lowered_in};
ghost use Rattle.ac_poly_quotients.specs.ScopeRange.{CanReplace, CanSum, CanLower};

use crate::types::{QuotColumn, Scope};
use ac_base::Items;
use ac_forms::{Form, FormStop};
use ac_syntax::quotients::same_quot;
use ac_syntax::tree::{IndexExpr, Quot};
use std::alloc::{AllocError, Global};

/// The numbers in 128 bits.
#[tactic(auto, using(crate::proofs::Widening::read_back))]
fn widened(alloc: Global, numbers: &[i64]) -> Result<Vec<i128>, AllocError>
    ensures { IfOk result (λ made. made.items ≡ numbers.now) }
{
    let mut made = Vec::new(alloc);
    for number in numbers {
        made.push(*number as i128)?;
    }
    Ok(made)
}

/// A constant and terms in the parameters.
#[tactic(auto, using(crate::proofs::Widening::read_back))]
pub fn without_iterators(alloc: Global, konst: i64, params: &[i64]) -> Result<Form, AllocError>
    ensures { IfOk result (λ form. form ≡ record { konst = konst; coefs = params.now }) }
{
    let coefs = widened(alloc, params)?;
    Form::from_parts(alloc, konst as i128, coefs.as_slice())
}

/// The form plus `c` times another.
#[tactic(auto, using(crate::proofs::Widening::read_back))]
pub(crate) fn plus_times(alloc: Global, form: &Form, c: i64, other: &Form) -> Result<Form, FormStop>
    ensures { MadeIff result (CanAddTimes form.now c other.now) (combined (pos 1) form.now c other.now) }
{
    form.add_times(alloc, c as i128, other)
}

/// The form plus each coefficient times the form that stands for it, the first first.
#[tactic(auto, using(crate::proofs::Replacing::replacing))]
fn replaced(alloc: Global, first: &Form, coefs: &[i64], forms: &[Form]) -> Result<Form, FormStop>
    ensures { MadeIff result (CanReplace first.now coefs.now forms.now) (replaced first.now coefs.now forms.now) }
{
    let mut form = first.copy(alloc)?;
    let count = coefs.len().min(forms.len());
    for i in 0..count {
        form = plus_times(alloc, &form, coefs[i], &forms[i])?;
    }
    Ok(form)
}

/// A sum among iterators with these forms.
pub(crate) fn among(
    alloc: Global,
    iters: &[Form],
    konst: i64,
    params: &[i64],
    coefs: &[i64],
) -> Result<Form, FormStop>
    ensures { MadeIff result (CanSum iters.now konst params.now coefs.now) (among iters.now konst params.now coefs.now) }
{
    let form = without_iterators(alloc, konst, params)?;
    replaced(alloc, &form, coefs, iters)
}

/// The coefficients of quotients.
fn coefs_of(alloc: Global, quots: &[Quot]) -> Result<Items<i64>, AllocError>
    ensures { IfOk result (λ made. made ≡ map coef_of quots.now) }
{
    let mut made = Items::new(alloc);
    for quot in quots {
        made.push(quot.coef)?;
    }
    Ok(made)
}

/// Whether a quotient has a column.
pub(crate) fn is_named(named: &[QuotColumn], quot: &Quot) -> bool
    ensures { result ≡ list_any (is_named quot.now) named.now }
{
    for one in named {
        if same_quot(quot, &one.quot) {
            return true;
        }
    }
    false
}

/// The column of a quotient, 0 if it has none.
pub(crate) fn column_of(named: &[QuotColumn], quot: &Quot) -> usize
    ensures { result ≡ column_of (is_named quot.now) named.now }
{
    for one in named {
        if same_quot(quot, &one.quot) {
            return one.column;
        }
    }
    0
}

/// The form of a column.
pub(crate) fn column(alloc: Global, k: usize) -> Result<Form, AllocError>
    ensures { IfOk result (λ form. form ≡ column_form (k + 1) k) }
{
    let all = k.checked_add(1).ok_or(AllocError)?;
    Form::column(alloc, all, k)
}

/// The forms of the columns of quotients.
fn columns_of(
    alloc: Global,
    named: &[QuotColumn],
    quots: &[Quot],
) -> Result<Items<Form>, AllocError>
    ensures { IfOk result (λ made. made ≡ map (λ k. column_form (k + 1) k) (map (λ q. column_of (is_named q) named.now) quots.now)) }
{
    let mut made = Items::new(alloc);
    for quot in quots {
        made.push(column(alloc, column_of(named, quot))?)?;
    }
    Ok(made)
}

/// An index expression in a scope, among iterators with these forms.
pub fn lowered_in(
    alloc: Global,
    scope: &Scope,
    iters: &[Form],
    e: &IndexExpr,
) -> Result<Form, FormStop>
    ensures { MadeIff result (CanLower scope.now iters.now e.now) (lowered_in scope.now iters.now e.now) }
{
    let params = e.params.as_slice();
    let plain = among(alloc, iters, e.konst, params, e.iters.as_slice())?;
    let quots = e.quots.as_slice();
    let coefs = coefs_of(alloc, quots)?;
    let columns = columns_of(alloc, scope.quots.as_slice(), quots)?;
    replaced(alloc, &plain, coefs.as_slice(), columns.as_slice())
}
