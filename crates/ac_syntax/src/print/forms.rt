//! The texts of forms and conditions.
ghost use Rattle.std.specs.Prelude.{◌≡◌, ◌++◌, ◌∷◌, [], codes, map, false, OnOk, IfOk};
ghost use Rattle.std.specs.List.{flat_map, join_by};
ghost use Rattle.std.specs.Fmt.{signed_decimal};
ghost use Rattle.ac_syntax.specs.Text as text;
ghost use Rattle.ac_syntax.specs.PrinterTerms.{plus, continued, has_terms, ended};

use crate::name::Name;
use crate::tree::{Array, Comparison, Cond, IndexExpr, Quot, Rel};
use itoa::Buffer;
use std::alloc::AllocError;
use std::marker::Model;

/// The names in scope: those of the parameters, of the iterators, the outermost first, and of the arrays.
#[derive(Drop)]
pub struct Scope<'a> {
    pub params: &'a [Name],
    pub iters: &'a [Name],
    pub arrays: &'a [Array],
}

impl<'a> Model for Scope<'a> {
    ghost use Rattle.ac_syntax.specs.Text.{Scope};

    ghost Value = { Scope };

    ghost view = { λ scope. record { params = scope.params.now; iters = scope.iters.now; arrays = scope.arrays.now } };
}

pub fn push_number(bytes: &mut Vec<u8>, n: i64) -> Result<(), AllocError>
    ensures { OnOk result (bytes.new.items ≡ bytes.old.items ++ signed_decimal n) }
{
    let mut buffer = Buffer::new();
    bytes.extend_from_slice(buffer.format(n).as_bytes())
}

fn push_plus(bytes: &mut Vec<u8>, any: bool) -> Result<(), AllocError>
    ensures { OnOk result (bytes.new.items ≡ bytes.old.items ++ plus any) }
{
    if any {
        bytes.extend_from_slice(b" + ")?;
    }
    Ok(())
}

/// Adds a term if its coefficient is not 0, and answers whether any term stands now.
fn push_term(bytes: &mut Vec<u8>, any: bool, c: i64, name: &[u8]) -> Result<bool, AllocError>
    ensures text { IfOk result (λ now. bytes.new.items ≡ bytes.old.items ++ continued any (text.term c name.now)) }
    ensures any { IfOk result (λ now. now ≡ has_terms any (text.term c name.now)) }
{
    if c == 0 {
        return Ok(any);
    }
    push_plus(bytes, any)?;
    push_number(bytes, c)?;
    bytes.push(b'*')?;
    bytes.extend_from_slice(name)?;
    Ok(true)
}

/// Adds the terms of the coefficients that are not 0, behind others if any stand.
fn push_terms(
    bytes: &mut Vec<u8>,
    before: bool,
    coefs: &[i64],
    names: &[Name],
) -> Result<bool, AllocError>
    ensures text { IfOk result (λ now. bytes.new.items ≡ bytes.old.items ++ continued before (text.terms coefs.now names.now)) }
    ensures any { IfOk result (λ now. now ≡ has_terms before (text.terms coefs.now names.now)) }
{
    let mut any = before;
    for i in 0..coefs.len().min(names.len()) {
        any = push_term(bytes, any, coefs[i], names[i].as_bytes())?;
    }
    Ok(any)
}

fn push_constant(bytes: &mut Vec<u8>, any: bool, c: i64) -> Result<bool, AllocError>
    ensures text { IfOk result (λ now. bytes.new.items ≡ bytes.old.items ++ continued any (text.constant_term c)) }
    ensures any { IfOk result (λ now. now ≡ has_terms any (text.constant_term c)) }
{
    if c == 0 {
        return Ok(any);
    }
    push_plus(bytes, any)?;
    push_number(bytes, c)?;
    Ok(true)
}

/// Adds the terms of the parameters and then of the iterators, and answers whether any term stands now.
fn push_names(
    bytes: &mut Vec<u8>,
    scope: &Scope<'_>,
    params: &[i64],
    iters: &[i64],
) -> Result<bool, AllocError>
    ensures text { IfOk result (λ any. bytes.new.items ≡ bytes.old.items ++ continued false (text.terms params.now scope.now.params ++ text.terms iters.now scope.now.iters)) }
    ensures any { IfOk result (λ any. any ≡ has_terms false (text.terms params.now scope.now.params ++ text.terms iters.now scope.now.iters)) }
{
    let any = push_terms(bytes, false, params, scope.params)?;
    let any = push_terms(bytes, any, iters, scope.iters)?;
    Ok(any)
}

/// Adds the last term of a sum, or 0 if the sum has none.
fn push_last(bytes: &mut Vec<u8>, before: bool, konst: i64) -> Result<(), AllocError>
    ensures { OnOk result (bytes.new.items ≡ bytes.old.items ++ ended before konst) }
{
    let any = push_constant(bytes, before, konst)?;
    if !any {
        bytes.push(b'0')?;
    }
    Ok(())
}

/// Adds a quotient without its coefficient.
fn push_quot(bytes: &mut Vec<u8>, scope: &Scope<'_>, quot: &Quot) -> Result<(), AllocError>
    ensures { OnOk result (bytes.new.items ≡ bytes.old.items ++ text.quot_text scope.now quot.now) }
{
    bytes.extend_from_slice(b"floord(")?;
    let any = push_names(bytes, scope, quot.params.as_slice(), quot.iters.as_slice())?;
    push_last(bytes, any, quot.konst)?;
    bytes.extend_from_slice(b", ")?;
    push_number(bytes, quot.div)?;
    bytes.push(b')')?;
    Ok(())
}

/// Adds a quotient if its coefficient is not 0, and answers whether any term stands now.
fn push_quot_term(
    bytes: &mut Vec<u8>,
    scope: &Scope<'_>,
    any: bool,
    quot: &Quot,
) -> Result<bool, AllocError>
    ensures text { IfOk result (λ now. bytes.new.items ≡ bytes.old.items ++ continued any (text.term quot.now.coef (text.quot_text scope.now quot.now))) }
    ensures any { IfOk result (λ now. now ≡ has_terms any (text.term quot.now.coef (text.quot_text scope.now quot.now))) }
{
    let coef = quot.coef;
    if coef == 0 {
        return Ok(any);
    }
    push_plus(bytes, any)?;
    push_number(bytes, coef)?;
    bytes.push(b'*')?;
    push_quot(bytes, scope, quot)?;
    Ok(true)
}

/// Adds the quotients whose coefficients are not 0, behind other terms if any stand.
fn push_quots(
    bytes: &mut Vec<u8>,
    scope: &Scope<'_>,
    before: bool,
    quots: &[Quot],
) -> Result<bool, AllocError>
    ensures text { IfOk result (λ now. bytes.new.items ≡ bytes.old.items ++ continued before (text.quot_terms scope.now quots.now)) }
    ensures any { IfOk result (λ now. now ≡ has_terms before (text.quot_terms scope.now quots.now)) }
{
    let mut any = before;
    for quot in quots {
        any = push_quot_term(bytes, scope, any, quot)?;
    }
    Ok(any)
}

/// Adds a form.
pub fn push_form(bytes: &mut Vec<u8>, scope: &Scope<'_>, e: &IndexExpr) -> Result<(), AllocError>
    ensures { OnOk result (bytes.new.items ≡ bytes.old.items ++ text.form_text scope.now e.now) }
{
    let any = push_names(bytes, scope, e.params.as_slice(), e.iters.as_slice())?;
    let any = push_quots(bytes, scope, any, e.quots.as_slice())?;
    push_last(bytes, any, e.konst)?;
    Ok(())
}

/// Adds a form in parentheses and the test of a divisor.
fn push_division(
    bytes: &mut Vec<u8>,
    scope: &Scope<'_>,
    form: &IndexExpr,
    divisor: i64,
) -> Result<(), AllocError>
    ensures { OnOk result (bytes.new.items ≡ bytes.old.items ++ (text.in_parentheses (text.form_text scope.now form.now) ++ codes " % " ++ signed_decimal divisor ++ codes " == 0")) }
{
    bytes.push(b'(')?;
    push_form(bytes, scope, form)?;
    bytes.extend_from_slice(b") % ")?;
    push_number(bytes, divisor)?;
    bytes.extend_from_slice(b" == 0")
}

fn push_comparison(bytes: &mut Vec<u8>, scope: &Scope<'_>, c: &Comparison) -> Result<(), AllocError>
    ensures { OnOk result (bytes.new.items ≡ bytes.old.items ++ text.comparison_text scope.now c.now) }
{
    match c.rel {
        Rel::NonNegative => {
            push_form(bytes, scope, &c.form)?;
            bytes.extend_from_slice(b" >= 0")
        }
        Rel::Zero => {
            push_form(bytes, scope, &c.form)?;
            bytes.extend_from_slice(b" == 0")
        }
        Rel::Divides(divisor) => push_division(bytes, scope, &c.form, divisor),
    }
}

fn push_further(bytes: &mut Vec<u8>, scope: &Scope<'_>, c: &Comparison) -> Result<(), AllocError>
    ensures { OnOk result (bytes.new.items ≡ bytes.old.items ++ codes " && " ++ text.comparison_text scope.now c.now) }
{
    bytes.extend_from_slice(b" && ")?;
    push_comparison(bytes, scope, c)
}

/// Adds a condition.
pub fn push_cond(bytes: &mut Vec<u8>, scope: &Scope<'_>, cond: &Cond) -> Result<(), AllocError>
    ensures { OnOk result (bytes.new.items ≡ bytes.old.items ++ text.cond_text scope.now cond.now) }
{
    let [first, rest @ ..] = cond.parts.as_slice() else {
        return Ok(());
    };
    push_comparison(bytes, scope, first)?;
    for c in rest {
        push_further(bytes, scope, c)?;
    }
    Ok(())
}

fn push_subscript(bytes: &mut Vec<u8>, scope: &Scope<'_>, e: &IndexExpr) -> Result<(), AllocError>
    ensures { OnOk result (bytes.new.items ≡ bytes.old.items ++ text.bracketed (text.form_text scope.now e.now)) }
{
    bytes.push(b'[')?;
    push_form(bytes, scope, e)?;
    bytes.push(b']')?;
    Ok(())
}

/// Adds each form in brackets.
pub fn push_subscripts(
    bytes: &mut Vec<u8>,
    scope: &Scope<'_>,
    subs: &[IndexExpr],
) -> Result<(), AllocError>
    ensures { OnOk result (bytes.new.items ≡ bytes.old.items ++ text.subscripts_text scope.now subs.now) }
{
    for e in subs {
        push_subscript(bytes, scope, e)?;
    }
    Ok(())
}
