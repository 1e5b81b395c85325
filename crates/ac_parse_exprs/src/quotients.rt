//! The quotients of a form with their coefficients, of which each stands once.

ghost use Rattle.std.specs.Prelude.{◌≡◌, ◌++◌, ◌+ℤ◌, ◌*ℤ◌, map, not, Some, None, IfOk, OnOk, if◌then◌else◌};
ghost use Rattle.std.specs.List.{list_all, filter};
ghost use Rattle.std.specs.Option.{option_map};
ghost use Rattle.ac_syntax.specs.Index.{is_zero};
ghost use Rattle.ac_parse_exprs.specs.AffineForms as spec;
ghost use Rattle.ac_parse_exprs.specs.AffineForms.{is_small, all_small, coef_of, signed};
ghost use Rattle.ac_parse_exprs.specs.Comparisons as program;

use crate::form::{is_small, sign, small};
use ac_base::Items;
use ac_syntax::copy::copy_quot;
use ac_syntax::quotients::same_quot;
use ac_syntax::tree::Quot;
use std::alloc::{AllocError, Global};

/// Whether each coefficient is within the limit.
pub(crate) fn are_small(quots: &[Quot]) -> bool
    ensures { result ≡ all_small (map coef_of quots.now) }
{
    for quot in quots {
        if !is_small(i128::from(quot.coef)) {
            return false;
        }
    }
    true
}

/// Whether each coefficient is 0.
pub(crate) fn are_zero(quots: &[Quot]) -> bool
    ensures { result ≡ list_all is_zero (map coef_of quots.now) }
{
    for quot in quots {
        if quot.coef != 0 {
            return false;
        }
    }
    true
}

/// `k x`; none exactly where that passes the limit.
fn small_product(k: i128, x: i64) -> Option<i64>
    ensures { result ≡ (if is_small (k *ℤ x) then Some (k *ℤ x) else None) }
{
    small(k.checked_mul(i128::from(x))?)
}

/// `x + y`, or `x - y` where `down`; none exactly where that passes the limit.
fn small_sum(x: i128, down: bool, y: i128) -> Option<i64>
    ensures { result ≡ (if is_small (x +ℤ (signed down *ℤ y)) then Some (x +ℤ (signed down *ℤ y)) else None) }
{
    let sum = if down {
        x.checked_sub(y)?
    } else {
        x.checked_add(y)?
    };
    small(sum)
}

/// The quotient with another coefficient, if there is one.
fn with_coef(alloc: Global, coef: Option<i64>, quot: &Quot) -> Result<Option<Quot>, AllocError>
    ensures { IfOk result (λ made. made ≡ option_map (λ c. record quot.now { coef = c }) coef) }
{
    let Some(coef) = coef else {
        return Ok(None);
    };
    let mut made = copy_quot(alloc, quot)?;
    made.coef = coef;
    Ok(Some(made))
}

/// Copies of quotients behind others.
fn append(alloc: Global, made: &mut Items<Quot>, quots: &[Quot]) -> Result<(), AllocError>
    ensures { OnOk result (made.new ≡ made.old ++ quots.now) }
{
    for quot in quots {
        made.push(copy_quot(alloc, quot)?)?;
    }
    Ok(())
}

/// The quotient `k` times, or none.
fn times(alloc: Global, k: i128, quot: &Quot) -> Result<Option<Quot>, AllocError>
    ensures { IfOk result (λ made. made ≡ spec.with_coef (k *ℤ quot.now.coef) quot.now) }
{
    with_coef(alloc, small_product(k, quot.coef), quot)
}

/// The quotient plus an equal one, or less it where `down`, or none.
fn plus(alloc: Global, quot: &Quot, down: bool, other: &Quot) -> Result<Option<Quot>, AllocError>
    ensures { IfOk result (λ made. made ≡ spec.with_coef (quot.now.coef +ℤ (signed down *ℤ other.now.coef)) quot.now) }
{
    let sum = small_sum(i128::from(quot.coef), down, i128::from(other.coef));
    with_coef(alloc, sum, quot)
}

/// The quotients with one more, or one less where `down`, at the first equal one or behind all; none exactly where its coefficient passes the limit.
#[tactic(auto, using(crate::proofs::QuotientLists::quotients))]
fn with_quot(
    alloc: Global,
    down: bool,
    quot: &Quot,
    quots: &[Quot],
) -> Result<Option<Items<Quot>>, AllocError>
    ensures { IfOk result (λ made. made ≡ spec.with_quot (signed down) quot.now quots.now) }
{
    let mut made = Items::new(alloc);
    for (at, other) in quots.iter().enumerate() {
        if same_quot(quot, other) {
            let Some(sum) = plus(alloc, other, down, quot)? else {
                return Ok(None);
            };
            made.push(sum)?;
            append(alloc, &mut made, &quots[at + 1..])?;
            return Ok(Some(made));
        }
        made.push(copy_quot(alloc, other)?)?;
    }
    let Some(last) = times(alloc, sign(down), quot)? else {
        return Ok(None);
    };
    made.push(last)?;
    Ok(Some(made))
}

/// The first quotients and the second, or less the second where `down`; none exactly where a coefficient passes the limit.
#[tactic(auto, using(crate::proofs::QuotientLists::quotients))]
pub(crate) fn joined(
    alloc: Global,
    down: bool,
    first: &[Quot],
    second: &[Quot],
) -> Result<Option<Items<Quot>>, AllocError>
    ensures { IfOk result (λ made. made ≡ spec.joined_quots (signed down) first.now second.now) }
{
    let mut made = Items::new(alloc);
    append(alloc, &mut made, first)?;
    for quot in second {
        let Some(more) = with_quot(alloc, down, quot, made.as_slice())? else {
            return Ok(None);
        };
        made = more;
    }
    Ok(Some(made))
}

/// `k` times each; none exactly where a coefficient passes the limit.
#[tactic(auto, using(crate::proofs::QuotientLists::quotients))]
pub(crate) fn scaled(
    alloc: Global,
    k: i128,
    quots: &[Quot],
) -> Result<Option<Items<Quot>>, AllocError>
    ensures { IfOk result (λ made. made ≡ spec.scaled_quots k quots.now) }
{
    let mut made = Items::new(alloc);
    for quot in quots {
        let Some(one) = times(alloc, k, quot)? else {
            return Ok(None);
        };
        made.push(one)?;
    }
    Ok(Some(made))
}

/// Those whose coefficient is not 0.
#[tactic(auto, using(crate::proofs::QuotientLists::quotients))]
pub(crate) fn counted(alloc: Global, quots: &[Quot]) -> Result<Items<Quot>, AllocError>
    ensures { IfOk result (λ made. made ≡ program.counted quots.now) }
{
    let mut made = Items::new(alloc);
    for quot in quots {
        if quot.coef != 0 {
            made.push(copy_quot(alloc, quot)?)?;
        }
    }
    Ok(made)
}
