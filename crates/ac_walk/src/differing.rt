//! Elements that differ: both programs are run at a few valuations.
ghost use Rattle.std.specs.Prelude.{◌≡◌, ℕ, List, ℤ, Some, None, Ok, Result, IfOk, IfSome, IfNone, MatchOption, slice_get};
ghost use Rattle.std.specs.Cmp.Lexicographic.{pointwise};
ghost use Rattle.std.specs.Ordering.{int_eq};
ghost use Rattle.std.specs.Set.{is_member};
ghost use Rattle.ac_claims.specs.Soundness.{ArePaired};
ghost use Rattle.ac_instance.specs.MachineSteps.{IsDue};
ghost use Rattle.ac_instance.specs.declared.halt.Halt.{Halt as Halting};
ghost use Rattle.ac_instance.specs.declared.halt.Outcome.TheVariants.{Different};
ghost use Rattle.ac_walk.specs.OutputDecisions.{AreDifferent, IsDifference};
ghost use Rattle.ac_walk.specs.TriedValuations.{HoldsOfFirst, IsLeft, IsTriedToo, NumberShowsNone, ShowNone};

use crate::valuations::{valuation, valuations_of};
use ac_base::Items;
use ac_instance::{Halt, Outcome, instance};
use ac_report::{Cause, Verdict};
use ac_syntax::tree::Pair;
use std::alloc::{AllocError, Global};

/// How many events a run may have.
const EVENTS: u64 = 1_000_000;

/// How many different valuations of derivations are tried.
const VALUATIONS: usize = 16;

/// A valuation, and the least element that differs there.
#[derive(Drop)]
pub(crate) struct Difference {
    pub at: Items<i64>,
    pub element: Items<i64>,
}

/// The element that the outcome with a number names, where it is different.
fn element_of(
    alloc: Global,
    outcomes: &[Outcome],
    number: usize,
) -> Result<Option<Items<i64>>, AllocError>
    ensures { IfOk result (λ found. MatchOption found ((element : List ℤ) → ¬ (slice_get outcomes.now number ≡ Some (Different element))) (λ element. slice_get outcomes.now number ≡ Some (Different element))) }
{
    match outcomes.get(number) {
        Some(Outcome::Different(element)) => {
            Ok(Some(Items::from_slice(alloc, element.as_slice())?))
        }
        Some(Outcome::Equal) => Ok(None),
        None => Ok(None),
    }
}

/// No element, where the runs halt. Want of memory is handed on.
fn no_element(halt: Halt) -> Result<Option<Items<i64>>, AllocError>
    ensures none { IfOk result (λ found. found ≡ None) }
    ensures halts { IfOk result (λ found. (due : Result ℕ Halting) (events : ℕ) → IsDue due halt → ¬ (due ≡ Ok events)) }
{
    match halt {
        Halt::OutsideContext => Ok(None),
        Halt::TooLarge(_) => Ok(None),
        Halt::Range { .. } => Ok(None),
        Halt::Wide => Ok(None),
        Halt::Memory(want) => Err(want),
    }
}

/// The least element of the output with this number that differs at a valuation, where the runs there end.
fn element_at(
    alloc: Global,
    pair: &Pair,
    number: usize,
    at: &[i64],
) -> Result<Option<Items<i64>>, AllocError>
    requires { ArePaired pair.now }
    ensures { IfOk result (λ found. MatchOption found (NumberShowsNone pair.now number at.now) (AreDifferent pair.now number at.now)) }
{
    if at.len() != pair.left.params.len() {
        return Ok(None);
    }
    match instance(alloc, pair, at, EVENTS) {
        Ok(ran) => element_of(alloc, ran.outcomes.as_slice(), number),
        Err(halt) => no_element(halt),
    }
}

/// The least element of the output with this number that differs at a valuation, with the valuation.
fn difference_at(
    alloc: Global,
    pair: &Pair,
    number: usize,
    at: &[i64],
) -> Result<Option<Difference>, AllocError>
    requires { ArePaired pair.now }
    ensures { IfOk result (λ found. MatchOption found (NumberShowsNone pair.now number at.now) (IsDifference pair.now number)) }
{
    match element_at(alloc, pair, number, at)? {
        Some(element) => {
            let at = Items::from_slice(alloc, at)?;
            Ok(Some(Difference { at, element }))
        }
        None => Ok(None),
    }
}

/// Whether a valuation is among others.
fn is_among(valuations: &[Items<i64>], at: &[i64]) -> bool
    ensures { result ≡ is_member (pointwise int_eq) valuations.now at.now }
{
    for other in valuations {
        if *at == *other.as_slice() {
            return true;
        }
    }
    false
}

/// A difference of the output with this number at a valuation, unless it was tried.
fn try_new(
    alloc: Global,
    pair: &Pair,
    number: usize,
    tried: &mut Items<Items<i64>>,
    at: &[i64],
) -> Result<Option<Difference>, AllocError>
    requires { ArePaired pair.now }
    ensures found { IfOk result (λ found. IfSome found (IsDifference pair.now number)) }
    ensures tried { IfOk result (λ found. IfNone found (IsTriedToo pair.now number tried.old at.now tried.new)) }
{
    if is_among(tried.as_slice(), at) {
        return Ok(None);
    }
    match difference_at(alloc, pair, number, at)? {
        Some(found) => Ok(Some(found)),
        None => {
            tried.push(Items::from_slice(alloc, at)?)?;
            Ok(None)
        }
    }
}

/// A difference of the output with this number at the valuation of a point, unless it was tried.
pub(crate) fn try_point(
    alloc: Global,
    pair: &Pair,
    number: usize,
    tried: &mut Items<Items<i64>>,
    point: &[i128],
) -> Result<Option<Difference>, AllocError>
    requires { ArePaired pair.now }
    ensures { IfOk result (λ found. IfSome found (IsDifference pair.now number)) }
{
    match valuation(alloc, pair.left.params.len(), point)? {
        Some(at) => try_new(alloc, pair, number, tried, at.as_slice()),
        None => Ok(None),
    }
}

/// A difference of the output with this number at the first of the valuations that shows one, of which so many different ones are tried.
fn first_difference(
    alloc: Global,
    pair: &Pair,
    number: usize,
    valuations: &[Items<i64>],
    most: usize,
) -> Result<Option<Difference>, AllocError>
    requires { ArePaired pair.now }
    ensures { IfOk result (λ found. MatchOption found (HoldsOfFirst (NumberShowsNone pair.now number) most valuations.now) (IsDifference pair.now number)) }
{
    let mut tried = Items::new(alloc);
    for at in valuations {
        if tried.len() >= most {
            return Ok(None);
        }
        match try_new(alloc, pair, number, &mut tried, at.as_slice())? {
            Some(found) => return Ok(Some(found)),
            None => continue,
        }
    }
    Ok(None)
}

/// A difference of the output with this number at a valuation of the derivations that a cause lists, or at a sample.
fn any_difference(
    alloc: Global,
    pair: &Pair,
    samples: &[Items<i64>],
    number: usize,
    cause: &Cause,
) -> Result<Option<Difference>, AllocError>
    requires { ArePaired pair.now }
    ensures { IfOk result (λ found. MatchOption found (ShowNone pair.now samples.now number cause.now) (IsDifference pair.now number)) }
{
    let listed = valuations_of(alloc, pair.left.params.len(), cause)?;
    match first_difference(alloc, pair, number, listed.as_slice(), VALUATIONS)? {
        Some(found) => Ok(Some(found)),
        None => first_difference(alloc, pair, number, samples, samples.len()),
    }
}

/// The verdict on the output with this number, which the search leaves unknown for a cause: different where an element is seen to differ.
pub(crate) fn unknown_or_different(
    alloc: Global,
    pair: &Pair,
    samples: &[Items<i64>],
    number: usize,
    cause: Cause,
) -> Result<Verdict, AllocError>
    requires { ArePaired pair.now }
    ensures { IfOk result (IsLeft pair.now samples.now number cause) }
{
    match any_difference(alloc, pair, samples, number, &cause)? {
        Some(found) => Ok(Verdict::Different {
            at: found.at,
            element: found.element,
        }),
        None => Ok(Verdict::Unknown(cause)),
    }
}
