//! The first of some numbers in the order 0, 1, -1, 2, -2, and so on.
ghost use Rattle.std.specs.Prelude.{◌≡◌, ◌↔◌, ◌<◌, ◌≤◌, ℤ, IfOk, IfSome, IsTrue, length, slice_get, take};
ghost use Rattle.ac_forms.specs.ListMembers.{IsAmong};
ghost use Rattle.ac_widen.specs.Combinations.{Each};
ghost use Rattle.ac_hull.specs.SmallestIntegers.{AreFirst, rank};
ghost use Rattle.ac_hull.specs.HullInternals.Placing.{inserted};

use ac_base::Items;
use std::alloc::{AllocError, Global};

/// Whether a number comes before another.
fn is_before(number: i128, other: i128) -> bool
    ensures { IsTrue result ↔ (rank number < rank other) }
{
    let size = number.unsigned_abs();
    let limit = other.unsigned_abs();
    size < limit || (size == limit && number > other)
}

/// How many of the numbers, from the first on, come before a number.
#[tactic(auto, using(crate::proofs::Placing::place_steps))]
fn place(numbers: &[i128], number: i128) -> usize
    ensures within { result ≤ length numbers.now }
    ensures before { Each (λ x. rank x < rank number) (take result numbers.now) }
    ensures behind { IfSome (slice_get numbers.now result) (λ x. rank number ≤ rank x) }
{
    for (at, candidate) in numbers.iter().enumerate() {
        if !is_before(*candidate, number) {
            return at;
        }
    }
    numbers.len()
}

/// Whether the number stands at a place.
fn is_at(numbers: &[i128], at: usize, number: i128) -> bool
    ensures { IsTrue result ↔ (slice_get numbers.now at ≡ Some number) }
{
    match numbers.get(at) {
        Some(candidate) => *candidate == number,
        None => false,
    }
}

/// The numbers with one more in its place, up to the limit.
#[tactic(auto, using(crate::proofs::Placing::insert_steps))]
fn with_number(numbers: Items<i128>, limit: usize, number: i128) -> Result<Items<i128>, AllocError>
    requires { length numbers ≤ limit }
    ensures { IfOk result (λ new. new ≡ inserted limit number numbers) }
{
    let at = place(numbers.as_slice(), number);
    if at == limit || is_at(numbers.as_slice(), at, number) {
        return Ok(numbers);
    }
    let mut made = numbers.into_vec();
    if made.len() == limit {
        made.pop();
    }
    made.insert(at, number)?;
    Ok(Items::from(made))
}

/// The first of the candidates, up to the limit.
#[tactic(auto, using(crate::proofs::Placing::first_steps))]
pub(crate) fn first(
    alloc: Global,
    limit: usize,
    candidates: &[i128],
) -> Result<Items<i128>, AllocError>
    ensures { IfOk result (AreFirst limit (λ x. IsAmong x candidates.now)) }
{
    let mut numbers = Items::new(alloc);
    for candidate in candidates {
        numbers = with_number(numbers, limit, *candidate)?;
    }
    Ok(numbers)
}
