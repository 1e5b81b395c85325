//! Widening points in the order of their claims in a proof.
ghost use Rattle.std.specs.Prelude.{◌≡◌, ◌<◌, ◌≤◌, ℕ, length, IfOk, Some, slice_get};
ghost use Rattle.std.specs.List.{AllByRecursion};
ghost use Rattle.ac_forms.specs.ListMembers.{IsAmong};
ghost use Rattle.ac_walk_state.specs.RecurrencePairs.{WideningPointOf};
ghost use Rattle.ac_walk.specs.Ranks.{AreClaimsAt, AreRanks, IsBare, Within};

use ac_claims::types::Claim;
use ac_walk_state::WideningPoint;
use std::alloc::{AllocError, Global};

/// The numbers of all widening points, those with members first.
#[derive(Drop)]
pub(crate) struct Ranks {
    pub numbers: Vec<usize>,
    /// How many have members.
    pub count: usize,
}

/// Adds the numbers of the widening points without members, or of those with members.
fn with_numbers(
    widening_points: &[WideningPoint],
    bare: bool,
    numbers: Vec<usize>,
) -> Result<Vec<usize>, AllocError>
    ensures within { IfOk result (λ made. Within widening_points.now numbers.items → Within widening_points.now made.items) }
    ensures kept { IfOk result (λ made. (n : ℕ) → IsAmong n numbers.items → IsAmong n made.items) }
    ensures whole { IfOk result (λ made. (n : ℕ) (widening_point : WideningPointOf) → slice_get widening_points.now n ≡ Some widening_point → IsBare bare widening_point → IsAmong n made.items) }
{
    let mut made = numbers;
    for (at, widening_point) in widening_points.iter().enumerate() {
        if widening_point.is_empty() == bare {
            made.push(at)?;
        }
    }
    Ok(made)
}

/// The numbers of all widening points, those with members first.
pub(crate) fn ranked(alloc: Global, widening_points: &[WideningPoint]) -> Result<Ranks, AllocError>
    ensures { IfOk result (λ made. AreRanks widening_points.now made.numbers.items) }
{
    let first = with_numbers(widening_points, false, Vec::new(alloc))?;
    let count = first.len();
    let numbers = with_numbers(widening_points, true, first)?;
    Ok(Ranks { numbers, count })
}

/// The claims of the widening points with these numbers, in order.
pub(crate) fn claims_at(
    alloc: Global,
    widening_points: &[WideningPoint],
    numbers: &[usize],
) -> Result<Vec<Claim>, AllocError>
    requires { Within widening_points.now numbers.now }
    ensures { IfOk result (λ made. AreClaimsAt widening_points.now numbers.now made.items) }
{
    let mut made = Vec::new(alloc);
    for at in 0..numbers.len() {
        let widening_point = &widening_points[numbers[at]];
        made.push(widening_point.claim(alloc)?)?;
    }
    Ok(made)
}
