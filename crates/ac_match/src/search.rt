ghost use Rattle.std.specs.Prelude.{◌≡◌, ◌≤◌, List, length, IfOk, MatchBool, MatchOption, replicate, None};
ghost use Rattle.ac_syntax.specs.declared.tree.Order.{Order};
ghost use Rattle.ac_match.specs.MatchInternals.Search.{Has, SomeExtended, NoneExtended, open_count, filled};

use crate::look::{Choice, Look, look_at_all};
use ac_base::Items;
use ac_syntax::tree::Order;
use std::alloc::{AllocError, Global};

/// An order of that many sites that extends none of the partial orders; none exactly where each extends one.
pub(crate) fn solved(
    alloc: Global,
    sites: usize,
    refuted: &[Items<Choice>],
) -> Result<Option<Items<Order>>, AllocError>
    ensures { IfOk result (λ found. MatchOption found ((os : List Order) → length os ≡ sites → SomeExtended os refuted.now) (λ os. (length os ≡ sites) × NoneExtended os refuted.now)) }
{
    let mut assigned = unassigned(alloc, sites)?;
    solved_in(alloc, refuted, assigned.as_mut_slice(), sites)
}

/// The same, where the sites stand that are not yet assigned.
fn solved_in(
    alloc: Global,
    refuted: &[Items<Choice>],
    assigned: &mut [Option<Order>],
    sites: usize,
) -> Result<Option<Items<Order>>, AllocError>
    requires { assigned.old ≡ replicate sites None }
    ensures { IfOk result (λ found. MatchOption found ((os : List Order) → length os ≡ sites → SomeExtended os refuted.now) (λ os. (length os ≡ sites) × NoneExtended os refuted.now)) }
{
    if !search(refuted, assigned, sites) {
        return Ok(None);
    }
    match filled(alloc, assigned) {
        Ok(order) => Ok(Some(order)),
        Err(want) => Err(want),
    }
}

/// That many sites, none assigned.
#[tactic(auto, using(crate::proofs::Searches::replicate_snoc))]
fn unassigned(alloc: Global, sites: usize) -> Result<Vec<Option<Order>>, AllocError>
    ensures { IfOk result (λ made. made.items ≡ replicate sites None) }
{
    let mut made = Vec::new(alloc);
    for _site in 0..sites {
        made.push(None)?;
    }
    Ok(made)
}

/// Assigns open sites so that no order with what is assigned then extends a refuted one. Where there is no such way, each
/// order with what was assigned extends one, and all is as before. At most `left` sites are open.
#[tactic(auto, using(crate::proofs::Searches::search_steps))]
fn search(refuted: &[Items<Choice>], assigned: &mut [Option<Order>], left: usize) -> bool
    requires left { open_count assigned.old ≤ left }
    ensures exact { MatchBool result ((os : List Order) → Has os assigned.new → NoneExtended os refuted.now) ((assigned.new ≡ assigned.old) × ((os : List Order) → Has os assigned.old → SomeExtended os refuted.now)) }
    ensures length { length assigned.new ≡ length assigned.old }
{
    let site = match look_at_all(refuted, assigned) {
        Look::Contradicted => return true,
        Look::Extended => return false,
        Look::Open(site) => site,
    };
    assigned[site] = Some(Order::Keep);
    if search(refuted, assigned, left - 1) {
        return true;
    }
    assigned[site] = Some(Order::Swap);
    if search(refuted, assigned, left - 1) {
        return true;
    }
    assigned[site] = None;
    false
}

/// The order of each site, `Keep` where none is assigned.
fn filled(alloc: Global, assigned: &[Option<Order>]) -> Result<Items<Order>, AllocError>
    ensures { IfOk result (λ made. made ≡ filled assigned.now) }
{
    let mut made = Items::new(alloc);
    for order in assigned {
        made.push(order.unwrap_or(Order::Keep))?;
    }
    Ok(made)
}
