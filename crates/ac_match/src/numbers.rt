ghost use Rattle.std.specs.Prelude.{◌≡◌, ◌↔◌, List, length, zip, IfOk, IsTrue, MatchOption};
ghost use Rattle.ac_syntax.specs.declared.tree.Order.{Order};
ghost use Rattle.ac_match.specs.MatchInternals.Numbers.{AreNumbered, IsPlace};
ghost use Rattle.ac_match.specs.MatchInternals.Search.{SomeExtended, NoneExtended};

use crate::look::Choice;
use crate::search::solved;
use ac_base::Items;
use ac_syntax::tree::{Order, Site};
use std::alloc::{AllocError, Global};

/// Whether two sites are the same.
fn is_same(site: &Site, other: &Site) -> bool
    ensures { IsTrue result ↔ (site.now ≡ other.now) }
{
    site == other
}

/// The first place of a site; the number of sites, where it has none.
#[tactic(auto, using(crate::proofs::Numbering::place_steps))]
fn place_of(sites: &[Site], site: &Site) -> usize
    ensures { IsPlace sites.now site.now result }
{
    let mut place = 0;
    for candidate in sites {
        if is_same(candidate, site) {
            return place;
        }
        place += 1;
    }
    place
}

/// The choices of a partial order, by the places of their sites.
#[tactic(auto, using(crate::proofs::Numbering::numbered_steps))]
pub(crate) fn numbered(
    alloc: Global,
    sites: &[Site],
    partial: &[(Site, Order)],
) -> Result<Items<Choice>, AllocError>
    ensures { IfOk result (λ choices. AreNumbered sites.now partial.now choices) }
{
    let mut choices = Items::new(alloc);
    for choice in partial {
        choices.push(Choice {
            site: place_of(sites, &choice.0),
            order: choice.1,
        })?;
    }
    Ok(choices)
}

/// The sites, each with its order.
#[tactic(auto, using(crate::proofs::Numbering::zipped_steps))]
fn zipped(
    alloc: Global,
    sites: &[Site],
    orders: &[Order],
) -> Result<Items<(Site, Order)>, AllocError>
    requires { length orders.now ≡ length sites.now }
    ensures { IfOk result (λ chosen. chosen ≡ zip sites.now orders.now) }
{
    let mut chosen = Items::new(alloc);
    for at in 0..sites.len() {
        chosen.push((sites[at], orders[at]))?;
    }
    Ok(chosen)
}

/// An order of all sites that extends none of the partial ones; none exactly where each extends one.
pub(crate) fn chosen(
    alloc: Global,
    sites: &[Site],
    refuted: &[Items<Choice>],
) -> Result<Option<Items<(Site, Order)>>, AllocError>
    ensures { IfOk result (λ found. MatchOption found ((os : List Order) → length os ≡ length sites.now → SomeExtended os refuted.now) (λ chosen. (os : List Order) × (length os ≡ length sites.now) × (chosen ≡ zip sites.now os) × NoneExtended os refuted.now)) }
{
    let Some(orders) = solved(alloc, sites.len(), refuted)? else {
        return Ok(None);
    };
    Ok(Some(zipped(alloc, sites, orders.as_slice())?))
}
