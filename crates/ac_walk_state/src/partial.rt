//! The part of an order that a derivation needs.
ghost use Rattle.std.specs.Prelude.{◌≡◌, ◌↔◌, ◌++◌, ℕ, List, [], ◌∷◌, Bool, IfOk, IsTrue, MatchOption, OnOk};
ghost use Rattle.ac_forms.specs.ListMembers.{IsAmong};
ghost use Rattle.ac_forms.specs.declared.row.Row.{Row};
ghost use Rattle.ac_widen_programs.specs.PairSetting.{setting};
ghost use Rattle.ac_unfold_plans.specs.ArgumentOrders.{order_of};
ghost use Rattle.ac_syntax.specs.declared.tree.Position.{Position};
ghost use Rattle.ac_syntax.specs.declared.tree.Site.{Site};
ghost use Rattle.ac_widen.specs.OrderRefutations.{IsPartOf};
ghost use Rattle.ac_widen.specs.declared.derivation.Entry.{Entry};
ghost use Rattle.ac_widen_programs.specs.PairPoints.{choices_of};
ghost use Rattle.ac_widen_programs.specs.DerivationEntries.{entries_of};
ghost use Rattle.ac_walk_state.specs.PartialOrders.{AreChoices, AreSourcesOf, AreSteppedFrom, IsSource, choice_of, HasSite};

use ac_base::Items;
use ac_claims::ending::same_position;
use ac_graph::sites;
use ac_syntax::tree::{Order, Pair, Position, Site};
use ac_widen::{Entry, Reason};
use std::alloc::{AllocError, Global};

/// Whether two sites are one.
fn same_site(site: &Site, other: &Site) -> bool
    ensures { IsTrue result ↔ (site.now ≡ other.now) }
{
    site == other
}

/// Whether a site is among others.
pub(crate) fn has_site(sites: &[Site], site: &Site) -> bool
    ensures { IsTrue result ↔ IsAmong site.now sites.now }
{
    for other in sites {
        if same_site(site, other) {
            return true;
        }
    }
    false
}

/// The choice of an order at a site: the first that is listed there; the arguments keep theirs where none is.
fn choice_at(order: &[(Site, Order)], site: &Site) -> Order
    ensures { result ≡ (choice_of order.now site.now).1 }
{
    for choice in order {
        if same_position(&choice.0.left, &site.left)
            && same_position(&choice.0.right, &site.right)
        {
            return choice.1;
        }
    }
    Order::Keep
}

/// Whether a site has a choice among some.
fn is_chosen(choices: &[(Site, Order)], site: &Site) -> bool
    ensures { IsTrue result ↔ HasSite choices.now site.now }
{
    for choice in choices {
        if same_site(site, &choice.0) {
            return true;
        }
    }
    false
}

/// Adds the choice of an order at a site, if it is one of those sites and has no choice yet.
fn push_choice(
    order: &[(Site, Order)],
    sites: &[Site],
    site: &Site,
    choices: &mut Vec<(Site, Order)>,
) -> Result<(), AllocError>
    ensures stays { OnOk result ((c : Site × Order) → IsAmong c choices.old.items → IsAmong c choices.new.items) }
    ensures right { OnOk result (AreChoices order.now sites.now choices.old.items → AreChoices order.now sites.now choices.new.items) }
    ensures chosen { OnOk result (AreChoices order.now sites.now choices.old.items → IsAmong site.now sites.now → IsAmong (choice_of order.now site.now) choices.new.items) }
{
    if !has_site(sites, site) {
        return Ok(());
    }
    if is_chosen(choices.as_slice(), site) {
        return Ok(());
    }
    choices.push((*site, choice_at(order, site)))?;
    Ok(())
}

/// The choices of an order at those of its sites that are among some, in its order.
fn listed(
    alloc: Global,
    order: &[(Site, Order)],
    sites: &[Site],
) -> Result<Vec<(Site, Order)>, AllocError>
    ensures { IfOk result (λ choices. AreChoices order.now sites.now choices.items) }
{
    let mut choices = Vec::new(alloc);
    for choice in order {
        push_choice(order, sites, &choice.0, &mut choices)?;
    }
    Ok(choices)
}

/// The choices of an order at some sites: at those that it lists in its order, then at the others.
fn chosen(
    alloc: Global,
    order: &[(Site, Order)],
    sites: &[Site],
) -> Result<Vec<(Site, Order)>, AllocError>
    ensures right { IfOk result (λ choices. AreChoices order.now sites.now choices.items) }
    ensures all { IfOk result (λ choices. (site : Site) → IsAmong site sites.now → IsAmong (choice_of order.now site) choices.items) }
{
    let mut choices = listed(alloc, order, sites)?;
    for site in sites {
        push_choice(order, sites, site, &mut choices)?;
    }
    Ok(choices)
}

/// The pair of the entry from which an entry steps; none exactly where it is no step, or steps from no entry.
fn source_of(entries: &[Entry], entry: &Entry) -> Option<(Position, Position)>
    ensures { MatchOption result ((positions : Position × Position) → ¬ (IsSource entries.now entry.now positions)) (IsSource entries.now entry.now) }
{
    match &entry.reason {
        Reason::Step { from } => match entries.get(*from) {
            Some(source) => Some((source.left, source.right)),
            None => None,
        },
        Reason::Output | Reason::Hull { .. } => None,
    }
}

/// Adds the pair from which an entry steps, if it steps from one.
fn push_source(
    entries: &[Entry],
    entry: &Entry,
    pairs: &mut Items<(Position, Position)>,
) -> Result<(), AllocError>
    ensures { OnOk result ((first : List Entry) → AreSourcesOf entries.now first pairs.old → AreSourcesOf entries.now (first ++ entry.now ∷ []) pairs.new) }
{
    match source_of(entries, entry) {
        Some(pair) => pairs.push(pair),
        None => Ok(()),
    }
}

/// The pairs from which entries step.
fn stepped_from(alloc: Global, entries: &[Entry]) -> Result<Items<(Position, Position)>, AllocError>
    ensures { IfOk result (AreSteppedFrom entries.now) }
{
    let mut pairs = Items::new(alloc);
    for entry in entries {
        push_source(entries, entry, &mut pairs)?;
    }
    Ok(pairs)
}

/// The part of an order that a derivation needs: its choices at exactly the sites from which the entries step. At a site that the order
/// does not list the arguments keep theirs. The only refusal is want of memory.
pub fn partial_of(
    alloc: Global,
    pair: &Pair,
    entries: &[Entry],
    order: &[(Site, Order)],
) -> Result<Vec<(Site, Order)>, AllocError>
    ensures { IfOk result (λ partial. (outputs : List ℕ) (recurrent : Position × Position → Bool) (template : Position × Position → List Row) → IsPartOf (setting pair.now outputs recurrent template) (order_of order.now) (entries_of entries.now) (choices_of partial.items)) }
{
    let pairs = stepped_from(alloc, entries)?;
    let stepped = sites(alloc, pair, pairs.as_slice())?;
    chosen(alloc, order, stepped.as_slice())
}
