ghost use Rattle.std.specs.Prelude.{◌≡◌, ◌≤◌, List, [], ◌∷◌, ◌++◌, length, zip, IfOk, OnOk, OnErr, MatchOption};
ghost use Rattle.ac_syntax.specs.declared.tree.Order.{Order};
ghost use Rattle.ac_syntax.specs.declared.tree.Site.{Site};
ghost use Rattle.ac_match.specs.SiteOrders.{ExtendsRefuted, IsNext, IsOrderOf};
ghost use Rattle.ac_match.specs.MatchInternals.Numbers.{AreNumbered, IsPlace};

use crate::look::Choice;
use crate::numbers::{chosen, numbered};
use ac_base::Items;
use ac_syntax::tree::{Order, Site};
use ac_widen::Derivation;
use std::alloc::{AllocError, Global};
use std::marker::Model;

/// A refuted partial order: each order that extends it has a mismatch, and `why` derives it.
#[derive(Drop)]
pub struct Refuted {
    pub partial: Items<(Site, Order)>,
    pub why: Derivation,
}

/// The orders of some sites, and the refuted partial orders. An order gives each site `Keep` or `Swap`; where a site stands
/// in the list twice, its first place counts.
#[derive(Drop)]
pub struct Orders {
    alloc: Global,
    sites: Items<Site>,
    refuted: Items<Refuted>,
    numbered: Items<Items<Choice>>,
}

impl Model for Orders {
    ghost use Rattle.ac_match.specs.SiteOrders.{OrdersOf};
    ghost use Rattle.ac_match.specs.MatchInternals.Numbers.{AllNumbered};

    ghost Value = { OrdersOf };

    ghost view = { λ o. record { sites = o.sites; refuted = o.refuted } };

    ghost invariant = { λ o. AllNumbered o.sites o.refuted o.numbered };
}

/// What comes next in a search over orders.
#[derive(Drop)]
pub enum Next {
    /// An order of all sites, in their order, that extends no refuted one.
    Order(Items<(Site, Order)>),
    /// Each order extends a refuted one.
    Done,
    /// There are too many sites and refuted orders.
    Spent,
}

/// How many sites may be with any number of refuted orders.
pub const FEW_SITES: usize = 10;

/// How many orders may be refuted where there are more sites.
pub const MOST_REFUTED: usize = 1024;

impl Orders {
    /// The orders of the sites, none refuted.
    pub fn new(alloc: Global, sites: Vec<Site>) -> Orders
        ensures { result ≡ record { sites = sites.items; refuted = [] } }
    {
        Orders {
            alloc,
            sites: Items::from(sites),
            refuted: Items::new(alloc),
            numbered: Items::new(alloc),
        }
    }

    /// Adds a refuted partial order. After want of memory all is as before.
    pub fn refute(&mut self, partial: Vec<(Site, Order)>, why: Derivation) -> Result<(), AllocError>
        ensures ok { OnOk result (self.new ≡ record { sites = self.old.sites; refuted = self.old.refuted ++ record { partial = partial.items; why = why } ∷ [] }) }
        ensures err { OnErr result (self.new ≡ self.old) }
    {
        let choices = numbered(self.alloc, self.sites.as_slice(), partial.as_slice())?;
        self.numbered.push(choices)?;
        let refuted = Refuted {
            partial: Items::from(partial),
            why,
        };
        match self.refuted.push(refuted) {
            Ok(()) => Ok(()),
            Err(want) => {
                self.numbered.pop();
                Err(want)
            }
        }
    }

    /// The refuted partial orders, in the order in which they came.
    pub fn refuted(&self) -> &[Refuted]
        ensures { result.now ≡ self.now.refuted }
    {
        self.refuted.as_slice()
    }

    /// The refuted partial orders, in the order in which they came, without taking memory.
    pub fn into_refuted(self) -> Items<Refuted>
        ensures { result ≡ self.refuted }
    {
        let Orders { refuted, .. } = self;
        refuted
    }

    /// An order of all sites that extends no refuted one; `Done` exactly where each order extends one; `Spent` exactly
    /// where there are more than 10 sites, 1,024 or more orders were refuted, and `Done` does not come.
    pub fn next(&self, alloc: Global) -> Result<Next, AllocError>
        ensures { IfOk result (IsNext self.now) }
    {
        match chosen(alloc, self.sites.as_slice(), self.numbered.as_slice()) {
            Ok(Some(order)) => {
                if self.sites.len() > FEW_SITES && self.refuted.len() >= MOST_REFUTED {
                    Ok(Next::Spent)
                } else {
                    Ok(Next::Order(order))
                }
            }
            Ok(None) => Ok(Next::Done),
            Err(want) => Err(want),
        }
    }
}
