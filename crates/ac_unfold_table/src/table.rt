//! What is tabled.
ghost use Rattle.std.specs.Prelude.{◌≡◌, OnErr, OnOk};
ghost use Rattle.ac_unfold.specs.declared.types.ProgramFlows.{ProgramFlows};
ghost use Rattle.ac_unfold_table.specs.TabledClaims.{AreTabled};
ghost use Rattle.ac_unfold_table.specs.Tables.{new_table, with_tabled};

use ac_base::Items;
use ac_claims::types::{Claim, ClaimTree};
use ac_syntax::tree::{Order, Site};
use std::alloc::{AllocError, Global};
use std::marker::Model;

/// What pairs of positions are held by: claims, with the orders of calls under which they are asked, and the claims that were
/// proved on the way, each with its plans.
#[derive(Drop)]
pub struct Table {
    base: usize,
    claims: Items<Claim>,
    order: Items<(Site, Order)>,
    tabled: Items<Claim>,
    trees: Items<Items<ClaimTree>>,
}

impl Model for Table {
    ghost use Rattle.std.specs.Coded.{codes};
    ghost use Rattle.ac_claims.specs.contracts.types.ClaimTree as tree;
    ghost use Rattle.ac_unfold_table.specs.Tables.{TableOf};

    ghost Value = { TableOf };

    ghost coded = { Prim.hlevel (codes, tree.the_row.coded) };

    ghost view = { λ t. record { base = t.base; claims = t.claims; order = t.order; tabled = t.tabled; trees = t.trees } };
}

impl Table {
    /// A table of claims, numbered from the base on, with nothing tabled.
    pub fn new(alloc: Global, base: usize, claims: Vec<Claim>, order: Vec<(Site, Order)>) -> Table
        ensures value { result ≡ new_table base claims.items order.items }
        ensures valid { (program_flows : ProgramFlows) → AreTabled program_flows result }
    {
        Table {
            base,
            claims: Items::from(claims),
            order: Items::from(order),
            tabled: Items::new(alloc),
            trees: Items::new(alloc),
        }
    }

    /// The number of the first claim.
    pub fn base(&self) -> usize
        ensures { result ≡ self.now.base }
    {
        self.base
    }

    /// The claims.
    pub fn claims(&self) -> &[Claim]
        ensures { result.now ≡ self.now.claims }
    {
        self.claims.as_slice()
    }

    /// The orders of calls.
    pub fn order(&self) -> &[(Site, Order)]
        ensures { result.now ≡ self.now.order }
    {
        self.order.as_slice()
    }

    /// The claims that were proved on the way, numbered behind the others.
    pub fn tabled(&self) -> &[Claim]
        ensures { result.now ≡ self.now.tabled }
    {
        self.tabled.as_slice()
    }

    /// The plans of each of these, in their order.
    pub fn trees(&self) -> &[Items<ClaimTree>]
        ensures { result.now ≡ self.now.trees }
    {
        self.trees.as_slice()
    }

    /// What is tabled: the claims, and the plans of each, in their order.
    pub fn into_tabled(self) -> (Items<Claim>, Items<Items<ClaimTree>>)
        ensures claims { result.0 ≡ self.tabled }
        ensures trees { result.1 ≡ self.trees }
    {
        let Table {
            base: _,
            claims: _,
            order: _,
            tabled,
            trees,
        } = self;
        (tabled, trees)
    }

    /// Tables a claim with its plans. After want of memory the table is as before.
    pub(crate) fn push(&mut self, claim: Claim, trees: Vec<ClaimTree>) -> Result<(), AllocError>
        ensures ok { OnOk result (self.new ≡ with_tabled self.old claim trees.items) }
        ensures err { OnErr result (self.new ≡ self.old) }
    {
        self.tabled.push(claim)?;
        match self.trees.push(Items::from(trees)) {
            Ok(()) => Ok(()),
            Err(want) => {
                let _last = self.tabled.pop();
                Err(want)
            }
        }
    }
}
