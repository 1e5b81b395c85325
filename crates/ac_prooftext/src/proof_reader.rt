//! A proof that is read line by line.
ghost use Rattle.std.specs.Prelude.{◌≡◌, ◌∷◌, ◌++◌, [], None, OnOk, IfOk};
ghost use Rattle.ac_claims.specs.ProofMachine.{with_last};
ghost use Rattle.ac_prooftext.specs.ProofAssembly.{Taken, TakenInPlan, HasParts, unread, with_trees};

use crate::plan_reader::PlanReader;
use ac_base::Items;
use ac_claims::item::Item;
use ac_claims::types::{Claim, ClaimTree, Heads, Plan, Proof};
use ac_forms::Row;
use std::alloc::{AllocError, Global};
use std::mem;

/// A claim, and a piece of each of its positions.
#[derive(Clone, Copy, PartialEq, Eq, Drop)]
pub struct TreeName {
    pub claim: usize,
    pub left_piece: usize,
    pub right_piece: usize,
}

/// A proof of which some lines were read.
#[derive(Drop)]
pub struct ProofReader {
    pub point: Items<i128>,
    pub left: Items<(u64, u64)>,
    pub heads: Option<Heads>,
    pub claims: Items<Claim>,
    pub outputs: Items<(usize, usize)>,
    pub trees: Items<ClaimTree>,
    pub name: TreeName,
    pub plan: PlanReader,
    alloc: Global,
}

/// A further row of the last claim.
fn push_row(claims: &mut Items<Claim>, row: Row) -> Result<(), AllocError>
    ensures { OnOk result (claims.new ≡ with_last claims.old row) }
{
    let Some(mut claim) = claims.pop() else {
        return Ok(());
    };
    claim.rows.push(row)?;
    claims.push(claim)
}

/// A further plan, where there is one.
fn push_tree(
    trees: &mut Items<ClaimTree>,
    name: &TreeName,
    plan: Option<Plan>,
) -> Result<(), AllocError>
    ensures { OnOk result (trees.new ≡ with_trees trees.old name.now plan) }
{
    let Some(tree) = plan else {
        return Ok(());
    };
    trees.push(ClaimTree {
        claim: name.claim,
        left_piece: name.left_piece,
        right_piece: name.right_piece,
        tree,
    })
}

impl ProofReader {
    /// Before the first line of a proof.
    pub fn new(alloc: Global) -> ProofReader
        ensures { result ≡ unread alloc }
    {
        ProofReader {
            point: Items::new(alloc),
            left: Items::new(alloc),
            heads: None,
            claims: Items::new(alloc),
            outputs: Items::new(alloc),
            trees: Items::new(alloc),
            name: TreeName {
                claim: 0,
                left_piece: 0,
                right_piece: 0,
            },
            plan: PlanReader::new(alloc),
            alloc,
        }
    }

    /// Takes a line of the plan under way.
    fn take_in_plan(&mut self, item: Item) -> Result<(), AllocError>
        ensures { OnOk result (TakenInPlan item self.old self.new) }
    {
        let whole = self.plan.take(item)?;
        push_tree(&mut self.trees, &self.name, whole)
    }

    /// Takes a line.
    pub fn take(&mut self, item: Item) -> Result<(), AllocError>
        ensures { OnOk result (Taken item self.old self.new) }
    {
        match item {
            Item::Point(values) => {
                self.point = values;
                Ok(())
            }
            Item::Left(shapes) => {
                self.left = shapes;
                Ok(())
            }
            Item::Right(right) => {
                let left = mem::replace(&mut self.left, Items::new(self.alloc));
                self.heads = Some(Heads { left, right });
                Ok(())
            }
            Item::Claims(_) | Item::End => Ok(()),
            Item::Claim { left, right, .. } => self.claims.push(Claim {
                left,
                right,
                rows: Items::new(self.alloc),
            }),
            Item::Row(row) => push_row(&mut self.claims, row),
            Item::Output { array, claim } => self.outputs.push((array, claim)),
            Item::Tree {
                claim,
                left_piece,
                right_piece,
            } => {
                self.name = TreeName {
                    claim,
                    left_piece,
                    right_piece,
                };
                Ok(())
            }
            item => self.take_in_plan(item),
        }
    }

    /// The proof that was read.
    pub fn finish(self) -> Proof
        ensures { HasParts self result }
    {
        let ProofReader {
            point,
            heads,
            claims,
            outputs,
            trees,
            ..
        } = self;
        Proof {
            point,
            heads,
            claims,
            outputs,
            trees: trees.into_vec(),
        }
    }
}
