//! A plan that is read line by line.
ghost use Rattle.std.specs.Prelude.{◌≡◌, ◌∷◌, [], None, Some, length, IfOk, suc, unsigned_abs};
ghost use Rattle.ac_claims.specs.declared.item.Item.TheVariants as item;
ghost use Rattle.ac_prooftext.specs.ProofAssembly.{IsNext, Closes, Ends, EndsWith, Branches, Chosen, Copied, TakesItem, inner, opened_by, kill_lines};

use crate::forks::{Fork, Joined, OpenBranch, go_next, join, residue_next};
use ac_base::Items;
use ac_cert::types::Step;
use ac_claims::item::Item;
use ac_claims::types::{Kill, Plan, PlanNext};
use ac_forms::Form;
use ac_omega_steps::Choice;
use ac_syntax::tree::Order;
use std::alloc::{AllocError, Global};
use std::mem;

/// A plan of which some lines were read. It holds the branches that are open, the steps behind the last of them, and a copy
/// with the number of its choices that are to come.
#[derive(Drop)]
pub struct PlanReader {
    alloc: Global,
    pub branches: Items<OpenBranch>,
    pub steps: Items<Step>,
    pub kill: Option<(Kill, usize)>,
}

/// Adds a plan to the innermost open branch, each branch that is complete with it to the one around it, and so on. The whole
/// plan, where no branch stays open.
fn close(
    alloc: Global,
    branches: &mut Items<OpenBranch>,
    plan: Plan,
) -> Result<Option<Plan>, AllocError>
    ensures { IfOk result (Closes (inner branches.old) plan (inner branches.new)) }
{
    let mut plan = plan;
    while let Some(branch) = branches.pop() {
        match join(alloc, branch, plan)? {
            Joined::Open(branch) => {
                branches.push(branch)?;
                return Ok(None);
            }
            Joined::Whole(whole) => plan = whole,
        }
    }
    Ok(Some(plan))
}

impl PlanReader {
    /// Before the first line of a plan.
    pub fn new(alloc: Global) -> PlanReader
        ensures { result ≡ record { alloc = alloc; branches = []; steps = []; kill = None } }
    {
        PlanReader {
            alloc,
            branches: Items::new(alloc),
            steps: Items::new(alloc),
            kill: None,
        }
    }

    /// The steps since the last branch or end, which are taken out.
    fn take_steps(&mut self) -> Items<Step>
        ensures steps { result ≡ self.old.steps }
        ensures rest { self.new ≡ record { alloc = self.old.alloc; branches = self.old.branches; steps = []; kill = self.old.kill } }
    {
        mem::replace(&mut self.steps, Items::new(self.alloc))
    }

    /// Takes an end.
    fn end(&mut self, next: PlanNext) -> Result<Option<Plan>, AllocError>
        ensures { IfOk result (Ends (record { steps = self.old.steps; next = next }) self.old self.new) }
    {
        let steps = self.take_steps();
        close(self.alloc, &mut self.branches, Plan { steps, next })
    }

    /// Opens a branch.
    #[tactic(auto, using(crate::proofs::Joining::read_steps))]
    fn open_branch(&mut self, fork: Fork) -> Result<(), AllocError>
        ensures { IfOk result (λ _. (inner self.new.branches ≡ opened_by self.old.steps fork ∷ inner self.old.branches) × (self.new.steps ≡ [])) }
    {
        let steps = self.take_steps();
        self.branches.push(OpenBranch { steps, fork })
    }

    /// Takes a branch by the residue of a form.
    #[tactic(auto, using(crate::proofs::Joining::read_steps))]
    fn take_residue(&mut self, modulus: i128, form: Form) -> Result<Option<Plan>, AllocError>
        ensures { IfOk result (Branches (item.Residue modulus form) (unsigned_abs modulus) self.old self.new) }
    {
        let children = Items::new(self.alloc);
        let left = modulus.unsigned_abs();
        if left == 0 {
            return self.end(residue_next(modulus, form, children));
        }
        self.open_branch(Fork::Residue(modulus, form, left, children))?;
        Ok(None)
    }

    /// Takes a step of the pair.
    #[tactic(auto, using(crate::proofs::Joining::read_steps))]
    fn take_go(&mut self, order: Order, cases: usize) -> Result<Option<Plan>, AllocError>
        ensures { IfOk result (Branches (item.Go order cases) cases self.old self.new) }
    {
        let children = Items::new(self.alloc);
        if cases == 0 {
            return self.end(go_next(order, children));
        }
        self.open_branch(Fork::Go(order, cases, children))?;
        Ok(None)
    }

    /// Takes a copy, of which so many choices are to come.
    #[tactic(auto, using(crate::proofs::Joining::read_steps))]
    fn take_kill(&mut self, kill: Kill, choices: usize) -> Result<Option<Plan>, AllocError>
        ensures { IfOk result (Copied kill choices self.old self.new) }
    {
        if choices == 0 {
            return self.end(PlanNext::Killed(kill));
        }
        self.kill = Some((kill, choices));
        Ok(None)
    }

    /// Takes a choice of the copy.
    fn take_choice(&mut self, choice: Choice) -> Result<Option<Plan>, AllocError>
        ensures { IfOk result (Chosen choice self.old.kill self.old self.new) }
    {
        let Some((mut kill, choices)) = mem::replace(&mut self.kill, None) else {
            return Ok(None);
        };
        kill.choices.push(choice)?;
        self.take_kill(kill, choices.saturating_sub(1))
    }

    /// Takes a line. The plan, where it is complete with that.
    #[tactic(auto, using(crate::proofs::Joining::read_steps))]
    pub fn take(&mut self, item: Item) -> Result<Option<Plan>, AllocError>
        ensures { IfOk result (TakesItem item self.old self.new) }
    {
        match item {
            Item::Step(step) => {
                self.steps.push(step)?;
                Ok(None)
            }
            Item::Split(form) => {
                self.open_branch(Fork::First(form))?;
                Ok(None)
            }
            Item::Residue(modulus, form) => self.take_residue(modulus, form),
            Item::Go { order, cases } => self.take_go(order, cases),
            Item::Absurd(row) => self.end(PlanNext::Absurd(row)),
            Item::Hit(claim) => self.end(PlanNext::Hit(claim)),
            Item::Number => self.end(PlanNext::SameNumber),
            Item::Initial => self.end(PlanNext::SameInitial),
            Item::Killed {
                stmt,
                piece,
                after,
                before,
                choices,
            } => {
                let kill = Kill {
                    stmt,
                    piece,
                    after,
                    before,
                    choices: Items::new(self.alloc),
                };
                self.take_kill(kill, choices)
            }
            Item::Choice(choice) => self.take_choice(choice),
            _ => Ok(None),
        }
    }
}
