//! Branches of plans of which some children are to come.
ghost use Rattle.std.specs.Prelude.{◌≡◌, ◌∷◌, [], length, IfOk};
ghost use Rattle.ac_claims.specs.declared.item.Item.TheVariants as item;
ghost use Rattle.ac_prooftext.specs.ProofAssembly.{IsNext, IsJoined, opened_of, opened_by};

use ac_base::Items;
use ac_cert::types::Step;
use ac_claims::types::{Plan, PlanNext};
use ac_forms::Form;
use ac_syntax::tree::Order;
use std::alloc::{AllocError, Global};

/// A branch of which some children are to come.
#[derive(Drop)]
pub enum Fork {
    /// By the sign of a form, without a child.
    First(Form),
    /// The same with its first child.
    Second(Form, Plan),
    /// By the residue of a form, with so many children to come behind these.
    Residue(i128, Form, u128, Items<Plan>),
    /// A step of the pair, with so many children to come behind these.
    Go(Order, usize, Items<Plan>),
}

/// Steps, and an open branch behind them.
#[derive(Drop)]
pub struct OpenBranch {
    pub steps: Items<Step>,
    pub fork: Fork,
}

/// What a branch is with one more child.
#[derive(Drop)]
pub enum Joined {
    /// Still open.
    Open(OpenBranch),
    /// Complete.
    Whole(Plan),
}

/// A branch by the sign of a form.
#[tactic(auto, using(crate::proofs::Joining::join_steps))]
pub fn split_next(
    alloc: Global,
    form: Form,
    first: Plan,
    second: Plan,
) -> Result<PlanNext, AllocError>
    ensures { IfOk result (IsNext (item.Split form) (first ∷ second ∷ [])) }
{
    let first = Box::new(alloc, first)?;
    let second = Box::new(alloc, second)?;
    Ok(PlanNext::Split(form, first, second))
}

/// A branch by the residue of a form.
#[tactic(auto, using(crate::proofs::Joining::join_steps))]
pub fn residue_next(modulus: i128, form: Form, children: Items<Plan>) -> PlanNext
    ensures { IsNext (item.Residue modulus form) children result }
{
    PlanNext::Residue(modulus, form, children.into_vec())
}

/// A step of the pair.
#[tactic(auto, using(crate::proofs::Joining::join_steps))]
pub fn go_next(order: Order, children: Items<Plan>) -> PlanNext
    ensures { IsNext (item.Go order (length children)) children result }
{
    PlanNext::Go {
        order,
        cases: children.into_vec(),
    }
}

/// Adds a child to a branch by the residue of a form, of which so many are to come.
#[tactic(auto, using(crate::proofs::Joining::join_steps))]
fn join_residue(
    steps: Items<Step>,
    modulus: i128,
    form: Form,
    left: u128,
    children: Items<Plan>,
    child: Plan,
) -> Result<Joined, AllocError>
    ensures { IfOk result (IsJoined (opened_by steps (Fork.Residue modulus form left children)) child) }
{
    let mut children = children;
    children.push(child)?;
    if left > 1 {
        let fork = Fork::Residue(modulus, form, left - 1, children);
        return Ok(Joined::Open(OpenBranch { steps, fork }));
    }
    let next = residue_next(modulus, form, children);
    Ok(Joined::Whole(Plan { steps, next }))
}

/// Adds a child to a step of the pair, of which so many are to come.
#[tactic(auto, using(crate::proofs::Joining::join_steps))]
fn join_go(
    steps: Items<Step>,
    order: Order,
    left: usize,
    children: Items<Plan>,
    child: Plan,
) -> Result<Joined, AllocError>
    ensures { IfOk result (IsJoined (opened_by steps (Fork.Go order left children)) child) }
{
    let mut children = children;
    children.push(child)?;
    if left > 1 {
        let fork = Fork::Go(order, left - 1, children);
        return Ok(Joined::Open(OpenBranch { steps, fork }));
    }
    let next = go_next(order, children);
    Ok(Joined::Whole(Plan { steps, next }))
}

/// Adds a child to a branch.
#[tactic(auto, using(crate::proofs::Joining::join_steps))]
pub fn join(alloc: Global, branch: OpenBranch, child: Plan) -> Result<Joined, AllocError>
    ensures { IfOk result (IsJoined (opened_of branch) child) }
{
    let OpenBranch { steps, fork } = branch;
    match fork {
        Fork::First(form) => {
            let fork = Fork::Second(form, child);
            Ok(Joined::Open(OpenBranch { steps, fork }))
        }
        Fork::Second(form, first) => {
            let next = split_next(alloc, form, first, child)?;
            Ok(Joined::Whole(Plan { steps, next }))
        }
        Fork::Residue(modulus, form, left, children) => {
            join_residue(steps, modulus, form, left, children, child)
        }
        Fork::Go(order, left, children) => join_go(steps, order, left, children, child),
    }
}
