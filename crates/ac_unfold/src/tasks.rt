//! What is to be done yet in an unfolding: a stack of tasks, so that no path is too deep.
ghost use Rattle.std.specs.Prelude.{◌≡◌, ◌++◌, ◌∷◌, [], IfErr, IfOk, IfSome, None, OnOk, reverse, true};
ghost use Rattle.ac_unfold.specs.UnfoldTasks.{Ends, HasStep, IsLast, IsStopFrom, onward_of};

use crate::ends::Search;
use crate::node::Node;
use crate::types::UnfoldStop;
use ac_base::Items;
use ac_claims::types::{Kill, Plan};
use ac_claims_plans::Embedding;
use ac_flow::types::Case;
use ac_forms::Row;
use ac_syntax::tree::Order;
use std::alloc::{AllocError, Global};

/// A kill of a case at a node, of whose rows the first ones stand there, so many.
#[derive(Drop)]
pub(crate) struct CutAt<'a> {
    pub node: Node,
    pub case: &'a Case,
    pub number: usize,
    pub kill: &'a Kill,
    pub rows: Items<Row>,
    pub standing: usize,
}

/// What is to be done yet. Plans are made one after the other; those of a step or of a branch are made apart, until it is closed.
#[derive(Drop)]
pub(crate) enum Task<'a> {
    /// A pair of positions is unfolded.
    Visit(Node),
    /// A pair at what is left of a case is unfolded, if its question may have a point. No plans are made there.
    Rest(Node),
    /// A case is unfolded: at what is left of it where broken paths are looked for, outside its kills where plans are made.
    Case(Node, &'a Case),
    /// A case is unfolded outside its kills from one on, if the question may have a point.
    Outside(Node, &'a Case, usize),
    /// A case is unfolded outside its kills from one on.
    Kills(Node, &'a Case, usize),
    /// A case is unfolded outside a kill, and where the kill holds the place is killed.
    Cut(CutAt<'a>),
    /// The plans that were made are those of a step in this order. Those were made before it.
    Step(Order, Vec<Plan>),
    /// The plans that were made are those of a branch on a row, the one inside last. Those were made before it.
    Branch(Embedding, Row, Vec<Plan>),
}

/// Puts tasks on a stack, the first one on top.
pub(crate) fn put<'a>(tasks: &mut Vec<Task<'a>>, more: Vec<Task<'a>>) -> Result<(), AllocError>
    ensures { OnOk result (reverse tasks.new.items ≡ more.entry.items ++ reverse tasks.old.items) }
{
    let mut left = more;
    while let Some(task) = left.pop() {
        tasks.push(task)?;
    }
    Ok(())
}

/// One task.
pub(crate) fn alone<'a>(alloc: Global, task: Task<'a>) -> Result<Vec<Task<'a>>, AllocError>
    ensures { IfOk result (λ more. more.items ≡ task.entry ∷ []) }
{
    let mut more = Vec::new(alloc);
    more.push(task)?;
    Ok(more)
}

/// Tasks behind which the plans that come of them are those of a step, where plans are made.
pub(crate) fn with_step<'a>(
    alloc: Global,
    search: &Search<'a>,
    order: Order,
    more: Vec<Task<'a>>,
    plans: &mut Vec<Plan>,
) -> Result<Vec<Task<'a>>, AllocError>
    ensures { IfOk result (λ made. HasStep search.now order more.entry.items made.items plans.old.items plans.new.items) }
{
    if !search.making {
        return Ok(more);
    }
    let mut made = more;
    let around = std::mem::replace(plans, Vec::new(alloc));
    made.push(Task::Step(order, around))?;
    Ok(made)
}

/// What comes of an end: no further task, and its plan is made; none where a path is broken and plans are made.
pub(crate) fn ended<'a>(
    alloc: Global,
    search: &Search<'a>,
    made: Result<Option<Plan>, UnfoldStop>,
    plans: &mut Vec<Plan>,
) -> Result<Option<Vec<Task<'a>>>, UnfoldStop>
    ensures ends { IfOk result (Ends search.now made plans.old.items plans.new.items) }
    ensures stops { IfErr result (IsStopFrom made) }
{
    let plan = match made {
        Ok(plan) => plan,
        Err(stop) => return Err(stop),
    };
    match plan {
        Some(plan) => {
            plans.push(plan)?;
            Ok(Some(Vec::new(alloc)))
        }
        None => {
            if search.making {
                return Ok(None);
            }
            Ok(Some(Vec::new(alloc)))
        }
    }
}

/// Tasks by which an unfolding goes on.
pub(crate) fn onward<'a>(
    more: Result<Vec<Task<'a>>, UnfoldStop>,
) -> Result<Option<Vec<Task<'a>>>, UnfoldStop>
    ensures { result ≡ onward_of more.entry }
{
    match more {
        Ok(more) => Ok(Some(more)),
        Err(stop) => Err(stop),
    }
}

/// The plan that was made last, where plans are made.
pub(crate) fn last_plan(search: &Search<'_>, plans: Vec<Plan>) -> Option<Plan>
    ensures last { IfSome result (IsLast search.now plans.items) }
    ensures none { search.now.making ≡ true → result ≡ None → plans.items ≡ [] }
{
    if !search.making {
        return None;
    }
    let mut plans = plans;
    plans.pop()
}
