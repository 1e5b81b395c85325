//! The step of two calls, and plans of steps.
ghost use Rattle.std.specs.Prelude.{◌≡◌, IfErr, IfOk, []};
ghost use Rattle.ac_unfold.specs.UnfoldQuestions.{AreTwoCalls};
ghost use Rattle.ac_unfold.specs.EndResults.{IsNeverFull};
ghost use Rattle.ac_unfold.specs.PlanResults.{judge_of};
ghost use Rattle.ac_unfold.specs.BrokenPathResults.{IsKindThere};
ghost use Rattle.ac_unfold.specs.SearchPlanStops.{MayStep};
ghost use Rattle.ac_unfold.specs.UnfoldStops.{Follows, StopsUnder};
ghost use Rattle.ac_unfold.specs.UnfoldTasks.{AreVisits, ClosesStep, Unfolds};
ghost use Rattle.ac_unfold.specs.declared.kinds.Next.TheVariants as kind;
ghost use Rattle.ac_unfold.specs.declared.tasks.Task.TheVariants as todo;

use crate::ends::Search;
use crate::node::Node;
use crate::tasks::{Task, with_step};
use crate::types::UnfoldStop;
use ac_base::Items;
use ac_claims::types::Plan;
use ac_claims_paths::going::branches;
use ac_claims_paths::path::Branch;
use ac_claims_plans::step_plan;
use ac_syntax::tree::Order;
use std::alloc::{AllocError, Global};

/// Visits of the pairs behind the branches of a step, in order.
fn visits<'a>(alloc: Global, node: &Node, found: Items<Branch>) -> Result<Vec<Task<'a>>, AllocError>
    ensures { IfOk result (λ made. AreVisits node.now found made.items) }
{
    let mut made = Vec::new(alloc);
    for branch in found.into_vec() {
        let child = node.behind(alloc, branch)?;
        made.push(Task::Visit(child))?;
    }
    Ok(made)
}

/// Goes on from two calls to their arguments.
pub(crate) fn calls<'a>(
    alloc: Global,
    search: &Search<'a>,
    node: &Node,
    order: Order,
    plans: &mut Vec<Plan>,
) -> Result<Vec<Task<'a>>, UnfoldStop>
    requires kind { IsKindThere search.now node.now.question (kind.Calls order) }
    requires calls { AreTwoCalls (judge_of search.now) node.now.question }
    requires may { MayStep search.now node.now.question order }
    ensures unfolds { IfOk result (λ more. Unfolds search.now (todo.Visit node.now) more.items plans.old.items plans.new.items) }
    ensures causes { IfErr result (StopsUnder search.now (Follows search.now node.now.pair_path node.now.question)) }
    ensures never { IfErr result IsNeverFull }
{
    let Some(found) = branches(alloc, &search.program_flows.programs, order, &node.question)? else {
        return Err(search.too_wide(alloc, node));
    };
    let behind = visits(alloc, node, found)?;
    let more = with_step(alloc, search, order, behind, plans)?;
    Ok(more)
}

/// Makes the plan of a step of those of its branches.
pub(crate) fn close_step<'a>(
    alloc: Global,
    order: Order,
    around: Vec<Plan>,
    plans: &mut Vec<Plan>,
) -> Result<Vec<Task<'a>>, AllocError>
    ensures none { IfOk result (λ more. more.items ≡ []) }
    ensures closes { IfOk result (λ more. ClosesStep order around.items plans.old.items plans.new.items) }
{
    let cases = std::mem::replace(plans, around);
    let plan = step_plan(alloc, order, cases);
    plans.push(plan)?;
    Ok(Vec::new(alloc))
}
