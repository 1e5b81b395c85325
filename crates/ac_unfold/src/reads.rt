//! The step of a read or an output, and its cases.
ghost use Rattle.std.specs.Prelude.{◌≡◌, IfErr, IfOk, IfSome, Some, is_some, slice_get, true};
ghost use Rattle.std.specs.List.{AllByRecursion};
ghost use Rattle.ac_claims_paths.specs.PathSteps.{model_of};
ghost use Rattle.ac_syntax.specs.declared.tree.Order.TheVariants.{Keep};
ghost use Rattle.ac_unfold.specs.KillCuts.{IsAssumed};
ghost use Rattle.ac_unfold.specs.EndResults.{IsNeverFull};
ghost use Rattle.ac_unfold.specs.PlanResults.{judge_of};
ghost use Rattle.ac_unfold.specs.BrokenPathResults.{IsKindThere};
ghost use Rattle.ac_unfold.specs.SearchPlanStops.{MayStep};
ghost use Rattle.ac_unfold.specs.UnfoldStops.{Follows, FollowsCase, StopsUnder};
ghost use Rattle.ac_unfold.specs.UnbrokenResults.{StandsIn};
ghost use Rattle.ac_unfold.specs.UnfoldTasks.{AreCases, AreRests, Needs, LeadsTo, MovesOn, Unfolds};
ghost use Rattle.ac_unfold.specs.declared.kinds.Next.TheVariants as kind;
ghost use Rattle.ac_unfold.specs.declared.tasks.Task.TheVariants as todo;

use crate::casing::assumes_case;
use crate::decide::{Opened, open_question};
use crate::ends::Search;
use crate::node::Node;
use crate::remaining::at_remainder;
use crate::steps::flow_of;
use crate::tasks::{Task, alone, with_step};
use crate::types::UnfoldStop;
use ac_base::Items;
use ac_claims::types::Plan;
use ac_claims_paths::going::branches;
use ac_claims_paths::path::{Branch, Path, Side};
use ac_flow::types::{Case, ReadFlow};
use ac_poly::types::Model;
use ac_syntax::tree::Order;
use std::alloc::{AllocError, Global};

/// The model on a side.
fn model_on<'a>(search: &Search<'a>, side: Side) -> &'a Model
    ensures { result.now ≡ model_of (judge_of search.now) side }
{
    let programs = &search.program_flows.programs;
    match side {
        Side::Left => programs.left,
        Side::Right => programs.right,
    }
}

/// The case with a number, if it is what a question assumes.
fn case_of<'a>(
    search: &Search<'_>,
    side: Side,
    flow: &'a ReadFlow,
    number: usize,
    question: &Path,
) -> Option<&'a Case>
    ensures assumed { IfSome result (λ case. IsAssumed search.now side flow.now case.now question.now) }
    ensures number { IfSome result (λ case. slice_get flow.now.cases number ≡ Some case.now) }
{
    let Some(case) = flow.cases.get(number) else {
        return None;
    };
    let Some(assumed) = &question.last else {
        return None;
    };
    let model = model_on(search, side);
    if !assumes_case(search.params(), model, side, flow, case, assumed) {
        return None;
    }
    Some(case)
}

/// The cases of a read or an output, each at its branch, in order.
fn cases<'a>(
    alloc: Global,
    search: &Search<'a>,
    node: &Node,
    side: Side,
    flow: &'a ReadFlow,
    found: Items<Branch>,
) -> Result<Vec<Task<'a>>, AllocError>
    ensures { IfOk result (λ made. AreCases search.now node.now side flow.now 0 found made.items) }
{
    let mut made = Vec::new(alloc);
    for branch in found.into_vec() {
        let child = node.behind(alloc, branch)?;
        let Some(case) = case_of(search, side, flow, made.len(), &child.question) else {
            return Err(AllocError);
        };
        made.push(Task::Case(child, case))?;
    }
    Ok(made)
}

/// Goes on from a read or an output to its cases.
pub(crate) fn read<'a>(
    alloc: Global,
    search: &Search<'a>,
    node: &Node,
    side: Side,
    plans: &mut Vec<Plan>,
) -> Result<Vec<Task<'a>>, UnfoldStop>
    requires kind { IsKindThere search.now node.now.question (kind.Read side) }
    requires may { MayStep search.now node.now.question Keep }
    ensures unfolds { IfOk result (λ more. Unfolds search.now (todo.Visit node.now) more.items plans.old.items plans.new.items) }
    ensures causes { IfErr result (StopsUnder search.now (Follows search.now node.now.pair_path node.now.question)) }
    ensures never { IfErr result IsNeverFull }
{
    let programs = &search.program_flows.programs;
    let Some(found) = branches(alloc, programs, Order::Keep, &node.question)? else {
        return Err(search.too_wide(alloc, node));
    };
    let Some(flow) = flow_of(search.program_flows, &node.question, side) else {
        return Err(UnfoldStop::Memory(AllocError));
    };
    let behind = cases(alloc, search, node, side, flow, found)?;
    let more = with_step(alloc, search, Order::Keep, behind, plans)?;
    Ok(more)
}

/// Goes on from a case: where broken paths are looked for, to what is left of it; where plans are made, to what lies outside its kills.
pub(crate) fn enter<'a>(
    alloc: Global,
    search: &Search<'a>,
    node: Node,
    case: &'a Case,
) -> Result<Vec<Task<'a>>, UnfoldStop>
    requires { is_some node.question.last ≡ true }
    ensures moves { IfOk result (λ more. MovesOn search.now (todo.Case node case.entry) more.items) }
    ensures causes { IfErr result (StopsUnder search.now (FollowsCase search.now case.now node.pair_path node.question)) }
    ensures never { IfErr result IsNeverFull }
{
    if search.making {
        let more = alone(alloc, Task::Outside(node, case, 0))?;
        return Ok(more);
    }
    rests(alloc, search, &node, case)
}

/// What is left of a case, in order.
fn rests<'a>(
    alloc: Global,
    search: &Search<'a>,
    node: &Node,
    case: &Case,
) -> Result<Vec<Task<'a>>, UnfoldStop>
    requires { is_some node.now.question.last ≡ true }
    ensures rests { IfOk result (λ made. AreRests search.now node.now case.now.pieces made.items) }
    ensures causes { IfErr result (StopsUnder search.now (FollowsCase search.now case.now node.now.pair_path node.now.question)) }
    ensures never { IfErr result IsNeverFull }
{
    let mut made = Vec::new(alloc);
    for rest in case.pieces.as_slice() {
        let left = at_remainder(alloc, search, node, &rest.conj)?;
        made.push(Task::Rest(left))?;
    }
    Ok(made)
}

/// Goes on to a pair at what is left of a case, if its question may have a point.
pub(crate) fn rest<'a>(
    alloc: Global,
    search: &Search<'a>,
    node: Node,
) -> Result<Vec<Task<'a>>, AllocError>
    ensures lead { IfOk result (λ more. AllByRecursion (LeadsTo search.now (todo.Rest node)) more.items) }
    ensures holds { IfOk result (λ more. AllByRecursion (Needs search.now) more.items → StandsIn search.now node.question) }
{
    let question = open_question(alloc, node, search.budget, false)?;
    match question {
        Opened::Empty(_) => Ok(Vec::new(alloc)),
        Opened::On(child) => {
            let more = alone(alloc, Task::Visit(child))?;
            Ok(more)
        }
    }
}
