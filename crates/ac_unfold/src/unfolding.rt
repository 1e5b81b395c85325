//! The unfolding of a pair of positions, task by task.
ghost use Rattle.std.specs.Prelude.{◌≡◌, IfErr, IfOk, IfSome, OnOk};
ghost use Rattle.ac_unfold.specs.EndResults.{FullUnder};
ghost use Rattle.ac_unfold.specs.PlanResults.{IsMade};
ghost use Rattle.ac_unfold.specs.PlanGaps.{FindsElse};
ghost use Rattle.ac_unfold.specs.BrokenPathResults.{AddsBroken, IsAt};
ghost use Rattle.ac_unfold.specs.UnfoldStops.{Follows, StopsUnder};
ghost use Rattle.ac_unfold.specs.UnbrokenResults.{FindsNone, StandsIn};
ghost use Rattle.ac_unfold.specs.UnfoldTasks.{At, IsReady, IsThere, Goes, On};
ghost use Rattle.ac_unfold.specs.declared.tasks.Task.TheVariants as todo;

use crate::breaks::BrokenPaths;
use crate::calls::{calls, close_step};
use crate::claiming::{at_claim, claim_of};
use crate::ends::{Search, mismatch, stand};
use crate::kills::{close_branch, cut, kills, outside};
use crate::kinds::{Next, next_of};
use crate::node::Node;
use crate::reads::{enter, read, rest};
use crate::tabling::tabled_hit;
use crate::tasks::{Task, ended, last_plan, onward, put};
use crate::types::UnfoldStop;
use ac_claims::types::Plan;
use std::alloc::{AllocError, Global};

/// Unfolds a pair of positions: to the claim of the pair, to a tabled one whose rows stand, to the cases of a read or an output, to
/// the arguments of two calls, or to an end.
fn unfold_pair<'a>(
    alloc: Global,
    search: &Search<'a>,
    node: Node,
    plans: &mut Vec<Plan>,
    found_paths: &mut BrokenPaths,
) -> Result<Option<Vec<Task<'a>>>, UnfoldStop>
    ensures goes { IfOk result (Goes search.now (todo.Visit node) plans.old.items plans.new.items found_paths.old found_paths.new) }
    ensures causes { IfErr result (StopsUnder search.now (Follows search.now node.pair_path node.question)) }
    ensures full { IfErr result (FullUnder search.now (IsAt search.now node.pair_path node.question) found_paths.old) }
{
    if let Some(number) = claim_of(search, &node.question) {
        let made = at_claim(alloc, search, node, number, found_paths);
        return ended(alloc, search, made, plans);
    }
    let tabled = tabled_hit(alloc, search, &node)?;
    if let Some(plan) = tabled {
        return ended(alloc, search, Ok(Some(plan)), plans);
    }
    let next = next_of(alloc, search, &node)?;
    match next {
        Next::Read(side) => onward(read(alloc, search, &node, side, plans)),
        Next::Calls(order) => onward(calls(alloc, search, &node, order, plans)),
        Next::Match(rows, end) => {
            let made = stand(alloc, search, node, rows.as_slice(), end, found_paths);
            ended(alloc, search, made, plans)
        }
        Next::Mismatch => {
            let made = mismatch(alloc, search, &node, found_paths);
            ended(alloc, search, made, plans)
        }
    }
}

/// Does a task. None where a path is broken and plans are made.
fn turn<'a>(
    alloc: Global,
    search: &Search<'a>,
    task: Task<'a>,
    plans: &mut Vec<Plan>,
    found_paths: &mut BrokenPaths,
) -> Result<Option<Vec<Task<'a>>>, UnfoldStop>
    requires { IsReady search.now task }
    ensures goes { IfOk result (Goes search.now task.entry plans.old.items plans.new.items found_paths.old found_paths.new) }
    ensures causes { IfErr result (StopsUnder search.now (On search.now task.entry)) }
    ensures full { IfErr result (FullUnder search.now (At search.now task.entry) found_paths.old) }
{
    match task {
        Task::Visit(node) => unfold_pair(alloc, search, node, plans, found_paths),
        Task::Rest(node) => {
            let more = rest(alloc, search, node)?;
            Ok(Some(more))
        }
        Task::Case(node, case) => onward(enter(alloc, search, node, case)),
        Task::Outside(node, case, number) => {
            let more = outside(alloc, search, node, case, number, plans)?;
            Ok(Some(more))
        }
        Task::Kills(node, case, number) => {
            kills(alloc, search, node, case, number, plans, found_paths)
        }
        Task::Cut(at) => onward(cut(alloc, search, at, plans)),
        Task::Step(order, around) => {
            let more = close_step(alloc, order, around, plans)?;
            Ok(Some(more))
        }
        Task::Branch(embedding, row, around) => {
            let more = close_branch(alloc, embedding, row, around, plans)?;
            Ok(Some(more))
        }
    }
}

/// Unfolds a pair of positions and all that comes behind it.
pub(crate) fn visit<'a>(
    alloc: Global,
    search: &Search<'a>,
    node: Node,
    found_paths: &mut BrokenPaths,
) -> Result<Option<Plan>, UnfoldStop>
    ensures missing { IfOk result (λ made. FindsElse search.now made found_paths.old found_paths.new) }
    ensures made { IfOk result (λ made. IfSome made (IsMade search.now node.embedding node.question)) }
    ensures stands { OnOk result (FindsNone search.now found_paths.old found_paths.new → StandsIn search.now node.question) }
    ensures broken { OnOk result (AddsBroken search.now (IsThere search.now node.pair_path node.question) found_paths.old found_paths.new) }
    ensures causes { IfErr result (StopsUnder search.now (Follows search.now node.pair_path node.question)) }
    ensures full { IfErr result (FullUnder search.now (IsThere search.now node.pair_path node.question) found_paths.old) }
{
    let mut tasks = Vec::new(alloc);
    tasks.push(Task::Visit(node))?;
    let mut plans = Vec::new(alloc);
    for _turn in 0..u64::MAX {
        let Some(task) = tasks.pop() else {
            return Ok(last_plan(search, plans));
        };
        let goes = turn(alloc, search, task, &mut plans, found_paths)?;
        let Some(more) = goes else {
            return Ok(None);
        };
        put(&mut tasks, more)?;
    }
    Err(UnfoldStop::Memory(AllocError))
}
