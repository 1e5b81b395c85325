//! A case outside its kills, and plans of branches on their rows.
ghost use Rattle.std.specs.Prelude.{◌≡◌, ◌+◌, ◌<◌, ◌≤◌, ◌∷◌, IfErr, IfOk, IfSome, None, Some, [], false, is_some, length, slice_get, true};
ghost use Rattle.std.specs.List.{AllByRecursion};
ghost use Rattle.ac_unfold.specs.EndResults.{FullUnder, IsNeverFull};
ghost use Rattle.ac_unfold.specs.KillTraversal.{IsOutsideKills};
ghost use Rattle.ac_unfold.specs.RequiredRows.{CanStand};
ghost use Rattle.ac_unfold.specs.UnfoldQuestions.{IsNew};
ghost use Rattle.ac_unfold.specs.UnfoldStops.{AreNewSides, FollowsCut, HasSide, IsKillsRow, NeverHolds, StopsUnder};
ghost use Rattle.ac_unfold.specs.UnfoldTasks.{AreBeside, ClosesBranch, Goes, IsCutAt, IsEndAt, IsSplit, MovesOn, Unfolds, passed_row};
ghost use Rattle.ac_unfold.specs.declared.tasks.Task.TheVariants as todo;

use crate::breaks::BrokenPaths;
use crate::decide::{Opened, Wanted, kind_of, open_question, stands_in};
use crate::ends::{Search, refuted};
use crate::killing::killed;
use crate::node::Node;
use crate::remaining::{is_apart, kill_rows};
use crate::tabling::all_stand;
use crate::tasks::{CutAt, Task, alone, ended, onward};
use crate::types::UnfoldStop;
use ac_claims::types::{Kill, Plan};
use ac_claims_plans::{Embedding, Part, Parts, branch_plan, parts_of};
use ac_flow::types::Case;
use ac_forms::{Conj, Row, column_after};
use std::alloc::{AllocError, Global};

/// Goes on outside the kills of a case from one on, if the question may have a point; else its plan is made.
pub(crate) fn outside<'a>(
    alloc: Global,
    search: &Search<'a>,
    node: Node,
    case: &'a Case,
    number: usize,
    plans: &mut Vec<Plan>,
) -> Result<Vec<Task<'a>>, AllocError>
    requires { is_some node.question.last ≡ true }
    ensures { IfOk result (λ more. Unfolds search.now (todo.Outside node case.entry number) more.items plans.old.items plans.new.items) }
{
    let question = open_question(alloc, node, search.budget, true)?;
    match question {
        Opened::Empty(made) => {
            let Some(plan) = made else {
                return Ok(Vec::new(alloc));
            };
            plans.push(plan)?;
            Ok(Vec::new(alloc))
        }
        Opened::On(node) => {
            let more = alone(alloc, Task::Kills(node, case, number))?;
            Ok(more)
        }
    }
}

/// The number of the next kill of a case.
fn number_behind(case: &Case, number: usize) -> usize
    requires { number < length case.now.kills }
    ensures { result ≡ number + 1 }
{
    let _count = case.kills.len();
    number + 1
}

/// Goes on outside a kill of a case: to the next one, or to the rows of this one.
fn next_kill<'a>(
    alloc: Global,
    search: &Search<'a>,
    node: Node,
    case: &'a Case,
    number: usize,
    kill: &'a (Conj, Kill),
) -> Result<Vec<Task<'a>>, UnfoldStop>
    requires kill { slice_get case.now.kills number ≡ Some kill.now }
    requires assumes { is_some node.question.last ≡ true }
    ensures moves { IfOk result (λ more. MovesOn search.now (todo.Kills node case.entry number) more.items) }
    ensures causes { IfErr result (StopsUnder search.now (FollowsCut search.now case.now number 0 node.pair_path node.question)) }
    ensures never { IfErr result IsNeverFull }
{
    let rows = kill_rows(alloc, search, &node, &kill.0)?;
    let apart = is_apart(alloc, search, &node, rows.as_slice())?;
    if apart {
        let more = alone(alloc, Task::Kills(node, case, number_behind(case, number)))?;
        return Ok(more);
    }
    let cut = CutAt {
        node,
        case,
        number,
        kill: &kill.1,
        rows,
        standing: 0,
    };
    let more = alone(alloc, Task::Cut(cut))?;
    Ok(more)
}

/// Goes on outside the kills of a case from one on, and behind the last one to its source.
pub(crate) fn kills<'a>(
    alloc: Global,
    search: &Search<'a>,
    node: Node,
    case: &'a Case,
    number: usize,
    plans: &mut Vec<Plan>,
    found_paths: &mut BrokenPaths,
) -> Result<Option<Vec<Task<'a>>>, UnfoldStop>
    requires { is_some node.question.last ≡ true }
    ensures goes { IfOk result (Goes search.now (todo.Kills node case.entry number) plans.old.items plans.new.items found_paths.old found_paths.new) }
    ensures causes { IfErr result (StopsUnder search.now (FollowsCut search.now case.now number 0 node.pair_path node.question)) }
    ensures full { IfErr result (FullUnder search.now (IsOutsideKills search.now case.now number node.pair_path node.question) found_paths.old) }
{
    let Some(kill) = case.kills.get(number) else {
        return survivor(alloc, search, node, case, number, plans, found_paths);
    };
    onward(next_kill(alloc, search, node, case, number, kill))
}

/// What no kill of a case holds: its source.
fn survivor<'a>(
    alloc: Global,
    search: &Search<'a>,
    node: Node,
    case: &'a Case,
    number: usize,
    plans: &mut Vec<Plan>,
    found_paths: &mut BrokenPaths,
) -> Result<Option<Vec<Task<'a>>>, UnfoldStop>
    requires { length case.now.kills ≤ number }
    ensures goes { IfOk result (Goes search.now (todo.Kills node case.entry number) plans.old.items plans.new.items found_paths.old found_paths.new) }
    ensures causes { IfErr result (StopsUnder search.now (FollowsCut search.now case.now number 0 node.pair_path node.question)) }
    ensures full { IfErr result (FullUnder search.now (IsOutsideKills search.now case.now number node.pair_path node.question) found_paths.old) }
{
    if case.pieces.is_empty() {
        let made = refuted(alloc, search, &node, found_paths);
        return ended(alloc, search, made, plans);
    }
    let more = alone(alloc, Task::Visit(node))?;
    Ok(Some(more))
}

/// Whether all rows of a side without further columns stand at a question.
fn has_side(alloc: Global, conj: &Conj, outside: &[Part]) -> Result<bool, AllocError>
    ensures there { IfOk result (λ has. has ≡ true → HasSide conj.now outside.now) }
    ensures new { IfOk result (λ has. has ≡ false → AllByRecursion (IsNew conj.now) outside.now) }
{
    for part in outside {
        if part.question_columns != 0 {
            continue;
        }
        let stand = all_stand(alloc, conj, part.rows.as_slice())?;
        if stand {
            return Ok(true);
        }
    }
    Ok(false)
}

/// The sides of a row of a kill that does not stand yet, if it can. None if the question is on a side already where it does not hold.
fn new_sides<'a>(
    alloc: Global,
    search: &Search<'a>,
    at: &CutAt<'a>,
    row: &Row,
) -> Result<Option<Parts>, UnfoldStop>
    requires kills { IsKillsRow search.now at.now.case.now at.now.number at.now.standing at.now.node.question row.now }
    requires can { CanStand at.now.node.question.conj.columns row.now }
    ensures sides { IfOk result (λ made. IfSome made (AreNewSides at.now.node.question.conj row.now)) }
    ensures none { IfOk result (λ made. made ≡ None → NeverHolds at.now.node.question.conj row.now) }
    ensures causes { IfErr result (StopsUnder search.now (FollowsCut search.now at.now.case.now at.now.number at.now.standing at.now.node.pair_path at.now.node.question)) }
    ensures never { IfErr result IsNeverFull }
{
    let Some(parts) = parts_of(alloc, row, at.node.question.conj.columns)? else {
        return Err(search.too_wide(alloc, &at.node));
    };
    let outside = has_side(alloc, &at.node.question.conj, parts.outside.as_slice())?;
    if outside {
        return Ok(None);
    }
    Ok(Some(parts))
}

/// The sides of a row of a kill that does not stand yet. None if no point of the question meets the row.
fn sides<'a>(
    alloc: Global,
    search: &Search<'a>,
    at: &CutAt<'a>,
    row: &Row,
) -> Result<Option<Parts>, UnfoldStop>
    requires { IsKillsRow search.now at.now.case.now at.now.number at.now.standing at.now.node.question row.now }
    ensures sides { IfOk result (λ made. IfSome made (AreNewSides at.now.node.question.conj row.now)) }
    ensures none { IfOk result (λ made. made ≡ None → NeverHolds at.now.node.question.conj row.now) }
    ensures causes { IfErr result (StopsUnder search.now (FollowsCut search.now at.now.case.now at.now.number at.now.standing at.now.node.pair_path at.now.node.question)) }
    ensures never { IfErr result IsNeverFull }
{
    let kind = kind_of(alloc, row, at.node.question.conj.columns)?;
    match kind {
        Wanted::Standing => new_sides(alloc, search, at, row),
        Wanted::Absurd => Ok(None),
        Wanted::Wide => Err(search.too_wide(alloc, &at.node)),
    }
}

/// The parts of the negation of a kill's row, each outside the kills from the next one on.
fn beside<'a>(
    alloc: Global,
    node: &Node,
    case: &'a Case,
    number: usize,
    parts: &[Part],
) -> Result<Vec<Task<'a>>, AllocError>
    ensures { IfOk result (λ made. AreBeside node.now case.now number parts.now made.items) }
{
    let mut made = Vec::new(alloc);
    for part in parts {
        let side = node.within(alloc, part)?;
        made.push(Task::Outside(side, case, number))?;
    }
    Ok(made)
}

/// Branches on a row of a kill: beside it the next kills, and inside the next row.
fn split<'a>(
    alloc: Global,
    at: CutAt<'a>,
    row: Row,
    parts: &Parts,
    plans: &mut Vec<Plan>,
) -> Result<Vec<Task<'a>>, AllocError>
    requires { at.number < length at.case.now.kills }
    ensures { IfOk result (λ more. IsSplit at.entry row parts.now more.items plans.old.items plans.new.items) }
{
    let CutAt {
        node: before,
        case,
        number,
        kill,
        rows,
        standing,
    } = at;
    let next = number_behind(case, number);
    let mut more = beside(alloc, &before, case, next, parts.outside.as_slice())?;
    let node = before.within(alloc, &parts.inside)?;
    let standing = column_after(standing, 1)?;
    let inside = CutAt {
        node,
        case,
        number,
        kill,
        rows,
        standing,
    };
    more.push(Task::Cut(inside))?;
    let around = std::mem::replace(plans, Vec::new(alloc));
    more.push(Task::Branch(before.embedding, row, around))?;
    Ok(more)
}

/// The end where all rows of a kill stand.
fn killed_end<'a>(
    alloc: Global,
    search: &Search<'a>,
    at: &CutAt<'a>,
    plans: &mut Vec<Plan>,
) -> Result<Vec<Task<'a>>, AllocError>
    requires { is_some at.now.node.question.last ≡ true }
    ensures none { IfOk result (λ more. more.items ≡ []) }
    ensures end { IfOk result (λ more. IsEndAt search.now at.now plans.old.items plans.new.items) }
{
    let plan = killed(alloc, search, &at.node, at.kill)?;
    plans.push(plan)?;
    Ok(Vec::new(alloc))
}

/// Goes on behind a row of a kill that stands.
fn passed<'a>(alloc: Global, at: CutAt<'a>) -> Result<Vec<Task<'a>>, AllocError>
    ensures { IfOk result (λ more. more.items ≡ todo.Cut (passed_row at.entry) ∷ []) }
{
    let CutAt {
        node,
        case,
        number,
        kill,
        rows,
        standing,
    } = at;
    let standing = column_after(standing, 1)?;
    let next = CutAt {
        node,
        case,
        number,
        kill,
        rows,
        standing,
    };
    let more = alone(alloc, Task::Cut(next))?;
    Ok(more)
}

/// Goes on with the next kill, where no point of a question meets a row of this one.
fn left<'a>(alloc: Global, at: CutAt<'a>) -> Result<Vec<Task<'a>>, AllocError>
    requires { at.number < length at.case.now.kills }
    ensures { IfOk result (λ more. more.items ≡ todo.Kills at.entry.node at.entry.case (at.entry.number + 1) ∷ []) }
{
    let CutAt {
        node,
        case,
        number,
        kill: _,
        rows: _,
        standing: _,
    } = at;
    let next = number_behind(case, number);
    let more = alone(alloc, Task::Kills(node, case, next))?;
    Ok(more)
}

/// Goes on at the next row of a kill. A row that stands is passed. Where no point meets it, the kill is passed. Else it is branched on.
/// Behind the last row the place is killed.
pub(crate) fn cut<'a>(
    alloc: Global,
    search: &Search<'a>,
    at: CutAt<'a>,
    plans: &mut Vec<Plan>,
) -> Result<Vec<Task<'a>>, UnfoldStop>
    requires { IsCutAt search.now at }
    ensures unfolds { IfOk result (λ more. Unfolds search.now (todo.Cut at.entry) more.items plans.old.items plans.new.items) }
    ensures causes { IfErr result (StopsUnder search.now (FollowsCut search.now at.entry.case.now at.entry.number at.entry.standing at.entry.node.pair_path at.entry.node.question)) }
    ensures never { IfErr result IsNeverFull }
{
    let Some(row) = at.rows.get(at.standing) else {
        let more = killed_end(alloc, search, &at, plans)?;
        return Ok(more);
    };
    let row = row.copy(alloc)?;
    let standing = stands_in(alloc, &at.node.question.conj, &row)?;
    if standing {
        let more = passed(alloc, at)?;
        return Ok(more);
    }
    let made = sides(alloc, search, &at, &row)?;
    match made {
        Some(parts) => {
            let more = split(alloc, at, row, &parts, plans)?;
            Ok(more)
        }
        None => {
            let more = left(alloc, at)?;
            Ok(more)
        }
    }
}

/// Makes the plan of a branch on a row of the one inside and of those beside it.
pub(crate) fn close_branch<'a>(
    alloc: Global,
    embedding: Embedding,
    row: Row,
    around: Vec<Plan>,
    plans: &mut Vec<Plan>,
) -> Result<Vec<Task<'a>>, AllocError>
    ensures none { IfOk result (λ more. more.items ≡ []) }
    ensures closes { IfOk result (λ more. ClosesBranch embedding row around.items plans.old.items plans.new.items) }
{
    let mut outside = std::mem::replace(plans, around);
    let Some(inside) = outside.pop() else {
        return Ok(Vec::new(alloc));
    };
    let plan = branch_plan(alloc, &embedding, &row, inside, outside)?;
    plans.push(plan)?;
    Ok(Vec::new(alloc))
}
