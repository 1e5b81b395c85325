//! Further paths: the rows behind one that fails at the end of a path.
ghost use Rattle.std.specs.Prelude.{◌≡◌, ◌∷◌, [], IfOk, IfSome, OnOk};
ghost use Rattle.ac_unfold.specs.PlanResults.{judge_of};
ghost use Rattle.ac_unfold.specs.BrokenPathResults.{Adds, IsNone, IsPathBeside, IsPathBreaking};
ghost use Rattle.ac_unfold.specs.RequiredRows.{CanStand};

use crate::breaks::BrokenPaths;
use crate::decide::{Answer, Wanted, decide_by_sum, decide_question, kind_of, stands_in};
use crate::ends::Search;
use crate::node::Node;
use crate::types::freely;
use ac_cert_short::Reduction;
use ac_claims_plans::{Part, parts_of};
use ac_forms::Row;
use std::alloc::{AllocError, Global};

/// Adds a path to a part of a row's negation, where a point of it is found. Whether there was one.
fn further_part(
    alloc: Global,
    search: &Search<'_>,
    node: &Node,
    part: &Part,
    reduction: &Reduction,
    found_paths: &mut BrokenPaths,
) -> Result<bool, AllocError>
    ensures { OnOk result (Adds (IsPathBeside (judge_of search.now).params node.now.pair_path node.now.question.conj (part.now ∷ [])) IsNone found_paths.old found_paths.new) }
{
    let beside = node.within(alloc, part)?;
    if decide_by_sum(alloc, &beside, reduction, false)?.is_some() {
        return Ok(false);
    }
    match freely(decide_question(alloc, &beside, search.budget, false))? {
        Some(Answer::Point(point)) => {
            found_paths.push(alloc, search.params(), &beside, &point)?;
            Ok(true)
        }
        Some(Answer::Empty(_)) | None => Ok(false),
    }
}

/// Adds a path to the first part of a row's negation of which a point is found.
fn further_parts(
    alloc: Global,
    search: &Search<'_>,
    node: &Node,
    outside: &[Part],
    reduction: &Reduction,
    found_paths: &mut BrokenPaths,
) -> Result<(), AllocError>
    ensures { OnOk result (Adds (IsPathBeside (judge_of search.now).params node.now.pair_path node.now.question.conj outside.now) IsNone found_paths.old found_paths.new) }
{
    for part in outside {
        if further_part(alloc, search, node, part, reduction, found_paths)? {
            return Ok(());
        }
    }
    Ok(())
}

/// Adds a path on which a row that is not there fails, where one is found.
fn further_branched(
    alloc: Global,
    search: &Search<'_>,
    node: &Node,
    row: &Row,
    reduction: &Reduction,
    found_paths: &mut BrokenPaths,
) -> Result<(), AllocError>
    requires { CanStand node.now.question.conj.columns row.now }
    ensures { OnOk result (Adds (IsPathBreaking (judge_of search.now).params node.now.pair_path node.now.question.conj (row.now ∷ [])) IsNone found_paths.old found_paths.new) }
{
    match parts_of(alloc, row, node.question.conj.columns)? {
        Some(parts) => {
            further_parts(
                alloc,
                search,
                node,
                parts.outside.as_slice(),
                reduction,
                found_paths,
            )?;
            Ok(())
        }
        None => Ok(()),
    }
}

/// Adds a path on which a row fails, where one is found.
fn further_row(
    alloc: Global,
    search: &Search<'_>,
    node: &Node,
    row: &Row,
    reduction: &Reduction,
    found_paths: &mut BrokenPaths,
) -> Result<(), AllocError>
    ensures { OnOk result (Adds (IsPathBreaking (judge_of search.now).params node.now.pair_path node.now.question.conj (row.now ∷ [])) IsNone found_paths.old found_paths.new) }
{
    let standing = stands_in(alloc, &node.question.conj, row)?;
    if standing {
        return Ok(());
    }
    let kind = kind_of(alloc, row, node.question.conj.columns)?;
    match kind {
        Wanted::Standing => further_branched(alloc, search, node, row, reduction, found_paths),
        Wanted::Absurd => Ok(()),
        Wanted::Wide => Ok(()),
    }
}

/// Adds a path for each of the rows that fails at some point of a node, where one is found.
fn further_rows(
    alloc: Global,
    search: &Search<'_>,
    node: &Node,
    rows: &[Row],
    reduction: &Reduction,
    found_paths: &mut BrokenPaths,
) -> Result<(), AllocError>
    ensures { OnOk result (Adds (IsPathBreaking (judge_of search.now).params node.now.pair_path node.now.question.conj rows.now) IsNone found_paths.old found_paths.new) }
{
    for row in rows {
        further_row(alloc, search, node, row, reduction, found_paths)?;
    }
    Ok(())
}

/// The same for the rows behind one that fails, where paths are looked for.
pub(crate) fn further(
    alloc: Global,
    search: &Search<'_>,
    again: &Option<Node>,
    rows: &[Row],
    reduction: &Reduction,
    found_paths: &mut BrokenPaths,
) -> Result<(), AllocError>
    ensures { (n : Node) → IfSome again.now (λ same. same ≡ n) → OnOk result (Adds (IsPathBreaking (judge_of search.now).params n.pair_path n.question.conj rows.now) IsNone found_paths.old found_paths.new) }
{
    match again {
        Some(node) => further_rows(alloc, search, node, rows, reduction, found_paths),
        None => Ok(()),
    }
}

/// A node again, where paths are looked for.
pub(crate) fn again(
    alloc: Global,
    search: &Search<'_>,
    node: &Node,
) -> Result<Option<Node>, AllocError>
    ensures { IfOk result (λ again. IfSome again (λ same. same ≡ node.now)) }
{
    if search.making {
        Ok(None)
    } else {
        Ok(Some(node.copy(alloc)?))
    }
}
