//! The end at a killed place, with the choices of its copy behind the columns of the path.
ghost use Rattle.std.specs.Prelude.{◌≡◌, IfOk, Some, is_some, map, true};
ghost use Rattle.ac_claims_paths.specs.CopyKills.{case_width};
ghost use Rattle.ac_claims_paths.specs.declared.path.Assumed.{Assumed};
ghost use Rattle.ac_flow.specs.KillAcceptance.{behind};
ghost use Rattle.ac_unfold.specs.KillCuts.{IsKilled};
ghost use Rattle.ac_unfold.specs.PlanResults.{judge_of};

use crate::ends::Search;
use crate::node::Node;
use ac_base::Items;
use ac_claims::types::{Kill, Plan, PlanNext};
use ac_claims_paths::killing::case_width;
use ac_claims_paths::path::Assumed;
use ac_claims_plans::plan_of;
use ac_forms::column_after;
use ac_omega_steps::Choice;
use std::alloc::{AllocError, Global};

/// A choice whose column stands behind those of a path in place of those of a case.
fn moved_choice(choice: &Choice, own: usize, path: usize) -> Result<Choice, AllocError>
    ensures { IfOk result (λ moved. moved ≡ behind own path choice.now) }
{
    let column = column_after(path, choice.column().saturating_sub(own))?;
    match choice {
        Choice::Drop(_) => Ok(Choice::Drop(column)),
        Choice::Equal(_, row) => Ok(Choice::Equal(column, *row)),
        Choice::Residue(_, modulus, residue) => Ok(Choice::Residue(column, *modulus, *residue)),
        Choice::Shadow(_) => Ok(Choice::Shadow(column)),
        Choice::Splinter(_, row, value) => Ok(Choice::Splinter(column, *row, *value)),
    }
}

/// The choices of a copy behind the columns of a path.
fn moved_choices(
    alloc: Global,
    choices: &[Choice],
    own: usize,
    path: usize,
) -> Result<Items<Choice>, AllocError>
    ensures { IfOk result (λ moved. moved ≡ map (behind own path) choices.now) }
{
    let mut moved = Items::new(alloc);
    for choice in choices {
        moved.push(moved_choice(choice, own, path)?)?;
    }
    Ok(moved)
}

/// How many columns the case has that was assumed last.
fn own_columns(search: &Search<'_>, last: &Option<Assumed>) -> Result<usize, AllocError>
    requires { is_some last.now ≡ true }
    ensures { IfOk result (λ own. (a : Assumed) → last.now ≡ Some a → own ≡ case_width (judge_of search.now).params a) }
{
    match last {
        Some(assumed) => case_width(search.params(), assumed),
        None => unreachable!(),
    }
}

/// The end at a killed place.
pub(crate) fn killed(
    alloc: Global,
    search: &Search<'_>,
    node: &Node,
    kill: &Kill,
) -> Result<Plan, AllocError>
    requires { is_some node.now.question.last ≡ true }
    ensures { IfOk result (IsKilled search.now node.now kill.now) }
{
    let own = own_columns(search, &node.question.last)?;
    let path = node.embedding.next_column;
    let end = PlanNext::Killed(Kill {
        stmt: kill.stmt,
        piece: kill.piece,
        after: kill.after,
        before: kill.before,
        choices: moved_choices(alloc, kill.choices.as_slice(), own, path)?,
    });
    Ok(plan_of(alloc, end))
}
