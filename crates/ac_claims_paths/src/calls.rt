//! The steps of a pair of calls.
ghost use Rattle.std.specs.Prelude.{◌≡◌, ℕ, ◌+◌, ◌<◌, ◌++◌, [], ◌∷◌, map, IfOk, Option, Some, None, List, length, get_or};
ghost use Rattle.ac_syntax.specs.declared.tree.Position.TheVariants.{Node};
ghost use Rattle.ac_syntax.specs.Outputs.{swaps_of};
ghost use Rattle.ac_claims_paths.specs.BranchPaths.{onto, all_onto};
ghost use Rattle.ac_claims_paths.specs.ModelCalls.{pairing, called};
ghost use Rattle.ac_claims_paths.specs.PathSteps.{argument_path, kept, swapped, same_symbol, call_branches, branches_of_calls, by_keep, branches};
ghost use Rattle.ac_claims_paths.specs.ModelPositions.{call_at};

use crate::path::{Branch, Path, Programs, Seat};
use crate::places::{CallNode, call_at};
use crate::symbols::{may_swap, same_symbol};
use ac_base::Items;
use ac_syntax::name::Name;
use ac_syntax::tree::{Order, Position, Symbol};
use std::alloc::{AllocError, Global};

/// What is added by a step to two arguments.
#[tactic(auto, using(crate::proofs::CallLoops::argument_steps))]
fn argument_branch(alloc: Global, path: &Path, left: Position, right: Position) -> Branch
    ensures { onto path.now result ≡ argument_path path.now left right }
{
    Branch {
        columns: 0,
        rows: Items::new(alloc),
        left: Seat {
            position: left,
            first: path.left.first,
            width: path.left.width,
        },
        right: Seat {
            position: right,
            first: path.right.first,
            width: path.right.width,
        },
        last: None,
    }
}

/// Each argument beside the one with its number; none where there are not as many on both sides.
#[tactic(auto, using(crate::proofs::CallLoops::kept_steps))]
fn kept(
    alloc: Global,
    path: &Path,
    left: &CallNode,
    right: &CallNode,
) -> Result<Option<Items<Branch>>, AllocError>
    ensures { IfOk result (λ made. all_onto path.now made ≡ kept path.now (called left.now).args (called right.now).args) }
{
    if left.args.len() != right.args.len() {
        return Ok(None);
    }
    let mut made = Items::new(alloc);
    for k in 0..left.args.len() {
        made.push(argument_at(alloc, path, left, k, right, k))?;
    }
    Ok(Some(made))
}

/// The first argument beside the second one, and the second one beside the first; none where either side has not two.
#[tactic(auto, using(crate::proofs::CallLoops::swapped_steps))]
fn swapped(
    alloc: Global,
    path: &Path,
    left: &CallNode,
    right: &CallNode,
) -> Result<Option<Items<Branch>>, AllocError>
    ensures { IfOk result (λ made. all_onto path.now made ≡ swapped path.now (called left.now).args (called right.now).args) }
{
    if left.args.len() != 2 || right.args.len() != 2 {
        return Ok(None);
    }
    let first = argument_at(alloc, path, left, 0, right, 1);
    let second = argument_at(alloc, path, left, 1, right, 0);
    both(alloc, first, second)
}

/// What is added by a step to two arguments, by their numbers.
fn argument_at(
    alloc: Global,
    path: &Path,
    left: &CallNode,
    i: usize,
    right: &CallNode,
    k: usize,
) -> Branch
    requires left { i < length left.now.args.now }
    requires right { k < length right.now.args.now }
    ensures { onto path.now result ≡ argument_path path.now (Node left.now.stmt (get_or left.now.args.now i 0)) (Node right.now.stmt (get_or right.now.args.now k 0)) }
{
    let first = Position::Node {
        stmt: left.stmt,
        node: left.args[i],
    };
    let second = Position::Node {
        stmt: right.stmt,
        node: right.args[k],
    };
    argument_branch(alloc, path, first, second)
}

/// Two branches in order.
fn both(alloc: Global, first: Branch, second: Branch) -> Result<Option<Items<Branch>>, AllocError>
    ensures { IfOk result (λ made. made ≡ Some (first ∷ second ∷ [])) }
{
    let mut made = Items::new(alloc);
    made.push(first)?;
    made.push(second)?;
    Ok(Some(made))
}

/// The paths behind a step of two calls: their arguments in the order, where it is allowed.
fn call_steps(
    alloc: Global,
    programs: &Programs,
    order: Order,
    path: &Path,
    left: &CallNode,
    right: &CallNode,
) -> Result<Option<Items<Branch>>, AllocError>
    ensures { IfOk result (λ made. all_onto path.now made ≡ call_branches (pairing programs.now) order path.now (called left.now) (called right.now)) }
{
    if !same_symbol(left.symbol, right.symbol) {
        return Ok(None);
    }
    match order {
        Order::Keep => kept(alloc, path, left, right),
        Order::Swap => {
            if !may_swap(programs.commutative, left.symbol) {
                return Ok(None);
            }
            swapped(alloc, path, left, right)
        }
    }
}

/// The same, where a call stands at both positions.
pub(crate) fn steps_of_calls(
    alloc: Global,
    programs: &Programs,
    order: Order,
    path: &Path,
) -> Result<Option<Items<Branch>>, AllocError>
    ensures { IfOk result (λ made. all_onto path.now made ≡ branches_of_calls (pairing programs.now) order path.now (call_at programs.now.left.now path.now.left.position) (call_at programs.now.right.now path.now.right.position)) }
{
    match call_at(programs.left, &path.left.position) {
        None => Ok(None),
        Some(left) => match call_at(programs.right, &path.right.position) {
            None => Ok(None),
            Some(right) => call_steps(alloc, programs, order, path, &left, &right),
        },
    }
}
