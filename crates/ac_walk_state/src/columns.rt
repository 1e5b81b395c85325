//! How many numbers a point has at a pair of positions.
ghost use Rattle.std.specs.Prelude.{◌≡◌, ◌+◌, IfOk};
ghost use Rattle.ac_syntax.specs.declared.tree.Pair.{Pair};
ghost use Rattle.ac_graph.specs.PairMoves.{pairing_of};
ghost use Rattle.ac_claims_paths.specs.ModelCalls.{pairing};
ghost use Rattle.ac_widen_programs.specs.PairSetting.{coordinate_count, point_width};

use ac_claims_paths::path::Programs;
use ac_poly::types::Model;
use ac_poly::width;
use ac_syntax::tree::Position;
use std::alloc::AllocError;

/// How many coordinates a position has: the counters of its assignment, or the dimensions of its array.
fn coordinates(model: &Model, position: &Position) -> usize
    ensures { result ≡ coordinate_count model.now position.now }
{
    match position {
        Position::Output(array) | Position::InitialOutput(array) => {
            match model.extents.as_slice().get(*array) {
                Some(extents) => extents.len(),
                None => 0,
            }
        }
        Position::Node { stmt, node: _ } | Position::InitialNode { stmt, node: _ } => {
            match model.stmts.as_slice().get(*stmt) {
                Some(found) => width(found),
                None => 0,
            }
        }
    }
}

/// The sum of two numbers of columns.
fn sum(first: usize, second: usize) -> Result<usize, AllocError>
    ensures { IfOk result (λ all. all ≡ first + second) }
{
    match first.checked_add(second) {
        Some(all) => Ok(all),
        None => Err(AllocError),
    }
}

/// How many numbers a point has at a pair of positions of the programs of a pair: the parameters, the coordinates of the left position
/// and those of the right one. Want of memory where they are more than a `usize` counts.
pub fn columns_of(
    programs: &Programs<'_>,
    left: &Position,
    right: &Position,
) -> Result<usize, AllocError>
    ensures { IfOk result (λ columns. (pair : Pair) → pairing_of pair ≡ pairing programs.now → columns ≡ point_width pair (left.now, right.now)) }
{
    let behind = sum(
        coordinates(programs.left, left),
        coordinates(programs.right, right),
    )?;
    let columns = sum(programs.left.params, behind)?;
    Ok(columns)
}
