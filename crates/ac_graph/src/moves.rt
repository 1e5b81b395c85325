//! The moves of a pair of positions.
ghost use Rattle.std.specs.Prelude.{◌≡◌, ◌||◌, [], IfOk, OnOk, length};
ghost use Rattle.ac_syntax.specs.Outputs.{swaps_of};
ghost use Rattle.ac_graph.specs.PairMoves.{Dependences, Moves, ArgumentMove};
ghost use Rattle.ac_graph.specs.ProgramOutlines.{called, reads_at, AreOutlinesOf, AreEdgesOf};
ghost use Rattle.ac_graph.specs.Reachability.{IsMore, IsLeftOf, IsRightOf, IsArgumentOf, IsKeptOf, IsMetOf, IsArgumentMoveOf};

use crate::programs::{Both, CallNode};
use ac_base::Items;
use ac_claims::ending::same_position;
use ac_claims_paths::symbols::{may_swap, same_symbol};
use ac_syntax::tree::Position;
use std::alloc::{AllocError, Global};

/// Both programs with the edges of each.
#[derive(Clone, Copy)]
pub(crate) struct Edges<'a> {
    pub both: &'a Both<'a>,
    pub left: &'a [(Position, Position)],
    pub right: &'a [(Position, Position)],
}

/// Adds the move of the left position along an edge, if it is one of its edges.
fn push_left_edge(
    edge: &(Position, Position),
    pair: &(Position, Position),
    out: &mut Items<(Position, Position)>,
) -> Result<(), AllocError>
    ensures { OnOk result (IsMore (λ q. (edge.now ≡ (pair.now.0, q.0)) × (q.1 ≡ pair.now.1)) out.old out.new) }
{
    if same_position(&edge.0, &pair.0) {
        out.push((edge.1, pair.1))?;
        Ok(())
    } else {
        Ok(())
    }
}

/// Adds the moves of the left position along its edges.
fn push_left(
    edges: &[(Position, Position)],
    pair: &(Position, Position),
    out: &mut Items<(Position, Position)>,
) -> Result<(), AllocError>
    ensures { OnOk result (IsMore (IsLeftOf edges.now pair.now) out.old out.new) }
{
    for at in 0..edges.len() {
        push_left_edge(&edges[at], pair, out)?;
    }
    Ok(())
}

/// Adds the move of the right position along an edge, if it is one of its edges.
fn push_right_edge(
    edge: &(Position, Position),
    pair: &(Position, Position),
    out: &mut Items<(Position, Position)>,
) -> Result<(), AllocError>
    ensures { OnOk result (IsMore (λ q. (edge.now ≡ (pair.now.1, q.1)) × (q.0 ≡ pair.now.0)) out.old out.new) }
{
    if same_position(&edge.0, &pair.1) {
        out.push((pair.0, edge.1))?;
        Ok(())
    } else {
        Ok(())
    }
}

/// Adds the moves of the right position along its edges.
fn push_right(
    edges: &[(Position, Position)],
    pair: &(Position, Position),
    out: &mut Items<(Position, Position)>,
) -> Result<(), AllocError>
    ensures { OnOk result (IsMore (IsRightOf edges.now pair.now) out.old out.new) }
{
    for at in 0..edges.len() {
        push_right_edge(&edges[at], pair, out)?;
    }
    Ok(())
}

/// Adds the pair of two arguments of two calls, if both have as many.
fn push_argument(
    left: &CallNode,
    i: usize,
    right: &CallNode,
    j: usize,
    out: &mut Items<(Position, Position)>,
) -> Result<(), AllocError>
    ensures { OnOk result (IsMore (IsArgumentOf (called left.now) i (called right.now) j) out.old out.new) }
{
    match (left.args.get(i), right.args.get(j)) {
        (Some(k), Some(l)) => {
            let first = Position::Node {
                stmt: left.stmt,
                node: *k,
            };
            let second = Position::Node {
                stmt: right.stmt,
                node: *l,
            };
            out.push((first, second))?;
            Ok(())
        }
        _ => Ok(()),
    }
}

/// Adds the pairs of arguments of two calls, in order.
fn push_kept(
    left: &CallNode,
    right: &CallNode,
    out: &mut Items<(Position, Position)>,
) -> Result<(), AllocError>
    ensures { OnOk result (IsMore (IsKeptOf (called left.now) (called right.now) (length (called left.now).args)) out.old out.new) }
{
    for k in 0..left.args.len() {
        push_argument(left, k, right, k, out)?;
    }
    Ok(())
}

/// Adds the pairs of arguments of two calls of one symbol that meet in some order.
fn push_arguments(
    both: &Both,
    left: &CallNode,
    right: &CallNode,
    out: &mut Items<(Position, Position)>,
) -> Result<(), AllocError>
    ensures { OnOk result (IsMore (IsMetOf (swaps_of both.now.commutative.now) (called left.now) (called right.now)) out.old out.new) }
{
    push_kept(left, right, out)?;
    if may_swap(both.commutative, left.symbol) {
        push_argument(left, 0, right, 1, out)?;
        push_argument(left, 1, right, 0, out)?;
    }
    Ok(())
}

/// The moves of the left position along its edges.
fn left_moves(
    alloc: Global,
    edges: &[(Position, Position)],
    pair: &(Position, Position),
) -> Result<Items<(Position, Position)>, AllocError>
    ensures { IfOk result (IsMore (IsLeftOf edges.now pair.now) []) }
{
    let mut out = Items::new(alloc);
    push_left(edges, pair, &mut out)?;
    Ok(out)
}

/// The moves of the right position along its edges.
fn right_moves(
    alloc: Global,
    edges: &[(Position, Position)],
    pair: &(Position, Position),
) -> Result<Items<(Position, Position)>, AllocError>
    ensures { IfOk result (IsMore (IsRightOf edges.now pair.now) []) }
{
    let mut out = Items::new(alloc);
    push_right(edges, pair, &mut out)?;
    Ok(out)
}

/// The moves of two calls: to their arguments, if they are of one symbol.
fn moves_of_calls(
    alloc: Global,
    both: &Both,
    left: &CallNode,
    right: &CallNode,
) -> Result<Items<(Position, Position)>, AllocError>
    ensures { IfOk result (IsMore (IsArgumentMoveOf (swaps_of both.now.commutative.now) (called left.now) (called right.now)) []) }
{
    let mut out = Items::new(alloc);
    if !same_symbol(left.symbol, right.symbol) {
        return Ok(out);
    }
    push_arguments(both, left, right, &mut out)?;
    Ok(out)
}

/// The moves of two positions without reads and outputs: of two calls of one symbol.
fn argument_moves(
    alloc: Global,
    both: &Both,
    pair: &(Position, Position),
) -> Result<Items<(Position, Position)>, AllocError>
    ensures { (d : Dependences) → AreOutlinesOf d.programs both.now → IfOk result (IsMore (ArgumentMove d pair.now) []) }
{
    match both.left.call_at(&pair.0) {
        None => Ok(Items::new(alloc)),
        Some(left) => match both.right.call_at(&pair.1) {
            None => Ok(Items::new(alloc)),
            Some(right) => moves_of_calls(alloc, both, &left, &right),
        },
    }
}

/// Whether a read or an output stands on either side of a pair.
pub(crate) fn has_reader(both: &Both, pair: &(Position, Position)) -> bool
    ensures { result ≡ (reads_at both.now.left pair.now.0 || reads_at both.now.right pair.now.1) }
{
    both.left.is_reader(&pair.0) || both.right.is_reader(&pair.1)
}

/// The moves of a pair: of a read or an output on the left; else of one on the right; else of two calls.
pub(crate) fn moves(
    alloc: Global,
    edges: &Edges,
    pair: &(Position, Position),
) -> Result<Items<(Position, Position)>, AllocError>
    ensures { (d : Dependences) → AreEdgesOf d edges.now → IfOk result (IsMore (Moves d pair.now) []) }
{
    if edges.both.left.is_reader(&pair.0) {
        left_moves(alloc, edges.left, pair)
    } else if edges.both.right.is_reader(&pair.1) {
        right_moves(alloc, edges.right, pair)
    } else {
        argument_moves(alloc, edges.both, pair)
    }
}
