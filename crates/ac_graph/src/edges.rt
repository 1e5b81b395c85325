//! The edges of a program, from its flow.
ghost use Rattle.std.specs.Prelude.{◌≡◌, ◌↔◌, IfOk, OnOk, Option, Some, MatchOption, slice_get};
ghost use Rattle.ac_syntax.specs.declared.tree.Position.{Position};
ghost use Rattle.ac_forms.specs.ListMembers.{IsAmong};
ghost use Rattle.ac_claims_paths.specs.ModelPositions.{initial_of};
ghost use Rattle.ac_graph.specs.PairMoves.{IsEdge, target};
ghost use Rattle.ac_claims.specs.ProofEnds.{same_pair};
ghost use Rattle.ac_graph.specs.Reachability.{IsMore, IsEdgeOf, IsEdgeOfOne, IsEdgeAmong};

use ac_base::Items;
use ac_claims::ending::same_position;
use ac_flow::types::{Case, Flow};
use ac_syntax::tree::Position;
use std::alloc::{AllocError, Global};

/// The position of the initial contents of what is read.
fn initial_of(position: &Position) -> Position
    ensures { result ≡ initial_of position.now }
{
    match position {
        Position::Output(array) => Position::InitialOutput(*array),
        Position::Node { stmt, node } => Position::InitialNode {
            stmt: *stmt,
            node: *node,
        },
        Position::InitialOutput(array) => Position::InitialOutput(*array),
        Position::InitialNode { stmt, node } => Position::InitialNode {
            stmt: *stmt,
            node: *node,
        },
    }
}

/// Where a case leads: to the root of its source, or to the initial position.
fn target(position: &Position, case: &Case) -> Position
    ensures { result ≡ target position.now case.now.source }
{
    match case.source {
        Some(stmt) => Position::Node { stmt, node: 0 },
        None => initial_of(position),
    }
}

/// Whether two pairs of positions are one.
fn same_pair(first: &(Position, Position), second: &(Position, Position)) -> bool
    ensures { result ≡ same_pair first.now second.now }
{
    same_position(&first.0, &second.0) && same_position(&first.1, &second.1)
}

/// The place of a pair in a list, if it stands there.
pub(crate) fn place(pairs: &[(Position, Position)], pair: &(Position, Position)) -> Option<usize>
    ensures { MatchOption result (¬ (IsAmong pair.now pairs.now)) (λ at. slice_get pairs.now at ≡ Some pair.now) }
{
    for at in 0..pairs.len() {
        if same_pair(&pairs[at], pair) {
            return Some(at);
        }
    }
    None
}

/// Adds a pair, unless it stands in the list.
fn push_new(
    pairs: &mut Items<(Position, Position)>,
    pair: (Position, Position),
) -> Result<(), AllocError>
    ensures { OnOk result (IsMore (λ q. q ≡ pair) pairs.old pairs.new) }
{
    match place(pairs.as_slice(), &pair) {
        Some(_) => Ok(()),
        None => {
            pairs.push(pair)?;
            Ok(())
        }
    }
}

/// Adds the edge of a case, if it is left somewhere.
fn push_edge(
    position: &Position,
    case: &Case,
    out: &mut Items<(Position, Position)>,
) -> Result<(), AllocError>
    ensures { OnOk result (IsMore (IsEdgeOfOne position.now case.now) out.old out.new) }
{
    if case.pieces.is_empty() {
        Ok(())
    } else {
        push_new(out, (*position, target(position, case)))?;
        Ok(())
    }
}

/// Adds the edges of a read or an output with these cases.
fn push_edges(
    position: &Position,
    cases: &[Case],
    out: &mut Items<(Position, Position)>,
) -> Result<(), AllocError>
    ensures { OnOk result (IsMore (IsEdgeOf position.now cases.now) out.old out.new) }
{
    for case in cases {
        push_edge(position, case, out)?;
    }
    Ok(())
}

/// The edges of a program with this flow.
pub(crate) fn edges(alloc: Global, flow: &Flow) -> Result<Items<(Position, Position)>, AllocError>
    ensures { IfOk result (λ made. (p q : Position) → IsAmong (p, q) made ↔ IsEdge flow.now p q) }
{
    let mut out = Items::new(alloc);
    let reads = flow.reads.as_slice();
    for read in reads {
        push_edges(&read.position, read.cases.as_slice(), &mut out)?;
    }
    Ok(out)
}
