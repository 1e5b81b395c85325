//! The graph of a pair of programs.
ghost use Rattle.std.specs.Prelude.{◌≡◌, ◌↔◌, ◌⊎◌, ◌∷◌, [], IfOk, OnOk, IsTrue, Some, slice_get};
ghost use Rattle.ac_syntax.specs.declared.tree.Position.{Position};
ghost use Rattle.ac_syntax.specs.declared.tree.Site.{Site};
ghost use Rattle.ac_claims_paths.specs.PathSteps.{Pairing};
ghost use Rattle.ac_forms.specs.ListMembers.{IsAmong};
ghost use Rattle.ac_graph.specs.PairMoves.{IsEdge, IsSite, dependences, pairing_of, start_of, starts_of, AreDistinct, AreTargets, AreRanks, AreReached, AreRecurrent, AreSites};
ghost use Rattle.ac_graph.specs.ProgramOutlines.{AreOutlinesOf};
ghost use Rattle.ac_graph.specs.GraphMeaning.{AreSources, BoundChains, HaveFlows, HaveOutputs, HoldMet};

use crate::analysis::{chosen, ranks, recurring};
use crate::edges::edges;
use crate::moves::Edges;
use crate::programs::{Both, both_of};
use crate::spread::{Reached, all_reached, placed};
use crate::types::Graph;
use ac_base::Items;
use ac_claims_paths::symbols::{may_swap, same_symbol};
use ac_flow::types::Flow;
use ac_syntax::tree::{Pair, Position, Site};
use std::alloc::{AllocError, Global};

/// Each output of both programs against itself, each pair once.
fn starts_of(alloc: Global, outputs: &[usize]) -> Result<Items<(Position, Position)>, AllocError>
    ensures distinct { IfOk result AreDistinct }
    ensures starts { IfOk result (λ made. (p : Position × Position) → IsAmong p made ↔ IsAmong p (starts_of outputs.now)) }
{
    let mut made = Items::new(alloc);
    for output in outputs {
        placed(
            &mut made,
            &(Position::Output(*output), Position::Output(*output)),
        )?;
    }
    Ok(made)
}

/// An output of both programs against itself.
fn start_of(alloc: Global, output: usize) -> Result<Items<(Position, Position)>, AllocError>
    ensures { IfOk result (λ made. made ≡ start_of output ∷ []) }
{
    let mut made = Items::new(alloc);
    made.push((Position::Output(output), Position::Output(output)))?;
    Ok(made)
}

/// The moves of a pair of programs by the flows of both (S. Verdoolaege, G. Janssens and M. Bruynooghe, Equivalence checking of
/// static affine programs using widening to handle recurrences, 2012).
///
/// An edge leads from a read or an output to the root of an assignment, where some case of this source is left, and to its
/// initial position, where the case of the initial contents is. A pair of positions moves along the edges of a read or an
/// output on the left, else of one on the right, else from two calls of one symbol to each pair of their arguments, in order;
/// and crossed, where the symbol has two arguments and is declared commutative. `reachable` holds each pair once that moves
/// reach from an output against itself, and `targets` the places of those to which each of them moves. A pair recurs if it lies
/// on a cycle of moves, has the root of an assignment on a side, and either has no read or output on either side or lies on a
/// cycle through pairs with one alone. Every cycle of moves holds such a pair: so each reachable pair has a rank, and each of
/// its moves leads to a recurrence pair or to a pair of smaller rank.
///
/// Where the flows are those of the pair's programs under its context, the edges are exactly their sources: an edge is there
/// where at some valuation of the context some instance or element has a source in that assignment, or none. Then each pair
/// of positions that steps reach from an output against itself, at any valuation and element and by any orders of arguments,
/// is among the reachable ones, and more steps than its rank lead from it through a recurrence pair.
///
/// The only refusal is want of memory.
pub fn graph(alloc: Global, pair: &Pair, left: &Flow, right: &Flow) -> Result<Graph, AllocError>
    ensures left { IfOk result (λ made. (p q : Position) → IsAmong (p, q) made.left_edges ↔ IsEdge left.now p q) }
    ensures right { IfOk result (λ made. (p q : Position) → IsAmong (p, q) made.right_edges ↔ IsEdge right.now p q) }
    ensures reachable { IfOk result (λ made. AreReached (dependences pair.now made.left_edges made.right_edges) (starts_of pair.now.outputs) made.reachable) }
    ensures distinct { IfOk result (λ made. AreDistinct made.reachable) }
    ensures targets { IfOk result (λ made. AreTargets (dependences pair.now made.left_edges made.right_edges) made.reachable made.targets) }
    ensures recurrent { IfOk result (λ made. AreRecurrent (dependences pair.now made.left_edges made.right_edges) made.reachable made.recurrent) }
    ensures ranks { IfOk result (λ made. AreRanks (dependences pair.now made.left_edges made.right_edges) made.reachable made.recurrent made.ranks) }
    ensures sources { HaveFlows pair.now left.now right.now → IfOk result (λ made. AreSources pair.now.left pair.now.context made.left_edges × AreSources pair.now.right pair.now.context made.right_edges) }
    ensures met { HaveFlows pair.now left.now right.now → HaveOutputs pair.now pair.now.outputs → IfOk result (λ made. HoldMet pair.now pair.now.outputs made.reachable) }
    ensures chains { HaveFlows pair.now left.now right.now → HaveOutputs pair.now pair.now.outputs → IfOk result (λ made. BoundChains pair.now pair.now.outputs made.reachable made.recurrent made.ranks) }
{
    let both = both_of(alloc, pair)?;
    let left_edges = edges(alloc, left)?;
    let right_edges = edges(alloc, right)?;
    let along = Edges {
        both: &both,
        left: left_edges.as_slice(),
        right: right_edges.as_slice(),
    };
    let starts = starts_of(alloc, pair.outputs.as_slice())?;
    let Reached { pairs, next } = all_reached(alloc, &along, starts)?;
    let marks = recurring(alloc, &both, pairs.as_slice(), next.as_slice())?;
    let recurrent = chosen(alloc, pairs.as_slice(), marks.as_slice())?;
    let ranks = ranks(alloc, next.as_slice(), marks.as_slice())?;
    Ok(Graph {
        left_edges,
        right_edges,
        reachable: pairs,
        targets: next,
        recurrent,
        ranks,
    })
}

/// The pairs that moves along the edges of a graph reach from an output of both programs against itself: first this pair, and each
/// once. The only refusal is want of memory.
pub fn reachable_from(
    alloc: Global,
    pair: &Pair,
    graph: &Graph,
    output: usize,
) -> Result<Items<(Position, Position)>, AllocError>
    ensures reached { IfOk result (AreReached (dependences pair.now graph.now.left_edges graph.now.right_edges) (start_of output ∷ [])) }
    ensures distinct { IfOk result AreDistinct }
    ensures first { IfOk result (λ made. slice_get made 0 ≡ Some (start_of output)) }
{
    let both = both_of(alloc, pair)?;
    let along = Edges {
        both: &both,
        left: graph.left_edges.as_slice(),
        right: graph.right_edges.as_slice(),
    };
    let starts = start_of(alloc, output)?;
    let Reached { pairs, next: _ } = all_reached(alloc, &along, starts)?;
    Ok(pairs)
}

/// Whether a pair of positions is a site.
fn is_site(both: &Both, pair: &(Position, Position)) -> bool
    ensures { (g : Pairing) → AreOutlinesOf g both.now → (IsTrue result ↔ IsSite g pair.now) }
{
    match both.left.call_at(&pair.0) {
        None => false,
        Some(left) => match both.right.call_at(&pair.1) {
            None => false,
            Some(right) => {
                same_symbol(left.symbol, right.symbol) && may_swap(both.commutative, left.symbol)
            }
        },
    }
}

/// Adds a pair of positions, if it is a site.
fn push_site(
    both: &Both,
    pair: &(Position, Position),
    out: &mut Items<Site>,
) -> Result<(), AllocError>
    ensures { (g : Pairing) → AreOutlinesOf g both.now → OnOk result ((s : Site) → IsAmong s out.new ↔ (IsAmong s out.old ⊎ (((s.left, s.right) ≡ pair.now) × IsSite g pair.now))) }
{
    if is_site(both, pair) {
        out.push(Site {
            left: pair.0,
            right: pair.1,
        })?;
        Ok(())
    } else {
        Ok(())
    }
}

/// The sites among some pairs, in order: the pairs of calls of one symbol of two arguments that the pair declares
/// commutative. The only refusal is want of memory.
pub fn sites(
    alloc: Global,
    pair: &Pair,
    pairs: &[(Position, Position)],
) -> Result<Items<Site>, AllocError>
    ensures { IfOk result (AreSites (pairing_of pair.now) pairs.now) }
{
    let both = both_of(alloc, pair)?;
    let mut made = Items::new(alloc);
    for at in 0..pairs.len() {
        push_site(&both, &pairs[at], &mut made)?;
    }
    Ok(made)
}
