//! Pairs to which many ways lead, so that the search does well to stop there.

use crate::pairs::is_among;
use ac_base::Items;
use ac_graph::types::Graph;
use ac_syntax::tree::Position;
use std::alloc::{AllocError, Global};

/// Whether the mark of a node is set.
fn is_marked(marks: &[bool], node: usize) -> bool {
    match marks.get(node) {
        Some(mark) => *mark,
        None => false,
    }
}

/// The nodes, those with the greatest numbers first.
fn falling(alloc: Global, ranks: &[u64]) -> Result<Vec<usize>, AllocError> {
    let mut numbered = Vec::new(alloc);
    for (at, rank) in ranks.iter().enumerate() {
        numbered.push((*rank, at))?;
    }
    numbered.sort_unstable();
    let mut nodes = Vec::new(alloc);
    for pair in numbered.iter().rev() {
        nodes.push(pair.1)?;
    }
    Ok(nodes)
}

/// Adds ways to those of the nodes that are not marked.
fn add_ways(ways: &mut [u64], nodes: &[usize], marks: &[bool], more: u64) {
    for node in nodes {
        if !is_marked(marks, *node) {
            if let Some(own) = ways.get_mut(*node) {
                *own = own.saturating_add(more);
            }
        }
    }
}

/// The ways that go on from a node: one from a marked node, and one where more than the most come together, of which a mark
/// is kept.
fn onward(ways: &[u64], shared: &mut [bool], node: usize, marks: &[bool], most: u64) -> u64 {
    let own = match ways.get(node) {
        Some(own) => *own,
        None => 0,
    };
    if is_marked(marks, node) {
        return 1;
    }
    if own <= most {
        return own;
    }
    if let Some(mark) = shared.get_mut(node) {
        *mark = true;
    }
    1
}

/// One way for each pair of outputs, and none for another.
fn first_ways(alloc: Global, pairs: &[(Position, Position)]) -> Result<Vec<u64>, AllocError> {
    let mut ways = Vec::new(alloc);
    for pair in pairs {
        ways.push(match pair.0 {
            Position::Output(_) => 1,
            _ => 0,
        })?;
    }
    Ok(ways)
}

/// For each reachable pair whether more than the most ways lead there: from an output, from a marked pair or from one to which so
/// many lead, along moves through others.
fn many_ways(
    alloc: Global,
    graph: &Graph,
    marks: &[bool],
    most: u64,
) -> Result<Vec<bool>, AllocError> {
    let mut ways = first_ways(alloc, graph.reachable.as_slice())?;
    let mut shared = vec![in alloc; false; ways.len()]?;
    for node in falling(alloc, graph.ranks.as_slice())? {
        if let Some(nodes) = graph.targets.as_slice().get(node) {
            let more = onward(ways.as_slice(), shared.as_mut_slice(), node, marks, most);
            add_ways(ways.as_mut_slice(), nodes.as_slice(), marks, more);
        }
    }
    Ok(shared)
}

/// For each reachable pair whether it is a recurrence pair.
fn recurring(alloc: Global, graph: &Graph) -> Result<Vec<bool>, AllocError> {
    let mut marks = Vec::new(alloc);
    for pair in graph.reachable.as_slice() {
        marks.push(is_among(graph.recurrent.as_slice(), pair))?;
    }
    Ok(marks)
}

/// The pairs to which more than `most` ways lead, along moves that pass neither a recurrence pair nor another such pair, from an output or
/// from one of these. So few ways lead to any pair from the last of these before it.
pub(crate) fn shared(
    alloc: Global,
    graph: &Graph,
    most: u64,
) -> Result<Items<(Position, Position)>, AllocError> {
    let marks = recurring(alloc, graph)?;
    let wanted = many_ways(alloc, graph, marks.as_slice(), most)?;
    let mut made = Items::new(alloc);
    for (at, pair) in graph.reachable.as_slice().iter().enumerate() {
        if is_marked(wanted.as_slice(), at) {
            made.push(*pair)?;
        }
    }
    Ok(made)
}
