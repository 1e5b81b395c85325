//! Which nodes of a graph lie on cycles. A graph is a list: for each node the nodes to which an edge leads.
ghost use Rattle.std.specs.Prelude.{◌≡◌, ◌↔◌, ◌<◌, ◌++◌, ◌∷◌, [], ℕ, Some, false, cond, count_by, length, replicate, slice_get, OnOk, IfOk};
ghost use Rattle.ac_forms.specs.ListMembers.{IsAmong};
ghost use Rattle.ac_graph.specs.Ways.{IsGraph, IsMarked, AreMarks, AreCyclic, AreFalling, IsWithin, IsOutside};
ghost use Rattle.ac_graph.specs.NodeMarks.{AreBelow, AreMatched, AreAdded, is_marked};

use ac_base::Items;
use std::alloc::{AllocError, Global};

/// As many marks as asked, none of them set.
fn unmarked(alloc: Global, count: usize) -> Result<Vec<bool>, AllocError>
    ensures { IfOk result (λ marks. marks.items ≡ replicate count false) }
{
    let mut marks = Vec::new(alloc);
    for _ in 0..count {
        marks.push(false)?;
    }
    Ok(marks)
}

/// Marks the nodes, and adds those that were not marked to the nodes that are found.
fn mark_all(nodes: &[usize], marks: &mut [bool], found: &mut Items<usize>) -> Result<(), AllocError>
    requires below { AreBelow (length marks.old) nodes.now }
    requires matched { AreMatched marks.old found.old }
    ensures { OnOk result (AreAdded nodes.now found.old found.new marks.new) }
{
    for node in nodes {
        if !marks[*node] {
            found.push(*node)?;
            marks[*node] = true;
        }
    }
    Ok(())
}

/// The nodes to which edges lead from a node.
fn following<'a>(next: &'a [Items<usize>], node: usize) -> &'a [usize]
    requires { node < length next.now }
    ensures { slice_get next.now node ≡ Some result.now }
{
    next[node].as_slice()
}

/// A mark for each node: whether edges, one at least, lead there from the node `from`.
fn marked(alloc: Global, next: &[Items<usize>], from: usize) -> Result<Vec<bool>, AllocError>
    requires graph { IsGraph next.now }
    requires from { from < length next.now }
    ensures { IfOk result (λ marks. AreMarks next.now from marks.items) }
{
    let mut marks = unmarked(alloc, next.len())?;
    let mut found = Items::new(alloc);
    mark_all(following(next, from), marks.as_mut_slice(), &mut found)?;
    for at in 0..usize::MAX {
        match found.as_slice().get(at) {
            None => return Ok(marks),
            Some(node) => {
                let node = *node;
                mark_all(following(next, node), marks.as_mut_slice(), &mut found)?;
            }
        }
    }
    Err(AllocError)
}
/// Whether the mark of a node is set.
pub(crate) fn is_marked(marks: &[bool], node: usize) -> bool
    ensures { result ≡ is_marked marks.now node }
{
    match marks.get(node) {
        Some(mark) => *mark,
        None => false,
    }
}

/// For each node, whether it lies on a cycle.
pub(crate) fn cyclic(alloc: Global, next: &[Items<usize>]) -> Result<Items<bool>, AllocError>
    requires { IsGraph next.now }
    ensures { IfOk result (AreCyclic next.now) }
{
    let mut made = Items::new(alloc);
    for node in 0..next.len() {
        let marks = marked(alloc, next, node)?;
        made.push(is_marked(marks.as_slice(), node))?;
    }
    Ok(made)
}

/// How many marks are set.
fn count(marks: &[bool]) -> usize
    ensures { result ≡ count_by (λ mark. mark) marks.now }
{
    marks.iter().filter(|mark| **mark).count()
}

/// For each node, to how many nodes edges lead from it.
pub(crate) fn followers(alloc: Global, next: &[Items<usize>]) -> Result<Items<u64>, AllocError>
    requires { IsGraph next.now }
    ensures { IfOk result (AreFalling next.now) }
{
    let mut made = Items::new(alloc);
    for node in 0..next.len() {
        let marks = marked(alloc, next, node)?;
        made.push(count(marks.as_slice()) as u64)?;
    }
    Ok(made)
}

/// Adds a node, if that is wanted.
fn push_if(out: &mut Items<usize>, node: usize, wanted: bool) -> Result<(), AllocError>
    ensures { OnOk result (out.new ≡ out.old ++ cond wanted (node ∷ []) []) }
{
    if wanted {
        out.push(node)?;
        Ok(())
    } else {
        Ok(())
    }
}

/// Those of the nodes that are marked.
fn marked_among(alloc: Global, nodes: &[usize], marks: &[bool]) -> Result<Items<usize>, AllocError>
    ensures { IfOk result (λ made. (j : ℕ) → IsAmong j made ↔ (IsAmong j nodes.now × IsMarked marks.now j)) }
{
    let mut made = Items::new(alloc);
    for node in nodes {
        push_if(&mut made, *node, is_marked(marks, *node))?;
    }
    Ok(made)
}

/// Those of the nodes that are not marked.
fn unmarked_among(
    alloc: Global,
    nodes: &[usize],
    marks: &[bool],
) -> Result<Items<usize>, AllocError>
    ensures { IfOk result (λ made. (j : ℕ) → IsAmong j made ↔ (IsAmong j nodes.now × (¬ (IsMarked marks.now j)))) }
{
    let mut made = Items::new(alloc);
    for node in nodes {
        push_if(&mut made, *node, !is_marked(marks, *node))?;
    }
    Ok(made)
}

/// Those of the nodes that are marked, if the node before them is.
fn marked_behind(
    alloc: Global,
    node: usize,
    nodes: &[usize],
    marks: &[bool],
) -> Result<Items<usize>, AllocError>
    ensures { IfOk result (λ made. (j : ℕ) → IsAmong j made ↔ (IsAmong j nodes.now × IsMarked marks.now node × IsMarked marks.now j)) }
{
    if is_marked(marks, node) {
        marked_among(alloc, nodes, marks)
    } else {
        Ok(Items::new(alloc))
    }
}

/// The graph with the edges alone that lead from a marked node to a marked one.
pub(crate) fn within(
    alloc: Global,
    next: &[Items<usize>],
    marks: &[bool],
) -> Result<Items<Items<usize>>, AllocError>
    ensures { IfOk result (IsWithin next.now marks.now) }
{
    let mut made = Items::new(alloc);
    for node in 0..next.len() {
        let nodes = marked_behind(alloc, node, following(next, node), marks)?;
        made.push(nodes)?;
    }
    Ok(made)
}

/// The graph without the edges that lead to a marked node.
pub(crate) fn outside(
    alloc: Global,
    next: &[Items<usize>],
    marks: &[bool],
) -> Result<Items<Items<usize>>, AllocError>
    ensures { IfOk result (IsOutside next.now marks.now) }
{
    let mut made = Items::new(alloc);
    for node in 0..next.len() {
        let nodes = unmarked_among(alloc, following(next, node), marks)?;
        made.push(nodes)?;
    }
    Ok(made)
}
