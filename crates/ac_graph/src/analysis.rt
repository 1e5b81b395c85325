//! Which of the reached pairs recur, and their ranks.
ghost use Rattle.std.specs.Prelude.{◌≡◌, ◌↔◌, ◌++◌, ◌∷◌, [], cond, length, IfOk, OnOk};
ghost use Rattle.ac_syntax.specs.declared.tree.Position.{Position};
ghost use Rattle.ac_forms.specs.ListMembers.{IsAmong};
ghost use Rattle.ac_graph.specs.Recurrence.{AreFallingOutside, AreMarkedBy, AreRecurring, HasMark, is_root, readers, recurs};
ghost use Rattle.ac_graph.specs.Ways.{IsGraph};

use crate::marks::{cyclic, followers, is_marked, outside, within};
use crate::moves::has_reader;
use crate::programs::Both;
use ac_base::Items;
use ac_syntax::tree::Position;
use std::alloc::{AllocError, Global};

/// Whether a position is the root of an assignment.
fn is_root(position: &Position) -> bool
    ensures { result ≡ is_root position.now }
{
    match position {
        Position::Node { stmt: _, node } => *node == 0,
        Position::Output(_) | Position::InitialOutput(_) | Position::InitialNode { .. } => false,
    }
}

/// Whether a pair recurs that lies on a cycle or not, has a read or an output or not, and lies on a cycle of such pairs or not.
fn recurs(pair: &(Position, Position), on_cycle: bool, reader: bool, reading: bool) -> bool
    ensures { result ≡ recurs pair.now on_cycle reader reading }
{
    on_cycle && (is_root(&pair.0) || is_root(&pair.1)) && (!reader || reading)
}

/// For each pair, whether a read or an output stands on either side.
fn readers(
    alloc: Global,
    both: &Both,
    pairs: &[(Position, Position)],
) -> Result<Items<bool>, AllocError>
    ensures { IfOk result (λ made. made ≡ readers both.now pairs.now) }
{
    let mut made = Items::new(alloc);
    for at in 0..pairs.len() {
        made.push(has_reader(both, &pairs[at]))?;
    }
    Ok(made)
}

/// For each pair, whether it recurs.
pub(crate) fn recurring(
    alloc: Global,
    both: &Both,
    pairs: &[(Position, Position)],
    next: &[Items<usize>],
) -> Result<Items<bool>, AllocError>
    requires graph { IsGraph next.now }
    requires wide { length next.now ≡ length pairs.now }
    ensures { IfOk result (AreRecurring both.now pairs.now next.now) }
{
    let readers = readers(alloc, both, pairs)?;
    let on_cycles = cyclic(alloc, next)?;
    let reading = within(alloc, next, readers.as_slice())?;
    let on_reading = cyclic(alloc, reading.as_slice())?;
    marked_pairs(
        alloc,
        pairs,
        on_cycles.as_slice(),
        readers.as_slice(),
        on_reading.as_slice(),
    )
}

/// For each pair, whether it recurs, by the marks of those that lie on cycles, of those with a read or an output, and of those
/// on cycles of such pairs.
fn marked_pairs(
    alloc: Global,
    pairs: &[(Position, Position)],
    on_cycles: &[bool],
    readers: &[bool],
    on_reading: &[bool],
) -> Result<Items<bool>, AllocError>
    ensures { IfOk result (AreMarkedBy pairs.now on_cycles.now readers.now on_reading.now) }
{
    let mut made = Items::new(alloc);
    for at in 0..pairs.len() {
        let mark = recurs(
            &pairs[at],
            is_marked(on_cycles, at),
            is_marked(readers, at),
            is_marked(on_reading, at),
        );
        made.push(mark)?;
    }
    Ok(made)
}

/// Adds a pair, if that is wanted.
fn push_if(
    out: &mut Items<(Position, Position)>,
    pair: &(Position, Position),
    wanted: bool,
) -> Result<(), AllocError>
    ensures { OnOk result (out.new ≡ out.old ++ cond wanted (pair.now ∷ []) []) }
{
    if wanted {
        out.push(*pair)?;
        Ok(())
    } else {
        Ok(())
    }
}

/// The pairs that are marked.
pub(crate) fn chosen(
    alloc: Global,
    pairs: &[(Position, Position)],
    marks: &[bool],
) -> Result<Items<(Position, Position)>, AllocError>
    ensures { IfOk result (λ made. (p : Position × Position) → IsAmong p made ↔ HasMark pairs.now marks.now (length pairs.now) p) }
{
    let mut made = Items::new(alloc);
    for at in 0..pairs.len() {
        push_if(&mut made, &pairs[at], is_marked(marks, at))?;
    }
    Ok(made)
}

/// For each node a number that falls along each edge but those to marked nodes.
pub(crate) fn ranks(
    alloc: Global,
    next: &[Items<usize>],
    marks: &[bool],
) -> Result<Items<u64>, AllocError>
    requires { IsGraph next.now }
    ensures { IfOk result (AreFallingOutside next.now marks.now) }
{
    let rest = outside(alloc, next, marks)?;
    followers(alloc, rest.as_slice())
}
