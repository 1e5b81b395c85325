//! The pairs that moves reach from some pairs.
ghost use Rattle.std.specs.Prelude.{◌≡◌, ◌∷◌, [], IfOk, OnOk, Some, slice_get};
ghost use Rattle.ac_forms.specs.ListMembers.{IsAmong};
ghost use Rattle.ac_graph.specs.PairMoves.{Dependences, AreDistinct};
ghost use Rattle.ac_graph.specs.ProgramOutlines.{AreEdgesOf};
ghost use Rattle.ac_graph.specs.Reachability.{Extends, ArePlaces, AreAllReached};

use crate::edges::place;
use crate::moves::{Edges, moves};
use ac_base::Items;
use ac_syntax::tree::Position;
use std::alloc::{AllocError, Global};

/// Pairs, and the places among them of the pairs to which each of them moves.
#[derive(Drop)]
pub(crate) struct Reached {
    pub pairs: Items<(Position, Position)>,
    pub next: Items<Items<usize>>,
}

/// The place of a pair, which is added if it does not stand in the list.
pub(crate) fn placed(
    pairs: &mut Items<(Position, Position)>,
    pair: &(Position, Position),
) -> Result<usize, AllocError>
    ensures extends { OnOk result (Extends pairs.old (pair.now ∷ []) pairs.new) }
    ensures place { IfOk result (λ at. slice_get pairs.new at ≡ Some pair.now) }
{
    match place(pairs.as_slice(), pair) {
        Some(at) => Ok(at),
        None => {
            let at = pairs.len();
            pairs.push(*pair)?;
            Ok(at)
        }
    }
}

/// The places of several pairs, each of which is added if it does not stand in the list.
fn places(
    alloc: Global,
    pairs: &mut Items<(Position, Position)>,
    more: &[(Position, Position)],
) -> Result<Items<usize>, AllocError>
    ensures extends { OnOk result (Extends pairs.old more.now pairs.new) }
    ensures places { IfOk result (λ made. ArePlaces (λ q. IsAmong q more.now) pairs.new made) }
{
    let mut made = Items::new(alloc);
    for at in 0..more.len() {
        let found = placed(pairs, &more[at])?;
        made.push(found)?;
    }
    Ok(made)
}

/// The pairs that moves reach from these, first these, each once.
pub(crate) fn all_reached(
    alloc: Global,
    edges: &Edges,
    starts: Items<(Position, Position)>,
) -> Result<Reached, AllocError>
    requires { AreDistinct starts }
    ensures { (d : Dependences) → AreEdgesOf d edges.now → IfOk result (λ made. AreAllReached d starts made.pairs made.next) }
{
    let mut pairs = starts;
    let mut next = Items::new(alloc);
    for at in 0..usize::MAX {
        match pairs.as_slice().get(at) {
            None => return Ok(Reached { pairs, next }),
            Some(pair) => {
                let more = moves(alloc, edges, pair)?;
                let found = places(alloc, &mut pairs, more.as_slice())?;
                next.push(found)?;
            }
        }
    }
    Err(AllocError)
}
