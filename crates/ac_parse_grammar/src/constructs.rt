//! Marks that open a construct, where only so many more may open, and lists that are joined.

ghost use Rattle.std.specs.Prelude.{◌≡◌, ◌++◌, suc, IfOk};
ghost use Rattle.ac_parse_grammar.specs.ReaderCombinators.{Reads};
ghost use Rattle.ac_parse_grammar.specs.Constructs as spec;

use crate::cursor::{Cursor, Stop};
use crate::terminal::Terminal;
use ac_base::Items;
use std::alloc::AllocError;

/// How many constructs may open inside one that opens where `room` more may; none where none may open.
pub fn inside(room: usize) -> Option<usize>
    ensures { result ≡ spec.inside_of room }
{
    room.checked_sub(1)
}

/// Passes the mark that opens a construct, and gives how many may open inside.
#[tactic(auto, unfolding(crate::specs::Constructs::opening))]
pub fn open(tokens: &mut Cursor<'_>, mark: Terminal, room: usize) -> Result<usize, Stop>
    ensures reads { Reads (λ inner. inner) (spec.opening mark room tokens.old) result tokens.new }
    ensures inner { IfOk result (λ inner. room ≡ suc inner) }
{
    if !tokens.sees(mark) {
        return Err(Stop::Syntax);
    }
    let Some(inner) = inside(room) else {
        return Err(Stop::Nesting);
    };
    tokens.take();
    Ok(inner)
}

/// Two lists, one behind the other.
pub fn joined<T: Drop>(front: Items<T>, back: Items<T>) -> Result<Items<T>, AllocError>
    ensures { IfOk result (λ all. all ≡ front ++ back) }
{
    let mut all = front.into_vec();
    let mut back = back.into_vec();
    all.append(&mut back)?;
    Ok(Items::from(all))
}
