//! Lines and the items that they spell.
ghost use Rattle.std.specs.Prelude.{◌≡◌, IfOk};
ghost use Rattle.ac_prooftext_lines.specs.ItemReaders.{Reads};
ghost use Rattle.ac_prooftext_lines.specs.Spellable.{IsSpellable};
ghost use Rattle.ac_prooftext_lines.specs.Spelling.{item_words, spelled};

use crate::choices::read_choice;
use crate::head::read_head;
use crate::nodes::read_node;
use crate::rows::read_row;
use crate::steps::read_step;
use crate::words::Words;
use ac_claims::item::Item;
use std::alloc::{AllocError, Global};

/// The item that words spell.
fn read_words(alloc: Global, words: &Words<'_>) -> Result<Option<Item>, AllocError>
    ensures { IfOk result (λ found. Reads IsSpellable item_words words.now found) }
{
    if let Some(step) = read_step(alloc, words)? {
        return Ok(Some(Item::Step(step)));
    }
    if let Some(node) = read_node(alloc, words)? {
        return Ok(Some(node));
    }
    if let Some(row) = read_row(alloc, words)? {
        return Ok(Some(Item::Row(row)));
    }
    if let Some(choice) = read_choice(words) {
        return Ok(Some(Item::Choice(choice)));
    }
    read_head(alloc, words)
}

/// The item that a line spells, without the LF at its end; none exactly where it spells none.
///
/// The item can be spelled (`IsSpellable`): its numbers fit their types, an `Add` has a row, a `Div` row and a `Residue`
/// have a modulus of at least 1, and the last coefficient of a form is not 0. A form takes room for all columns up to its last.
pub fn read_item(alloc: Global, line: &[u8]) -> Result<Option<Item>, AllocError>
    ensures { IfOk result (λ found. Reads IsSpellable spelled line.now found) }
{
    let words = Words::new(line);
    read_words(alloc, &words)
}
