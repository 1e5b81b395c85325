//! The lines of a proof's text: what each item is spelled as, and which item a line spells.
//!
//! A line is words joined by one blank: a name, then the parts of the item. Each item that can be spelled has one line, and
//! no line is that of two items.
#![tactic(auto)]

mod choices;
mod fields;
mod forms;
mod head;
mod items;
mod laws;
mod lines;
mod lists;
mod nodes;
mod numbers;
mod positions;
mod push;
mod rows;
mod steps;
mod words;

pub use items::read_item;
pub use laws::lines_spell_one_item;
pub use lines::{
    push_choice, push_item, push_left, push_point, push_residue, push_right, push_row, push_split,
    push_step,
};
pub use numbers::cut;
