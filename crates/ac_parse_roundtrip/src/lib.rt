//! The law that canonical texts are read back. The canonical text of the program of a text has the same program, but for places.
//! This is so if the canonical text keeps the limits on bytes and nesting.
//!
//! Each function here does nothing, and its contract is a law about every text or program.
//!
//! The tokens (`item_laws`): the canonical text is a list of tokens, white space and the two ends of pragma lines. The lexer
//! gives these tokens for it, if the names of the program are words and its numbers have 64 bits.
//!
//! The tree (`tree_laws`): the grammar gives a tree for these tokens, and it is one of the program. `specs/CanonicalTrees.antt`
//! says what the trees of the parts of a program are, whatever the places. `specs/GrammarPrograms.antt` says of which programs
//! the canonical text is in the grammar.
//!
//! The names (`name_laws`): the names of the program of a text are words that the grammar takes as names. The grammar takes its
//! symbols and conditions, and its numbers are small. So the canonical text of such a program has tokens and a tree.
//! `specs/TokenSpelling.antt` says how the tokens of each kind are spelled.
//!
//! The rules (`rule_laws`): the rules read the program back from the tree of its canonical text, but for places.
//!
//! Readable programs (`readable_laws`): each name in the canonical text of the program of a text stands for what the program has
//! there. So the rules read that text back.
#![tactic(auto)]

mod item_laws;
mod name_laws;
mod readable_laws;
mod rule_laws;
mod tree_laws;

pub use item_laws::{items_are_tokens, texts_are_spelled};
pub use name_laws::{programs_have_names, tokens_are_spelled};
pub use readable_laws::{
    canonical_texts_are_read_back, conditions_are_readable, forms_are_readable,
    programs_are_readable,
};
pub use rule_laws::{
    conditions_are_read_back, forms_are_read_back, programs_are_read_back,
    statements_are_read_back, values_are_read_back,
};
pub use tree_laws::{tokens_have_trees, trees_are_determined};
