//! The words of a command line: the commands that they spell, and the word that gives parameters their values,
//! and the word that lists symbols.
//!
//! Each call is exact both ways: it answers what the words spell, and nothing exactly where they spell nothing.
#![tactic(auto)]

mod command;
mod given;
mod laws;
mod line;
mod numbers;
mod parts;
mod symbols;

pub use command::{Command, command_of, texts_of};
pub use given::valuation;
pub use laws::{numbers_are_in_range, words_are_determined};
pub use symbols::symbol_names;
