//! The lexer: the tokens of a source text, as slices of it, or the first place at which it has none.
//!
//! `specs/Tokens.antt` says what the tokens of a text are, as a relation between its bytes and a list of tokens; it stands on
//! the pieces (`specs/TextPieces.antt`), the numerals (`specs/Numerals.antt`) and the directives (`specs/Directives.antt`).
#![tactic(auto)]

mod bytes;
mod directives;
mod front;
mod laws;
mod lexer;
mod numerals;
pub mod tokens;

pub use laws::tokens_are_determined;
pub use lexer::lex;
pub use tokens::{LexFault, Token, TokenKind};
