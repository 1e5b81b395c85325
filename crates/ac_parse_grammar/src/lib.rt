//! The grammar: from the tokens of a file to its source tree, or the first token with which no file goes on.
//!
//! `specs/Grammar.antt`, `specs/StatementsGrammar.antt`, `specs/DeclarationsGrammar.antt` and `specs/FileGrammar.antt` say what the
//! tokens of an expression, a statement, a declaration and a file are; `specs/FileAnswers.antt` what is answered of tokens.
#![tactic(auto)]

pub mod boxed;
pub mod conditions;
mod constructs;
pub mod cursor;
mod declarations;
pub mod expressions;
mod file;
mod laws;
pub mod links;
mod pragmas;
mod statements;
pub mod terminal;
pub mod tree;
pub mod words;

pub use file::{GrammarFault, read};
pub use laws::trees_are_determined;
