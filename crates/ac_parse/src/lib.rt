//! The way from the bytes of a source text to a program, and from two programs to a pair.
//!
//! `specs/Program.antt` says which program a text has (`parsing`). Its tokens are a file of the grammar that breaks no rule, and
//! the program is that file's. `specs/ParseAnswers.antt` says which fault a text without a program has.
//!
//! `specs/ProgramPairs.antt` says when two programs are a pair, and which (`pairing`).
//!
//! Each function in the modules `text_laws` and `arity_laws` does nothing, and its contract is a law about every text or program.
//! The bytes of a text determine its program, and the program does what the text says. Each call of this program has as many
//! arguments as its symbol says, in the text and in its executions.
#![tactic(auto)]

mod arity_laws;
pub mod faults;
mod join;
mod outputs;
mod pairing;
mod parsing;
mod signature;
mod text_laws;

pub use ac_parse_rules::fault::Which;
pub use arity_laws::{executions_have_arities, files_have_arities, texts_have_arities};
pub use faults::{PairFault, SourceFault};
pub use pairing::pair;
pub use parsing::parse;
pub use text_laws::{programs_are_determined, programs_are_ready, programs_do_as_texts};
