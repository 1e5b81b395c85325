//! The rules after the grammar: from a source tree to the program that it has, or to the first rule that it breaks.
//!
//! `specs/` says which rules each part of a file breaks, over the index expressions, conditions and
//! right sides of ac_parse_exprs, and what its program is. `apply` gives the one or the other, exactly.
#![tactic(auto)]

mod declare;
pub mod fault;
mod file;
pub mod laws;
mod loops;
mod quotients;
mod statement;

pub use file::apply;
