//! The syntax of static affine programs, and what running one means.
//!
//! Every definition that a report rests on stands here, in `specs/`: the value of an index expression, the turns of a
//! loop, the trace of a program, its run from some initial contents under a table of its symbols, and when an output of
//! two programs is the same. Index values are mathematical integers and arrays are maps from index vectors to values.
#![tactic(auto)]

pub mod copy;
pub mod count;
pub mod evaluate;
pub mod laws;
pub mod make;
pub mod name;
mod print;
pub mod quotients;
pub mod tree;

pub use print::print_program;
