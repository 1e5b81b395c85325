//! Random pairs of programs to test a checker with. A pair is a pipeline of loops, each reading what the loop before it wrote,
//! and the same pipeline with each loop shifted.
//!
//! The random choices (`draws`) come from a seed by a linear congruential generator modulo 2^64. Its multiplier and its increment
//! are those of D. Knuth's MMIX, and the upper 31 bits are drawn.
//!
//! A generated pair (`pair`) is as the comparison of programs takes it. It comes without a context, with the output C, and with
//! the models of both programs.
//!
//! Each function in the module `laws` does nothing, and its contract is a law about every generated pair. Nothing refuses such a
//! pair: both programs are lowered. Every number may be the value of N, and both programs may run there.
#![tactic(auto)]

mod draws;
mod forms;
pub mod laws;
mod loops;
mod names;
mod pair;
mod pipeline;

pub use draws::Stage;
pub use pair::{LoweredPair, generated};
pub use pipeline::generate;
