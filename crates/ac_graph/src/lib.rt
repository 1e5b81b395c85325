//! Moves of pairs of positions along the dependences of two programs: which pairs they reach from the outputs, and which of
//! these recur.
#![tactic(auto)]

mod analysis;
mod edges;
pub mod laws;
mod making;
mod marks;
mod moves;
mod outline;
mod programs;
mod spread;
pub mod types;

pub use making::{graph, reachable_from, sites};
