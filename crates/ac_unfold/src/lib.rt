//! Unfolding a pair of positions: from the pairs of a start every step is followed to the next recurrence pair or end. What comes
//! out is either the concrete paths on which the start fails, or a plan for each pair of pieces that a valid proof may have.
#![tactic(auto)]

mod breaks;
mod calls;
mod casing;
mod claiming;
mod course;
mod decide;
mod ends;
mod further;
mod killing;
mod kills;
mod kinds;
pub mod laws;
mod node;
mod reads;
mod remaining;
mod starting;
pub mod steps;
mod tabling;
mod tasks;
pub mod types;
mod unfolding;
mod witness;

pub use starting::{broken_paths, claim_trees};
