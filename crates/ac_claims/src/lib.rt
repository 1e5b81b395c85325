//! Proofs that outputs of two programs are the same: claims with a plan for each, and what a valid proof means.
#![tactic(auto)]

mod cases;
pub mod check;
mod classes;
mod copies;
pub mod domains;
pub mod ending;
mod entry;
mod front;
mod head;
pub mod item;
mod kills;
pub mod laws;
mod lines;
pub mod nodes;
mod outputs;
mod parts;
pub mod stack;
pub mod starts;
pub mod stepper;
mod taking;
pub mod types;
pub mod upcoming;
