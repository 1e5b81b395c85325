//! Programs as integer points: each assignment becomes pieces, whose points over the parameters, the counters of the loops
//! around it and its quotients are exactly its instances, and its index expressions become affine forms over the same columns.
#![tactic(auto)]

mod cells;
mod embed;
mod enter;
mod first_fault;
mod forms;
pub mod laws;
mod nodes;
mod order;
mod program;
pub mod types;
mod walk;
mod ways;

pub use cells::element_rows;
pub use embed::coordinate_forms;
pub use nodes::roots_of;
pub use order::{before, before_at, same_cell, width};
pub use program::lower;
