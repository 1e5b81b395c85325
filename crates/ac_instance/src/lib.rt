//! Two programs run over shared free terms at given parameters, and their outputs are compared element by element.
//!
//! A run makes one term for each node that it evaluates, and terms agree exactly where their ids are equal. What happens
//! in a run is counted: a turn of a loop, an evaluated node and a compared element are one event each. A run ends where
//! the events exceed a limit or an index value leaves 64 bits, whichever comes first.
#![tactic(auto)]

mod both;
mod cells;
mod compare;
mod evaluate;
mod halt;
mod machine;
mod run;
mod state;

pub use both::instance;
pub use halt::{Halt, Outcome, Ran, Side};
