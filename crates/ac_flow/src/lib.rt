//! Exact dataflow: for each read and each output of a program the instances that give its value (P. Feautrier, Dataflow analysis
//! of array and scalar references, 1991).
//!
//! A copy of a case of a read's source is a later assignment that writes the cell again. The columns of the copy are eliminated
//! (W. Pugh, The Omega test, 1991), and the pieces that are left are kills (`copy_pieces`). The case is cut by these pieces
//! (`case`). At the points that remain no later assignment writes the cell again.
//!
//! Each function in the modules `accepting`, `laws` and `steps` does nothing, and its contract is a law about every program. The
//! judge of proofs accepts the kills of a flow. The cases of a flow are the steps of reads and outputs.
#![tactic(auto)]

mod accepting;
mod case;
mod case_kills;
mod cases;
mod casing;
mod context;
mod copies;
mod copy_pieces;
mod cut;
mod cutting;
mod flowing;
pub mod laws;
mod reading;
mod steps;
mod stop;
pub mod types;
pub mod writings;

pub use accepting::kills_are_accepted;
pub use case::cut_case;
pub use context::context_point;
pub use copy_pieces::kill_pieces;
pub use cut::CutStop;
pub use flowing::flow;
pub use steps::{cases_are_steps, flows_are_of_readers};
