//! The search for a proof that the outputs of two programs are the same, and what it says of each output.
//!
//! The search on an output (`deciding`) takes one order of commutative arguments after another. It ends if the output stands, an
//! element differs, or each order is refuted.
//!
//! The search under one order (`walking`) lets claims at recurrence pairs grow by the ends of broken paths (`ac_walk_state`). It
//! ends if a path ends in a mismatch, or if the output and all claims stand and have plans. The claims and their plans are then
//! the output's part of a proof, which stops at the recurrence pairs.
//!
//! An output is matched (`match_laws`) if some order has no mismatch in the setting of the search on it (`ac_walk_state`). A part
//! of a valid proof tells so if it stops at the recurrence pairs (`ac_unfold_plans`).
//!
//! Each function in the modules `match_laws` and `verdict_laws` does nothing, and its contract is a law about every pair of
//! programs and every proof.
#![tactic(auto)]

mod deciding;
mod differing;
mod marks;
pub mod match_laws;
mod outputs;
mod pairs;
mod planning;
mod proving;
mod ranking;
pub mod search_types;
mod sharing;
mod stops;
mod tabling;
mod taking;
mod unanswered;
mod valuations;
pub mod verdict_laws;
mod verdict_types;
mod walking;

pub use proving::prove;
pub use stops::Stop;
pub use verdict_types::{ProveStop, Proved};
pub use walking::walk;
