//! Elimination of a column where the dark shadow of some pairs of bounds loses no point (W. Pugh, The Omega test, 1991).
//!
//! A lower row `b z + e >= 0` and an upper row `-a z + f >= 0` of a column z have the real shadow `a e + b f >= 0`, which holds
//! wherever a number for z stands between them, and the dark shadow `a e + b f - (a - 1) (b - 1) >= 0`, where an integer does.
//! A pair is exact where the dark shadow loses no point of the real one. Splinters of a lower row then stand only for its
//! pairs that are not exact: how many it needs doesn't grow with a size that occurs in exact pairs alone.
#![tactic(auto)]

mod implied;
pub mod laws;
mod needs;
mod pairs;

pub use needs::{needed_size, splinter_count};
pub use pairs::{Reason, is_exact, reason_of};
