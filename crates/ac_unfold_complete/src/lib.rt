//! What it means that a start stands, as `ac_unfold::broken_paths` promises where it finds none: each pair to which steps lead from one of
//! its pairs, up to the first claim behind a step, is fine. One of the claims of its positions holds there, or it is no mismatch. So no
//! path of the unfolding is broken, where no two claims are of the same positions and each call has as many arguments as its symbol says.
//!
//! Each function here does nothing, and its contract is a law about all pairs of programs.
#![tactic(auto)]

mod laws;

pub use laws::{nothing_is_broken, standing_starts_are_fine};
