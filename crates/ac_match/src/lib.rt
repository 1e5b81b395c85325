//! Orders of the arguments of commutative calls: which order of all sites is tried next, and when each was refuted.
//!
//! A refuted partial order excludes every order that extends it. The search goes depth first over the refuted ones: it takes
//! the first that may still be extended, and gives its first open site `Keep`, then `Swap`. Sites that no refuted order names
//! are never branched on.
#![tactic(auto)]

mod look;
mod numbers;
mod orders;
mod search;

pub use ac_syntax::tree::{Order, Site};
pub use ac_widen::Derivation;
pub use orders::{FEW_SITES, MOST_REFUTED, Next, Orders, Refuted};
