//! Rational affine hulls of integer points, by fraction-free elimination (E. Bareiss, 1968) with exact arithmetic.
#![tactic(auto)]

mod candidates;
mod claim;
mod collected;
mod combination;
mod difference;
mod equality;
mod finding;
mod first;
mod hull;
mod line;
mod narrowing;
mod numbers;
mod points;
mod stop;
mod templates;
mod thinning;
mod vanish;

pub use ac_widen::{Derivation, Entry, Reason};
pub use candidates::{MOST_MODULI, MOST_THRESHOLDS, moduli, thresholds};
pub use claim::claim_rows;
pub use combination::Combination;
pub use hull::Hull;
pub use narrowing::narrow;
pub use stop::HullStop;
pub use templates::template;
