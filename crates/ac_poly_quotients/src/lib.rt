//! Columns that come one after another, a counter or a quotient each, and their last places behind the parameters: all
//! counters first, then the quotients.
#![tactic(auto)]

pub mod copy;
mod fails;
pub mod last;
pub mod laws;
pub mod own;
pub mod scopes;
pub mod sums;
pub mod types;
mod ways;

pub use types::{Column, QuotColumn, Rounded, Scope, Way};
