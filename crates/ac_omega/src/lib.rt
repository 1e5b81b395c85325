//! Elimination of integer columns: the Omega test (W. Pugh, 1991) with certificates, by all splinters or by those that are needed.
#![tactic(auto)]

mod cost;
mod cursor;
mod decision;
pub mod differences;
mod extent;
mod fewest;
mod halt;
pub mod laws;
mod listing;
mod needs;
mod piece;
mod pieces;
mod ranking;
mod scan;
mod search;
mod settling;

pub use ac_omega_certify::Strategy;
pub use decision::{Decided, Decision, decide, decide_by, find_point, find_point_by};
pub use extent::Maxima;
pub use listing::{choices, choices_by};
pub use piece::Piece;
pub use pieces::{Stop, eliminate, eliminate_by};
pub use ranking::are_columns;
pub use settling::{settle, settle_pieces, settle_point};
