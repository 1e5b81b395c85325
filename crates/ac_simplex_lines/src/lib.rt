//! Linear forms that are changed in place in exact integers (`line`), with the sums of rows from which they come (`derivations`), and the
//! certificate of a sum that is a false number (`certificate`).
//!
//! A sum of multiples of rows, divided and rounded down, is a Chvatal-Gomory cut (R. Gomory, 1958; V. Chvatal, 1973). A method that finds
//! cuts notes only how each line follows from those before it. The steps are written afterwards, for the lines that the last sum uses.
//! All numbers are `i128`; one that leaves the range ends the attempt.
#![tactic(auto)]

mod certificate;
mod derivations;
mod halt;
mod line;
pub mod numbers;
mod refutation;

pub use certificate::tree_of;
pub use derivations::Derivations;
pub use halt::Halt;
pub use line::{Line, content_with, zeros};
pub use refutation::Refutation;
