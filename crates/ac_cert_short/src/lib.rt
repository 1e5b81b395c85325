//! Short certificates: those of one sum of rows, found without an elimination, and certificates without what they do not use.
//!
//! The sum (`refuting`): each equality with a coefficient 1 or -1 takes that column out of the rows behind it. This is Gauss'
//! elimination of the columns that integers allow. A conjunction is refuted if what is left of a row, or of two with opposite
//! coefficients, is a false number. The certificate is checked before it is handed out. Without a certificate nothing is said.
//!
//! Trimming (`trimming`) leaves out the steps whose rows no later step and no end needs. If a child of a branch does without the
//! row of the branch, the child takes the branch's place. This is backward trimming of proofs, as N. Wetzler, M. Heule and W.
//! Hunt, DRAT-trim, 2014.
#![tactic(auto)]

mod counts;
mod draft;
mod drafting;
mod forgetting;
mod places;
mod placing;
mod refuting;
mod sums;
mod trimming;
mod units;

pub use refuting::{Reduction, refuting_sum};
pub use trimming::trim;
pub use units::unit_column;
