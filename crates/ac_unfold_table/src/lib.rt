//! Tables of claims that are proved on the way, so that a pair of positions to which many paths lead is proved once for each
//! relation of its coordinates.
//!
//! Before a start is unfolded, the pairs that lie behind it are gone through, depth first. One step leads from a relation of a pair
//! to questions, and each question, projected on the coordinates of its own pair, is a relation again. Where two calls stand at a
//! pair, its relation is unfolded once what lies behind it was tried; where it stands, it is a claim of the table from then on, with
//! its plans, which end at the claims of the table and at those that were tabled before. The plans of the start end there too.
//!
//! So all behind a start is gone through, unless a relation there fails. No verdict rests on which
//! relations are found: each is proved before it is tabled, and one that isn't is left out.
#![tactic(auto)]

mod relations;
mod stepping;
mod table;
mod unfolding;

pub use table::Table;
pub use unfolding::unfold;
