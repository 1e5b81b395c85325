//! Certificates over integer rows: steps, each by one of nine rules, branches and ends, as trees whose check shows that
//! no integer point is lost.
#![tactic(auto)]

pub mod branch_laws;
mod check;
mod ends;
pub mod laws;
mod make;
mod names;
mod numbers;
mod path;
mod row_branches;
mod rows;
mod steps;
pub mod types;

pub use check::{End, check_tree, walk};
pub use ends::Absurd;
pub use make::{absurd_tree, behind_steps, end_tree, residue_tree, split_tree};
pub use path::{row_of_class, rows_of_sides, with_row};
pub use row_branches::{at_divisibility, at_equality, at_inequality};
pub use steps::{apply, apply_onto, residue, split};
pub use types::{EndStop, Next, Rule, Tree, TreeFault};
