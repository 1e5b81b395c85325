//! Certificates of refutations (W. Pugh, The Omega test, 1991). A refutation says why a conjunction has no integer point: the
//! choices for a column, and why what each leaves has none. `certify` makes a tree of it that the check of trees accepts.
//!
//! The rows of a conjunction stand on the path of a tree at places, under names for their columns; each call of `TreePath` adds
//! steps and says which row stands where behind them, whatever stood there before. For each choice the rows that it leaves are
//! shown so, then their normal form, and so on down; where a column has splinters, they hang on a binary tree over the numbers
//! that a lower row may be worth, beside the shadow. Which rows have splinters, and how many, a `Strategy` says: those that
//! there are suffice, as behind them each pair of bounds has its dark shadow by the sum of its rows or is exact. That all
//! numbers stay in `i128` follows from their greatest.
#![tactic(auto)]

mod branch;
mod by_equality;
mod by_residue;
mod by_shadow;
mod certificate;
mod choice_tree;
mod descent;
mod kept;
mod left;
mod left_search;
mod margins;
mod normal_divisibility;
mod normal_equality;
mod normal_form;
mod path;
mod question;
mod refutation;
mod renamed;
mod replaced;
mod residues;
mod shown_bounds;
mod shown_equal;
mod shown_exact;
mod shown_pair;
mod shown_rows;
mod splinter_tree;
mod stage;
mod start;
mod strategy;

pub use certificate::certify;
pub use path::TreePath;
pub use refutation::Refutation;
pub use strategy::Strategy;
