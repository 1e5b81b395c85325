//! Lists for syntax trees and rows, the arithmetic of integers, and lemmas that many proofs share.
//!
//! `Items` (`items`) is a `Vec` that contracts see as the plain list of what it holds. A type may hold itself through `Items`, as
//! a tree of statements does. A clause about such a tree speaks of lists alone. Two trees are equal exactly if their lists are,
//! whatever room their vectors have.
//!
//! The arithmetic (`integers`) is exact: floor division, greatest common divisors, multiples, and the theory of dot products.
//!
//! `proofs/Options` has the lemmas on results that may be missing. `proofs/Truths` has those on tests and their parts.
#![tactic(auto)]

mod integers;
pub mod items;

pub use integers::{
    content, cut_rule, floor_quotient, floor_remainder, greatest_common_divisor, is_multiple,
};
pub use items::Items;
