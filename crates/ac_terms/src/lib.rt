//! Shared terms: a table that holds each free term once, up to the swap of the two arguments of declared symbols.
//!
//! A run over free terms makes one term for each node that it evaluates. Written out, such a term can be far larger than
//! the run; here each is one place of a table, made from the ids of its arguments (hash consing), so that agreement of
//! two terms is equality of two ids.
//!
//! Contracts see a table by what its ids stand for. Each call says which term the answered id stands for, that every id
//! given before still stands for its term, and that the declared names stay; `same` answers true exactly where two terms
//! agree, by the least congruence of the definitions and not by a normal form.
#![tactic(auto)]

mod node;
mod terms;

pub use node::{Leaf, TermId};
pub use terms::Terms;
