//! Pairs of programs in which each chain of a symbol that is taken as associative and commutative is one call.
#![tactic(auto)]

mod copies;
mod faults;
mod finding;
mod laws;
mod mixed;
mod nodes;
mod orders;
mod pair;
mod statements;
mod symbols;
pub mod types;
mod values;

pub use finding::chains;
pub use laws::{
    arrangements_are_all_choices, operands_stand_at_their_nodes,
    pairs_without_fault_can_be_arranged,
};
pub use mixed::arrangements;
pub use pair::arrange;
