//! Chains of calls of symbols that are taken as associative and commutative, and pairs of programs in which each chain is one
//! call. Each function here does nothing, and its contract is a law.
#![tactic(auto)]

mod laws;

pub use laws::{
    arranged_pairs_have_tables, arranged_pairs_stay_ready, arranged_runs_are_chain_runs,
    arranged_values_are_chain_values, operands_of_values, same_arranged_is_same_under_chains,
    tables_of_arranged_pairs, values_of_chains,
};
