//! When a proof is valid, by the rules of the proof format one by one: what whoever writes another checker has to believe. `PlanShows` says it
//! of a plan on a path, and `MeetsTheRules` of a proof. No line is numbered there: the first line that fails is for refusals alone.
//!
//! Each function here does nothing, and its contract is a law about all proofs: the judge finds no fault if and only if the rules are met.
#![tactic(auto)]

mod laws;

pub use laws::{rules_of_plans, rules_of_proof_texts, rules_of_proofs};
