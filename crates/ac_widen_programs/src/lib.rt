//! Two programs as a setting of widening (`ac_widen`), and what it says of their executions, flows and terms.
//!
//! Each function here does nothing, and its contract is a law about every pair of programs and its flows.
//!
//! The setting (`setting_laws`): a point at a pair of positions is a valuation of the context with the coordinates of both
//! positions behind it. The pairs that step, the mismatches, the outputs and the instances are those of the executions of both
//! programs. So the laws of `ac_widen` speak of executions.
//!
//! Agreement (`agreement_laws`): if no widened obligation is a mismatch under some order, the terms of the outputs agree. The
//! converse holds if no pair recurs and no arguments may be exchanged.
//!
//! Steps (`step_laws`): the models and the flows tell if two positions stand at a point, and to which pair they step. They also
//! tell if two positions are a mismatch. Derivations are made of such pairs.
//!
//! Pair paths (`pair_path_laws`): a broken path of an unfolding is a derivation. Each point of a question of the search has pairs
//! of positions, from a pair of the start on. These pairs are steps of both programs. A question is a path of ac_claims_paths,
//! with rows of what is left of a case and parts of negations. Its pair path is the list of the seats of the pairs so far.
#![tactic(auto)]

mod agreement_laws;
mod pair_path_laws;
mod setting_laws;
mod step_laws;

pub use agreement_laws::{agreeing_terms_have_no_mismatch, outputs_without_mismatch_agree};
pub use pair_path_laws::{
    orders_are_chosen, pair_paths_derive, pair_paths_end, pair_paths_lead, points_are_numbers,
    questions_grow, starts_lead, steps_lead,
};
pub use setting_laws::{
    matches_agree, pairs_are_a_setting, search_decides_pairs, sites_are_declared,
};
pub use step_laws::{calls_step, ends_mismatch, positions_stand, reads_step};
