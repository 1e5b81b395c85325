//! The state of a search on one output: its setting, its recurrence pairs with their claims, its derivations, and its part of a
//! proof.
//!
//! The setting (`widening_laws`) is that of both programs (`ac_widen_programs`). Its recurrence pairs are exactly the pairs that
//! recur along the sources of both programs. Its template rows are those of their texts.
//!
//! A recurrence pair has members, the hull that they make, and a claim that all of them meet. A claim begins as the row that no
//! point meets. Each member that is found widens the claim. The equalities of a claim are those of the rational affine hull of
//! the members. Beside them it has template rows that all members meet, from which the others follow on the hull. So each point
//! that meets a claim is a combination of the members. This is the reason why the point stands in a derivation.
//!
//! Growth makes entries of a derivation from the broken paths of an unfolding. A path that breaks the claim of a recurrence pair
//! makes its end a further member there. A path that ends unmatched shows a mismatch. A mismatch refutes the part of the order at
//! the sites from which the entries step. An entry is a pair of positions at a point, and why it stands (`ac_widen`). A path is
//! one of `ac_widen_programs`: a list of entries of which each but the first is a step from the one before it.
//!
//! A part of a proof has the claims of one output and of the recurrence pairs that it reaches, with their plans. A valid proof
//! with one more part is valid, and it stops at the recurrence pairs if the part does. A plan that ends at none but the first of
//! some claims is accepted by these alone (`hit_laws`). It stops with these.
//!
//! An output is unmatched (`unmatched_laws`) if each order of the commutative arguments has a mismatch in this setting. Refuted
//! partial orders of the sites tell so.
//!
//! Each function in the modules `..laws` does nothing, and its contract is a law about every pair of programs, plan or claim.
#![tactic(auto)]

mod begins;
mod claiming;
mod columns;
mod elements;
mod entering;
mod following;
mod growing;
mod growth;
mod hit_laws;
mod hits;
mod holding;
mod known;
mod member;
mod order_laws;
pub mod part_laws;
mod partial;
mod points;
mod proofs;
mod recurrence_pair_laws;
mod shaping;
mod site_lists;
mod template;
pub mod types;
mod unmatched_laws;
mod widening_laws;
mod widening_point;

pub use columns::columns_of;
pub use elements::output_claim;
pub use growing::{no_part, with_claim};
pub use growth::Growth;
pub use hit_laws::{first_claims_accept, stops_are_cut};
pub use hits::trees_hit_within;
pub use known::Known;
pub use order_laws::derivations_refute_parts;
pub use partial::partial_of;
pub use proofs::{empty_proof, with_part};
pub use recurrence_pair_laws::{
    claims_are_of_members, reasons_justify, widening_points_stand_in_settings, widening_points_stay,
};
pub use shaping::heads;
pub use site_lists::distinct_sites;
pub use template::{Template, template_of};
pub use unmatched_laws::unmatched_have_mismatches;
pub use widening_laws::{graphs_widen, widenings_are_one, widenings_recur};
pub use widening_point::WideningPoint;
