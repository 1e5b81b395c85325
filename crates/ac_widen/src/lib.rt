//! Widening to affine hulls (S. Verdoolaege, G. Janssens, M. Bruynooghe, Equivalence checking of static affine programs using
//! widening to handle recurrences, 2012), over definitions alone: which pairs of two programs have to agree where each
//! recurrence pair is widened, what derives such a pair, and when claims hold all of them.
//!
//! The definitions in `specs/` know of the programs only what `Setting` says: pairs, their steps, which are mismatches, and at
//! which the method widens. Each function here does nothing, and its contract is a law about every setting.
#![tactic(auto)]

mod derivation;
mod laws;
mod walks;

pub use derivation::{Derivation, Entry, Reason};
pub use laws::{
    HasSetting, claims_hold_obligations, claims_stand_by_trees, derivations_go_on,
    derivations_show_obligations, members_claim_obligations, orders_are_refuted, search_is_exact,
};
pub use walks::{claims_are_of_members, members_are_bounded, members_are_kept, paths_go_on};
