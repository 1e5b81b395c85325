//! Plans that an unfolding makes, and what a valid proof of such plans decides of the widened obligations (`ac_widen`).
//!
//! Each function here does nothing, and its contract is a law about every pair of programs, every plan and every proof.
//!
//! Decisions (`decision_laws`): the claims of a valid proof stand if their plans stop at the recurrence pairs, behind a first
//! step. So no obligation is a mismatch. A proof may have several parts, each for some of its outputs. The claims of a part hit
//! each other alone. Each part has an order of the arguments of its own.
//!
//! Ends (`end_laws`): an end of a plan asks rows of a question. If these rows stand, the end is accepted on every path that
//! follows the question.
//!
//! Tabled claims (`tabled_use_laws`): along its steps a plan goes on from no path on which a tabled claim is hit (`ac_claims`).
//! So the plan ends there, or the path is no longer followed. Only the rows of the start and of the steps are counted among those
//! of a path. The rows on which the plan branches are not counted.
//!
//! Branches (`branch_laws`): plans stop by a list of recurrence pairs, and by the order of the arguments listed for a pair of
//! positions. No row of a path tells to which pairs its steps lead.
//!
//! Plans that stop (`plan_stop_laws`) are told by pairs of positions alone. A plan stops on each path of a pair of positions,
//! whatever rows the path has and whatever steps stand before the plan.
#![tactic(auto)]

mod branch_laws;
mod decision_laws;
pub mod end_laws;
pub mod plan_stop_laws;
pub mod tabled_use_laws;

pub use branch_laws::branches_are_alike;
pub use decision_laws::stopped_proofs_decide;
