//! What valid proofs decide, in words: each function here does nothing, and its contract is a fact about all proofs.
ghost use Rattle.ac_unfold_plans.specs.ProofDecisions.{SearchesSayEqual, StoppedProofsDecide, StoppedProofsStand};

/// A valid proof, of which some claims stop at the recurrence pairs and take arguments as an order of the sites says, shows of the
/// outputs that it names with these claims that under this order no widened obligation is a mismatch; that the claims stand, and so
/// hold all obligations; and that a search over the orders, if it ends, says equal.
pub fn stopped_proofs_decide()
    ensures decide { StoppedProofsDecide }
    ensures stand { StoppedProofsStand }
    ensures search { SearchesSayEqual }
{}
