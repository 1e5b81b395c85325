//! What proofs that stop say of a search: the function does nothing, and its contract is a law about every pair of programs and every
//! proof.
ghost use Rattle.ac_walk.specs.MatchedByProof.{StoppedProofsMatch};

/// A valid proof that names an output with a claim of a part, which stops at the recurrence pairs under an order, tells that the output
/// is matched: no obligation is a mismatch under this order, in the setting of the search on it.
pub fn stopped_proofs_match()
    ensures { StoppedProofsMatch }
{}
