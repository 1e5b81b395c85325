//! Unmatched outputs, in words: the function does nothing, and its contract is a fact about all pairs of programs.
ghost use Rattle.ac_walk_state.specs.UnmatchedByWidening.{UnmatchedHaveMismatches};

/// If an output is unmatched, each order has a mismatch in the setting of the search on it: the method has no proof.
pub fn unmatched_have_mismatches()
    ensures { UnmatchedHaveMismatches }
{}
