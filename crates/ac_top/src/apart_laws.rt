//! What it means that an output is apart, in words: the function here does nothing, and its contract is a fact about all pairs.
ghost use Rattle.ac_top.specs.ApartOutputs.{ApartOutputsHaveMismatches};

/// An output that differs, or whose orders are all refuted, has a mismatch under each order of the arguments, in the setting of the search on
/// it: the method has no proof.
pub fn apart_outputs_have_mismatches()
    ensures { ApartOutputsHaveMismatches }
{}
