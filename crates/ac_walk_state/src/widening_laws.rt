//! What a search widens with, in words: each function here does nothing, and its contract is a fact about all pairs.
ghost use Rattle.ac_walk_state.specs.GraphWidenings.{GraphsWiden, WideningsAreOne, WideningsRecur};

/// An output of a pair whose programs have flows has a widening: the recurrence pairs of the graph of both flows that moves reach from
/// it, with the thresholds and the moduli of the pair.
pub fn graphs_widen()
    ensures { GraphsWiden }
{}

/// An output has one widening: two of them take the same pairs of positions for recurrence pairs, and have the same numbers.
pub fn widenings_are_one()
    ensures { WideningsAreOne }
{}

/// If both programs of a pair have flows, the pairs of positions that the widening of an output takes for recurrence pairs recur along
/// their edges.
pub fn widenings_recur()
    ensures { WideningsRecur }
{}
