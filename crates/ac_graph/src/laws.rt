//! What edges and moves say of executions, in words: each function here does nothing, and its contract is a fact about all
//! programs.
ghost use Rattle.ac_graph.specs.GraphMeaning.{EdgesAreSources, StepsAreMoves, MetAreReached, ChainsRecur, ValuationsAreCompared};

/// An edge leads from a read or an output to the root of an assignment exactly where, at some valuation of the context, an
/// instance of that assignment is the source of some instance or element; and to its initial position exactly where at some
/// valuation nothing before writes the cell of some instance or element.
pub fn edges_are_sources()
    ensures { EdgesAreSources }
{}

/// Where a pair of positions steps, at any valuation of the context and by any order of arguments, its positions move.
pub fn steps_are_moves()
    ensures { StepsAreMoves }
{}

/// Moves reach the positions of each pair that steps reach from an output of both programs against itself at one element.
pub fn met_pairs_are_reached()
    ensures { MetAreReached }
{}

/// From a pair that steps reach, a chain of more steps than the rank of its positions passes a recurrence pair.
pub fn chains_pass_recurrence_pairs()
    ensures { ChainsRecur }
{}

/// At each valuation of the context the models of both programs describe their executions.
pub fn valuations_are_compared()
    ensures { ValuationsAreCompared }
{}
