//! Pairs of positions at points by models and flows, in words: each function here does nothing, and its contract is a fact about all
//! pairs of programs.
ghost use Rattle.ac_widen_programs.specs.PairSteps.{CallsStep, EndsMismatch, LeftReadsStep, PositionsStand, RightReadsStep};

/// Two positions that stand at their coordinates by the models of two programs, at a valuation that meets the context, stand there in
/// the executions of both.
pub fn positions_stand()
    ensures { PositionsStand }
{}

/// Where a flow leads, whose cases are the sources of its program, there a pair of positions steps: one with a read or an output on the
/// left by the flow of the left program, and one with such on the right alone by that of the right program.
pub fn reads_step()
    ensures left { LeftReadsStep }
    ensures right { RightReadsStep }
{}

/// Two calls of one symbol step to each pair of their arguments that meet in the order at the calls.
pub fn calls_step()
    ensures { CallsStep }
{}

/// Two positions without a read or an output are a mismatch where they are not two calls of one symbol, not two numbers of equal value,
/// and not the initial contents of one cell of an input.
pub fn ends_mismatch()
    ensures { EndsMismatch }
{}
