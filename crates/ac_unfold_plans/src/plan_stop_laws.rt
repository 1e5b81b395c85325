//! Which plans stop: each function here does nothing, and its contract is a fact about all plans.
ghost use Rattle.ac_unfold_plans.specs.PlanStopRules.{BranchesStop, CertificatesStop, HitsStop, InitialCellsStop, KillsStop, NumbersStop, PlansStop, StepsStop};

/// A certificate that a question has no point, moved to a path, stops from every pair of positions: it ends at absurd rows.
pub fn certificates_stop()
    ensures { CertificatesStop }
{}

/// A plan that branches on rows stops from a pair where those stop to which it comes down. Where what comes behind its steps stops from a
/// pair, a plan stops on each path of the pair.
pub fn branches_stop()
    ensures rows { BranchesStop }
    ensures whole { PlansStop }
{}

/// A step stops from a pair that a plan may go on from, where it takes the arguments in the order there and the plan of each branch
/// stops from the branch's pair, behind a step.
pub fn steps_stop()
    ensures { StepsStop }
{}

/// The end at a killed place stops from every pair, that at a claim where the claim is of the part, and those at two numbers and at
/// two initial cells from a pair that a plan may go on from.
pub fn ends_stop()
    ensures kills { KillsStop }
    ensures hits { HitsStop }
    ensures numbers { NumbersStop }
    ensures initials { InitialCellsStop }
{}
