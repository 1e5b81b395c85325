//! Which plans use tabled claims: each function here does nothing, and its contract is a fact about all plans.
ghost use Rattle.ac_unfold_plans.specs.TabledUseRules.{BranchesUseTabled, CertificatesUseTabled, FurtherRowsUseTabled, HitsUseTabled, InitialCellsUseTabled, KillsUseTabled, NumbersUseTabled, StartsUseTabled, StepsUseTabled};

/// A certificate that a question has no point, moved to a path, uses whatever claims are tabled from every path: it ends at absurd rows.
pub fn certificates_use_tabled()
    ensures { CertificatesUseTabled }
{}

/// A plan that branches on rows uses tabled claims on a question where those plans do to which it comes down, and where it does so on the question
/// with further rows and columns.
pub fn branches_use_tabled()
    ensures branches { BranchesUseTabled }
    ensures further { FurtherRowsUseTabled }
{}

/// A step uses tabled claims on a question on which none of them is hit, where the plan of each branch does on the question's branch.
pub fn steps_use_tabled()
    ensures { StepsUseTabled }
{}

/// The ends at a killed place and at a claim use whatever claims are tabled from every path, and those at two numbers and at two initial cells do on
/// a question on which none of the claims is hit.
pub fn ends_use_tabled()
    ensures kills { KillsUseTabled }
    ensures hits { HitsUseTabled }
    ensures numbers { NumbersUseTabled }
    ensures initials { InitialCellsUseTabled }
{}

/// What uses tabled claims on a question that is its own path uses them from that path on.
pub fn starts_use_tabled()
    ensures { StartsUseTabled }
{}
