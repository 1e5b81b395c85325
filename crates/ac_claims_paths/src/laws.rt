//! What the definitions of paths rest on, in words: each function here does nothing, and its contract is a fact about all
//! programs.
ghost use Rattle.ac_claims_paths.specs.Executions.{ModelsDescribe};
ghost use Rattle.ac_claims_paths.specs.StepLaws.{BranchesAreSteps, ModelsHaveModuli};

/// The model of a ready program under a context describes its execution at each valuation of the parameters: which
/// coordinates are those of an instance, which cell it writes, what stands at its nodes, which instance stands before
/// which, and which elements an output has.
pub fn models_describe_executions()
    ensures { ModelsDescribe }
{}

/// Of a pair of positions that stands at a point of a path, another pair is a step exactly where it stands on one of the path's
/// branches, at a point that goes on from that one.
pub fn branches_are_the_steps()
    ensures { BranchesAreSteps }
{}

/// Each modulus in the pieces and levels of the model of a ready program under a context is at least 1.
pub fn models_have_moduli()
    ensures { ModelsHaveModuli }
{}
