//! What plans stop by, in words: the function does nothing, and its contract is a fact about all paths.
ghost use Rattle.ac_unfold_plans.specs.AlikeBranches.{BranchesAreAlike};

/// On two paths of one pair of positions the branches of a step, where there are such, are of the same pairs of positions, one by one.
pub fn branches_are_alike()
    ensures { BranchesAreAlike }
{}
