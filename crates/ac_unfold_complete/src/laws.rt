//! Where a start stands.
ghost use Rattle.ac_unfold_complete.specs.FinePairs.{StandingStartsAreFine, NothingIsBroken};

/// Where a start stands, the steps from one of its pairs end fine, if no pair before the last one, but maybe the first, has one of the
/// claims. Behind a step, where claims are of the last pair's positions, one of them holds at its point; where none is, and at the first
/// pair, it is no mismatch.
pub fn standing_starts_are_fine()
    ensures { StandingStartsAreFine }
{}

/// So, where each call that is executed has as many arguments as its symbol says, no pair path of the unfolding comes to a pair that matches
/// nothing, and none to a pair at which its claim fails, if no two claims are of the same positions.
pub fn nothing_is_broken()
    ensures { NothingIsBroken }
{}
