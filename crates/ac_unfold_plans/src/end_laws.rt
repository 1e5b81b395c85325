//! When an end of a plan is accepted. Each function here does nothing, and its contract is a fact about all questions and the
//! paths that follow them.
ghost use Rattle.ac_unfold_plans.specs.PlanEnds.{ClaimsAreHit, HitsArePlans, NumbersAreEqual, EqualNumbersArePlans, InitialCellsAreEqual, EqualCellsArePlans};
ghost use Rattle.ac_unfold_plans.specs.KillEnds.{KillsAreAccepted, KillsArePlans};
ghost use Rattle.ac_unfold_plans.specs.RowsAlongPaths.{RowsBranchedOnFit, RowsThereStand, StandingRowsStandAlong};

/// A row that stands among the rows of a question stands, over the path's columns, among those of each path that follows the
/// question. So does a row that the path has at some place, where it has a normal form in `i128` that isn't absurd; and each row
/// that can be branched on has one in `i128`.
pub fn rows_stand_there()
    ensures standing { StandingRowsStandAlong }
    ensures there { RowsThereStand }
    ensures branched { RowsBranchedOnFit }
{}

/// A claim at the positions of a question is hit on each path that follows the question and on which the claim's rows stand.
/// Where they stand on all of these, the end at the claim is a plan for the question.
pub fn hits_stand()
    ensures hit { ClaimsAreHit }
    ensures plan { HitsArePlans }
{}

/// So do two numbers end a path where their equality stands.
pub fn numbers_stand()
    ensures number { NumbersAreEqual }
    ensures plan { EqualNumbersArePlans }
{}

/// And so do two initial cells of one input where the equality of each subscript stands.
pub fn initials_stand()
    ensures initial { InitialCellsAreEqual }
    ensures plan { EqualCellsArePlans }
{}

/// And so does a kill of what the question assumed last, where the kill's rows stand.
pub fn kills_stand()
    ensures kill { KillsAreAccepted }
    ensures plan { KillsArePlans }
{}
