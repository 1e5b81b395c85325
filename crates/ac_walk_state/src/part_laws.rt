//! Laws of parts: each function here does nothing, and its contract is a fact about all points or claims.
ghost use Rattle.ac_walk_state.specs.PartValidity.{ClaimsAreMade, TestedPointsAreValuations};

/// A point at which the context of a program is seen to hold, each of its rows evaluated in `i128`, is one that a judge of proofs
/// takes for a valuation.
pub fn tested_points_are_valuations()
    ensures { TestedPointsAreValuations }
{}

/// A claim of two positions that are there is made for a judge, where its rows are over the columns of their points.
pub fn claims_are_made()
    ensures { ClaimsAreMade }
{}
