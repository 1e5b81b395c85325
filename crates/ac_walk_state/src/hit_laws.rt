//! What plans are that end at none but the first claims, in words: each function here does nothing, and its contract is a fact about all
//! plans.
ghost use Rattle.ac_walk_state.specs.Hits.{FirstClaimsAccept, StopsAreCut};

/// A plan that is accepted against some claims and further ones, and ends at none of the further ones, is accepted without them.
pub fn first_claims_accept()
    ensures { FirstClaimsAccept }
{}

/// A plan that stops at the recurrence pairs with claims of a part, and ends at none whose number is n or more, stops with the others.
pub fn stops_are_cut()
    ensures { StopsAreCut }
{}
