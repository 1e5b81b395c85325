//! What the setting of a pair is, in words: each function here does nothing, and its contract is a fact about all pairs.
ghost use Rattle.ac_widen_programs.specs.LawfulPairs.{PairsAreASetting, SearchDecidesPairs, SitesAreDeclared, MatchesAgree};

/// The pairs of two programs, their steps and their mismatches are a setting in which the laws of widening hold, under the flows of
/// both programs, with any template and wherever no other pairs are taken for recurrence pairs than those that recur.
pub fn pairs_are_a_setting()
    ensures { PairsAreASetting }
{}

/// A search over the orders of the sites of two programs that ends with claims which stand under some order, or with refuted partial
/// orders one of which each order extends, says equal exactly where for some order no obligation is a mismatch.
pub fn search_decides_pairs()
    ensures { SearchDecidesPairs }
{}

/// The sites of the setting are the pairs of calls of one symbol of two arguments that the pair declares commutative.
pub fn sites_are_declared()
    ensures { SitesAreDeclared }
{}

/// A matched pair of numbers, or of the initial contents of an input, has one value on both sides, under every meaning of the functions
/// and for all inputs.
pub fn matches_agree()
    ensures { MatchesAgree }
{}
