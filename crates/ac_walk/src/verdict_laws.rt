//! What verdicts say of the terms of both programs, in words: the function here does nothing, and its contract is a fact about all pairs.
ghost use Rattle.ac_walk.specs.Terms.{VerdictsTellTerms};

/// Suppose that no pair of positions that moves reach from an output recurs, and that no function is declared commutative. A verdict of the
/// search on it then tells whether both programs leave terms that agree in each of its elements, at each valuation of the context. They do
/// if it is `Equal`. They do not if it is `Different`, or unknown with refuted orders.
pub fn verdicts_tell_terms()
    ensures { VerdictsTellTerms }
{}
