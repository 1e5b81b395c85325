//! What the stops of an unfolding say: each function here does nothing, and its contract is a fact about all questions.
ghost use Rattle.std.specs.Prelude.{◌<◌, ◌-◌, ◌^◌, ℕ};
ghost use Rattle.ac_forms.specs.declared.conj.Conj.{Conj};
ghost use Rattle.ac_unfold.specs.UnfoldCauses.{IsTooCostly};

/// A question that is too costly costs more than the budget, unless that is the greatest number of `u64`, at which costs stand
/// still.
pub fn spent_exceeds_the_budget()
    ensures { (budget cost : ℕ) (q : Conj) → IsTooCostly budget cost q → budget < 2 ^ 64 - 1 → budget < cost }
{}
