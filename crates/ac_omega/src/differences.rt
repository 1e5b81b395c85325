//! Questions of differences: how far the walk of elimination goes. The function here does nothing, and its contract is a
//! fact about all such questions.
ghost use Rattle.std.specs.Prelude.{◌≡◌, ◌≤◌, ◌+◌, ◌*◌, ◌^◌, ℕ, ℤ, List};
ghost use Rattle.ac_forms.specs.Rows.{CanTest, IsWellMade};
ghost use Rattle.ac_omega.specs.Decisions.{walk_of};
ghost use Rattle.ac_omega.specs.DifferenceRows.{AreDifferences};
ghost use Rattle.ac_omega.specs.Maxima.{Maxima};
ghost use Rattle.ac_omega.specs.Walk.{Found, Empty, Spent, Wide};

use ac_forms::Conj;
use ac_omega_certify::Strategy;

/// Over n columns, at most 60, where each row is a difference of two columns, of a column and 0, or 0, plus a number of at
/// most 2^48 by its absolute value, the walk of each strategy comes to an answer: no number is too wide, it costs at most 2 (n + 1)^3, the
/// greatest numbers that it meets are not large, and the question can be evaluated at a point that it finds.
pub fn difference_questions(strategy: Strategy, conj: &Conj, budget: u64)
    requires made { IsWellMade conj.now }
    requires columns { conj.now.columns ≤ 60 }
    requires differences { AreDifferences (2 ^ 48) conj.now.rows }
    ensures never_wide { walk_of strategy budget conj.now ≡ Wide → ⊥ }
    ensures never_spent { (k : ℕ) → 2 * (conj.now.columns + 1) ^ 3 ≤ budget → walk_of strategy budget conj.now ≡ Spent k → ⊥ }
    ensures cost { (k : ℕ) (s : Maxima) → walk_of strategy budget conj.now ≡ Empty k s → k ≤ 2 * (conj.now.columns + 1) ^ 3 }
    ensures never_large { (k : ℕ) (s : Maxima) → walk_of strategy budget conj.now ≡ Empty k s → s.factor * s.number ≤ 2 ^ 120 }
    ensures point { (p : List ℤ) → walk_of strategy budget conj.now ≡ Found p → CanTest conj.now.rows p }
{}
