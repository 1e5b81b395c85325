//! What the walk of elimination says, in words: each function here does nothing, and its contract is a fact about all
//! conjunctions.
ghost use Rattle.std.specs.Prelude.{◌≡◌, ◌<◌, ◌≤◌, ◌+◌, ℕ, ℤ, Bool, List, [], Option, Some, None, true, false, length};
ghost use Rattle.ac_forms.specs.Rows.{IsWellMade, Meets};
ghost use Rattle.ac_forms.specs.declared.row.Row.{Row};
ghost use Rattle.ac_omega_steps.specs.Choices.{are_absurd};
ghost use Rattle.ac_omega.specs.ColumnChoice.{least_by, next_column, precedes, precedes_by_two};
ghost use Rattle.ac_forms.specs.RowColumns.{is_present};
ghost use Rattle.ac_omega.specs.WalkAnswers.{IsNormal};
ghost use Rattle.ac_omega.specs.ColumnElimination.{elimination};
ghost use Rattle.ac_omega.specs.Maxima.{Maxima};
ghost use Rattle.ac_omega.specs.Projection.{HaveNone, is_among};
ghost use Rattle.ac_omega.specs.Walk.{Empty, walk};

use ac_forms::Conj;
use ac_omega_certify::Strategy;

/// A walk needs no more conjunctions on one path than the budget leaves: any two numbers above that give the same walk.
pub fn walk_is_one(strategy: Strategy, vars: &[usize], conj: &Conj, budget: u64, cost: u64)
    requires { cost ≤ budget }
    ensures { (n o : ℕ) (s : Maxima) → budget < n + cost → budget < o + cost → walk (elimination strategy vars.now) n budget conj.now cost s ≡ walk (elimination strategy vars.now) o budget conj.now cost s }
{}

/// Where a walk finds no point, no integer point meets the conjunction, and its cost is within the budget.
pub fn walk_without_a_point(strategy: Strategy, vars: &[usize], conj: &Conj, budget: u64, cost: u64)
    requires { IsWellMade conj.now }
    ensures empty { (n k : ℕ) (s t : Maxima) → walk (elimination strategy vars.now) n budget conj.now cost s ≡ Empty k t → (p : List ℤ) → length p ≡ conj.now.columns → Meets conj.now.rows p → ⊥ }
    ensures cost { (n k : ℕ) (s t : Maxima) → walk (elimination strategy vars.now) n budget conj.now cost s ≡ Empty k t → (cost ≤ k) × (k ≤ budget) }
{}

/// Where no column is the next one, no row has one of the columns.
pub fn no_next_column(strategy: Strategy, vars: &[usize])
    ensures { (rows : List Row) → next_column strategy vars.now rows ≡ None → HaveNone vars.now rows }
{}

/// A conjunction in normal form in which no row has a column has no row, or is the absurd one.
pub fn normal_without_columns(conj: &Conj)
    requires made { IsWellMade conj.now }
    requires normal { IsNormal conj.now }
    requires not_absurd { are_absurd conj.now.rows ≡ false }
    requires absent { (z : ℕ) → z < conj.now.columns → is_present z conj.now.rows ≡ false }
    ensures { conj.now.rows ≡ [] }
{}

/// The column that is found by a key is one that no other of the columns comes before: the least one by its key, and of
/// those the least one by its place. The same holds of two keys, where the first one decides first.
pub fn least_column(columns: &[usize])
    ensures among { (before : ℕ → ℕ → Bool) (z : ℕ) → least_by before columns.now ≡ Some z → is_among z columns.now ≡ true }
    ensures first { (rank : ℕ → Option ℤ) (z y : ℕ) → least_by (precedes rank) columns.now ≡ Some z → is_among y columns.now ≡ true → precedes rank y z ≡ false }
    ensures of_two { (rank then : ℕ → Option ℤ) (z y : ℕ) → least_by (precedes_by_two rank then) columns.now ≡ Some z → is_among y columns.now ≡ true → precedes_by_two rank then y z ≡ false }
{}
