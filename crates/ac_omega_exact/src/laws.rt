//! What splinters are needed, in words: each function here does nothing, and its contract is a fact about all conjunctions.
ghost use Rattle.std.specs.Prelude.{◌≡◌, ◌<◌, ◌⊎◌, ◌↔◌, ℕ, List, ℤ, length, set, true, false};
ghost use Rattle.ac_forms.specs.NormalRows.{normal_ge, normal_row};
ghost use Rattle.ac_forms.specs.Rows.{Meets};
ghost use Rattle.ac_forms.specs.declared.normal.NormalRow.TheVariants.{Kept};
ghost use Rattle.ac_forms.specs.declared.row.Row.{Row};
ghost use Rattle.ac_omega_steps.specs.declared.column.Bound.{Bound};
ghost use Rattle.ac_omega_steps.specs.declared.choose.Choice.TheVariants.{Shadow};
ghost use Rattle.ac_omega_steps.specs.Bounds.{rows_without, highs, is_none, only_bounds};
ghost use Rattle.ac_omega_steps.specs.Choices.{left_by};
ghost use Rattle.ac_omega_exact.specs.Exact.{HasNumber, HasSplinter, IsOnNeeded, LosesNothing, Needs, Suffices};
ghost use Rattle.ac_omega_exact.specs.ExactnessTests.{economical, full, is_exact};

use ac_forms::{Conj, Form};

/// Where only rows `>= 0` have a column, a point of the conjunction goes on to the dark shadow, or it is on a splinter that a
/// lower row needs because of the pairs whose dark shadow may lose a point; and each of these comes from a point.
pub fn needed_choices_cover(conj: &Conj, z: usize)
    requires { z < conj.now.columns }
    ensures covers { (need : Needs) (p : List ℤ) (v : ℤ) → length p ≡ conj.now.columns → only_bounds z conj.now.rows ≡ true → Suffices need z conj.now.rows → Meets conj.now.rows (set p z v) → Meets (left_by (Shadow z) conj.now.rows) (set p z v) ⊎ IsOnNeeded need z conj.now.rows (set p z v) }
    ensures exactly { (need : Needs) (p : List ℤ) → length p ≡ conj.now.columns → only_bounds z conj.now.rows ≡ true → Suffices need z conj.now.rows → HasNumber z conj.now.rows p ↔ (Meets (left_by (Shadow z) conj.now.rows) p ⊎ HasSplinter need z conj.now.rows p) }
{}

/// A pair is exact where its dark shadow has the normal form of the real one, or one row without the column or the sum of
/// two of them implies it: then it loses nothing. So the splinters for the other pairs suffice, and those for all pairs.
pub fn exact_pairs_lose_nothing(z: usize)
    ensures pair { (rows : List Row) (low high : Bound) → is_exact z rows low high ≡ true → LosesNothing (rows_without z rows) low high }
    ensures economical { (rows : List Row) → Suffices (economical z rows) z rows }
    ensures full { (rows : List Row) → is_none (highs z rows) ≡ false → Suffices (full z rows) z rows }
{}

/// An inequality in normal form is its own normal form.
pub fn normal_inequality_is_normal(form: &Form)
    ensures { (r : Row) → normal_ge form.now ≡ Kept r → normal_row r ≡ Kept r }
{}
