//! What the definitions of choices say, in words: each function here does nothing, and its contract is a fact about all
//! rows and choices.
ghost use Rattle.std.specs.Prelude.{◌≡◌, ◌<◌, ◌≤◌, ◌⊎◌, ℕ, List, ℤ, pos, length, set, slice_get, true};
ghost use Rattle.ac_forms.specs.Rows.{Meets};
ghost use Rattle.ac_omega_steps.specs.declared.choose.Choice.TheVariants.{Drop, Equal, Residue, Shadow};
ghost use Rattle.ac_omega_steps.specs.Bounds.{only_bounds};
ghost use Rattle.ac_omega_steps.specs.Choices.{column_of, removes, is_equality_of, is_legal, left_by, lifted};
ghost use Rattle.ac_omega_steps.specs.IntegerPoints.{IsPoint};
ghost use Rattle.ac_omega_steps.specs.Splinters.{IsOnSplinter};

use crate::choose::Choice;
use ac_forms::Conj;

/// Each point of what a legal choice leaves goes back to one of the conjunction, which differs in the choice's column at
/// most. Behind the choices that remove the column, the rows that are left hold whatever its number is.
pub fn choices_lift(conj: &Conj, choice: &Choice)
    requires legal { is_legal choice.now conj.now ≡ true }
    ensures point { (q : List ℤ) → length q ≡ conj.now.columns → Meets (left_by choice.now conj.now.rows) q → IsPoint conj.now (lifted choice.now conj.now.rows q) }
    ensures column { (q : List ℤ) → (v : ℤ) × (lifted choice.now conj.now.rows q ≡ set q (column_of choice.now) v) }
    ensures somewhere { (p : List ℤ) (w : ℤ) → length p ≡ conj.now.columns → Meets (left_by choice.now conj.now.rows) (set p (column_of choice.now) w) → (v : ℤ) × Meets conj.now.rows (set p (column_of choice.now) v) }
    ensures gone { removes choice.now ≡ true → (q : List ℤ) (v : ℤ) → length q ≡ conj.now.columns → Meets (left_by choice.now conj.now.rows) q → Meets (left_by choice.now conj.now.rows) (set q (column_of choice.now) v) }
{}

/// A point of the conjunction goes on: by an equality that has the column; by one of the residues modulo any number; to the
/// rows without the column; and where only rows `>= 0` have it, to the dark shadow, or to a splinter up to the last one.
pub fn choices_cover(conj: &Conj, z: usize)
    requires { z < conj.now.columns }
    ensures equality { (i : ℕ) (p : List ℤ) (v : ℤ) → length p ≡ conj.now.columns → is_equality_of z (slice_get conj.now.rows i) ≡ true → Meets conj.now.rows (set p z v) → Meets (left_by (Equal z i) conj.now.rows) (set p z v) }
    ensures residue { (m : ℕ) (p : List ℤ) (v : ℤ) → 1 ≤ m → length p ≡ conj.now.columns → Meets conj.now.rows (set p z v) → (r : ℕ) × (r < m) × (w : ℤ) × Meets (left_by (Residue z (pos m) (pos r)) conj.now.rows) (set p z w) }
    ensures drop { (p : List ℤ) → Meets conj.now.rows p → Meets (left_by (Drop z) conj.now.rows) p }
    ensures bounds { (p : List ℤ) (v : ℤ) → length p ≡ conj.now.columns → only_bounds z conj.now.rows ≡ true → Meets conj.now.rows (set p z v) → Meets (left_by (Shadow z) conj.now.rows) (set p z v) ⊎ IsOnSplinter z conj.now.rows (set p z v) }
{}
