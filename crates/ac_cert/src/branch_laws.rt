//! What single steps, branches and combinations say, and what stands behind a tree that is accepted: each function here
//! does nothing, and its contract is a fact about all steps, trees or forms.
ghost use Rattle.std.specs.Prelude.{◌≡◌, ◌⊎◌, ◌≤◌, ◌<ℤ◌, ◌≤ℤ◌, ◌+ℤ◌, ◌*ℤ◌, ℕ, ℤ, List, Vec, pos, length, true, Option, Some, None};
ghost use Rattle.std.specs.declared.alloc.Global.{Global};
ghost use Rattle.ac_forms.specs.Affine.{Affine, value_at};
ghost use Rattle.ac_forms.specs.Rows.{IsWellMade};
ghost use Rattle.ac_forms.specs.declared.conj.Conj.{Conj};
ghost use Rattle.ac_omega_steps.specs.IntegerPoints.{IsPoint};
ghost use Rattle.ac_omega_steps.specs.Combination.{combination};
ghost use Rattle.ac_cert.specs.declared.types.Rule.{Rule};
ghost use Rattle.ac_cert.specs.declared.types.Next.{End, Residue};
ghost use Rattle.ac_cert.specs.declared.types.Tree.{Tree};
ghost use Rattle.ac_cert.specs.AcceptedTrees.{Accepts, AcceptsEach, IsSplit, after_steps};
ghost use Rattle.ac_cert.specs.Apart.{AcceptsNext, IsOnto};
ghost use Rattle.ac_cert.specs.PointExtension.{Keeps};
ghost use Rattle.ac_cert.specs.Rules.{after_step, both_sides, class, has_class, is_partition};

use crate::types::{Next, Step, Tree};
use ac_forms::Form;

/// A step that stands keeps the rows so far and adds further ones, over as many columns or more, and each integer point
/// goes on.
pub fn one_step(step: &Step)
    ensures onto { (c d : Conj) → after_step step.now c ≡ Some d → IsOnto c d }
    ensures keeps { (c d : Conj) → after_step step.now c ≡ Some d → IsWellMade c → Keeps c d }
{}

/// Both sides of a split are well made, and each integer point is one of one of them.
pub fn sides_of_a_split(form: &Form)
    ensures made { (c a b : Conj) → both_sides form.now c ≡ Some (a, b) → IsWellMade c → IsWellMade a × IsWellMade b }
    ensures keeps { (c a b : Conj) → both_sides form.now c ≡ Some (a, b) → IsWellMade c → (p : List ℤ) → IsPoint c p → IsPoint a p ⊎ IsPoint b p }
{}

/// A class that stands is well made, and each integer point is one of one of the classes.
pub fn classes_of_a_residue(form: &Form)
    ensures made { (m r : ℤ) (c : Conj) → has_class m form.now r c.columns ≡ true → IsWellMade c → IsWellMade (class m form.now r c) }
    ensures keeps { (m : ℤ) (c : Conj) → pos 1 ≤ℤ m → (p : List ℤ) → IsPoint c p → (s : ℤ) × (pos 0 ≤ℤ s) × (s <ℤ m) × IsPoint (class m form.now s c) p }
{}

/// The value of a combination of two forms, and its columns.
pub fn combination_of_forms(form: &Form, other: &Form)
    ensures value { (k l : ℤ) (h : Affine) (p : List ℤ) → combination k form.now l other.now ≡ Some h → value_at h p ≡ k *ℤ value_at form.now p +ℤ l *ℤ value_at other.now p }
    ensures within { (k l : ℤ) (h : Affine) (n : ℕ) → combination k form.now l other.now ≡ Some h → length form.now.coefs ≤ n → length other.now.coefs ≤ n → length h.coefs ≤ n }
{}

/// The steps of a tree that is accepted stand, and what comes behind them is accepted at their rows.
pub fn behind_a_tree<E>(tree: &Tree<E>)
    ensures { (refusal : E → Conj → Option Rule) (c : Conj) → Accepts tree.now refusal c → (d : Conj) × (after_steps tree.now.steps c ≡ Some d) × AcceptsNext tree.now.next refusal d }
{}

/// An end that is accepted is not refused; both trees of a split that is accepted are accepted at its sides; and the trees of
/// a residue branch that is accepted are as many as its number says, each accepted at its class.
pub fn behind_a_branch<E>(next: &Next<E>)
    ensures end { (refusal : E → Conj → Option Rule) (c : Conj) (e : E) → next.now ≡ End e → AcceptsNext next.now refusal c → refusal e c ≡ None }
    ensures split { (refusal : E → Conj → Option Rule) (c : Conj) (f : Affine) (left right : Tree E) → IsSplit next.now f left right → AcceptsNext next.now refusal c → (a : Conj) × (b : Conj) × (both_sides f c ≡ Some (a, b)) × Accepts left refusal a × Accepts right refusal b }
    ensures residue { (refusal : E → Conj → Option Rule) (c : Conj) (m : ℤ) (f : Affine) (kids : Vec (Tree E) Global) → next.now ≡ Residue m f kids → AcceptsNext next.now refusal c → (is_partition m f c.columns (length kids.items) ≡ true) × AcceptsEach kids.items refusal m f 0 c }
{}
