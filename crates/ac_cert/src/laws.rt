//! What the definitions of trees say, in words: each function here does nothing, and its contract is a fact
//! about all trees, steps or rows. The crates above build trees by these facts, without a call of `check_tree`.
ghost use Rattle.std.specs.Prelude.{◌≡◌, ◌≢◌, ◌≤◌, ℕ, List, ℤ, length, Option, Some, None, ◌++◌};
ghost use Rattle.ac_forms.specs.Rows.{IsWellMade};
ghost use Rattle.ac_forms.specs.declared.conj.Conj.{Conj};
ghost use Rattle.ac_forms.specs.declared.row.Row.{Row};
ghost use Rattle.ac_omega_steps.specs.IntegerPoints.{IsPoint};
ghost use Rattle.ac_cert.specs.declared.types.Rule.{Rule};
ghost use Rattle.ac_cert.specs.AcceptedTrees.{Accepts, absurd_refusals, after_steps};
ghost use Rattle.ac_cert.specs.CertificateFaults.{Onward, later, path_fault, tree_fault};
ghost use Rattle.ac_cert.specs.PointExtension.{Keeps};
ghost use Rattle.ac_cert.specs.StepRows.{StepRows};

use crate::ends::Absurd;
use crate::types::{Step, Tree};
use ac_forms::Conj;

/// A tree that is accepted where its first node has some number is accepted whatever number it has.
pub fn acceptance_at_every_number<E>(tree: &Tree<E>)
    ensures { (refusal : E → Conj → Option Rule) (c : Conj) (k : ℕ) → tree_fault tree.now refusal c k ≡ None → Accepts tree.now refusal c }
{}

/// Behind steps that all stand the check goes on at their rows; where one of them is refused, it names a fault.
pub fn check_behind_steps(steps: &[Step], node: u64)
    ensures stand { (go : Onward) (c d : Conj) → after_steps steps.now c ≡ Some d → path_fault steps.now go c node ≡ go d (later node (length steps.now)) }
    ensures refused { (go : Onward) (c : Conj) → after_steps steps.now c ≡ None → path_fault steps.now go c node ≢ None }
{}

/// Steps that stand keep the rows so far and add further ones, over as many columns or more, and each integer point goes on.
pub fn rows_behind_steps(steps: &[Step])
    ensures rows { (c d : Conj) → after_steps steps.now c ≡ Some d → (more : List Row) × (d.rows ≡ c.rows ++ more) }
    ensures columns { (c d : Conj) → after_steps steps.now c ≡ Some d → c.columns ≤ d.columns }
    ensures keeps { (c d : Conj) → after_steps steps.now c ≡ Some d → IsWellMade c → Keeps c d }
{}

/// The rows of each step and branch, where it stands.
pub fn rows_of_each_rule(conj: &Conj)
    ensures { StepRows conj.now }
{}

/// A tree of absurd ends in which no node fails shows that no integer point meets the conjunction.
pub fn accepted_is_empty(conj: &Conj, tree: &Tree<Absurd>)
    requires made { IsWellMade conj.now }
    requires accepted { tree_fault tree.now absurd_refusals conj.now 0 ≡ None }
    ensures { (p : List ℤ) → IsPoint conj.now p → ⊥ }
{}
