ghost use Rattle.std.specs.Prelude.{◌≡◌, ◌≤◌, ◌-ℤ◌, pos, length};
ghost use Rattle.ac_forms.specs.Fits.{Fits};
ghost use Rattle.ac_forms.specs.declared.conj.Conj.{Conj};
ghost use Rattle.ac_cert.specs.AcceptedTrees.{Accepts, AcceptsEach, absurd_refusals};

use ac_cert::{Absurd, Tree, residue_tree};
use ac_forms::Form;
use std::alloc::Global;

/// The tree of all residues of a form modulo a number: a child for each of them, in order from 0 on.
pub(crate) fn class_tree(
    alloc: Global,
    modulus: i128,
    form: Form,
    kids: Vec<Tree<Absurd>>,
) -> Tree<Absurd>
    requires each { modulus ≡ pos (length kids.items) }
    requires some { 1 ≤ length kids.items }
    requires room { Fits (form.konst -ℤ (modulus -ℤ pos 1)) }
    ensures { (c : Conj) → length form.coefs ≤ c.columns → AcceptsEach kids.items absurd_refusals modulus form 0 c → Accepts result absurd_refusals c }
{
    residue_tree(alloc, modulus, form, kids)
}
