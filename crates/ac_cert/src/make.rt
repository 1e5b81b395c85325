ghost use Rattle.std.specs.Prelude.{◌≡◌, ℕ, [], ◌++◌, Option, IfOk, Some, None, true, length, slice_get};
ghost use Rattle.ac_forms.specs.declared.conj.Conj.{Conj};
ghost use Rattle.ac_cert.specs.declared.ends.Absurd.{Absurd};
ghost use Rattle.ac_cert.specs.declared.types.Next.{End, Residue};
ghost use Rattle.ac_cert.specs.declared.types.Rule.{Rule};
ghost use Rattle.ac_cert.specs.AcceptedTrees.{Accepts, AcceptsEach, IsSplit, absurd_refusals, after_steps};
ghost use Rattle.ac_cert.specs.AbsurdEnd.{is_absurd};
ghost use Rattle.ac_cert.specs.Rules.{both_sides, is_partition};

use crate::ends::Absurd;
use crate::types::{Next, Step, Tree};
use ac_base::Items;
use ac_forms::Form;
use std::alloc::{AllocError, Global};

/// The tree of one end, without steps.
pub fn end_tree<E>(alloc: Global, end: E) -> Tree<E>
    ensures steps { result.steps ≡ [] }
    ensures next { result.next ≡ End end }
    ensures accepted { (refusal : E → Conj → Option Rule) (c : Conj) → refusal end c ≡ None → Accepts result refusal c }
{
    Tree {
        steps: Items::new(alloc),
        next: Next::End(end),
    }
}

/// The tree of one end at an absurd row, which has this place.
pub fn absurd_tree(alloc: Global, row: usize) -> Tree<Absurd>
    ensures steps { result.steps ≡ [] }
    ensures next { result.next ≡ End (record { row = row }) }
    ensures accepted { (c : Conj) → is_absurd (slice_get c.rows row) ≡ true → Accepts result absurd_refusals c }
{
    end_tree(alloc, Absurd { row })
}

/// A tree behind further steps. After want of memory both are dropped.
pub fn behind_steps<E: Drop>(steps: Items<Step>, tree: Tree<E>) -> Result<Tree<E>, AllocError>
    ensures steps { IfOk result (λ t. t.steps ≡ steps ++ tree.steps) }
    ensures next { IfOk result (λ t. t.next ≡ tree.next) }
    ensures accepted { IfOk result (λ t. (refusal : E → Conj → Option Rule) (c d : Conj) → after_steps steps c ≡ Some d → Accepts tree refusal d → Accepts t refusal c) }
{
    let Tree {
        steps: further,
        next,
    } = tree;
    let mut all = steps.into_vec();
    let mut further = further.into_vec();
    all.append(&mut further)?;
    Ok(Tree {
        steps: Items::from(all),
        next,
    })
}

/// A split by a form into two trees: the form is at least 0 in the first, and at most -1 in the second. After want of
/// memory all are dropped.
pub fn split_tree<E: Drop>(
    alloc: Global,
    e: Form,
    left: Tree<E>,
    right: Tree<E>,
) -> Result<Tree<E>, AllocError>
    ensures steps { IfOk result (λ t. t.steps ≡ []) }
    ensures next { IfOk result (λ t. IsSplit t.next e left right) }
    ensures accepted { IfOk result (λ t. (refusal : E → Conj → Option Rule) (c a b : Conj) → both_sides e c ≡ Some (a, b) → Accepts left refusal a → Accepts right refusal b → Accepts t refusal c) }
{
    let left = Box::new(alloc, left)?;
    let right = Box::new(alloc, right)?;
    Ok(Tree {
        steps: Items::new(alloc),
        next: Next::Split(e, left, right),
    })
}

/// A residue branch by a number and a form into a tree for each residue, from 0 on.
pub fn residue_tree<E>(alloc: Global, m: i128, e: Form, kids: Vec<Tree<E>>) -> Tree<E>
    ensures steps { result.steps ≡ [] }
    ensures next { result.next ≡ Residue m e kids }
    ensures accepted { (refusal : E → Conj → Option Rule) (c : Conj) → is_partition m e c.columns (length kids.items) ≡ true → AcceptsEach kids.items refusal m e 0 c → Accepts result refusal c }
{
    Tree {
        steps: Items::new(alloc),
        next: Next::Residue(m, e, kids),
    }
}
