ghost use Rattle.std.specs.Prelude.{◌≡◌, [], ◌∷◌, ◌≤◌, ◌-ℤ◌, ◌^◌, ℕ, pos, length, IfOk};
ghost use Rattle.ac_forms.specs.Affine.{Affine};
ghost use Rattle.ac_forms.specs.Fits.{Fits};
ghost use Rattle.ac_forms.specs.declared.conj.Conj.{Conj};
ghost use Rattle.ac_forms.specs.declared.row.Row.TheVariants.{Eq, Ge};
ghost use Rattle.ac_cert.specs.AcceptedTrees.{Accepts, absurd_refusals};
ghost use Rattle.ac_cert.specs.Rules.{with_row};
ghost use Rattle.ac_cert.specs.declared.types.Step.TheVariants.{EqCut};
ghost use Rattle.ac_omega_certify.specs.Leaves.{less, under, HasRoom, IsLikeAt, AcceptsFrom, AcceptsRange};
ghost use Rattle.ac_omega_certify.specs.TreePathRows.{Alike};

use ac_base::Items;
use ac_cert::types::Step;
use ac_cert::{Absurd, Tree, behind_steps, split_tree};
use ac_forms::Form;
use std::alloc::{AllocError, Global};

/// How often a range of numbers is halved until each part has one of them.
pub(crate) fn depth_of(count: usize) -> u32
    ensures deep { count ≤ 2 ^ result }
    ensures least { (k : ℕ) → count ≤ 2 ^ k → result ≤ k }
{
    let last = count.saturating_sub(1);
    usize::BITS - last.leading_zeros()
}

/// The form less a number.
#[tactic(auto, using(ac_base::proofs::Bits::again_128))]
fn lowered(alloc: Global, form: &Form, count: usize) -> Result<Form, AllocError>
    requires { Fits (form.now.konst -ℤ pos count) }
    ensures { IfOk result (λ f. f ≡ less form.now count) }
{
    let konst = form.konst() - count as i128;
    Form::from_parts(alloc, konst, form.coefs())
}

/// The step from two opposite inequalities to the equality.
fn zero_steps(alloc: Global, low: usize, high: usize) -> Result<Items<Step>, AllocError>
    ensures { IfOk result (λ steps. steps ≡ EqCut low high ∷ []) }
{
    let mut steps = Items::new(alloc);
    steps.push(Step::EqCut(low, high))?;
    Ok(steps)
}

/// A tree behind the equality of a form with 0: by one row the form is at least 0, by another it is less than 1.
fn leaf_tree(
    alloc: Global,
    low: usize,
    high: usize,
    leaf: Tree<Absurd>,
) -> Result<Tree<Absurd>, AllocError>
    ensures { IfOk result (λ t. (c : Conj) (f : Affine) → HasRoom f 1 → IsLikeAt c low f → IsLikeAt c high (under f 1) → ((g : Affine) → Alike f g → Accepts leaf absurd_refusals (with_row c (Eq g))) → Accepts t absurd_refusals c) }
{
    let steps = zero_steps(alloc, low, high)?;
    let tree = behind_steps(steps, leaf)?;
    Ok(tree)
}

/// A tree for a form that is at least a number, and one for a form that is less.
fn fork_tree(
    alloc: Global,
    form: &Form,
    half: usize,
    upper: Tree<Absurd>,
    lower: Tree<Absurd>,
) -> Result<Tree<Absurd>, AllocError>
    requires some { 1 ≤ half }
    requires room { HasRoom form.now half }
    ensures { IfOk result (λ t. (c : Conj) → length form.now.coefs ≤ c.columns → Accepts upper absurd_refusals (with_row c (Ge (less form.now half))) → Accepts lower absurd_refusals (with_row c (Ge (under form.now half))) → Accepts t absurd_refusals c) }
{
    let middle = lowered(alloc, form, half)?;
    let tree = split_tree(alloc, middle, upper, lower)?;
    Ok(tree)
}

/// A tree for a form that is worth one of the numbers 0, 1, 2 and so on, one for each leaf: halved until one number is left.
///
/// Each leaf stands as many rows behind the path as the depth says, and one more, by which the form is worth its number.
/// The rows `low` and `high` say that the form is at least 0 and at most the last number. `end` is the number of rows.
fn range_tree(
    alloc: Global,
    form: &Form,
    depth: u32,
    leaves: Vec<Tree<Absurd>>,
    low: usize,
    high: usize,
    end: usize,
) -> Result<Tree<Absurd>, AllocError>
    requires some { 1 ≤ length leaves.items }
    requires deep { length leaves.items ≤ 2 ^ depth }
    requires room { HasRoom form.now (length leaves.items) }
    ensures { IfOk result (λ t. AcceptsRange t form.now leaves.items depth low high end) }
{
    let mut leaves = leaves;
    let count = leaves.len();
    if depth == 0 {
        let tree = leaf_tree(alloc, low, high, leaves.remove(0))?;
        return Ok(tree);
    }
    let Some(next) = end.checked_add(1) else {
        return Err(AllocError);
    };
    if count == 1 {
        let same = range_tree(alloc, form, depth - 1, leaves, low, high, next)?;
        let tree = leaf_tree(alloc, low, high, same)?;
        return Ok(tree);
    }
    let half = count / 2;
    let above = leaves.split_off(half)?;
    let middle = lowered(alloc, form, half)?;
    let upper = range_tree(alloc, &middle, depth - 1, above, end, high, next)?;
    let lower = range_tree(alloc, form, depth - 1, leaves, low, end, next)?;
    let tree = fork_tree(alloc, form, half, upper, lower)?;
    Ok(tree)
}

/// A tree for a lower row of a column: where the row's form is at least the number of leaves the tree goes on with the row
/// raised by it; else the form is worth one of the numbers from 0 on, and the leaves follow.
pub(crate) fn raised_tree(
    alloc: Global,
    form: &Form,
    depth: u32,
    leaves: Vec<Tree<Absurd>>,
    onward: Tree<Absurd>,
    low: usize,
    end: usize,
) -> Result<Tree<Absurd>, AllocError>
    requires some { 1 ≤ length leaves.items }
    requires deep { length leaves.items ≤ 2 ^ depth }
    requires room { HasRoom form.now (length leaves.items) }
    ensures { IfOk result (λ t. (c : Conj) → length form.now.coefs ≤ c.columns → length c.rows ≡ end → IsLikeAt c low form.now → Accepts onward absurd_refusals (with_row c (Ge (less form.now (length leaves.items)))) → AcceptsFrom leaves.items form.now depth (with_row c (Ge (under form.now (length leaves.items)))) → Accepts t absurd_refusals c) }
{
    let count = leaves.len();
    let Some(next) = end.checked_add(1) else {
        return Err(AllocError);
    };
    let below = range_tree(alloc, form, depth, leaves, low, end, next)?;
    let tree = fork_tree(alloc, form, count, onward, below)?;
    Ok(tree)
}
