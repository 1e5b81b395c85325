//! Branches on a row: one tree behind the row, where it holds, and one beside it for each part of its negation.
ghost use Rattle.std.specs.Prelude.{◌≡◌, ◌≤◌, ◌+◌, ◌∷◌, [], ℤ, pos, ◌≤ℤ◌, length, IfOk, Option};
ghost use Rattle.ac_forms.specs.Affine.{FormFits};
ghost use Rattle.ac_forms.specs.Fits.{Fits};
ghost use Rattle.ac_forms.specs.Negation.{NegationFits, opposite, with_column};
ghost use Rattle.ac_forms.specs.declared.conj.Conj.{Conj};
ghost use Rattle.ac_forms.specs.declared.row.Row.TheVariants.{Eq, Div, Ge};
ghost use Rattle.ac_cert.specs.AcceptedTrees.{Accepts};
ghost use Rattle.ac_cert.specs.RowBranches.{behind, under, over_zero, with_rest};
ghost use Rattle.ac_cert.specs.declared.types.Rule.{Rule};
ghost use Rattle.ac_cert.specs.declared.types.Step.TheVariants.{EqCut, DivEq, DivMod, Floor};

use crate::make::{behind_steps, split_tree};
use crate::types::{Step, Tree};
use ac_base::Items;
use ac_forms::{Form, FormStop};
use std::alloc::{AllocError, Global};

/// The sum of two counts; one that is too great is want of memory.
fn sum(count: usize, more: usize) -> Result<usize, AllocError>
    ensures { IfOk result (λ sum. sum ≡ count + more) }
{
    match count.checked_add(more) {
        Some(sum) => Ok(sum),
        None => Err(AllocError),
    }
}

/// Shows that each number of a form is one of `i128`.
#[tactic(auto, using(ac_forms::proofs::Adds::all_fit_steps))]
fn see_form(form: &Form)
    ensures { FormFits form.now }
{
    for number in form.coefs() {
        let _read = *number;
    }
    let _konst = form.konst();
}

/// Minus the form.
fn opposite(alloc: Global, form: &Form) -> Result<Form, AllocError>
    requires { FormFits (opposite form.now) }
    ensures { IfOk result (λ made. made ≡ opposite form.now) }
{
    match form.opposite(alloc) {
        Ok(made) => Ok(made),
        Err(FormStop::Wide) => Err(AllocError),
        Err(FormStop::Memory(want)) => Err(want),
    }
}

/// A branch on `form >= 0`, by one split: the form is at most -1 beside it. After want of memory both trees are dropped.
pub fn at_inequality<E: Drop>(
    alloc: Global,
    form: &Form,
    inside: Tree<E>,
    below: Tree<E>,
) -> Result<Tree<E>, AllocError>
    requires { NegationFits (Ge form.now) }
    ensures { IfOk result (λ t. (refusal : E → Conj → Option Rule) (c : Conj) → length form.now.coefs ≤ c.columns → Accepts below refusal (under c form.now) → Accepts inside refusal (behind c (Ge form.now)) → Accepts t refusal c) }
{
    let form = form.copy(alloc)?;
    let made = split_tree(alloc, form, inside, below)?;
    Ok(made)
}

/// A branch on `form = 0` behind so many rows, by two splits and the equality of both sides: the form is at least 1 in the
/// second tree, and at most -1 in the third. After want of memory all trees are dropped.
pub fn at_equality<E: Drop>(
    alloc: Global,
    form: &Form,
    count: usize,
    inside: Tree<E>,
    above: Tree<E>,
    below: Tree<E>,
) -> Result<Tree<E>, AllocError>
    requires { NegationFits (Eq form.now) }
    ensures { IfOk result (λ t. (refusal : E → Conj → Option Rule) (c : Conj) → length c.rows ≡ count → length form.now.coefs ≤ c.columns → Accepts above refusal (over_zero c form.now) → Accepts below refusal (under c form.now) → Accepts inside refusal (behind c (Eq form.now)) → Accepts t refusal c) }
{
    see_form(form);
    let steps = equal_steps(alloc, count)?;
    let equal = behind_steps(steps, inside)?;
    let turned = opposite(alloc, form)?;
    let low = split_tree(alloc, turned, equal, above)?;
    let form = form.copy(alloc)?;
    let made = split_tree(alloc, form, low, below)?;
    Ok(made)
}

/// A branch on the modulus dividing the form, behind so many columns and rows, by the form's quotient, a split and the
/// steps from the equality with its multiple: the second tree is over a further column, the quotient, and there the form
/// leaves a remainder from 1 on. After want of memory both trees are dropped.
pub fn at_divisibility<E: Drop>(
    alloc: Global,
    modulus: &i128,
    form: &Form,
    columns: usize,
    count: usize,
    inside: Tree<E>,
    outside: Tree<E>,
) -> Result<Tree<E>, AllocError>
    requires within { length form.now.coefs ≤ columns }
    requires modulus { pos 1 ≤ℤ modulus.now }
    requires fits { NegationFits (Div modulus.now form.now) }
    ensures { IfOk result (λ t. (refusal : E → Conj → Option Rule) (c : Conj) → c.columns ≡ columns → length c.rows ≡ count → Accepts outside refusal (with_rest c modulus.now form.now) → Accepts inside refusal (behind c (Div modulus.now form.now)) → Accepts t refusal c) }
{
    see_form(form);
    let steps = dividing_steps(alloc, modulus, form, count)?;
    let divided = behind_steps(steps, inside)?;
    let high = quotient_form(alloc, modulus, form, columns)?;
    let both = split_tree(alloc, high, divided, outside)?;
    let floor = floor_steps(alloc, modulus, form)?;
    let made = behind_steps(floor, both)?;
    Ok(made)
}

/// The step from two opposite inequalities to the equality.
fn equal_steps(alloc: Global, count: usize) -> Result<Items<Step>, AllocError>
    ensures { IfOk result (λ steps. steps ≡ EqCut count (count + 1) ∷ []) }
{
    let mut steps = Items::new(alloc);
    steps.push(Step::EqCut(count, sum(count, 1)?))?;
    Ok(steps)
}

/// The step to the quotient of a form, rounded down.
fn floor_steps(alloc: Global, modulus: &i128, form: &Form) -> Result<Items<Step>, AllocError>
    ensures { IfOk result (λ steps. steps ≡ Floor modulus.now form.now ∷ []) }
{
    let mut steps = Items::new(alloc);
    steps.push(Step::Floor(*modulus, form.copy(alloc)?))?;
    Ok(steps)
}

/// The steps from the bounds of a form less the modulus times its quotient to the modulus dividing the form.
fn dividing_steps(
    alloc: Global,
    modulus: &i128,
    form: &Form,
    count: usize,
) -> Result<Items<Step>, AllocError>
    ensures { IfOk result (λ steps. steps ≡ EqCut count (count + 2) ∷ DivEq (count + 3) modulus.now ∷ DivMod (count + 4) (pos 1) modulus.now form.now ∷ []) }
{
    let mut steps = Items::new(alloc);
    steps.push(Step::EqCut(count, sum(count, 2)?))?;
    steps.push(Step::DivEq(sum(count, 3)?, *modulus))?;
    steps.push(Step::DivMod(sum(count, 4)?, 1, *modulus, form.copy(alloc)?))?;
    Ok(steps)
}

/// The modulus times a further column, less the form.
fn quotient_form(
    alloc: Global,
    modulus: &i128,
    form: &Form,
    columns: usize,
) -> Result<Form, AllocError>
    requires within { length form.now.coefs ≤ columns }
    requires fits { FormFits (opposite form.now) }
    ensures value { IfOk result (λ made. made ≡ with_column columns modulus.now (opposite form.now)) }
    ensures modulus { Fits modulus.now }
{
    let modulus = *modulus;
    let turned = opposite(alloc, form)?;
    turned.with_column(alloc, columns, modulus)
}
