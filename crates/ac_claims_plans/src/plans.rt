//! Plans of a branch on a row: a plan behind the row, where it holds, and one beside it for each part of its negation.
ghost use Rattle.std.specs.Prelude.{◌≡◌, ◌≤◌, ◌≤ℤ◌, ◌+◌, ◌∷◌, [], pos, suc, Some, true, false, length, List, IfOk};
ghost use Rattle.ac_forms.specs.Affine.{FormFits};
ghost use Rattle.ac_forms.specs.Fits.{Fits};
ghost use Rattle.ac_forms.specs.Negation.{NegationFits, opposite, with_column};
ghost use Rattle.ac_forms.specs.declared.conj.Conj.{Conj};
ghost use Rattle.ac_forms.specs.declared.row.Row.TheVariants.{Eq, Div, Ge};
ghost use Rattle.ac_cert.specs.AcceptedTrees.{after_steps};
ghost use Rattle.ac_cert.specs.RowBranches.{behind, under, over_zero, with_rest};
ghost use Rattle.ac_cert.specs.Rules.{both_sides, is_partition};
ghost use Rattle.ac_cert.specs.declared.types.Step.TheVariants.{EqCut, DivEq, DivMod, Floor};
ghost use Rattle.ac_claims_paths.specs.PathSteps.{Pairing, at_rows};
ghost use Rattle.ac_claims_paths.specs.declared.path.Path.{Path};
ghost use Rattle.ac_claims.specs.declared.types.Claim.{Claim};
ghost use Rattle.ac_claims_plans.specs.PlanAcceptance.{AcceptsPlan, BranchesTo};
ghost use Rattle.ac_claims_plans.specs.BranchSides.{AcceptsClasses, BranchServesAnywhere, has_few};

use crate::branching::MOST_CLASSES;
use crate::embedded_plans::plan_of;
use crate::embedding::Embedding;
use ac_base::Items;
use ac_cert::types::Step;
use ac_claims::types::{Plan, PlanNext};
use ac_forms::{Form, FormStop, Row, column_after};
use std::alloc::{AllocError, Global};

/// A split.
fn split(alloc: Global, form: Form, first: Plan, second: Plan) -> Result<Plan, AllocError>
    ensures accepted { IfOk result (λ t. (g : Pairing) (cs : List Claim) (h : Path) (a b : Conj) → both_sides form h.conj ≡ Some (a, b) → AcceptsPlan g cs first (at_rows h a) → AcceptsPlan g cs second (at_rows h b) → AcceptsPlan g cs t h) }
    ensures branches { IfOk result (λ t. BranchesTo (first ∷ second ∷ []) t.next) }
{
    let first = Box::new(alloc, first)?;
    let second = Box::new(alloc, second)?;
    Ok(plan_of(alloc, PlanNext::Split(form, first, second)))
}

/// A plan behind further steps.
fn behind(steps: Items<Step>, plan: Plan) -> Result<Plan, AllocError>
    ensures accepted { IfOk result (λ t. (g : Pairing) (cs : List Claim) (h : Path) (d : Conj) → after_steps steps h.conj ≡ Some d → AcceptsPlan g cs plan (at_rows h d) → AcceptsPlan g cs t h) }
    ensures branches { IfOk result (λ t. BranchesTo (plan ∷ []) t.next) }
{
    let Plan {
        steps: further,
        next,
    } = plan;
    let mut all = steps.into_vec();
    let mut further = further.into_vec();
    all.append(&mut further)?;
    Ok(Plan {
        steps: Items::from(all),
        next,
    })
}

/// A residue branch.
fn residue(alloc: Global, modulus: &i128, form: Form, kids: Vec<Plan>) -> Plan
    ensures accepted { (g : Pairing) (cs : List Claim) (h : Path) → is_partition modulus.now form h.conj.columns (length kids.items) ≡ true → AcceptsClasses g cs kids.items modulus.now form 0 h → AcceptsPlan g cs result h }
    ensures branches { BranchesTo kids.items result.next }
{
    plan_of(alloc, PlanNext::Residue(*modulus, form, kids))
}

/// The opposite of a form; a number that leaves `i128` was met before.
fn opposite(alloc: Global, form: &Form) -> Result<Form, AllocError>
    ensures { IfOk result (λ made. made ≡ opposite form.now) }
{
    match form.opposite(alloc) {
        Ok(made) => Ok(made),
        Err(FormStop::Wide) => Err(AllocError),
        Err(FormStop::Memory(want)) => Err(want),
    }
}

/// Shows that each number of a form is one of `i128`.
#[tactic(auto, using(ac_forms::proofs::Adds::all_fit_steps))]
fn see_form(form: &Form)
    ensures { FormFits form.now }
{
    for number in form.coefs() {
        let _read = *number;
    }
    let _konst = form.konst();
}

/// The plan of a branch on an inequality.
fn inequality_plan(alloc: Global, form: Form, inside: Plan, below: Plan) -> Result<Plan, AllocError>
    ensures accepted { IfOk result (λ t. (g : Pairing) (cs : List Claim) (h : Path) → length form.coefs ≤ h.conj.columns → NegationFits (Ge form) → AcceptsPlan g cs below (at_rows h (under h.conj form)) → AcceptsPlan g cs inside (at_rows h (behind h.conj (Ge form))) → AcceptsPlan g cs t h) }
    ensures branches { IfOk result (λ t. BranchesTo (inside ∷ below ∷ []) t.next) }
{
    let made = split(alloc, form, inside, below)?;
    Ok(made)
}

/// The step from two opposite inequalities to the equality.
fn equal_steps(alloc: Global, count: usize) -> Result<Items<Step>, AllocError>
    ensures { IfOk result (λ steps. steps ≡ EqCut count (count + 1) ∷ []) }
{
    let mut steps = Items::new(alloc);
    steps.push(Step::EqCut(count, column_after(count, 1)?))?;
    Ok(steps)
}

/// The plan of a branch on an equality: split by the form, and where it is at least 0 by its opposite.
fn equality_plan(
    alloc: Global,
    form: Form,
    count: usize,
    inside: Plan,
    above: Plan,
    below: Plan,
) -> Result<Plan, AllocError>
    ensures accepted { IfOk result (λ t. (g : Pairing) (cs : List Claim) (h : Path) → length h.conj.rows ≡ count → length form.coefs ≤ h.conj.columns → NegationFits (Eq form) → AcceptsPlan g cs above (at_rows h (over_zero h.conj form)) → AcceptsPlan g cs below (at_rows h (under h.conj form)) → AcceptsPlan g cs inside (at_rows h (behind h.conj (Eq form))) → AcceptsPlan g cs t h) }
    ensures branches { IfOk result (λ t. BranchesTo (inside ∷ above ∷ below ∷ []) t.next) }
{
    see_form(&form);
    let steps = equal_steps(alloc, count)?;
    let turned = opposite(alloc, &form)?;
    let equal = behind(steps, inside)?;
    let low = split(alloc, turned, equal, above)?;
    let made = split(alloc, form, low, below)?;
    Ok(made)
}

/// The steps from the bounds of a form less the modulus times its quotient to the modulus dividing the form.
#[tactic(auto, using(ac_base::proofs::Bits::again_128))]
fn dividing_steps(
    alloc: Global,
    modulus: &i128,
    form: &Form,
    count: usize,
) -> Result<Items<Step>, AllocError>
    ensures { IfOk result (λ steps. steps ≡ EqCut count (count + 2) ∷ DivEq (count + 3) modulus.now ∷ DivMod (count + 4) (pos 1) modulus.now form.now ∷ []) }
{
    let mut steps = Items::new(alloc);
    steps.push(Step::EqCut(count, column_after(count, 2)?))?;
    steps.push(Step::DivEq(column_after(count, 3)?, *modulus))?;
    steps.push(Step::DivMod(column_after(count, 4)?, 1, *modulus, form.copy(alloc)?))?;
    Ok(steps)
}

/// The plan of a branch on a divisibility by the quotient, behind so many columns and rows.
fn quotient_plan(
    alloc: Global,
    modulus: &i128,
    form: Form,
    columns: usize,
    count: usize,
    inside: Plan,
    outside: Plan,
) -> Result<Plan, AllocError>
    ensures accepted { IfOk result (λ t. (g : Pairing) (cs : List Claim) (h : Path) → h.conj.columns ≡ columns → length h.conj.rows ≡ count → length form.coefs ≤ columns → pos 1 ≤ℤ modulus.now → NegationFits (Div modulus.now form) → AcceptsPlan g cs outside (at_rows h (with_rest h.conj modulus.now form)) → AcceptsPlan g cs inside (at_rows h (behind h.conj (Div modulus.now form))) → AcceptsPlan g cs t h) }
    ensures branches { IfOk result (λ t. BranchesTo (inside ∷ outside ∷ []) t.next) }
{
    see_form(&form);
    let steps = dividing_steps(alloc, modulus, &form, count)?;
    let high = quotient_form(alloc, modulus, &form, columns)?;
    let divided = behind(steps, inside)?;
    let both = split(alloc, high, divided, outside)?;
    let floor = floor_steps(alloc, modulus, form)?;
    let made = behind(floor, both)?;
    Ok(made)
}

/// The modulus times a further column, less the form. One that has more columns is not met.
#[tactic(auto, using(ac_base::proofs::Bits::again_128))]
fn quotient_form(
    alloc: Global,
    modulus: &i128,
    form: &Form,
    columns: usize,
) -> Result<Form, AllocError>
    ensures value { IfOk result (λ made. made ≡ with_column columns modulus.now (opposite form.now)) }
    ensures modulus { Fits modulus.now }
{
    let modulus = *modulus;
    let turned = opposite(alloc, form)?;
    if turned.columns() > columns {
        return Err(AllocError);
    }
    turned.with_column(alloc, columns, modulus)
}

/// The step to the quotient of a form, rounded down.
#[tactic(auto, using(ac_base::proofs::Bits::again_128))]
fn floor_steps(alloc: Global, modulus: &i128, form: Form) -> Result<Items<Step>, AllocError>
    ensures { IfOk result (λ steps. steps ≡ Floor modulus.now form ∷ []) }
{
    let mut steps = Items::new(alloc);
    steps.push(Step::Floor(*modulus, form))?;
    Ok(steps)
}

/// The plan of a branch on a divisibility by the residue classes.
fn class_plan(
    alloc: Global,
    modulus: &i128,
    form: Form,
    inside: Plan,
    outside: Vec<Plan>,
) -> Result<Plan, AllocError>
    ensures accepted { IfOk result (λ t. (g : Pairing) (cs : List Claim) (h : Path) → is_partition modulus.now form h.conj.columns (suc (length outside.items)) ≡ true → AcceptsClasses g cs (inside ∷ outside.items) modulus.now form 0 h → AcceptsPlan g cs t h) }
    ensures branches { IfOk result (λ t. BranchesTo (inside ∷ outside.items) t.next) }
{
    let mut outside = outside;
    let mut kids = Vec::new(alloc);
    kids.push(inside)?;
    kids.append(&mut outside)?;
    Ok(residue(alloc, modulus, form, kids))
}

/// A branch on an inequality of the question.
fn on_inequality(
    alloc: Global,
    embedding: &Embedding,
    form: &Form,
    inside: Plan,
    outside: Vec<Plan>,
) -> Result<Plan, AllocError>
    ensures serves { IfOk result (λ t. BranchServesAnywhere embedding.now (Ge form.now) inside outside.items t) }
    ensures branches { IfOk result (λ t. BranchesTo (inside ∷ outside.items) t.next) }
{
    let mut outside = outside;
    let form = embedding.form(alloc, form)?;
    let Some(below) = outside.pop() else {
        return Err(AllocError);
    };
    let made = inequality_plan(alloc, form, inside, below)?;
    Ok(made)
}

/// A branch on an equality of the question.
fn on_equality(
    alloc: Global,
    embedding: &Embedding,
    form: &Form,
    inside: Plan,
    outside: Vec<Plan>,
) -> Result<Plan, AllocError>
    ensures serves { IfOk result (λ t. BranchServesAnywhere embedding.now (Eq form.now) inside outside.items t) }
    ensures branches { IfOk result (λ t. BranchesTo (inside ∷ outside.items) t.next) }
{
    let mut outside = outside;
    let form = embedding.form(alloc, form)?;
    let Some(below) = outside.pop() else {
        return Err(AllocError);
    };
    let Some(above) = outside.pop() else {
        return Err(AllocError);
    };
    let made = equality_plan(alloc, form, embedding.next_row, inside, above, below)?;
    Ok(made)
}

/// A branch on a divisibility of the question, by the residue classes.
fn on_classes(
    alloc: Global,
    embedding: &Embedding,
    modulus: &i128,
    form: &Form,
    inside: Plan,
    outside: Vec<Plan>,
) -> Result<Plan, AllocError>
    requires { has_few modulus.now ≡ true }
    ensures serves { IfOk result (λ t. BranchServesAnywhere embedding.now (Div modulus.now form.now) inside outside.items t) }
    ensures branches { IfOk result (λ t. BranchesTo (inside ∷ outside.items) t.next) }
{
    see_form(form);
    let form = embedding.form(alloc, form)?;
    let made = class_plan(alloc, modulus, form, inside, outside)?;
    Ok(made)
}

/// A branch on a divisibility of the question, by the quotient.
fn on_quotient(
    alloc: Global,
    embedding: &Embedding,
    modulus: &i128,
    form: &Form,
    inside: Plan,
    outside: Vec<Plan>,
) -> Result<Plan, AllocError>
    requires { has_few modulus.now ≡ false }
    ensures serves { IfOk result (λ t. BranchServesAnywhere embedding.now (Div modulus.now form.now) inside outside.items t) }
    ensures branches { IfOk result (λ t. BranchesTo (inside ∷ outside.items) t.next) }
{
    let mut outside = outside;
    let form = embedding.form(alloc, form)?;
    let Some(other) = outside.pop() else {
        return Err(AllocError);
    };
    let made = quotient_plan(
        alloc,
        modulus,
        form,
        embedding.next_column,
        embedding.next_row,
        inside,
        other,
    )?;
    Ok(made)
}

/// The plan of a branch on a row of the question: the plan where the row holds, and those of the parts of its negation, in
/// order. Where these serve the sides of the question, it serves the question. Down to them it branches on rows alone.
pub fn branch_plan(
    alloc: Global,
    embedding: &Embedding,
    row: &Row,
    inside: Plan,
    outside: Vec<Plan>,
) -> Result<Plan, AllocError>
    ensures serves { IfOk result (λ t. BranchServesAnywhere embedding.now row.now inside outside.items t) }
    ensures branches { IfOk result (λ t. BranchesTo (inside ∷ outside.items) t.next) }
{
    match row {
        Row::Ge(form) => on_inequality(alloc, embedding, form, inside, outside),
        Row::Eq(form) => on_equality(alloc, embedding, form, inside, outside),
        Row::Div(modulus, form) => {
            if *modulus <= MOST_CLASSES {
                on_classes(alloc, embedding, modulus, form, inside, outside)
            } else {
                on_quotient(alloc, embedding, modulus, form, inside, outside)
            }
        }
    }
}
