//! The search for a sum that refutes, and its certificate.
ghost use Rattle.std.specs.Prelude.{◌≡◌, ℤ, List, length, IfOk, IfSome};
ghost use Rattle.ac_forms.specs.Rows.{IsWellMade};
ghost use Rattle.ac_omega_steps.specs.IntegerPoints.{IsPoint};
ghost use Rattle.ac_cert.specs.AcceptedTrees.{Accepts, absurd_refusals};

use crate::sums::{Solved, Sum, reduced_form};
use ac_base::{Items, is_multiple};
use ac_cert::types::Step;
use ac_cert::{Absurd, Tree, TreeFault, absurd_tree, behind_steps, check_tree};
use ac_forms::{Conj, Form, FormStop, Row};
use std::alloc::{AllocError, Global};
use std::marker::Model;

/// What is found among the rows: places of bounds whose sum is false, or of a divisibility that is.
#[derive(Clone, Copy)]
enum Found {
    One(usize),
    Two(usize, usize),
    Division(usize, i128),
}

/// A bound at a place, behind the equalities.
#[derive(Drop)]
struct Bound {
    place: usize,
    form: Form,
}

/// Whether all coefficients are 0.
fn is_number(form: &Form) -> bool {
    for coef in form.coefs() {
        if *coef != 0 {
            return false;
        }
    }
    true
}

/// Whether a number divides all coefficients.
fn divides_coefs(modulus: i128, form: &Form) -> bool {
    for coef in form.coefs() {
        if !is_multiple(*coef, modulus) {
            return false;
        }
    }
    true
}

/// Whether each coefficient of a form is the opposite of another's in that column.
fn is_against(form: &Form, other: &Form) -> bool {
    for (column, coef) in form.coefs().iter().enumerate() {
        if coef.checked_neg() != Some(other.coef(column)) {
            return false;
        }
    }
    true
}

/// Whether the sum of two forms is a negative number.
fn refute_each_other(form: &Form, other: &Form) -> bool {
    match form.konst().checked_add(other.konst()) {
        Some(konst) => konst < 0 && is_against(form, other) && is_against(other, form),
        None => false,
    }
}

/// The place of the first of these bounds that refutes another.
fn opposed(bounds: &[Bound], form: &Form) -> Option<usize> {
    for bound in bounds {
        if refute_each_other(&bound.form, form) {
            return Some(bound.place);
        }
    }
    None
}

/// What a bound comes to, beside those before it.
fn found_bound(known: &[Bound], further: &[Bound], bound: &Bound) -> Option<Found> {
    if bound.form.konst() < 0 && is_number(&bound.form) {
        return Some(Found::One(bound.place));
    }
    if let Some(other) = opposed(known, &bound.form) {
        return Some(Found::Two(other, bound.place));
    }
    match opposed(further, &bound.form) {
        Some(other) => Some(Found::Two(other, bound.place)),
        None => None,
    }
}

/// What a row that is no bound comes to, with its form behind the equalities.
fn found_row(row: &Row, place: usize, form: &Form) -> Option<Found> {
    match row {
        Row::Eq(_) => {
            if form.konst() != 0 && is_number(form) {
                return Some(Found::One(place));
            }
        }
        Row::Div(modulus, _) => {
            if !is_multiple(form.konst(), *modulus) && divides_coefs(*modulus, form) {
                return Some(Found::Division(place, *modulus));
            }
        }
        Row::Ge(_) => {}
    }
    None
}

/// A false row, or two, behind the equalities, among the rows from one on, beside bounds that are known.
fn found_among(
    alloc: Global,
    rows: &[Row],
    first: usize,
    equalities: &[Solved],
    known: &[Bound],
) -> Result<Option<Found>, AllocError> {
    let mut further: Vec<Bound> = Vec::new(alloc);
    for (place, row) in rows.iter().enumerate().skip(first) {
        let form = reduced_form(alloc, row.form(), equalities)?;
        if let Some(found) = found_row(row, place, &form) {
            return Ok(Some(found));
        }
        if let Row::Ge(_) = row {
            let bound = Bound { place, form };
            if let Some(found) = found_bound(known, &further, &bound) {
                return Ok(Some(found));
            }
            further.push(bound)?;
        }
    }
    Ok(None)
}

/// The equalities that take out a column, each without the columns of those before.
fn solved_equalities(alloc: Global, rows: &[Row]) -> Result<Vec<Solved>, AllocError> {
    let mut solved = Vec::new(alloc);
    for (place, row) in rows.iter().enumerate() {
        if let Row::Eq(form) = row {
            let sum = Sum::row(alloc, form, rows.len(), place)?.reduced(alloc, &solved)?;
            if let Some(equality) = Solved::of(sum) {
                solved.push(equality)?;
            }
        }
    }
    Ok(solved)
}

/// The factors that are not 0, with their rows.
fn pairs_of(alloc: Global, factors: &Form) -> Result<Items<(usize, i128)>, AllocError> {
    let mut pairs = Items::new(alloc);
    for (place, factor) in factors.coefs().iter().enumerate() {
        if *factor != 0 {
            pairs.push((place, *factor))?;
        }
    }
    Ok(pairs)
}

/// A row without the columns of the equalities, as a sum.
fn sum_at(
    alloc: Global,
    rows: &[Row],
    equalities: &[Solved],
    place: usize,
) -> Result<Option<Sum>, AllocError> {
    match rows.get(place) {
        Some(row) => Ok(Some(Sum::row(alloc, row.form(), rows.len(), place)?.reduced(
            alloc, equalities,
        )?)),
        None => Ok(None),
    }
}

/// The tree that adds the rows of a sum, which stands at this place then, and is false.
fn sum_tree(alloc: Global, sum: &Sum, place: usize) -> Result<Tree<Absurd>, AllocError> {
    let mut steps = Items::new(alloc);
    steps.push(Step::Add(pairs_of(alloc, &sum.factors)?))?;
    behind_steps(steps, absurd_tree(alloc, place))
}

/// The sum of two; none where a number leaves `i128`.
fn both(alloc: Global, sum: &Sum, other: &Sum) -> Result<Option<Sum>, AllocError> {
    match sum.plus(alloc, other, 1) {
        Ok(both) => Ok(Some(both)),
        Err(FormStop::Wide) => Ok(None),
        Err(FormStop::Memory(want)) => Err(want),
    }
}

/// The steps behind which a divisibility is a false number, from this place on: the sum of equalities that takes out its columns, which
/// the number divides too, their sum, and what is left of it.
fn division_steps(
    alloc: Global,
    place: usize,
    modulus: i128,
    konst: i128,
    equalities: Items<(usize, i128)>,
    next: usize,
) -> Result<Items<Step>, AllocError> {
    let mut steps = Items::new(alloc);
    let mut last = place;
    if !equalities.is_empty() {
        last = next.saturating_add(2);
        steps.push(Step::Add(equalities))?;
        steps.push(Step::DivEq(next, modulus))?;
        steps.push(Step::DivAdd(place, 1, next.saturating_add(1), 1))?;
    }
    steps.push(Step::DivMod(last, 1, modulus, Form::constant(alloc, 0, konst)?))?;
    Ok(steps)
}

/// The tree for a divisibility at a place that is false without the columns of the equalities.
fn division_tree(
    alloc: Global,
    sum: &Sum,
    place: usize,
    modulus: i128,
    next: usize,
) -> Result<Tree<Absurd>, AllocError> {
    let mut equalities = Items::new(alloc);
    for pair in pairs_of(alloc, &sum.factors)?.as_slice() {
        if pair.0 != place {
            equalities.push(*pair)?;
        }
    }
    let steps = division_steps(alloc, place, modulus, sum.form.konst(), equalities, next)?;
    let end = next.saturating_add(steps.len().saturating_sub(1));
    behind_steps(steps, absurd_tree(alloc, end))
}

/// The tree of what was found.
fn tree_of(
    alloc: Global,
    rows: &[Row],
    equalities: &[Solved],
    found: Found,
) -> Result<Option<Tree<Absurd>>, AllocError> {
    let (Found::One(first) | Found::Two(first, _) | Found::Division(first, _)) = found;
    let Some(sum) = sum_at(alloc, rows, equalities, first)? else {
        return Ok(None);
    };
    match found {
        Found::One(_) => Ok(Some(sum_tree(alloc, &sum, rows.len())?)),
        Found::Two(_, second) => {
            let Some(other) = sum_at(alloc, rows, equalities, second)? else {
                return Ok(None);
            };
            match both(alloc, &sum, &other)? {
                Some(sum) => Ok(Some(sum_tree(alloc, &sum, rows.len())?)),
                None => Ok(None),
            }
        }
        Found::Division(place, modulus) => Ok(Some(division_tree(
            alloc,
            &sum,
            place,
            modulus,
            rows.len(),
        )?)),
    }
}

/// The bounds, each without the columns of the equalities.
fn reduced_bounds(
    alloc: Global,
    rows: &[Row],
    equalities: &[Solved],
) -> Result<Vec<Bound>, AllocError> {
    let mut bounds = Vec::new(alloc);
    for (place, row) in rows.iter().enumerate() {
        if let Row::Ge(form) = row {
            let form = reduced_form(alloc, form, equalities)?;
            bounds.push(Bound { place, form })?;
        }
    }
    Ok(bounds)
}

/// The certificate of what was found, where it is one.
#[tactic(auto, using(crate::proofs::Accepting::accepted_anywhere))]
fn certificate(
    alloc: Global,
    question: &Conj,
    equalities: &[Solved],
    found: Option<Found>,
) -> Result<Option<Tree<Absurd>>, AllocError>
    requires { IsWellMade question.now }
    ensures accepted { IfOk result (λ found. IfSome found (λ tree. Accepts tree absurd_refusals question.now)) }
    ensures empty { IfOk result (λ found. IfSome found (λ _. (p : List ℤ) → ¬ (IsPoint question.now p))) }
{
    let Some(found) = found else {
        return Ok(None);
    };
    let Some(tree) = tree_of(alloc, question.rows.as_slice(), equalities, found)? else {
        return Ok(None);
    };
    match check_tree(alloc, question, &tree, &()) {
        Ok(()) => Ok(Some(tree)),
        Err(TreeFault::Refused { .. }) => Ok(None),
        Err(TreeFault::Memory(want)) => Err(want),
    }
}

/// A certificate that a conjunction has no point, where its equalities show it with one row, or with two with opposite coefficients.
/// None says nothing. It takes time as the rows are long, once for each equality with a column of a row, and for each pair of bounds
/// until the first coefficients that aren't opposite. The only refusal is want of memory.
pub fn refuting_sum(alloc: Global, question: &Conj) -> Result<Option<Tree<Absurd>>, AllocError>
    requires { IsWellMade question.now }
    ensures accepted { IfOk result (λ found. IfSome found (λ tree. Accepts tree absurd_refusals question.now)) }
    ensures empty { IfOk result (λ found. IfSome found (λ _. (p : List ℤ) → ¬ (IsPoint question.now p))) }
{
    let rows = question.rows.as_slice();
    let equalities = solved_equalities(alloc, rows)?;
    let found = found_among(alloc, rows, 0, &equalities, &[])?;
    certificate(alloc, question, &equalities, found)
}

/// The rows of a conjunction, made ready for questions that have them and a few rows more. Contracts see their number.
#[derive(Drop)]
pub struct Reduction {
    rows: usize,
    equalities: Vec<Solved>,
    bounds: Vec<Bound>,
}

impl Model for Reduction {
    ghost use Rattle.std.specs.Prelude.{ℕ};

    ghost Value = { ℕ };

    ghost view = { λ reduction. reduction.rows };
}

impl Reduction {
    /// The rows of a conjunction, with the columns that its equalities take out.
    pub fn of(alloc: Global, conj: &Conj) -> Result<Reduction, AllocError>
        ensures { IfOk result (λ reduction. reduction ≡ length conj.now.rows) }
    {
        let rows = conj.rows.as_slice();
        let equalities = solved_equalities(alloc, rows)?;
        let bounds = reduced_bounds(alloc, rows, &equalities)?;
        Ok(Reduction {
            rows: rows.len(),
            equalities,
            bounds,
        })
    }

    /// A certificate that a question has no point, where a row behind those that were made ready shows it, with the equalities and
    /// at most one bound. The first rows of the question are those that were made ready; what is found is checked, so that an answer is a certificate
    /// whatever they are, and None says nothing. It takes time as the further rows are long, once for each equality with a column of one and
    /// for each bound until the first coefficients that aren't opposite, and, where it is a certificate, as the question is long. The only refusal is want of memory.
    pub fn refuting_sum(
        &self,
        alloc: Global,
        question: &Conj,
    ) -> Result<Option<Tree<Absurd>>, AllocError>
        requires { IsWellMade question.now }
        ensures accepted { IfOk result (λ found. IfSome found (λ tree. Accepts tree absurd_refusals question.now)) }
        ensures empty { IfOk result (λ found. IfSome found (λ _. (p : List ℤ) → ¬ (IsPoint question.now p))) }
    {
        let rows = question.rows.as_slice();
        let found = found_among(alloc, rows, self.rows, &self.equalities, &self.bounds)?;
        certificate(alloc, question, &self.equalities, found)
    }
}
