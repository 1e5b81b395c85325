ghost use Rattle.std.specs.Prelude.{◌≡◌, ℕ, ℤ, List, ◌⊎◌, ◌≤◌, ◌≤ℤ◌, ◌<ℤ◌, ◌-ℤ◌, neg_ℤ, ◌+◌, pos, IfOk, IfSome, true, option_map, slice_get, length};
ghost use Rattle.ac_forms.specs.Affine.{shifted};
ghost use Rattle.ac_forms.specs.Fits.{fits};
ghost use Rattle.ac_forms.specs.Negation.{with_column};
ghost use Rattle.ac_forms.specs.Rows.{IsWellMade};
ghost use Rattle.ac_omega_steps.specs.IntegerPoints.{IsPoint};
ghost use Rattle.ac_cert.specs.declared.types.Rule.{Rule};
ghost use Rattle.ac_cert.specs.PointExtension.{Keeps};
ghost use Rattle.ac_cert.specs.Rules.{after_step, rule_of, with_row, less_column, with_column_row, quotient, floor_of, rest_of, side_rows, both_sides, has_class, class, class_row, class_of};
ghost use Rattle.ac_forms.specs.FormStops.{GivenOf};
ghost use Rattle.ac_cert.specs.CheckStops.{Refuses};

use crate::numbers::{can_lose, rest};
use crate::rows::{
    cut_row, div_add_row, div_eq_row, div_mod_row, div_scale_row, eq_cut_row, sum_row,
};
use crate::types::{EndStop, Rule, Step};
use ac_forms::{Conj, Form, Row};
use std::alloc::{AllocError, Global};

impl Step {
    /// The rule of the step.
    pub fn rule(&self) -> Rule
        ensures { result ≡ rule_of self.now }
    {
        match self {
            Step::Add(_) => Rule::Add,
            Step::Cut(_, _) => Rule::Cut,
            Step::DivScale(_, _) => Rule::DivScale,
            Step::DivAdd(_, _, _, _) => Rule::DivAdd,
            Step::DivMod(_, _, _, _) => Rule::DivMod,
            Step::DivEq(_, _) => Rule::DivEq,
            Step::Quot(_) => Rule::Quot,
            Step::Floor(_, _) => Rule::Floor,
            Step::EqCut(_, _) => Rule::EqCut,
        }
    }
}

/// The rows after a step. It is refused exactly where it is no instance of its rule or a number leaves `i128`; each
/// integer point of the conjunction extends, by numbers for new columns, to a point of the result.
///
/// The rules are those of cutting planes (R. Gomory, 1958) and of divisibility.
pub fn apply(alloc: Global, conj: &Conj, s: &Step) -> Result<Conj, EndStop>
    requires { IsWellMade conj.now }
    ensures exact { GivenOf result (Refuses (rule_of s.now)) (after_step s.now conj.now) }
    ensures keeps { IfOk result (λ c. Keeps conj.now c) }
{
    let conj = conj.copy(alloc)?;
    apply_onto(alloc, conj, s)
}

/// The same, onto the conjunction itself.
pub fn apply_onto(alloc: Global, conj: Conj, s: &Step) -> Result<Conj, EndStop>
    requires { IsWellMade conj }
    ensures exact { GivenOf result (Refuses (rule_of s.now)) (after_step s.now conj) }
    ensures keeps { IfOk result (λ c. Keeps conj c) }
{
    made_by(alloc, conj, s)
}

/// The rows after a step, or the rule that refuses it.
fn made_by(alloc: Global, conj: Conj, s: &Step) -> Result<Conj, EndStop>
    ensures { GivenOf result (Refuses (rule_of s.now)) (after_step s.now conj) }
{
    match after(alloc, conj, s)? {
        Some(next) => Ok(next),
        None => Err(EndStop::Refused(s.rule())),
    }
}

/// The rows after a step, if it is an instance of its rule.
#[tactic(auto, unfolding(crate::specs::Rules::after_step), using(ac_base::proofs::Bits::again_128))]
fn after(alloc: Global, conj: Conj, s: &Step) -> Result<Option<Conj>, AllocError>
    ensures { IfOk result (λ made. made ≡ after_step s.now conj) }
{
    let rows = conj.rows.as_slice();
    match s {
        Step::Add(terms) => {
            let row = sum_row(alloc, rows, terms.as_slice())?;
            pushed(conj, row)
        }
        Step::Cut(row, divisor) => {
            let row = cut_row(alloc, rows, *row, divisor)?;
            pushed(conj, row)
        }
        Step::DivScale(row, k) => {
            let row = div_scale_row(alloc, rows, *row, k)?;
            pushed(conj, row)
        }
        Step::DivAdd(row, k, other, l) => {
            let row = div_add_row(alloc, rows, *row, k, *other, l)?;
            pushed(conj, row)
        }
        Step::DivMod(row, g, n, form) => {
            let row = div_mod_row(alloc, &conj, *row, g, n, form)?;
            pushed(conj, row)
        }
        Step::DivEq(row, n) => {
            let row = div_eq_row(alloc, rows, *row, n)?;
            pushed(conj, row)
        }
        Step::Quot(row) => with_quotient(alloc, conj, *row),
        Step::Floor(modulus, form) => with_floor(alloc, conj, modulus, form),
        Step::EqCut(row, other) => {
            let row = eq_cut_row(alloc, rows, *row, *other)?;
            pushed(conj, row)
        }
    }
}

/// The rows and a further one, if there is one.
fn pushed(conj: Conj, row: Option<Row>) -> Result<Option<Conj>, AllocError>
    ensures { IfOk result (λ made. made ≡ option_map (with_row conj) row) }
{
    match row {
        Some(row) => Ok(Some(push(conj, row)?)),
        None => Ok(None),
    }
}

/// The rows and a further one.
pub(crate) fn push(conj: Conj, row: Row) -> Result<Conj, AllocError>
    ensures { IfOk result (λ made. made ≡ with_row conj row) }
{
    let mut conj = conj;
    conj.rows.push(row)?;
    Ok(conj)
}

/// The rows and a further column, the quotient of a divisibility.
fn with_quotient(alloc: Global, conj: Conj, row: usize) -> Result<Option<Conj>, AllocError>
    ensures { IfOk result (λ made. made ≡ quotient conj (slice_get conj.rows row)) }
{
    let Some(Row::Div(modulus, form)) = conj.rows.as_slice().get(row) else {
        return Ok(None);
    };
    match less_column(alloc, conj.columns, modulus, form)? {
        Some(named) => {
            let columns = named.columns();
            Ok(Some(push_column(conj, columns, Row::Eq(named))?))
        }
        None => Ok(None),
    }
}

/// The form less `modulus` times a further column.
#[tactic(auto, unfolding(crate::specs::Rules::less_column), using(ac_base::proofs::Bits::again_128, ac_forms::proofs::Negations::negation_steps))]
fn less_column(
    alloc: Global,
    columns: usize,
    modulus: &i128,
    form: &Form,
) -> Result<Option<Form>, AllocError>
    ensures value { IfOk result (λ made. made ≡ less_column columns modulus.now form.now) }
    ensures length { IfOk result (λ made. IfSome made (λ g. length g.coefs ≡ columns + 1)) }
    ensures positive { IfOk result (λ made. IfSome made (λ _. pos 1 ≤ℤ modulus.now)) }
    ensures within { IfOk result (λ made. IfSome made (λ _. length form.now.coefs ≤ columns)) }
{
    if *modulus < 1 || form.columns() > columns {
        return Ok(None);
    }
    Ok(Some(form.with_column(alloc, columns, -*modulus)?))
}

/// The rows and a further column, the quotient of a form, rounded down.
#[tactic(auto, unfolding(crate::specs::Rules::floor_of))]
fn with_floor(
    alloc: Global,
    conj: Conj,
    modulus: &i128,
    form: &Form,
) -> Result<Option<Conj>, AllocError>
    ensures { IfOk result (λ made. made ≡ floor_of conj modulus.now form.now) }
{
    let Some(low) = less_column(alloc, conj.columns, modulus, form)? else {
        return Ok(None);
    };
    let Some(high) = high_column(alloc, conj.columns, modulus, form)? else {
        return Ok(None);
    };
    let columns = low.columns();
    let conj = push_column(conj, columns, Row::Ge(low))?;
    Ok(Some(push(conj, Row::Ge(high))?))
}

/// `modulus` times a further column, plus `modulus - 1`, less the form.
#[tactic(auto, using(ac_base::proofs::Bits::again_128, crate::proofs::StepRules::rest_within))]
fn high_column(
    alloc: Global,
    columns: usize,
    modulus: &i128,
    form: &Form,
) -> Result<Option<Form>, AllocError>
    requires positive { pos 1 ≤ℤ modulus.now }
    requires within { length form.now.coefs ≤ columns }
    ensures { IfOk result (λ made. made ≡ option_map (λ g. with_column columns modulus.now g) (rest_of (modulus.now -ℤ pos 1) form.now)) }
{
    let Some(high) = rest(alloc, *modulus - 1, form)? else {
        return Ok(None);
    };
    Ok(Some(high.with_column(alloc, columns, *modulus)?))
}

/// The rows, a further column and a row.
fn push_column(conj: Conj, columns: usize, row: Row) -> Result<Conj, AllocError>
    requires { columns ≡ conj.columns + 1 }
    ensures { IfOk result (λ made. made ≡ with_column_row conj row) }
{
    let mut conj = conj;
    conj.rows.push(row)?;
    conj.columns = columns;
    Ok(conj)
}

/// The rows of both children of a split: the form is at least 0 in the first one, and at most -1 in the second.
/// It is refused exactly where the form has more coefficients than there are columns, or a number leaves `i128`.
pub fn split(alloc: Global, conj: &Conj, e: &Form) -> Result<(Conj, Conj), EndStop>
    requires { IsWellMade conj.now }
    ensures exact { GivenOf result (Refuses Rule.Split) (both_sides e.now conj.now) }
    ensures made { IfOk result (λ both. IsWellMade both.0 × IsWellMade both.1) }
    ensures keeps { IfOk result (λ both. (p : List ℤ) → IsPoint conj.now p → IsPoint both.0 p ⊎ IsPoint both.1 p) }
{
    split_by(alloc, conj, e)
}

/// Both children of a split, or its refusal.
fn split_by(alloc: Global, conj: &Conj, e: &Form) -> Result<(Conj, Conj), EndStop>
    ensures { GivenOf result (Refuses Rule.Split) (both_sides e.now conj.now) }
{
    let (low, high) = match side_rows(alloc, e, conj.columns) {
        Ok(both) => both,
        Err(stop) => return Err(stop),
    };
    let first = push(conj.copy(alloc)?, low)?;
    let second = push(conj.copy(alloc)?, high)?;
    Ok((first, second))
}

/// The rows of both children of a split, or its refusal.
pub(crate) fn side_rows(alloc: Global, e: &Form, columns: usize) -> Result<(Row, Row), EndStop>
    ensures { GivenOf result (Refuses Rule.Split) (side_rows e.now columns) }
{
    match sides(alloc, e, columns)? {
        Some(both) => Ok(both),
        None => Err(EndStop::Refused(Rule::Split)),
    }
}

/// The rows of both children of a split, if its form is over the columns.
#[tactic(auto, unfolding(crate::specs::Rules::side_rows))]
fn sides(alloc: Global, e: &Form, columns: usize) -> Result<Option<(Row, Row)>, AllocError>
    ensures { IfOk result (λ made. made ≡ side_rows e.now columns) }
{
    if e.columns() > columns {
        return Ok(None);
    }
    let Some(below) = rest(alloc, -1, e)? else {
        return Ok(None);
    };
    Ok(Some((Row::Ge(e.copy(alloc)?), Row::Ge(below))))
}

/// The rows of child `r` of a residue branch: the number divides the form less `r`. It is refused exactly where the
/// number is less than 1, the form has more coefficients than there are columns, or a number leaves `i128`. Each
/// integer point of the conjunction has the rows of one class from 0 to the number less 1; that class may be one that
/// this call refuses, as its form leaves `i128`.
pub fn residue(alloc: Global, conj: &Conj, m: i128, e: &Form, r: i128) -> Result<Conj, EndStop>
    requires made { IsWellMade conj.now }
    requires low { pos 0 ≤ℤ r }
    requires high { pos 1 ≤ℤ m → r <ℤ m }
    ensures exact { GivenOf result (Refuses Rule.Residue) (class_of m e.now r conj.now) }
    ensures made { IfOk result (λ c. IsWellMade c) }
    ensures keeps { pos 1 ≤ℤ m → (p : List ℤ) → IsPoint conj.now p → (s : ℤ) × (pos 0 ≤ℤ s) × (s <ℤ m) × IsPoint (class m e.now s conj.now) p }
{
    residue_by(alloc, conj, &m, e, &r)
}

/// A child of a residue branch, or its refusal.
fn residue_by(alloc: Global, conj: &Conj, m: &i128, e: &Form, r: &i128) -> Result<Conj, EndStop>
    requires { pos 0 ≤ℤ r.now }
    ensures { GivenOf result (Refuses Rule.Residue) (class_of m.now e.now r.now conj.now) }
{
    match class(alloc, conj, m, e, r)? {
        Some(child) => Ok(child),
        None => Err(EndStop::Refused(Rule::Residue)),
    }
}

/// A child of a residue branch, if it stands.
#[tactic(auto, using(ac_base::proofs::Bits::again_128))]
fn class(
    alloc: Global,
    conj: &Conj,
    m: &i128,
    e: &Form,
    r: &i128,
) -> Result<Option<Conj>, AllocError>
    requires { pos 0 ≤ℤ r.now }
    ensures { IfOk result (λ made. made ≡ class_of m.now e.now r.now conj.now) }
{
    if !has_class(m, e, r, conj.columns) {
        return Ok(None);
    }
    let row = class_row(alloc, m, e, r)?;
    Ok(Some(push(conj.copy(alloc)?, row)?))
}

/// Whether a child of a residue branch stands.
#[tactic(auto, unfolding(crate::specs::Rules::has_class), using(ac_base::proofs::Bits::again_128))]
pub(crate) fn has_class(m: &i128, e: &Form, r: &i128, columns: usize) -> bool
    ensures stands { result ≡ has_class m.now e.now r.now columns }
    ensures fits { result ≡ true → fits (e.now.konst -ℤ r.now) ≡ true }
{
    *m >= 1 && e.columns() <= columns && can_lose(e, *r)
}

/// The row of child `r` of a residue branch: the number divides the form less `r`.
#[tactic(auto, using(ac_base::proofs::Bits::again_128, ac_omega_steps::proofs::Fitting::true_fits))]
pub(crate) fn class_row(alloc: Global, m: &i128, e: &Form, r: &i128) -> Result<Row, AllocError>
    requires low { pos 0 ≤ℤ r.now }
    requires fits { fits (e.now.konst -ℤ r.now) ≡ true }
    ensures { IfOk result (λ row. row ≡ class_row m.now e.now r.now) }
{
    let moved = less_number(alloc, e, r)?;
    Ok(Row::Div(*m, moved))
}

/// A form less a number.
#[tactic(auto, using(ac_base::proofs::Bits::again_128, ac_omega_steps::proofs::Fitting::true_fits))]
fn less_number(alloc: Global, e: &Form, r: &i128) -> Result<Form, AllocError>
    requires low { pos 0 ≤ℤ r.now }
    requires fits { fits (e.now.konst -ℤ r.now) ≡ true }
    ensures { IfOk result (λ form. form ≡ shifted e.now (neg_ℤ r.now)) }
{
    let konst = e.konst() - *r;
    Form::from_parts(alloc, konst, e.coefs())
}
