//! Comparisons as rows, and the rows by which they fail.
ghost use Rattle.std.specs.Prelude.{◌≡◌, ◌+◌, ◌+ℤ◌, neg_ℤ, negsuc, map, IfOk};
ghost use Rattle.std.specs.List.{AllByRecursion};
ghost use Rattle.ac_forms.specs.Affine.{FormFits, CanAddTimes, column_form};
ghost use Rattle.ac_forms.specs.Fits.{Fits};
ghost use Rattle.ac_forms.specs.FormStops.{MadeIff, MadeWhere};
ghost use Rattle.ac_forms.specs.Negation.{NegationFits, opposite, below};
ghost use Rattle.ac_forms.specs.declared.row.Row.TheVariants.{Eq, Ge};
ghost use Rattle.ac_syntax.specs.Quotients.{part_quot};
ghost use Rattle.ac_poly_quotients.specs.ComparisonWays.{row_of, way_of_bound, way_of_zero, way_of_multiple};
ghost use Rattle.ac_poly_quotients.specs.QuotientRows.{rest_form};
ghost use Rattle.ac_poly_quotients.specs.QuotientScopes.{column_for, part_way, rows_of};
ghost use Rattle.ac_poly_quotients.specs.ScopeRange.{CanRow, CanWay};

use crate::sums::{column, column_of, lowered_in};
use crate::types::{Scope, Way};
use ac_base::Items;
use ac_forms::{Form, FormStop, Row};
use ac_syntax::tree::{Comparison, IndexExpr, Quot, Rel};
use std::alloc::{AllocError, Global};

/// The form is at most -1.
fn below(alloc: Global, form: &Form) -> Result<Form, FormStop>
    ensures { MadeIff result (FormFits (opposite form.now) × Fits ((opposite form.now).konst +ℤ negsuc 0)) (below form.now) }
{
    form.opposite(alloc)?.shift(alloc, -1)
}

/// A form that is to be at least 0.
fn way_of_bound(alloc: Global, form: &Form) -> Result<Way, FormStop>
    ensures { MadeIff result (NegationFits (Ge form.now)) (way_of_bound form.now) }
{
    let mut negations = Items::new(alloc);
    negations.push(Row::Ge(below(alloc, form)?))?;
    let row = Row::Ge(form.copy(alloc)?);
    Ok(Way { row, negations })
}

/// A form that is to be 0.
fn way_of_zero(alloc: Global, form: &Form) -> Result<Way, FormStop>
    ensures { MadeIff result (NegationFits (Eq form.now)) (way_of_zero form.now) }
{
    let mut negations = Items::new(alloc);
    negations.push(Row::Ge(form.shift(alloc, -1)?))?;
    negations.push(Row::Ge(below(alloc, form)?))?;
    let row = Row::Eq(form.copy(alloc)?);
    Ok(Way { row, negations })
}

/// What is left of a form beside its quotient by a divisor, which stands in column `k`.
#[tactic(auto, using(crate::proofs::Widening::read_back))]
fn rest(alloc: Global, form: &Form, divisor: i64, k: usize) -> Result<Form, FormStop>
    ensures { MadeIff result (CanAddTimes form.now (neg_ℤ divisor) (column_form (k + 1) k)) (rest_form k (record { form = form.now; div = divisor })) }
{
    let quotient = column(alloc, k)?;
    form.add_times(alloc, -(divisor as i128), &quotient)
}

/// A form that a divisor is to divide.
fn way_of_multiple(alloc: Global, form: &Form, divisor: i64, k: usize) -> Result<Way, FormStop>
    ensures { MadeIff result (CanAddTimes form.now (neg_ℤ divisor) (column_form (k + 1) k) × Fits ((rest_form k (record { form = form.now; div = divisor })).konst +ℤ negsuc 0)) (way_of_multiple k divisor form.now) }
{
    let rest = rest(alloc, form, divisor, k)?;
    let mut negations = Items::new(alloc);
    negations.push(Row::Ge(rest.shift(alloc, -1)?))?;
    let row = Row::Eq(rest);
    Ok(Way { row, negations })
}

/// The quotient of a form by the divisor that a comparison tests.
pub(crate) fn part_quot(alloc: Global, form: &IndexExpr, divisor: i64) -> Result<Quot, AllocError>
    ensures { IfOk result (λ quot. quot ≡ part_quot form.now divisor) }
{
    Ok(Quot {
        coef: 1,
        konst: form.konst,
        params: Items::from_slice(alloc, form.params.as_slice())?,
        iters: Items::from_slice(alloc, form.iters.as_slice())?,
        div: divisor,
        place: form.place,
    })
}

/// The column of the quotient that a comparison tests.
fn tested(alloc: Global, scope: &Scope, form: &IndexExpr, divisor: i64) -> Result<usize, AllocError>
    ensures { IfOk result (λ k. k ≡ column_for scope.now (part_quot form.now divisor)) }
{
    let quot = part_quot(alloc, form, divisor)?;
    Ok(column_of(scope.quots.as_slice(), &quot))
}

/// The row of a comparison.
fn row_of(alloc: Global, scope: &Scope, iters: &[Form], c: &Comparison) -> Result<Row, FormStop>
    ensures { MadeIff result (CanRow scope.now iters.now c.now) (row_of (part_way scope.now iters.now c.now)) }
{
    let form = lowered_in(alloc, scope, iters, &c.form)?;
    match c.rel {
        Rel::NonNegative => Ok(Row::Ge(form)),
        Rel::Zero => Ok(Row::Eq(form)),
        Rel::Divides(divisor) => {
            let k = tested(alloc, scope, &c.form, divisor)?;
            Ok(Row::Eq(rest(alloc, &form, divisor, k)?))
        }
    }
}

/// The way of a comparison.
fn way_of(alloc: Global, scope: &Scope, iters: &[Form], c: &Comparison) -> Result<Way, FormStop>
    ensures { MadeIff result (CanWay scope.now iters.now c.now) (part_way scope.now iters.now c.now) }
{
    let form = lowered_in(alloc, scope, iters, &c.form)?;
    match c.rel {
        Rel::NonNegative => way_of_bound(alloc, &form),
        Rel::Zero => way_of_zero(alloc, &form),
        Rel::Divides(divisor) => {
            let k = tested(alloc, scope, &c.form, divisor)?;
            way_of_multiple(alloc, &form, divisor, k)
        }
    }
}

/// The rows of a condition, in order.
#[tactic(auto, using(crate::proofs::Making::row_steps))]
pub(crate) fn rows_of(
    alloc: Global,
    scope: &Scope,
    iters: &[Form],
    parts: &[Comparison],
) -> Result<Items<Row>, FormStop>
    ensures { MadeWhere result (AllByRecursion (CanRow scope.now iters.now) parts.now) (λ made. made ≡ rows_of scope.now iters.now parts.now) }
{
    let mut made = Items::new(alloc);
    for part in parts {
        made.push(row_of(alloc, scope, iters, part)?)?;
    }
    Ok(made)
}

/// The ways of a condition, in order.
#[tactic(auto, using(crate::proofs::Making::way_steps))]
pub(crate) fn ways_of(
    alloc: Global,
    scope: &Scope,
    iters: &[Form],
    parts: &[Comparison],
) -> Result<Items<Way>, FormStop>
    ensures { MadeWhere result (AllByRecursion (CanWay scope.now iters.now) parts.now) (λ made. made ≡ map (part_way scope.now iters.now) parts.now) }
{
    let mut made = Items::new(alloc);
    for part in parts {
        made.push(way_of(alloc, scope, iters, part)?)?;
    }
    Ok(made)
}
