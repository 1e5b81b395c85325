//! Index expressions as forms over the parameters, the counters and the quotients, and those over the parameters alone.
ghost use Rattle.std.specs.Prelude.{◌≡◌, [], map, IfOk};
ghost use Rattle.std.specs.List.{AllByRecursion};
ghost use Rattle.ac_forms.specs.FormStops.{MadeIff, MadeWhere};
ghost use Rattle.ac_forms.specs.Renaming.{AreDistinct};
ghost use Rattle.ac_poly_quotients.specs.LastColumns.{places};
ghost use Rattle.ac_poly.specs.IndexForms.{lowered, row_by, rows_of};
ghost use Rattle.ac_poly.specs.Lower.{last_form};
ghost use Rattle.ac_poly.specs.LoweringRange.{CanForm};

use ac_base::Items;
use ac_forms::{Form, FormStop, Row};
use ac_poly_quotients::Scope;
use ac_poly_quotients::last::moved_form;
use ac_poly_quotients::sums::{lowered_in, without_iterators};
use ac_syntax::tree::{Comparison, IndexExpr, Rel};
use std::alloc::{AllocError, Global};

/// The form of an index expression in the scope of its assignment, at the last places of the scope's columns.
pub(crate) fn last_form(
    alloc: Global,
    own: &Scope,
    ks: &[usize],
    e: &IndexExpr,
) -> Result<Form, FormStop>
    requires value { ks.now ≡ places own.now }
    requires distinct { AreDistinct ks.now }
    ensures { MadeIff result (CanForm own.now e.now) (last_form own.now e.now) }
{
    let form = lowered_in(alloc, own, own.iters.as_slice(), e)?;
    Ok(moved_form(alloc, ks, &form)?)
}

/// Index expressions, in order.
#[tactic(auto, using(crate::proofs::Making::form_steps))]
pub(crate) fn last_forms(
    alloc: Global,
    own: &Scope,
    ks: &[usize],
    exprs: &[IndexExpr],
) -> Result<Items<Form>, FormStop>
    requires value { ks.now ≡ places own.now }
    requires distinct { AreDistinct ks.now }
    ensures { MadeWhere result (AllByRecursion (CanForm own.now) exprs.now) (λ made. made ≡ map (last_form own.now) exprs.now) }
{
    let mut made = Items::new(alloc);
    for e in exprs {
        made.push(last_form(alloc, own, ks, e)?)?;
    }
    Ok(made)
}

/// The row that says of a form what a comparison does. A test of a divisor stands as an equality: no context that is plain has
/// one.
fn row_by(rel: Rel, form: Form) -> Row
    ensures { result ≡ row_by rel form }
{
    match rel {
        Rel::NonNegative => Row::Ge(form),
        Rel::Zero | Rel::Divides(_) => Row::Eq(form),
    }
}

/// An index expression over the parameters alone.
#[tactic(auto, using(crate::proofs::Making::alone))]
fn alone(alloc: Global, e: &IndexExpr) -> Result<Form, AllocError>
    ensures { IfOk result (λ form. form ≡ lowered [] e.now) }
{
    let form = without_iterators(alloc, e.konst, e.params.as_slice())?;
    Ok(form)
}

/// Index expressions over the parameters alone, in order.
pub(crate) fn all_alone(alloc: Global, exprs: &[IndexExpr]) -> Result<Items<Form>, AllocError>
    ensures { IfOk result (λ made. made ≡ map (lowered []) exprs.now) }
{
    let mut made = Items::new(alloc);
    for e in exprs {
        made.push(alone(alloc, e)?)?;
    }
    Ok(made)
}

/// The rows of a condition over the parameters alone, in order.
#[tactic(auto, using(crate::proofs::Making::context_steps))]
pub(crate) fn rows_alone(alloc: Global, parts: &[Comparison]) -> Result<Items<Row>, AllocError>
    ensures { IfOk result (λ made. made ≡ rows_of [] parts.now) }
{
    let mut made = Items::new(alloc);
    for part in parts {
        made.push(row_by(part.rel, alone(alloc, &part.form)?))?;
    }
    Ok(made)
}
