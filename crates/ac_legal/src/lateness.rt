//! The ways in which one time isn't smaller than another.
ghost use Rattle.std.specs.Prelude.{◌≡◌, ◌++◌, ◌∷◌, [], pos, negsuc, IfOk, IfErr, if◌then◌else◌};
ghost use Rattle.ac_forms.specs.Affine.{CanCombine, combined, shifted};
ghost use Rattle.ac_forms.specs.FormStops.{IfWide, MadeIff};
ghost use Rattle.ac_legal_law.specs.OrderQuestions.{late};
ghost use Rattle.ac_legal.specs.WideQuestions.{AreWideTimes};

use crate::asking::with_rows;
use ac_base::Items;
use ac_forms::{Form, FormStop, Row};
use std::alloc::{AllocError, Global};

/// The rows and one more.
fn with_row(alloc: Global, rows: &[Row], row: Row) -> Result<Items<Row>, AllocError>
    ensures { IfOk result (λ made. made ≡ rows.now ++ row ∷ []) }
{
    let mut made = with_rows(alloc, rows, &[])?;
    made.push(row)?;
    Ok(made)
}

/// One form less another.
fn less(alloc: Global, form: &Form, other: &Form) -> Result<Form, FormStop>
    ensures { MadeIff result (CanCombine (pos 1) form.now (negsuc 0) other.now) (combined (pos 1) form.now (negsuc 0) other.now) }
{
    form.combine(alloc, 1, other, -1)
}

/// What is made, and the rows that are done if all are to be equal.
fn finish(
    made: Items<Items<Row>>,
    done: Items<Row>,
    all: bool,
) -> Result<Items<Items<Row>>, AllocError>
    ensures { IfOk result (λ list. list ≡ (if all then made ++ done ∷ [] else made)) }
{
    let mut list = made;
    if all {
        list.push(done)?;
    }
    Ok(list)
}

/// The first numbers are equal and the next of the first time is at least 1 more; or, where no more of the second are left,
/// all are equal. `Wide` only if a difference of two numbers, or 1 less, leaves `i128`.
pub(crate) fn late(
    alloc: Global,
    times: &[Form],
    others: &[Form],
) -> Result<Items<Items<Row>>, FormStop>
    ensures value { IfOk result (λ made. made ≡ late times.now others.now []) }
    ensures wide { IfErr result (λ stop. IfWide stop (AreWideTimes times.now others.now)) }
{
    let count = times.len().min(others.len());
    let mut made = Items::new(alloc);
    let mut done = Items::new(alloc);
    for k in 0..count {
        let difference = less(alloc, &times[k], &others[k])?;
        let more = difference.shift(alloc, -1)?;
        made.push(with_row(alloc, done.as_slice(), Row::Ge(more))?)?;
        done.push(Row::Eq(difference))?;
    }
    Ok(finish(made, done, others.len() <= times.len())?)
}
