//! The pieces and forms of an assignment among the columns of a question. No column stands twice, so all of them can be made.
ghost use Rattle.std.specs.Prelude.{◌≡◌, ◌+◌, ◌≤◌, ◌++◌, map, IfOk};
ghost use Rattle.std.specs.List.{range_with_len};
ghost use Rattle.ac_forms.specs.Renaming.{renamed, renamed_row, AreDistinct};

use ac_base::Items;
use ac_forms::laws::renaming_to_distinct_columns;
use ac_forms::{Form, FormStop, Row, push_range};
use std::alloc::{AllocError, Global};

/// The columns of the parameters, and so many from one on.
#[tactic(auto, using(crate::proofs::Distinct::two_ranges))]
pub(crate) fn columns(
    alloc: Global,
    params: usize,
    first: usize,
    count: usize,
) -> Result<Items<usize>, AllocError>
    requires { params ≤ first }
    ensures value { IfOk result (λ made. made ≡ range_with_len 0 params ++ range_with_len first count) }
    ensures distinct { IfOk result (λ made. AreDistinct made) }
{
    let mut made = Items::new(alloc);
    push_range(&mut made, 0, params)?;
    push_range(&mut made, first, count)?;
    Ok(made)
}

/// The row among other columns.
fn row_among(alloc: Global, columns: &[usize], row: &Row) -> Result<Row, AllocError>
    requires { AreDistinct columns.now }
    ensures { IfOk result (λ made. made ≡ renamed_row columns.now row.now) }
{
    renaming_to_distinct_columns(row.form(), columns);
    match row.renamed(alloc, columns) {
        Ok(made) => Ok(made),
        Err(FormStop::Wide) => unreachable!(),
        Err(FormStop::Memory(want)) => Err(want),
    }
}

/// The rows among other columns.
fn rows_among(alloc: Global, columns: &[usize], rows: &[Row]) -> Result<Items<Row>, AllocError>
    requires { AreDistinct columns.now }
    ensures { IfOk result (λ made. made ≡ map (renamed_row columns.now) rows.now) }
{
    let mut made = Items::new(alloc);
    for row in rows {
        made.push(row_among(alloc, columns, row)?)?;
    }
    Ok(made)
}

/// The pieces among other columns.
pub(crate) fn pieces_among(
    alloc: Global,
    columns: &[usize],
    pieces: &[Items<Row>],
) -> Result<Items<Items<Row>>, AllocError>
    requires { AreDistinct columns.now }
    ensures { IfOk result (λ made. made ≡ map (map (renamed_row columns.now)) pieces.now) }
{
    let mut made = Items::new(alloc);
    for piece in pieces {
        made.push(rows_among(alloc, columns, piece.as_slice())?)?;
    }
    Ok(made)
}

/// The form among other columns.
fn form_among(alloc: Global, columns: &[usize], form: &Form) -> Result<Form, AllocError>
    requires { AreDistinct columns.now }
    ensures { IfOk result (λ made. made ≡ renamed columns.now form.now) }
{
    renaming_to_distinct_columns(form, columns);
    match form.renamed(alloc, columns) {
        Ok(made) => Ok(made),
        Err(FormStop::Wide) => unreachable!(),
        Err(FormStop::Memory(want)) => Err(want),
    }
}

/// The forms among other columns.
pub(crate) fn forms_among(
    alloc: Global,
    columns: &[usize],
    forms: &[Form],
) -> Result<Items<Form>, AllocError>
    requires { AreDistinct columns.now }
    ensures { IfOk result (λ made. made ≡ map (renamed columns.now) forms.now) }
{
    let mut made = Items::new(alloc);
    for form in forms {
        made.push(form_among(alloc, columns, form)?)?;
    }
    Ok(made)
}
