//! Copies of rows, forms and columns.
ghost use Rattle.std.specs.Prelude.{◌≡◌, ◌++◌, ◌∷◌, [], map, IfOk};

use crate::types::{Column, QuotColumn, Rounded};
use ac_base::Items;
use ac_forms::{Form, Row};
use ac_syntax::copy::copy_quot;
use std::alloc::{AllocError, Global};

/// The same rows again.
pub fn copy_rows(alloc: Global, rows: &[Row]) -> Result<Items<Row>, AllocError>
    ensures { IfOk result (λ made. made ≡ rows.now) }
{
    let mut made = Items::new(alloc);
    for row in rows {
        made.push(row.copy(alloc)?)?;
    }
    Ok(made)
}

/// The rows and one more.
pub fn with_row(alloc: Global, rows: &[Row], row: Row) -> Result<Items<Row>, AllocError>
    ensures { IfOk result (λ made. made ≡ rows.now ++ row ∷ []) }
{
    let mut made = copy_rows(alloc, rows)?;
    made.push(row)?;
    Ok(made)
}

/// The rows and further ones.
pub(crate) fn joined(alloc: Global, rows: &[Row], more: &[Row]) -> Result<Items<Row>, AllocError>
    ensures { IfOk result (λ made. made ≡ rows.now ++ more.now) }
{
    let mut made = copy_rows(alloc, rows)?.into_vec();
    let mut rest = copy_rows(alloc, more)?.into_vec();
    made.append(&mut rest)?;
    Ok(Items::from(made))
}

/// The pieces, each with further rows.
pub(crate) fn with_rows(
    alloc: Global,
    pieces: &[Items<Row>],
    rows: &[Row],
) -> Result<Items<Items<Row>>, AllocError>
    ensures { IfOk result (λ made. made ≡ map (λ q. q ++ rows.now) pieces.now) }
{
    let mut made = Items::new(alloc);
    for piece in pieces {
        made.push(joined(alloc, piece.as_slice(), rows)?)?;
    }
    Ok(made)
}

/// The same pieces again.
pub(crate) fn copy_pieces(
    alloc: Global,
    pieces: &[Items<Row>],
) -> Result<Items<Items<Row>>, AllocError>
    ensures { IfOk result (λ made. made ≡ pieces.now) }
{
    let mut made = Items::new(alloc);
    for piece in pieces {
        made.push(copy_rows(alloc, piece.as_slice())?)?;
    }
    Ok(made)
}

/// The same forms again.
pub(crate) fn copy_forms(alloc: Global, forms: &[Form]) -> Result<Items<Form>, AllocError>
    ensures { IfOk result (λ made. made ≡ forms.now) }
{
    let mut made = Items::new(alloc);
    for form in forms {
        made.push(form.copy(alloc)?)?;
    }
    Ok(made)
}

/// The forms and one more.
pub(crate) fn with_form(
    alloc: Global,
    forms: &[Form],
    form: Form,
) -> Result<Items<Form>, AllocError>
    ensures { IfOk result (λ made. made ≡ forms.now ++ form ∷ []) }
{
    let mut made = copy_forms(alloc, forms)?;
    made.push(form)?;
    Ok(made)
}

/// The same quotient again.
fn copy_rounded(alloc: Global, rounded: &Rounded) -> Result<Rounded, AllocError>
    ensures { IfOk result (λ made. made ≡ rounded.now) }
{
    let form = rounded.form.copy(alloc)?;
    let div = rounded.div;
    Ok(Rounded { form, div })
}

/// The same column again.
fn copy_column(alloc: Global, column: &Column) -> Result<Column, AllocError>
    ensures { IfOk result (λ made. made ≡ column.now) }
{
    match column {
        Column::Counter => Ok(Column::Counter),
        Column::Quotient(rounded) => Ok(Column::Quotient(copy_rounded(alloc, rounded)?)),
    }
}

/// The same columns again.
pub(crate) fn copy_columns(alloc: Global, columns: &[Column]) -> Result<Items<Column>, AllocError>
    ensures { IfOk result (λ made. made ≡ columns.now) }
{
    let mut made = Items::new(alloc);
    for column in columns {
        made.push(copy_column(alloc, column)?)?;
    }
    Ok(made)
}

/// The same quotient of the text, and its column.
fn copy_one_named(alloc: Global, named: &QuotColumn) -> Result<QuotColumn, AllocError>
    ensures { IfOk result (λ made. made ≡ named.now) }
{
    let quot = copy_quot(alloc, &named.quot)?;
    let column = named.column;
    Ok(QuotColumn { quot, column })
}

/// The same quotients of the text, and their columns.
pub(crate) fn copy_named(
    alloc: Global,
    named: &[QuotColumn],
) -> Result<Items<QuotColumn>, AllocError>
    ensures { IfOk result (λ made. made ≡ named.now) }
{
    let mut made = Items::new(alloc);
    for one in named {
        made.push(copy_one_named(alloc, one)?)?;
    }
    Ok(made)
}
