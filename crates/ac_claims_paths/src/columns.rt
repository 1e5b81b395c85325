//! Forms and rows of a model among the columns of a path.
ghost use Rattle.std.specs.Prelude.{◌≡◌, ℕ, pos, negsuc, map, IfOk, [], ◌∷◌, ◌+◌, Option, Some, option_map, option_and_then, ◌++◌, OnOk};
ghost use Rattle.std.specs.List.{range_with_len};
ghost use Rattle.ac_forms.specs.Rows.{HaveModuli};
ghost use Rattle.ac_claims_paths.specs.OptionalRows.{HaveIf};
ghost use Rattle.ac_forms.specs.Renaming.{renaming, rows_renaming};
ghost use Rattle.ac_claims_paths.specs.PathColumns.{difference, equal_forms, base, columns_of};

use crate::path::Seat;
use ac_base::Items;
use ac_forms::{Form, FormStop, Row, push_range, renamed_rows};
use ac_omega_steps::combination;
use std::alloc::{AllocError, Global};

/// The form whose column `i` is the `i`-th of these columns, where the numbers stay in `i128`.
#[tactic(auto, using(crate::proofs::Moduli::form_steps))]
fn renamed(alloc: Global, columns: &[usize], form: &Form) -> Result<Option<Form>, AllocError>
    ensures { IfOk result (λ made. made ≡ renaming columns.now form.now) }
{
    match form.renamed(alloc, columns) {
        Ok(form) => Ok(Some(form)),
        Err(FormStop::Wide) => Ok(None),
        Err(FormStop::Memory(want)) => Err(want),
    }
}

/// The rows whose column `i` is the `i`-th of these columns; none where a number leaves `i128`, which needs a column that
/// stands twice.
pub fn moved_rows(
    alloc: Global,
    columns: &[usize],
    rows: &[Row],
) -> Result<Option<Items<Row>>, AllocError>
    requires { HaveModuli rows.now }
    ensures value { IfOk result (λ made. made ≡ rows_renaming columns.now rows.now) }
    ensures moduli { IfOk result (λ made. HaveIf made) }
{
    rows_moved(alloc, columns, rows)
}

/// The same rows.
#[tactic(auto, using(crate::proofs::Moduli::rename_steps))]
pub(crate) fn rows_moved(
    alloc: Global,
    columns: &[usize],
    rows: &[Row],
) -> Result<Option<Items<Row>>, AllocError>
    ensures { IfOk result (λ made. made ≡ rows_renaming columns.now rows.now) }
{
    match renamed_rows(alloc, rows, columns) {
        Ok(made) => Ok(Some(made)),
        Err(FormStop::Wide) => Ok(None),
        Err(FormStop::Memory(want)) => Err(want),
    }
}

/// One form over these columns less another over those, where the numbers stay in `i128`.
#[tactic(auto, using(ac_base::proofs::Bits::again_128))]
fn difference(
    alloc: Global,
    columns: &[usize],
    form: &Form,
    others: &[usize],
    other: &Form,
) -> Result<Option<Form>, AllocError>
    ensures { IfOk result (λ made. made ≡ difference columns.now form.now others.now other.now) }
{
    let Some(first) = renamed(alloc, columns, form)? else {
        return Ok(None);
    };
    let Some(second) = renamed(alloc, others, other)? else {
        return Ok(None);
    };
    combination(alloc, 1, &first, -1, &second)
}

/// One equality for each dimension; none where there are not as many forms on both sides.
#[tactic(auto, using(crate::proofs::EqualSteps::equal_steps))]
pub fn equal_forms(
    alloc: Global,
    columns: &[usize],
    forms: &[Form],
    others: &[usize],
    other_forms: &[Form],
) -> Result<Option<Items<Row>>, AllocError>
    ensures { IfOk result (λ made. made ≡ equal_forms columns.now forms.now others.now other_forms.now) }
{
    if forms.len() != other_forms.len() {
        return Ok(None);
    }
    let mut made = Items::new(alloc);
    for i in 0..forms.len() {
        match difference(alloc, columns, &forms[i], others, &other_forms[i])? {
            Some(form) => made.push(Row::Eq(form))?,
            None => return Ok(None),
        }
    }
    Ok(Some(made))
}

/// The columns of the parameters and of a position's coordinates.
pub fn columns_at(alloc: Global, params: usize, seat: &Seat) -> Result<Items<usize>, AllocError>
    ensures { IfOk result (λ list. list ≡ base params ++ columns_of seat.now) }
{
    let mut list = Items::new(alloc);
    push_range(&mut list, 0, params)?;
    push_range(&mut list, seat.first, seat.width)?;
    Ok(list)
}

/// The columns of the parameters and of the coordinates of two positions.
pub fn columns_of_both(
    alloc: Global,
    params: usize,
    first: &Seat,
    second: &Seat,
) -> Result<Items<usize>, AllocError>
    ensures { IfOk result (λ list. list ≡ base params ++ (columns_of first.now ++ columns_of second.now)) }
{
    let mut list = Items::new(alloc);
    push_range(&mut list, 0, params)?;
    push_range(&mut list, first.first, first.width)?;
    push_range(&mut list, second.first, second.width)?;
    Ok(list)
}

/// The equalities of forms, each over the parameters and the coordinates of its position: one for each dimension. None where
/// there are not as many forms on both sides, or a number leaves `i128`.
pub fn equal_at(
    alloc: Global,
    params: usize,
    first: &Seat,
    forms: &[Form],
    second: &Seat,
    others: &[Form],
) -> Result<Option<Items<Row>>, AllocError>
    ensures value { IfOk result (λ made. made ≡ equal_forms (base params ++ columns_of first.now) forms.now (base params ++ columns_of second.now) others.now) }
    ensures moduli { IfOk result (λ made. HaveIf made) }
{
    forms_equal(alloc, params, first, forms, second, others)
}

/// The same equalities.
pub(crate) fn forms_equal(
    alloc: Global,
    params: usize,
    first: &Seat,
    forms: &[Form],
    second: &Seat,
    others: &[Form],
) -> Result<Option<Items<Row>>, AllocError>
    ensures { IfOk result (λ made. made ≡ equal_forms (base params ++ columns_of first.now) forms.now (base params ++ columns_of second.now) others.now) }
{
    let columns = columns_at(alloc, params, first)?;
    let other_columns = columns_at(alloc, params, second)?;
    equal_forms(
        alloc,
        columns.as_slice(),
        forms,
        other_columns.as_slice(),
        others,
    )
}

/// The equality of two forms, each over the parameters and the coordinates of its position; none where a number leaves
/// `i128`.
pub fn equal_form_at(
    alloc: Global,
    params: usize,
    first: &Seat,
    form: &Form,
    second: &Seat,
    other: &Form,
) -> Result<Option<Items<Row>>, AllocError>
    ensures value { IfOk result (λ made. made ≡ equal_forms (base params ++ columns_of first.now) (form.now ∷ []) (base params ++ columns_of second.now) (other.now ∷ [])) }
    ensures moduli { IfOk result (λ made. HaveIf made) }
{
    form_equal(alloc, params, first, form, second, other)
}

/// The same equality.
fn form_equal(
    alloc: Global,
    params: usize,
    first: &Seat,
    form: &Form,
    second: &Seat,
    other: &Form,
) -> Result<Option<Items<Row>>, AllocError>
    ensures { IfOk result (λ made. made ≡ equal_forms (base params ++ columns_of first.now) (form.now ∷ []) (base params ++ columns_of second.now) (other.now ∷ [])) }
{
    let columns = columns_at(alloc, params, first)?;
    let other_columns = columns_at(alloc, params, second)?;
    match difference(
        alloc,
        columns.as_slice(),
        form,
        other_columns.as_slice(),
        other,
    )? {
        Some(form) => {
            let mut made = Items::new(alloc);
            made.push(Row::Eq(form))?;
            Ok(Some(made))
        }
        None => Ok(None),
    }
}
