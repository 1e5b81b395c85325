ghost use Rattle.std.specs.Prelude.{◌≡◌, ◌↔◌, ◌≤◌, ◌<◌, ℕ, ℤ, List, pos, map, IfOk, ◌+ℤ◌, length, slice_index_or};
ghost use Rattle.ac_forms.specs.Affine.{value_at};
ghost use Rattle.ac_forms.specs.Fits.{Fits};
ghost use Rattle.ac_forms.specs.Renaming.{add_at, renamed_coefs, renamed, renamed_row, picked, AreColumns, SumsFit, CanRename, CanRenameAll};
ghost use Rattle.ac_forms.specs.Rows.{Holds, Meets, HasModulus, HaveModuli, IsRowOver, AreRowsOver, form_of};
ghost use Rattle.ac_forms.specs.FormStops.{MadeIff, MadeWhere};

use crate::form::Form;
use crate::row::Row;
use crate::stop::FormStop;
use ac_base::Items;
use std::alloc::{AllocError, Global};

impl Form {
    /// The form among other columns: its column `i` is the `i`-th of them, and where several go to one column their
    /// coefficients are added. Its value at a point is that of this form at the point's numbers in these columns;
    /// coefficients past the columns are left out. `Wide` exactly where a sum of coefficients at one column, from the
    /// last column on, leaves `i128`, which needs a column that stands twice.
    pub fn renamed(&self, alloc: Global, columns: &[usize]) -> Result<Form, FormStop>
        ensures exact { MadeIff result (CanRename columns.now self.now) (renamed columns.now self.now) }
        ensures value { IfOk result (λ form. (p : List ℤ) → value_at form p ≡ value_at self.now (picked columns.now p)) }
        ensures over { IfOk result (λ form. (n : ℕ) → AreColumns n columns.now → length form.coefs ≤ n) }
    {
        renamed_form(alloc, self, columns)
    }
}

impl Row {
    /// The row among other columns, as its form is.
    pub fn renamed(&self, alloc: Global, columns: &[usize]) -> Result<Row, FormStop>
        ensures exact { MadeIff result (CanRename columns.now (form_of self.now)) (renamed_row columns.now self.now) }
        ensures points { IfOk result (λ row. (p : List ℤ) → Holds row p ↔ Holds self.now (picked columns.now p)) }
        ensures over { IfOk result (λ row. (n : ℕ) → AreColumns n columns.now → HasModulus self.now → IsRowOver n row) }
    {
        renamed_row(alloc, self, columns)
    }
}

/// The rows among other columns, one after the other; `Wide` exactly where one of them is.
pub fn renamed_rows(alloc: Global, rows: &[Row], columns: &[usize]) -> Result<Items<Row>, FormStop>
    ensures exact { MadeIff result (CanRenameAll columns.now rows.now) (map (renamed_row columns.now) rows.now) }
    ensures points { IfOk result (λ made. (p : List ℤ) → Meets made p ↔ Meets rows.now (picked columns.now p)) }
    ensures over { IfOk result (λ made. (n : ℕ) → AreColumns n columns.now → HaveModuli rows.now → AreRowsOver n made) }
{
    each_renamed(alloc, rows, columns)
}

/// The rows among other columns.
#[tactic(auto, using(crate::proofs::Renamings::each_steps))]
fn each_renamed(alloc: Global, rows: &[Row], columns: &[usize]) -> Result<Items<Row>, FormStop>
    ensures { MadeIff result (CanRenameAll columns.now rows.now) (map (renamed_row columns.now) rows.now) }
{
    let mut made = Items::new(alloc);
    for row in rows {
        made.push(renamed_row(alloc, row, columns)?)?;
    }
    Ok(made)
}

/// The row among other columns.
fn renamed_row(alloc: Global, row: &Row, columns: &[usize]) -> Result<Row, FormStop>
    ensures { MadeIff result (CanRename columns.now (form_of row.now)) (renamed_row columns.now row.now) }
{
    match row {
        Row::Eq(form) => Ok(Row::Eq(renamed_form(alloc, form, columns)?)),
        Row::Div(modulus, form) => Ok(Row::Div(*modulus, renamed_form(alloc, form, columns)?)),
        Row::Ge(form) => Ok(Row::Ge(renamed_form(alloc, form, columns)?)),
    }
}

/// The form among other columns.
fn renamed_form(alloc: Global, form: &Form, columns: &[usize]) -> Result<Form, FormStop>
    ensures { MadeIff result (CanRename columns.now form.now) (renamed columns.now form.now) }
{
    let coefs = sums(alloc, columns, form.coefs())?;
    Ok(Form::from_parts(alloc, form.konst(), coefs.as_slice())?)
}

/// The sum of the coefficients, each at its column.
#[tactic(auto, using(crate::proofs::Renamings::sum_steps, ac_base::proofs::Bits::again_128))]
fn sums(alloc: Global, columns: &[usize], coefs: &[i128]) -> Result<Vec<i128>, FormStop>
    ensures { MadeWhere result (SumsFit columns.now coefs.now) (λ made. made.items ≡ renamed_coefs columns.now coefs.now) }
{
    let count = columns.len().min(coefs.len());
    let mut made = Vec::new(alloc);
    for i in (0..count).rev() {
        match added_at(alloc, made, columns[i], &coefs[i]) {
            Ok(next) => made = next,
            Err(stop) => return Err(stop),
        }
    }
    Ok(made)
}

/// The list with a number more at a place, and zeros up to there; `Wide` exactly where the sum leaves `i128`.
fn added_at(
    alloc: Global,
    coefs: Vec<i128>,
    at: usize,
    number: &i128,
) -> Result<Vec<i128>, FormStop>
    ensures { MadeWhere result (Fits (slice_index_or coefs.items at (pos 0) +ℤ number.now)) (λ made. made.items ≡ add_at at number.now coefs.items) }
{
    if at < coefs.len() {
        added_inside(coefs, at, number)
    } else {
        Ok(added_behind(alloc, coefs, at, number)?)
    }
}

/// The list with a number more at a place that it has.
#[tactic(auto, using(crate::proofs::Renamings::add_steps, ac_base::proofs::Bits::again_128))]
fn added_inside(coefs: Vec<i128>, at: usize, number: &i128) -> Result<Vec<i128>, FormStop>
    requires { at < length coefs.items }
    ensures { MadeWhere result (Fits (slice_index_or coefs.items at (pos 0) +ℤ number.now)) (λ made. made.items ≡ add_at at number.now coefs.items) }
{
    let mut coefs = coefs;
    let Some(sum) = coefs[at].checked_add(*number) else {
        return Err(FormStop::Wide);
    };
    coefs[at] = sum;
    Ok(coefs)
}

/// The list with zeros up to a place, and the number there.
#[tactic(auto, using(crate::proofs::Renamings::add_steps, ac_base::proofs::Bits::again_128))]
fn added_behind(
    alloc: Global,
    coefs: Vec<i128>,
    at: usize,
    number: &i128,
) -> Result<Vec<i128>, AllocError>
    requires { length coefs.items ≤ at }
    ensures value { IfOk result (λ made. made.items ≡ add_at at number.now coefs.items) }
    ensures fits { Fits (slice_index_or coefs.items at (pos 0) +ℤ number.now) }
{
    let number = *number;
    let mut coefs = coefs;
    let zeros = vec![in alloc; 0i128; at - coefs.len()]?;
    coefs.extend_from_slice(zeros.as_slice())?;
    coefs.push(number)?;
    Ok(coefs)
}
