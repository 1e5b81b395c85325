ghost use Rattle.std.specs.Prelude.{◌≡◌, IfOk, List};
ghost use Rattle.std.specs.List.{dedup};
ghost use Rattle.ac_forms.specs.Fits.{AllFit};
ghost use Rattle.ac_forms.specs.NormalForm.{RowsFit, absurd_rows, left_rows, has_absurd, in_order, joined, alike, clash, has_clash, normal_form};
ghost use Rattle.ac_forms.specs.Rows.{HaveModuli};
ghost use Rattle.ac_forms.specs.FormStops.{MadeIff, MadeWhere};
ghost use Rattle.ac_forms.specs.declared.row.Row.{Row};

use crate::form::Form;
use crate::normal::NormalRow;
use crate::row::Row;
use crate::stop::FormStop;
use smallvec::SmallVec;
use std::alloc::{AllocError, Global};

/// What is left of rows in normal form, and whether one of them has no integer point.
#[derive(Drop)]
struct LeftRows {
    rows: Vec<Row>,
    is_absurd: bool,
}

/// The normal form of a list of rows.
pub(crate) fn normal_rows(alloc: Global, rows: &[Row]) -> Result<Vec<Row>, FormStop>
    requires { HaveModuli rows.now }
    ensures { MadeWhere result (RowsFit rows.now) (λ made. made.items ≡ normal_form rows.now) }
{
    let left = left_of_rows(alloc, rows)?;
    if left.is_absurd {
        Ok(absurd(alloc)?)
    } else {
        Ok(join(alloc, left.rows)?)
    }
}

/// What is left of each row in normal form, one after the other.
#[tactic(auto, using(crate::proofs::Passes::pass_steps))]
fn left_of_rows(alloc: Global, rows: &[Row]) -> Result<LeftRows, FormStop>
    requires { HaveModuli rows.now }
    ensures { MadeWhere result (RowsFit rows.now) (λ left. (left.rows.items ≡ left_rows rows.now) × (left.is_absurd ≡ has_absurd rows.now)) }
{
    let mut made = Vec::with_capacity(alloc, rows.len())?;
    let mut is_absurd = false;
    for row in rows {
        match row.normalise(alloc)? {
            NormalRow::Kept(normal) => made.push(normal)?,
            NormalRow::Dropped => {}
            NormalRow::Absurd => is_absurd = true,
        }
    }
    Ok(LeftRows {
        rows: made,
        is_absurd,
    })
}

/// The row `-1 >= 0` alone.
fn absurd(alloc: Global) -> Result<Vec<Row>, AllocError>
    ensures { IfOk result (λ rows. rows.items ≡ absurd_rows) }
{
    let mut rows = Vec::new(alloc);
    rows.push(Row::Ge(Form::with_coefs(-1, SmallVec::new(alloc))))?;
    Ok(rows)
}

/// The rows in order and joined, or the row `-1 >= 0` where two of them clash.
fn join(alloc: Global, rows: Vec<Row>) -> Result<Vec<Row>, AllocError>
    ensures { IfOk result (λ made. made.items ≡ joined (in_order rows.items)) }
{
    let mut rows = sort(rows)?;
    if clashes(rows.as_slice()) {
        return absurd(alloc);
    }
    rows.dedup_by(|next, kept| are_alike(next, kept));
    Ok(rows)
}

/// The rows in order.
fn sort(rows: Vec<Row>) -> Result<Vec<Row>, AllocError>
    ensures { IfOk result (λ made. made.items ≡ in_order rows.items) }
{
    let mut rows = rows;
    rows.sort()?;
    Ok(rows)
}

/// Whether some row and the next one clash.
#[tactic(auto, using(crate::proofs::Clashes::clash_steps))]
fn clashes(rows: &[Row]) -> bool
    ensures { result ≡ has_clash rows.now }
{
    for i in 1..rows.len() {
        if are_clashing(&rows[i - 1], &rows[i]) {
            return true;
        }
    }
    false
}

/// Whether the later of two rows in order is joined with the earlier.
fn are_alike(left: &Row, right: &Row) -> bool
    ensures { result ≡ alike left.now right.now }
{
    match left {
        Row::Eq(f) => match right {
            Row::Eq(g) => f.coefs() == g.coefs(),
            _ => false,
        },
        Row::Div(m, f) => match right {
            Row::Div(n, g) => *m == *n && f == g,
            _ => false,
        },
        Row::Ge(f) => match right {
            Row::Ge(g) => f.coefs() == g.coefs(),
            _ => false,
        },
    }
}

/// Whether two rows are equalities with equal coefficients and different constants.
fn are_clashing(left: &Row, right: &Row) -> bool
    ensures { result ≡ clash left.now right.now }
{
    match left {
        Row::Eq(f) => match right {
            Row::Eq(g) => f.coefs() == g.coefs() && f.konst() != g.konst(),
            _ => false,
        },
        _ => false,
    }
}
