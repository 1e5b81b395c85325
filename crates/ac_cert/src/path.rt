//! A path of rows that grows without a copy: what each branch puts on it.
ghost use Rattle.std.specs.Prelude.{◌≡◌, ◌⊎◌, ℤ, List, pos, ◌≤ℤ◌, IfOk, cond, Some, None};
ghost use Rattle.ac_forms.specs.Rows.{Holds, IsRowOver, IsWellMade};
ghost use Rattle.ac_forms.specs.declared.conj.Conj.{Conj};
ghost use Rattle.ac_cert.specs.Rules.{class_row, has_class, side_rows, with_row};
ghost use Rattle.ac_forms.specs.FormStops.{GivenOf};
ghost use Rattle.ac_cert.specs.CheckStops.{Refuses};

use crate::steps::{class_row, has_class, push, side_rows};
use crate::types::{EndStop, Rule};
use ac_forms::{Conj, Form, Row};
use std::alloc::{AllocError, Global};

/// The rows of both sides of a split, over that many columns: the form is at least 0 in the first, and at most -1 in the
/// second, so that each point has one of them. It is refused exactly where the form has more coefficients than there are
/// columns, or a number leaves `i128`.
pub fn rows_of_sides(alloc: Global, e: &Form, columns: usize) -> Result<(Row, Row), EndStop>
    ensures exact { GivenOf result (Refuses Rule.Split) (side_rows e.now columns) }
    ensures covers { IfOk result (λ rows. (p : List ℤ) → Holds rows.0 p ⊎ Holds rows.1 p) }
    ensures over { IfOk result (λ rows. IsRowOver columns rows.0 × IsRowOver columns rows.1) }
{
    side_rows(alloc, e, columns)
}

/// The row of child `r` of a residue branch, over that many columns: the number divides the form less `r`. It is refused
/// exactly where the number is less than 1, the form has more coefficients than there are columns, or a number leaves
/// `i128`.
pub fn row_of_class(
    alloc: Global,
    m: &i128,
    e: &Form,
    r: &i128,
    columns: usize,
) -> Result<Row, EndStop>
    requires { pos 0 ≤ℤ r.now }
    ensures exact { GivenOf result (Refuses Rule.Residue) (cond (has_class m.now e.now r.now columns) (Some (class_row m.now e.now r.now)) None) }
    ensures over { IfOk result (λ row. IsRowOver columns row) }
{
    class_by(alloc, m, e, r, columns)
}

/// The row of a child of a residue branch, or its refusal.
fn class_by(alloc: Global, m: &i128, e: &Form, r: &i128, columns: usize) -> Result<Row, EndStop>
    requires { pos 0 ≤ℤ r.now }
    ensures { GivenOf result (Refuses Rule.Residue) (cond (has_class m.now e.now r.now columns) (Some (class_row m.now e.now r.now)) None) }
{
    if !has_class(m, e, r, columns) {
        return Err(EndStop::Refused(Rule::Residue));
    }
    Ok(class_row(alloc, m, e, r)?)
}

/// The path with one row more, without a copy. After want of memory the path is dropped.
pub fn with_row(path: Conj, row: Row) -> Result<Conj, AllocError>
    requires made { IsWellMade path }
    requires over { IsRowOver path.columns row }
    ensures value { IfOk result (λ longer. longer ≡ with_row path row) }
    ensures made { IfOk result (λ longer. IsWellMade longer) }
{
    one_more(path, row)
}

/// The path with one row more.
fn one_more(path: Conj, row: Row) -> Result<Conj, AllocError>
    requires { IsWellMade (with_row path row) }
    ensures value { IfOk result (λ longer. longer ≡ with_row path row) }
    ensures made { IfOk result (λ longer. IsWellMade longer) }
{
    push(path, row)
}
