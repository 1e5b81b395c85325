//! Points near the vertex.

use crate::bounds::{Bound, hold_at};
use crate::cuts::is_fractional;
use crate::tableau::{Equation, Tableau, Variable};
use ac_forms::set_number;
use ac_simplex_lines::numbers::{floor, sum};
use ac_simplex_lines::{Halt, zeros};
use std::alloc::Global;

/// To which integer the value of a column is rounded.
#[derive(Clone, Copy)]
enum Rounding {
    Down,
    Near,
    Up,
}

/// The value of the basic variable of a row at the vertex, rounded.
fn value(row: &Equation, rounding: Rounding) -> Result<i128, Halt> {
    if row.den == 1 {
        return Ok(row.line.konst);
    }
    let offset = match rounding {
        Rounding::Down => 0,
        Rounding::Near => row.den / 2,
        Rounding::Up => row.den.saturating_sub(1),
    };
    floor(sum(row.line.konst, offset)?, row.den)
}

/// The vertex, rounded, over so many columns.
fn round_to(
    alloc: Global,
    tableau: &Tableau,
    columns: usize,
    rounding: Rounding,
) -> Result<Vec<i128>, Halt> {
    let mut point = zeros(alloc, columns)?;
    for row in &tableau.rows {
        if let Variable::Free(column) = row.basic {
            set_number(point.as_mut_slice(), column, &value(row, rounding)?);
        }
    }
    Ok(point)
}

/// Whether the values of all columns are integers at the vertex.
fn is_whole(tableau: &Tableau) -> Result<bool, Halt> {
    for row in &tableau.rows {
        if is_fractional(row)? {
            return Ok(false);
        }
    }
    Ok(true)
}

/// The vertex if it is an integer point; otherwise a point to which it is rounded and at which the bounds hold.
pub(crate) fn near_point(
    alloc: Global,
    tableau: &Tableau,
    columns: usize,
    bounds: &[Bound],
) -> Result<Option<Vec<i128>>, Halt> {
    if is_whole(tableau)? {
        return Ok(Some(round_to(alloc, tableau, columns, Rounding::Down)?));
    }
    for rounding in [Rounding::Down, Rounding::Near, Rounding::Up] {
        let point = round_to(alloc, tableau, columns, rounding)?;
        if hold_at(bounds, &point)? {
            return Ok(Some(point));
        }
    }
    Ok(None)
}
