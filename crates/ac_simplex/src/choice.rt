//! The choice of the pivot.

use crate::tableau::{Equation, Tableau, Variable};
use ac_simplex_lines::numbers::opposite;
use ac_simplex_lines::{Halt, Refutation};
use std::alloc::Global;

/// What the rows ask for.
#[derive(Clone, Copy)]
pub(crate) enum Leaving {
    /// No bound is negative at the vertex.
    Feasible,
    /// The bound of the row at this place is negative wherever the other bounds hold.
    Refuting(usize),
    /// The basic variable of the row at this place is to leave the basis.
    Row(usize),
}

/// Whether a column can raise the basic variable of a row in which it has this coefficient.
fn can_raise(coef: i128, variable: &Variable) -> bool {
    coef > 0 || (coef < 0 && variable.is_free())
}

/// How many columns can raise the basic variable of a row.
fn count_raising(row: &Equation, columns: &[Variable]) -> usize {
    let mut count = 0usize;
    for (coef, variable) in row.line.coefs.iter().zip(columns.iter()) {
        if can_raise(*coef, variable) {
            count = count.saturating_add(1);
        }
    }
    count
}

/// Of the rows whose bound is negative at the vertex, the one that the fewest columns can raise.
pub(crate) fn leaving_row(tableau: &Tableau) -> Leaving {
    let mut best: Option<(usize, usize)> = None;
    for (place, row) in tableau.rows.iter().enumerate() {
        if row.line.konst >= 0 || row.basic.is_free() {
            continue;
        }
        let count = count_raising(row, &tableau.columns);
        if count == 0 {
            return Leaving::Refuting(place);
        }
        best = match best {
            Some((other, least)) if least <= count => Some((other, least)),
            _ => Some((place, count)),
        };
    }
    match best {
        Some((place, _)) => Leaving::Row(place),
        None => Leaving::Feasible,
    }
}

/// How bad a column is: free ones first, then those that leave the denominators as they are.
fn badness(coef: i128, den: i128, variable: &Variable) -> u8 {
    let is_unit = coef == den || coef.checked_neg() == Some(den);
    match (variable.is_free(), is_unit) {
        (true, true) => 0,
        (true, false) => 1,
        (false, true) => 2,
        (false, false) => 3,
    }
}

/// The best column that can raise the basic variable of a row.
pub(crate) fn entering_column(tableau: &Tableau, place: usize) -> Option<usize> {
    let row = tableau.rows.get(place)?;
    let mut best: Option<(usize, u8)> = None;
    let columns = row.line.coefs.iter().zip(tableau.columns.iter());
    for (column, (coef, variable)) in columns.enumerate() {
        if can_raise(*coef, variable) {
            let bad = badness(*coef, row.den, variable);
            best = match best {
                Some((other, least)) if least <= bad => Some((other, least)),
                _ => Some((column, bad)),
            };
        }
    }
    match best {
        Some((column, _)) => Some(column),
        None => None,
    }
}

/// Adds the bounds of columns to a sum, each with the opposite of its coefficient.
fn add_columns(
    terms: &mut Vec<(usize, i128)>,
    row: &Equation,
    columns: &[Variable],
) -> Result<(), Halt> {
    for (coef, variable) in row.line.coefs.iter().zip(columns.iter()) {
        if let Variable::Bound(number) = variable {
            if *coef != 0 {
                terms.push((*number, opposite(*coef)?))?;
            }
        }
    }
    Ok(())
}

/// The refutation by a row that no column can raise: the sum of its bound and of the columns' is a negative number.
pub(crate) fn refutation_at(
    alloc: Global,
    tableau: &Tableau,
    place: usize,
) -> Result<Refutation, Halt> {
    let Some(row) = tableau.rows.get(place) else {
        return Err(Halt::Open);
    };
    let Variable::Bound(number) = row.basic else {
        return Err(Halt::Open);
    };
    let mut terms = Vec::new(alloc);
    terms.push((number, row.den))?;
    add_columns(&mut terms, row, &tableau.columns)?;
    Ok(Refutation::of_sum(terms))
}
