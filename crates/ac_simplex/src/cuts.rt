//! Cuts: bounds that hold at all integer points and not at the vertex.

use crate::tableau::{Equation, Tableau, Variable};
use ac_simplex_lines::numbers::{opposite, remainder};
use ac_simplex_lines::{Derivations, Halt, Line};
use std::alloc::Global;

/// A cut: the row of a column, and whether its opposite is taken.
#[derive(Clone, Copy)]
pub(crate) struct Cut {
    place: usize,
    is_opposite: bool,
    /// By how much the cut is missed at the vertex.
    missed: i128,
    /// The sum of its coefficients.
    size: i128,
}

/// The remainder of a number, or of its opposite.
fn part(number: i128, den: i128, is_opposite: bool) -> Result<i128, Halt> {
    remainder(
        if is_opposite {
            opposite(number)?
        } else {
            number
        },
        den,
    )
}

/// Whether a row gives a column a fraction at the vertex.
pub(crate) fn is_fractional(row: &Equation) -> Result<bool, Halt> {
    Ok(row.basic.is_free() && row.den != 1 && remainder(row.line.konst, row.den)? != 0)
}

/// The first free column whose coefficient the denominator of a row does not divide.
fn broken_column(row: &Equation, columns: &[Variable]) -> Result<Option<usize>, Halt> {
    let pairs = row.line.coefs.iter().zip(columns.iter());
    for (column, (coef, variable)) in pairs.enumerate() {
        if variable.is_free() && *coef != 0 && remainder(*coef, row.den)? != 0 {
            return Ok(Some(column));
        }
    }
    Ok(None)
}

/// A cut of a row.
fn cut_of(row: &Equation, place: usize, is_opposite: bool) -> Result<Cut, Halt> {
    let mut size = 0i128;
    for coef in &row.line.coefs {
        if *coef != 0 {
            size = size.saturating_add(part(*coef, row.den, is_opposite)?);
        }
    }
    Ok(Cut {
        place,
        is_opposite,
        missed: part(row.line.konst, row.den, !is_opposite)?,
        size,
    })
}

/// The deeper one of two cuts.
fn deeper(cut: Cut, other: Option<Cut>) -> Cut {
    match other {
        Some(other)
            if other.missed.saturating_mul(cut.size) >= cut.missed.saturating_mul(other.size) => {
            other
        }
        _ => cut,
    }
}

/// The deepest cut of the rows that give one.
pub(crate) fn best_cut(tableau: &Tableau) -> Result<Option<Cut>, Halt> {
    let mut best = None;
    for (place, row) in tableau.rows.iter().enumerate() {
        if is_fractional(row)? && broken_column(row, &tableau.columns)?.is_none() {
            best = Some(deeper(cut_of(row, place, false)?, best));
            best = Some(deeper(cut_of(row, place, true)?, best));
        }
    }
    Ok(best)
}

/// The line of a cut, times the denominator, whose terms are added to the sum that was begun.
fn cut_line(
    alloc: Global,
    row: &Equation,
    columns: &[Variable],
    cut: &Cut,
    derivations: &mut Derivations,
) -> Result<Line, Halt> {
    let mut coefs = Vec::with_capacity(alloc, columns.len())?;
    for (coef, variable) in row.line.coefs.iter().zip(columns.iter()) {
        let factor = if *coef == 0 {
            0
        } else {
            part(*coef, row.den, cut.is_opposite)?
        };
        if let Variable::Bound(number) = variable {
            if factor != 0 {
                derivations.add_term(*number, factor)?;
            }
        }
        coefs.push(factor)?;
    }
    Ok(Line {
        coefs,
        konst: opposite(cut.missed)?,
    })
}

/// Adds a cut to the tableau.
pub(crate) fn add_cut(
    alloc: Global,
    tableau: &mut Tableau,
    cut: &Cut,
    derivations: &mut Derivations,
) -> Result<(), Halt> {
    let Some(row) = tableau.rows.get(cut.place) else {
        return Err(Halt::Open);
    };
    let den = row.den;
    let first = derivations.begin();
    let line = cut_line(alloc, row, &tableau.columns, cut, derivations)?;
    let number = derivations.end(first, den, true)?;
    let mut added = Equation {
        basic: Variable::Bound(number),
        den,
        line,
    };
    added.shorten()?;
    tableau.rows.push(added)?;
    Ok(())
}

/// The place of a row of a bound with a column.
fn row_with(tableau: &Tableau, column: usize) -> Option<usize> {
    for (place, row) in tableau.rows.iter().enumerate() {
        if !row.basic.is_free() && row.line.coef(column) != 0 {
            return Some(place);
        }
    }
    None
}

/// A pivot that takes into the basis a free column for which a fractional row gives no cut.
pub(crate) fn free_pivot(tableau: &Tableau) -> Result<Option<(usize, usize)>, Halt> {
    for row in &tableau.rows {
        if is_fractional(row)? {
            if let Some(column) = broken_column(row, &tableau.columns)? {
                if let Some(place) = row_with(tableau, column) {
                    return Ok(Some((place, column)));
                }
            }
        }
    }
    Ok(None)
}
