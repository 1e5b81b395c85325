//! The tableau: each basic variable as a linear form over those that are not basic, with a common denominator.

use crate::bounds::Bound;
use ac_simplex_lines::numbers::{common_divisor, floor, opposite, product};
use ac_simplex_lines::{Halt, Line, content_with};
use std::alloc::{AllocError, Global};

/// A variable: a column of the question, which may have any value, or the line of a bound, which is not negative.
#[derive(Clone, Copy)]
pub(crate) enum Variable {
    /// A column.
    Free(usize),
    /// The bound with this number.
    Bound(usize),
}

impl Variable {
    pub(crate) fn is_free(&self) -> bool {
        match self {
            Variable::Free(_) => true,
            Variable::Bound(_) => false,
        }
    }
}

/// A row: `den` times the basic variable is the line over the other variables.
#[derive(Drop)]
pub(crate) struct Equation {
    pub basic: Variable,
    pub den: i128,
    pub line: Line,
}

/// The rows, and the variables that are not basic, column by column.
#[derive(Drop)]
pub(crate) struct Tableau {
    pub rows: Vec<Equation>,
    pub columns: Vec<Variable>,
}

/// The columns that bounds have, among so many.
fn live_columns(alloc: Global, columns: usize, bounds: &[Bound]) -> Result<Vec<usize>, AllocError> {
    let mut live = Vec::new(alloc);
    for column in 0..columns {
        if is_live(bounds, column) {
            live.push(column)?;
        }
    }
    Ok(live)
}

/// Whether a bound has a column.
fn is_live(bounds: &[Bound], column: usize) -> bool {
    for bound in bounds {
        if bound.line.coef(column) != 0 {
            return true;
        }
    }
    false
}

/// A bound as a row over columns.
fn row_of(alloc: Global, bound: &Bound, live: &[usize]) -> Result<Equation, AllocError> {
    let mut coefs = Vec::with_capacity(alloc, live.len())?;
    for column in live {
        coefs.push(bound.line.coef(*column))?;
    }
    Ok(Equation {
        basic: Variable::Bound(bound.number),
        den: 1,
        line: Line {
            coefs,
            konst: bound.line.konst,
        },
    })
}

impl Equation {
    /// Divides the row by the greatest common divisor of its numbers.
    pub(crate) fn shorten(&mut self) -> Result<(), Halt> {
        if self.den == 1 {
            return Ok(());
        }
        let first = common_divisor(self.den, self.line.konst)?;
        let divisor = content_with(first, &self.line.coefs)?;
        if divisor != 1 {
            self.den = floor(self.den, divisor)?;
            self.line.divide(divisor)?;
        }
        Ok(())
    }

    /// The row solved for the variable of a column, which becomes the basic one. The variable that was basic has that column then.
    fn solve(&mut self, column: usize, entering: Variable) -> Result<(), Halt> {
        let coef = self.line.coef(column);
        let den = self.den;
        if coef > 0 {
            self.line.scale(-1)?;
            self.line.set(column, den);
            self.den = coef;
        } else {
            self.line.set(column, opposite(den)?);
            self.den = opposite(coef)?;
        }
        self.basic = entering;
        self.shorten()
    }

    /// Replaces the variable of a column by a row that was solved for it.
    fn replace(&mut self, column: usize, den: i128, line: &Line) -> Result<(), Halt> {
        let coef = self.line.coef(column);
        if coef == 0 {
            return Ok(());
        }
        self.line.set(column, 0);
        let divisor = common_divisor(coef, den)?;
        let scale = floor(den, divisor)?;
        self.line.scale(scale)?;
        self.den = product(self.den, scale)?;
        self.line.add(floor(coef, divisor)?, line)?;
        self.shorten()
    }
}

impl Tableau {
    /// The tableau of bounds over so many columns: the bounds are basic.
    pub(crate) fn of(
        alloc: Global,
        columns: usize,
        bounds: &[Bound],
    ) -> Result<Tableau, AllocError> {
        let live = live_columns(alloc, columns, bounds)?;
        let mut rows = Vec::with_capacity(alloc, bounds.len())?;
        for bound in bounds {
            rows.push(row_of(alloc, bound, &live)?)?;
        }
        let mut variables = Vec::with_capacity(alloc, live.len())?;
        for column in &live {
            variables.push(Variable::Free(*column))?;
        }
        Ok(Tableau {
            rows,
            columns: variables,
        })
    }

    /// How many numbers the rows have.
    pub(crate) fn cells(&self) -> usize {
        self.rows.len().saturating_mul(self.columns.len())
    }

    /// The pivot: the basic variable of a row and that of a column change places.
    pub(crate) fn pivot(&mut self, alloc: Global, place: usize, column: usize) -> Result<(), Halt> {
        let Some(entering) = self.columns.get(column).copied() else {
            return Err(Halt::Open);
        };
        let Some(row) = self.rows.get_mut(place) else {
            return Err(Halt::Open);
        };
        let leaving = row.basic;
        row.solve(column, entering)?;
        let den = row.den;
        let line = row.line.copy(alloc)?;
        if let Some(variable) = self.columns.get_mut(column) {
            *variable = leaving;
        }
        for (other, row) in self.rows.iter_mut().enumerate() {
            if other != place {
                row.replace(column, den, &line)?;
            }
        }
        Ok(())
    }
}
