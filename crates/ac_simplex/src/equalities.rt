//! Columns that equalities take out.

use ac_simplex_lines::numbers::{is_unit, opposite};
use ac_simplex_lines::{Derivations, Halt, Line};

/// An equality with a column whose coefficient is 1 or -1: it takes that column out of other lines.
#[derive(Drop)]
pub(crate) struct Solved {
    line: Line,
    column: usize,
    is_one: bool,
    number: usize,
}

/// What an equality is good for.
#[derive(Drop)]
pub(crate) enum Equality {
    /// It takes out a column.
    Unit(Solved),
    /// No coefficient is 1 or -1.
    Other(Line),
}

impl Equality {
    /// An equality by its line and the line's number.
    pub(crate) fn of(line: Line, number: usize) -> Equality {
        match unit_column(&line.coefs) {
            Some(column) => {
                let is_one = line.coef(column) == 1;
                Equality::Unit(Solved {
                    line,
                    column,
                    is_one,
                    number,
                })
            }
            None => Equality::Other(line),
        }
    }
}

/// The first column with the coefficient 1 or -1.
fn unit_column(coefs: &[i128]) -> Option<usize> {
    for (column, coef) in coefs.iter().enumerate() {
        if is_unit(*coef) {
            return Some(column);
        }
    }
    None
}

impl Solved {
    /// Takes the column out of a line, and adds the term to the line's sum.
    fn take_out(&self, line: &mut Line, derivations: &mut Derivations) -> Result<(), Halt> {
        let coef = line.coef(self.column);
        if coef == 0 {
            return Ok(());
        }
        let factor = if self.is_one { opposite(coef)? } else { coef };
        line.add(factor, &self.line)?;
        derivations.add_term(self.number, factor)?;
        Ok(())
    }

    /// Gives the column the value with which the equality holds, at a point with 0 there.
    fn lift(&self, point: &mut [i128]) -> Result<(), Halt> {
        let rest = self.line.value_at(point)?;
        let value = if self.is_one { opposite(rest)? } else { rest };
        ac_forms::set_number(point, self.column, &value);
        Ok(())
    }
}

/// Takes the columns of equalities out of a line, one after the other.
pub(crate) fn take_out_each(
    line: &mut Line,
    solved: &[Solved],
    derivations: &mut Derivations,
) -> Result<(), Halt> {
    for equality in solved {
        equality.take_out(line, derivations)?;
    }
    Ok(())
}

/// Gives the columns of equalities their values, the last one first.
pub(crate) fn lift_each(point: &mut [i128], solved: &[Solved]) -> Result<(), Halt> {
    for equality in solved.iter().rev() {
        equality.lift(point)?;
    }
    Ok(())
}
