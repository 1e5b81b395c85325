//! The rows of a question, made ready: equalities take out columns, and bounds are divided and rounded.

use crate::bounds::{Bound, enter};
use crate::equalities::{Equality, Solved, take_out_each};
use ac_forms::{Conj, Form, Row};
use ac_simplex_lines::numbers::{opposite, remainder};
use ac_simplex_lines::{Derivations, Halt, Line, Refutation};
use std::alloc::Global;

/// A question made ready.
#[derive(Drop)]
pub(crate) struct System {
    /// How many columns the lines have: those of the question, and the quotients of its divisibilities.
    pub columns: usize,
    pub derivations: Derivations,
    /// Equalities that take out a column, each without the columns of those before it.
    pub solved: Vec<Solved>,
    /// Equalities without a coefficient 1 or -1, with their numbers.
    pub left: Vec<(Line, usize)>,
    pub bounds: Vec<Bound>,
}

/// How many rows are divisibilities.
fn count_divisibilities(rows: &[Row]) -> usize {
    let mut count = 0usize;
    for row in rows {
        if let Row::Div(_, _) = row {
            count = count.saturating_add(1);
        }
    }
    count
}

impl System {
    /// No line yet, for a question.
    pub(crate) fn new(alloc: Global, conj: &Conj) -> System {
        let rows = conj.rows.as_slice();
        System {
            columns: conj.columns.saturating_add(count_divisibilities(rows)),
            derivations: Derivations::new(alloc, rows.len()),
            solved: Vec::new(alloc),
            left: Vec::new(alloc),
            bounds: Vec::new(alloc),
        }
    }

    /// Takes in an equality by its line and the line's number.
    fn add_equality(
        &mut self,
        alloc: Global,
        line: Line,
        number: usize,
    ) -> Result<Option<Refutation>, Halt> {
        let mut line = line;
        let first = self.derivations.begin();
        self.derivations.add_term(number, 1)?;
        take_out_each(&mut line, &self.solved, &mut self.derivations)?;
        let content = line.content()?;
        if !divides(content, line.konst)? {
            let terms = self.derivations.last_terms(alloc, first)?;
            return Ok(Some(false_equality(terms, content, line.konst)));
        }
        if content == 0 {
            self.derivations.forget(first);
            return Ok(None);
        }
        line.divide(content)?;
        let number = self.derivations.end(first, content, false)?;
        match Equality::of(line, number) {
            Equality::Unit(solved) => self.solved.push(solved)?,
            Equality::Other(line) => self.left.push((line, number))?,
        }
        Ok(None)
    }

    /// Takes in a bound that is this line, which is a multiple of the line with that number.
    fn add_bound(
        &mut self,
        alloc: Global,
        line: Line,
        number: usize,
        factor: i128,
    ) -> Result<Option<Refutation>, Halt> {
        let mut line = line;
        let first = self.derivations.begin();
        self.derivations.add_term(number, factor)?;
        take_out_each(&mut line, &self.solved, &mut self.derivations)?;
        let content = line.content()?;
        if content == 0 {
            return self.add_number(alloc, line.konst, first);
        }
        let rounds = !divides(content, line.konst)?;
        line.divide(content)?;
        let number = self.derivations.end(first, content, rounds)?;
        enter(alloc, &mut self.bounds, Bound::new(line, number))
    }

    /// Takes in a bound without coefficients, by its constant and where its terms begin.
    fn add_number(
        &mut self,
        alloc: Global,
        konst: i128,
        first: usize,
    ) -> Result<Option<Refutation>, Halt> {
        if konst < 0 {
            let terms = self.derivations.last_terms(alloc, first)?;
            return Ok(Some(Refutation::of_sum(terms)));
        }
        self.derivations.forget(first);
        Ok(None)
    }

    /// Takes in the equalities among the rows.
    fn add_equalities(&mut self, alloc: Global, rows: &[Row]) -> Result<Option<Refutation>, Halt> {
        for (place, row) in rows.iter().enumerate() {
            if let Row::Eq(form) = row {
                let line = Line::of(alloc, form, self.columns)?;
                if let Some(refutation) = self.add_equality(alloc, line, place)? {
                    return Ok(Some(refutation));
                }
            }
        }
        Ok(None)
    }

    /// Takes in a divisibility as the equality that names its quotient, in this column.
    fn add_divisibility(
        &mut self,
        alloc: Global,
        modulus: i128,
        form: &Form,
        place: usize,
        column: usize,
    ) -> Result<Option<Refutation>, Halt> {
        let mut line = Line::of(alloc, form, self.columns)?;
        line.set(column, opposite(modulus)?);
        let number = self.derivations.add_quotient(place)?;
        self.add_equality(alloc, line, number)
    }

    /// Takes in the divisibilities among the rows, whose quotients have the columns from this one on.
    fn add_divisibilities(
        &mut self,
        alloc: Global,
        rows: &[Row],
        first: usize,
    ) -> Result<Option<Refutation>, Halt> {
        let mut column = first;
        for (place, row) in rows.iter().enumerate() {
            if let Row::Div(modulus, form) = row {
                let added = self.add_divisibility(alloc, *modulus, form, place, column)?;
                if let Some(refutation) = added {
                    return Ok(Some(refutation));
                }
                column = column.saturating_add(1);
            }
        }
        Ok(None)
    }

    /// Takes in each equality that was left again: others may have taken out columns since.
    fn add_left(&mut self, alloc: Global) -> Result<Option<Refutation>, Halt> {
        let left = std::mem::replace(&mut self.left, Vec::new(alloc));
        for (line, number) in left {
            if let Some(refutation) = self.add_equality(alloc, line, number)? {
                return Ok(Some(refutation));
            }
        }
        Ok(None)
    }

    /// Takes in the equalities that are left as two bounds each.
    fn add_sides(&mut self, alloc: Global) -> Result<Option<Refutation>, Halt> {
        let left = std::mem::replace(&mut self.left, Vec::new(alloc));
        for (line, number) in left {
            let mut other = line.copy(alloc)?;
            other.scale(-1)?;
            if let Some(refutation) = self.add_bound(alloc, line, number, 1)? {
                return Ok(Some(refutation));
            }
            if let Some(refutation) = self.add_bound(alloc, other, number, -1)? {
                return Ok(Some(refutation));
            }
        }
        Ok(None)
    }

    /// Takes in the bounds among the rows.
    fn add_bounds(&mut self, alloc: Global, rows: &[Row]) -> Result<Option<Refutation>, Halt> {
        for (place, row) in rows.iter().enumerate() {
            if let Row::Ge(form) = row {
                let line = Line::of(alloc, form, self.columns)?;
                if let Some(refutation) = self.add_bound(alloc, line, place, 1)? {
                    return Ok(Some(refutation));
                }
            }
        }
        Ok(None)
    }

    /// Takes in the rows of the question; a refutation if they are seen to have no point.
    pub(crate) fn add_rows(
        &mut self,
        alloc: Global,
        conj: &Conj,
    ) -> Result<Option<Refutation>, Halt> {
        let rows = conj.rows.as_slice();
        if let Some(refutation) = self.add_equalities(alloc, rows)? {
            return Ok(Some(refutation));
        }
        if let Some(refutation) = self.add_divisibilities(alloc, rows, conj.columns)? {
            return Ok(Some(refutation));
        }
        if let Some(refutation) = self.add_left(alloc)? {
            return Ok(Some(refutation));
        }
        if let Some(refutation) = self.add_sides(alloc)? {
            return Ok(Some(refutation));
        }
        self.add_bounds(alloc, rows)
    }
}

/// Whether a number that is not negative divides another; of 0 only 0 is a multiple.
fn divides(divisor: i128, number: i128) -> Result<bool, Halt> {
    if divisor == 0 {
        return Ok(number == 0);
    }
    Ok(divisor == 1 || remainder(number, divisor)? == 0)
}

/// The refutation by an equality whose divisor does not divide its constant.
fn false_equality(terms: Vec<(usize, i128)>, content: i128, konst: i128) -> Refutation {
    let division = if content == 0 {
        None
    } else {
        Some((content, konst))
    };
    Refutation { terms, division }
}
