//! Where each line comes from, so that a certificate can be written afterwards.
//!
//! A line has a number. The first numbers are those of the rows of the question. Each later line is the quotient of a divisibility, or
//! a sum of multiples of lines before it, divided.

use std::alloc::{AllocError, Global};

/// How a line follows from those before it.
#[derive(Drop)]
pub(crate) struct Derivation {
    /// The row whose quotient it names, if it is no sum.
    pub quotient: Option<usize>,
    /// Its terms are those from here on,
    first: usize,
    /// as many as this.
    count: usize,
    /// The sum is divided by this number.
    pub divisor: i128,
    /// Whether the constant is rounded down then, which takes a step of its own.
    pub rounds: bool,
}

/// The derivations of all lines behind the rows, in order.
#[derive(Drop)]
pub struct Derivations {
    rows: usize,
    terms: Vec<(usize, i128)>,
    list: Vec<Derivation>,
}

impl Derivations {
    /// No line beside so many rows.
    pub fn new(alloc: Global, rows: usize) -> Derivations {
        Derivations {
            rows,
            terms: Vec::new(alloc),
            list: Vec::new(alloc),
        }
    }

    /// How many lines have a number.
    pub(crate) fn count(&self) -> usize {
        self.rows.saturating_add(self.list.len())
    }

    /// How many terms there are: the sum that is begun now has those from here on.
    pub fn begin(&self) -> usize {
        self.terms.len()
    }

    /// Adds a multiple of a line to the sum that was begun.
    pub fn add_term(&mut self, line: usize, factor: i128) -> Result<(), AllocError> {
        self.terms.push((line, factor))?;
        Ok(())
    }

    /// Forgets the sum that was begun.
    pub fn forget(&mut self, first: usize) {
        self.terms.truncate(first);
    }

    /// The terms of the sum that was begun.
    pub fn last_terms(
        &self,
        alloc: Global,
        first: usize,
    ) -> Result<Vec<(usize, i128)>, AllocError> {
        let mut terms = Vec::new(alloc);
        for term in self.terms.iter().skip(first) {
            terms.push(*term)?;
        }
        Ok(terms)
    }

    /// The number of the line that is the sum which was begun, divided. A line by itself keeps its number.
    pub fn end(&mut self, first: usize, divisor: i128, rounds: bool) -> Result<usize, AllocError> {
        let count = self.terms.len().saturating_sub(first);
        if count == 1 && divisor == 1 {
            if let Some((line, 1)) = self.terms.get(first).copied() {
                self.terms.truncate(first);
                return Ok(line);
            }
        }
        let number = self.count();
        self.list.push(Derivation {
            quotient: None,
            first,
            count,
            divisor,
            rounds,
        })?;
        Ok(number)
    }

    /// The number of the equality that names the quotient of a row.
    pub fn add_quotient(&mut self, row: usize) -> Result<usize, AllocError> {
        let number = self.count();
        self.list.push(Derivation {
            quotient: Some(row),
            first: 0,
            count: 0,
            divisor: 1,
            rounds: false,
        })?;
        Ok(number)
    }

    /// The derivation of a line that is no row.
    pub(crate) fn get(&self, line: usize) -> Option<&Derivation> {
        self.list.get(line.checked_sub(self.rows)?)
    }

    /// The terms of a derivation.
    pub(crate) fn terms_of(
        &self,
        alloc: Global,
        derivation: &Derivation,
    ) -> Result<Vec<(usize, i128)>, AllocError> {
        let mut terms = Vec::new(alloc);
        for term in self
            .terms
            .iter()
            .skip(derivation.first)
            .take(derivation.count)
        {
            terms.push(*term)?;
        }
        Ok(terms)
    }
}
