//! Linear forms over columns that are changed in place.

use crate::halt::Halt;
use crate::numbers::{common_divisor, difference, floor, product, sum};
use ac_forms::{Form, coefficient, set_number};
use std::alloc::{AllocError, Global};

/// A linear form: a coefficient for each column, and a constant.
#[derive(Drop)]
pub struct Line {
    pub coefs: Vec<i128>,
    pub konst: i128,
}

/// Adds a list to another, number by number.
fn add_each(numbers: &mut [i128], others: &[i128]) -> Result<(), Halt> {
    for (number, other) in numbers.iter_mut().zip(others.iter()) {
        if *other != 0 {
            *number = sum(*number, *other)?;
        }
    }
    Ok(())
}

/// Subtracts a list from another, number by number.
fn subtract_each(numbers: &mut [i128], others: &[i128]) -> Result<(), Halt> {
    for (number, other) in numbers.iter_mut().zip(others.iter()) {
        if *other != 0 {
            *number = difference(*number, *other)?;
        }
    }
    Ok(())
}

/// Adds a multiple of a list to another, number by number.
fn add_each_times(numbers: &mut [i128], factor: i128, others: &[i128]) -> Result<(), Halt> {
    for (number, other) in numbers.iter_mut().zip(others.iter()) {
        if *other != 0 {
            *number = sum(*number, product(factor, *other)?)?;
        }
    }
    Ok(())
}

/// Multiplies each number.
fn scale_each(numbers: &mut [i128], factor: i128) -> Result<(), Halt> {
    for number in numbers.iter_mut() {
        if *number != 0 {
            *number = product(factor, *number)?;
        }
    }
    Ok(())
}

/// Divides each number by a positive one, rounded down.
pub(crate) fn divide_each(numbers: &mut [i128], divisor: i128) -> Result<(), Halt> {
    for number in numbers.iter_mut() {
        if *number != 0 {
            *number = floor(*number, divisor)?;
        }
    }
    Ok(())
}

/// The greatest common divisor of a number and of a list.
pub fn content_with(first: i128, numbers: &[i128]) -> Result<i128, Halt> {
    let mut divisor = first;
    for number in numbers {
        if divisor == 1 {
            break;
        }
        if *number != 0 {
            divisor = common_divisor(divisor, *number)?;
        }
    }
    Ok(divisor)
}

/// A list of so many zeros.
pub fn zeros(alloc: Global, count: usize) -> Result<Vec<i128>, AllocError> {
    let mut numbers = Vec::with_capacity(alloc, count)?;
    numbers.resize(count, 0)?;
    Ok(numbers)
}

impl Line {
    /// The form over so many columns.
    pub fn of(alloc: Global, form: &Form, columns: usize) -> Result<Line, AllocError> {
        let mut coefs = Vec::with_capacity(alloc, columns)?;
        coefs.extend_from_slice(form.coefs())?;
        coefs.resize(columns, 0)?;
        Ok(Line {
            coefs,
            konst: form.konst(),
        })
    }

    /// The same line again.
    pub fn copy(&self, alloc: Global) -> Result<Line, AllocError> {
        Ok(Line {
            coefs: Vec::from_slice(alloc, &self.coefs)?,
            konst: self.konst,
        })
    }

    /// The coefficient of a column.
    pub fn coef(&self, column: usize) -> i128 {
        coefficient(&self.coefs, column)
    }

    /// Makes a number the coefficient of a column.
    pub fn set(&mut self, column: usize, number: i128) {
        set_number(self.coefs.as_mut_slice(), column, &number);
    }

    /// Adds a multiple of another line.
    pub fn add(&mut self, factor: i128, other: &Line) -> Result<(), Halt> {
        self.konst = sum(self.konst, product(factor, other.konst)?)?;
        if factor == 1 {
            add_each(self.coefs.as_mut_slice(), &other.coefs)
        } else if factor == -1 {
            subtract_each(self.coefs.as_mut_slice(), &other.coefs)
        } else {
            add_each_times(self.coefs.as_mut_slice(), factor, &other.coefs)
        }
    }

    /// Multiplies the line.
    pub fn scale(&mut self, factor: i128) -> Result<(), Halt> {
        if factor == 1 {
            return Ok(());
        }
        self.konst = product(factor, self.konst)?;
        scale_each(self.coefs.as_mut_slice(), factor)
    }

    /// Divides the line by a positive number, rounded down.
    pub fn divide(&mut self, divisor: i128) -> Result<(), Halt> {
        if divisor == 1 {
            return Ok(());
        }
        self.konst = floor(self.konst, divisor)?;
        divide_each(self.coefs.as_mut_slice(), divisor)
    }

    /// The greatest common divisor of the coefficients, 0 if all are 0.
    pub fn content(&self) -> Result<i128, Halt> {
        content_with(0, &self.coefs)
    }

    /// The value at a point.
    pub fn value_at(&self, point: &[i128]) -> Result<i128, Halt> {
        let mut value = self.konst;
        for (coef, number) in self.coefs.iter().zip(point.iter()) {
            if *coef != 0 && *number != 0 {
                value = sum(value, product(*coef, *number)?)?;
            }
        }
        Ok(value)
    }
}
