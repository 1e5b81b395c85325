use std::alloc::{AllocError, Global};

/// Why there is no point: a sum of lines is a false number, or it is an equality whose divisor does not divide its constant.
#[derive(Drop)]
pub struct Refutation {
    /// The lines with their factors.
    pub terms: Vec<(usize, i128)>,
    /// The divisor of all coefficients of the equality, and its constant.
    pub division: Option<(i128, i128)>,
}

impl Refutation {
    /// The sum of these terms is a false number.
    pub fn of_sum(terms: Vec<(usize, i128)>) -> Refutation {
        Refutation {
            terms,
            division: None,
        }
    }

    /// The sum of two lines is a negative number.
    pub fn of_two(alloc: Global, line: usize, other: usize) -> Result<Refutation, AllocError> {
        let mut terms = Vec::new(alloc);
        terms.push((line, 1))?;
        terms.push((other, 1))?;
        Ok(Refutation::of_sum(terms))
    }
}
