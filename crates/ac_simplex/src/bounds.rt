//! Bounds: lines that are not negative at a point.

use ac_simplex_lines::{Halt, Line, Refutation};
use std::alloc::Global;

/// A line that is at least 0, with its number. Of bounds with equal coefficients the marks are equal, and of bounds with opposite
/// coefficients the marks are opposite.
#[derive(Drop)]
pub(crate) struct Bound {
    pub line: Line,
    pub number: usize,
    mark: i64,
}

/// What a new bound is beside one that is known.
#[derive(Clone, Copy)]
enum Beside {
    Other,
    /// Its coefficients are the same.
    Same,
    /// Its coefficients are opposite.
    Opposite,
}

/// An odd number that leaves few collisions of marks (D. Knuth's multiplier of MMIX).
const MULTIPLIER: i64 = 6_364_136_223_846_793_005;

/// The sum of the coefficients of 64 bits, each times a power of the multiplier, modulo 2^64.
fn mark_of(coefs: &[i128]) -> i64 {
    let mut weight = 1i64;
    let mut mark = 0i64;
    for coef in coefs {
        weight = weight.wrapping_mul(MULTIPLIER);
        if *coef != 0 {
            let short = i64::try_from(*coef).unwrap_or(0);
            mark = mark.wrapping_add(weight.wrapping_mul(short));
        }
    }
    mark
}

/// Whether each number is the opposite of the other in its place.
fn are_opposite(numbers: &[i128], others: &[i128]) -> bool {
    for (number, other) in numbers.iter().zip(others.iter()) {
        if number.wrapping_neg() != *other {
            return false;
        }
    }
    true
}

impl Bound {
    pub(crate) fn new(line: Line, number: usize) -> Bound {
        let mark = mark_of(&line.coefs);
        Bound { line, number, mark }
    }

    /// What another bound is beside this one.
    fn beside(&self, other: &Bound) -> Beside {
        if self.mark == other.mark && self.line.coefs.as_slice() == other.line.coefs.as_slice() {
            return Beside::Same;
        }
        if self.mark == other.mark.wrapping_neg()
            && are_opposite(&self.line.coefs, &other.line.coefs)
        {
            return Beside::Opposite;
        }
        Beside::Other
    }

    /// Whether the sum of the constants of two bounds is negative.
    fn refutes(&self, other: &Bound) -> bool {
        self.line.konst.saturating_add(other.line.konst) < 0
    }
}

/// The place of a bound with the same coefficients, or the number of one that the bound refutes.
#[derive(Clone, Copy)]
enum Look {
    New,
    Known(usize),
    Refuted(usize),
}

/// Looks for a bound among those that are known.
fn look_up(known: &[Bound], bound: &Bound) -> Look {
    let mut found = Look::New;
    for (place, other) in known.iter().enumerate() {
        match other.beside(bound) {
            Beside::Other => {}
            Beside::Same => found = Look::Known(place),
            Beside::Opposite => {
                if other.refutes(bound) {
                    return Look::Refuted(other.number);
                }
            }
        }
    }
    found
}

/// Puts a bound among those that are known. Of two with the same coefficients the one with the least constant stays.
pub(crate) fn enter(
    alloc: Global,
    known: &mut Vec<Bound>,
    bound: Bound,
) -> Result<Option<Refutation>, Halt> {
    match look_up(known, &bound) {
        Look::New => known.push(bound)?,
        Look::Known(place) => tighten(known, place, bound),
        Look::Refuted(other) => {
            return Ok(Some(Refutation::of_two(alloc, other, bound.number)?));
        }
    }
    Ok(None)
}

/// Puts a bound in the place of one with the same coefficients if its constant is less.
fn tighten(known: &mut Vec<Bound>, place: usize, bound: Bound) {
    if let Some(other) = known.get_mut(place) {
        if bound.line.konst < other.line.konst {
            *other = bound;
        }
    }
}

/// Whether all bounds hold at a point.
pub(crate) fn hold_at(bounds: &[Bound], point: &[i128]) -> Result<bool, Halt> {
    for bound in bounds {
        if bound.line.value_at(point)? < 0 {
            return Ok(false);
        }
    }
    Ok(true)
}
