//! The certificate of a refutation: the quotients and the rounded lines that it uses, each with its steps, and the last sum.

use crate::derivations::{Derivation, Derivations};
use crate::halt::Halt;
use crate::line::{content_with, divide_each, zeros};
use crate::numbers::{common_divisor, floor, product, remainder, sum};
use crate::refutation::Refutation;
use ac_base::Items;
use ac_cert::types::Step;
use ac_cert::{Absurd, Tree, absurd_tree, behind_steps};
use ac_forms::{Form, coefficient, set_number};
use std::alloc::{AllocError, Global};

/// A sum of multiples of lines: a factor for each line. It is so many times the line that is wanted.
#[derive(Drop)]
struct Combination {
    factors: Vec<i128>,
    scale: i128,
}

/// A rounded line that is used, by its number, and its sum.
#[derive(Drop)]
struct Used {
    number: usize,
    sum: Combination,
}

/// The steps so far, the place of the next row, and the place of the row of each line.
#[derive(Drop)]
struct Path {
    steps: Items<Step>,
    next: usize,
    places: Vec<usize>,
}

/// Whether a line is the sum of those before it, and takes no step of its own.
fn is_inner(derivation: &Derivation) -> bool {
    derivation.quotient.is_none() && !derivation.rounds
}

/// Adds a multiple of terms to factors.
fn add_terms(factors: &mut [i128], factor: i128, terms: &[(usize, i128)]) -> Result<(), Halt> {
    for term in terms {
        let number = sum(coefficient(factors, term.0), product(factor, term.1)?)?;
        set_number(factors, term.0, &number);
    }
    Ok(())
}

/// Multiplies each number.
fn scale_factors(factors: &mut [i128], scale: i128) -> Result<(), Halt> {
    for factor in factors.iter_mut() {
        *factor = product(scale, *factor)?;
    }
    Ok(())
}

impl Combination {
    /// The sum of terms among so many lines, without the lines that take no step of their own.
    fn of(
        alloc: Global,
        terms: &[(usize, i128)],
        scale: i128,
        derivations: &Derivations,
    ) -> Result<Combination, Halt> {
        let mut sum = Combination {
            factors: zeros(alloc, derivations.count())?,
            scale,
        };
        add_terms(sum.factors.as_mut_slice(), 1, terms)?;
        for number in (0..derivations.count()).rev() {
            sum.expand(alloc, number, derivations)?;
        }
        sum.shorten()?;
        Ok(sum)
    }

    /// Replaces a line by its terms, if it takes no step of its own.
    fn expand(
        &mut self,
        alloc: Global,
        number: usize,
        derivations: &Derivations,
    ) -> Result<(), Halt> {
        let factor = coefficient(&self.factors, number);
        if factor == 0 {
            return Ok(());
        }
        if let Some(derivation) = derivations.get(number) {
            if is_inner(derivation) {
                set_number(self.factors.as_mut_slice(), number, &0);
                let terms = derivations.terms_of(alloc, derivation)?;
                return self.replace(factor, derivation.divisor, &terms);
            }
        }
        Ok(())
    }

    /// Adds a multiple of terms, divided: all factors are scaled so that they stay integers.
    fn replace(
        &mut self,
        factor: i128,
        divisor: i128,
        terms: &[(usize, i128)],
    ) -> Result<(), Halt> {
        let common = common_divisor(factor, divisor)?;
        let scale = floor(divisor, common)?;
        if scale != 1 {
            scale_factors(self.factors.as_mut_slice(), scale)?;
            self.scale = product(self.scale, scale)?;
        }
        add_terms(self.factors.as_mut_slice(), floor(factor, common)?, terms)
    }

    /// Divides the factors by their greatest common divisor with the scale.
    fn shorten(&mut self) -> Result<(), Halt> {
        let divisor = content_with(self.scale, &self.factors)?;
        if divisor > 1 {
            self.scale = floor(self.scale, divisor)?;
            divide_each(self.factors.as_mut_slice(), divisor)?;
        }
        Ok(())
    }
}

/// Marks the lines that a sum uses.
fn mark(used: &mut [bool], sum: &Combination) {
    for (mark, factor) in used.iter_mut().zip(sum.factors.iter()) {
        if *factor != 0 {
            *mark = true;
        }
    }
}

/// The rounded line with a number, if it is used.
fn line_in_use(
    alloc: Global,
    derivations: &Derivations,
    used: &[bool],
    number: usize,
) -> Result<Option<Used>, Halt> {
    let Some(derivation) = derivations.get(number) else {
        return Ok(None);
    };
    if !derivation.rounds || used.get(number).copied() != Some(true) {
        return Ok(None);
    }
    let terms = derivations.terms_of(alloc, derivation)?;
    let sum = Combination::of(alloc, &terms, derivation.divisor, derivations)?;
    Ok(Some(Used { number, sum }))
}

/// The rounded lines that are used, the last one first; the lines that are used are marked.
fn lines_in_use(
    alloc: Global,
    derivations: &Derivations,
    used: &mut [bool],
) -> Result<Vec<Used>, Halt> {
    let mut lines = Vec::new(alloc);
    for number in (0..derivations.count()).rev() {
        if let Some(line) = line_in_use(alloc, derivations, used, number)? {
            mark(used, &line.sum);
            lines.push(line)?;
        }
    }
    Ok(lines)
}

/// The one line of a sum, if its factor is 1 and all others are 0.
fn only_line(sum: &Combination) -> Option<usize> {
    let mut found = None;
    for (number, factor) in sum.factors.iter().enumerate() {
        if *factor == 1 && found.is_none() {
            found = Some(number);
        } else if *factor != 0 {
            return None;
        }
    }
    found
}

impl Path {
    /// The places of so many lines: those of the rows are their numbers.
    fn new(alloc: Global, rows: usize, lines: usize) -> Result<Path, AllocError> {
        let mut places = Vec::with_capacity(alloc, lines)?;
        for number in 0..lines {
            places.push(number)?;
        }
        Ok(Path {
            steps: Items::new(alloc),
            next: rows,
            places,
        })
    }

    /// The place of the row of a line.
    fn place(&self, number: usize) -> usize {
        self.places.get(number).copied().unwrap_or(number)
    }

    /// Adds a step, and answers the place of its row.
    fn add(&mut self, step: Step) -> Result<usize, AllocError> {
        let place = self.next;
        self.steps.push(step)?;
        self.next = place.saturating_add(1);
        Ok(place)
    }

    /// Gives a line the place of a row.
    fn name(&mut self, number: usize, place: usize) {
        if let Some(known) = self.places.get_mut(number) {
            *known = place;
        }
    }

    /// The terms of a sum, by places.
    fn terms(&self, alloc: Global, sum: &Combination) -> Result<Items<(usize, i128)>, AllocError> {
        let mut terms = Items::new(alloc);
        for (number, factor) in sum.factors.iter().enumerate() {
            if *factor != 0 {
                terms.push((self.place(number), *factor))?;
            }
        }
        Ok(terms)
    }

    /// Adds a sum, and answers the place of its row. A row by itself takes no step.
    fn add_sum(&mut self, alloc: Global, sum: &Combination) -> Result<usize, AllocError> {
        if let Some(number) = only_line(sum) {
            return Ok(self.place(number));
        }
        let terms = self.terms(alloc, sum)?;
        self.add(Step::Add(terms))
    }

    /// Names the quotients that are used.
    fn add_quotients(
        &mut self,
        derivations: &Derivations,
        used: &[bool],
    ) -> Result<(), AllocError> {
        for (number, is_used) in used.iter().enumerate() {
            if let Some(derivation) = derivations.get(number) {
                if let Some(row) = derivation.quotient {
                    if *is_used {
                        let place = self.add(Step::Quot(row))?;
                        self.name(number, place);
                    }
                }
            }
        }
        Ok(())
    }

    /// Adds the rounded lines, the last one of the list first.
    fn add_lines(&mut self, alloc: Global, lines: &[Used]) -> Result<(), AllocError> {
        for line in lines.iter().rev() {
            let place = self.add_sum(alloc, &line.sum)?;
            let place = self.add(Step::Cut(place, line.sum.scale))?;
            self.name(line.number, place);
        }
        Ok(())
    }

    /// Adds the false number that an equality leaves modulo a divisor of its coefficients, and answers the place of its row.
    fn add_division(
        &mut self,
        alloc: Global,
        equality: usize,
        modulus: i128,
        konst: i128,
    ) -> Result<usize, Halt> {
        let divisible = self.add(Step::DivEq(equality, modulus))?;
        let rest = Form::constant(alloc, 0, remainder(konst, modulus)?)?;
        Ok(self.add(Step::DivMod(divisible, 1, modulus, rest))?)
    }
}

/// The tree of a refutation, for a question with so many rows.
pub fn tree_of(
    alloc: Global,
    rows: usize,
    derivations: &Derivations,
    refutation: &Refutation,
) -> Result<Tree<Absurd>, Halt> {
    let scale = if refutation.division.is_some() { 1 } else { 0 };
    let last = Combination::of(alloc, &refutation.terms, scale, derivations)?;
    let mut used: Vec<bool> = Vec::with_capacity(alloc, derivations.count())?;
    used.resize(derivations.count(), false)?;
    mark(used.as_mut_slice(), &last);
    let lines = lines_in_use(alloc, derivations, used.as_mut_slice())?;
    let mut path = Path::new(alloc, rows, derivations.count())?;
    path.add_quotients(derivations, &used)?;
    path.add_lines(alloc, &lines)?;
    let mut end = path.add_sum(alloc, &last)?;
    if let Some((modulus, konst)) = refutation.division {
        let modulus = product(modulus, last.scale)?;
        end = path.add_division(alloc, end, modulus, product(konst, last.scale)?)?;
    }
    Ok(behind_steps(path.steps, absurd_tree(alloc, end))?)
}
