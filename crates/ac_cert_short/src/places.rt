//! The places of rows on a path without gaps.
ghost use Rattle.std.specs.Prelude.{◌≡◌, ℕ, length, IfOk};
ghost use Rattle.ac_cert_short.specs.DraftRelations.{moved, moved_terms, place};

use ac_base::Items;
use ac_cert::types::Step;
use std::alloc::{AllocError, Global};

/// The new place of a row. One that is not there keeps its place.
pub(crate) fn place(places: &[usize], row: usize) -> usize
    ensures { result ≡ place places.now row }
{
    match places.get(row) {
        Some(place) => *place,
        None => row,
    }
}

/// The terms of a sum, with the rows at their new places.
fn moved_terms(
    alloc: Global,
    places: &[usize],
    terms: &[(usize, i128)],
) -> Result<Items<(usize, i128)>, AllocError>
    ensures { IfOk result (λ moved. moved ≡ moved_terms places.now terms.now) }
{
    let mut moved = Items::new(alloc);
    for term in terms {
        moved.push((place(places, term.0), term.1))?;
    }
    Ok(moved)
}

/// A step, with the rows at their new places.
pub(crate) fn moved(alloc: Global, places: &[usize], step: Step) -> Result<Step, AllocError>
    ensures { IfOk result (λ made. made ≡ moved places.now step) }
{
    match step {
        Step::Add(terms) => Ok(Step::Add(moved_terms(alloc, places, terms.as_slice())?)),
        Step::Cut(row, divisor) => Ok(Step::Cut(place(places, row), divisor)),
        Step::DivScale(row, factor) => Ok(Step::DivScale(place(places, row), factor)),
        Step::DivAdd(row, factor, second, other) => Ok(Step::DivAdd(
            place(places, row),
            factor,
            place(places, second),
            other,
        )),
        Step::DivMod(row, divisor, modulus, form) => {
            Ok(Step::DivMod(place(places, row), divisor, modulus, form))
        }
        Step::DivEq(row, modulus) => Ok(Step::DivEq(place(places, row), modulus)),
        Step::Quot(row) => Ok(Step::Quot(place(places, row))),
        Step::Floor(divisor, form) => Ok(Step::Floor(divisor, form)),
        Step::EqCut(first, second) => {
            Ok(Step::EqCut(place(places, first), place(places, second)))
        }
    }
}

/// The numbers up to a count, which are the places of rows that stay.
pub(crate) fn same_places(alloc: Global, count: usize) -> Result<Vec<usize>, AllocError>
    ensures long { IfOk result (λ places. length places.items ≡ count) }
    ensures same { IfOk result (λ places. (i : ℕ) → place places.items i ≡ i) }
{
    let mut places = Vec::new(alloc);
    for row in 0..count {
        places.push(row).map_err(AllocError::from)?;
    }
    Ok(places)
}
