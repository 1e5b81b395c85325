//! The column with the fewest splinters.
ghost use Rattle.std.specs.Prelude.{◌≡◌, ℕ, List, Option, Some, IfOk, false, option_map};
ghost use Rattle.ac_forms.specs.declared.row.Row.{Row};
ghost use Rattle.ac_omega_steps.specs.Bounds.{is_one_sided};
ghost use Rattle.ac_omega.specs.ColumnChoice.{better, excess_key, fewest, precedes, precedes_by_two, splinter_key};
ghost use Rattle.ac_omega.specs.Fewest.{candidate_of};

use crate::needs::splinter_count;
use crate::ranking::{excess_of, less};
use crate::scan::is_one_sided;
use ac_forms::Row;
use ac_omega_certify::Strategy;
use std::alloc::{AllocError, Global};

/// A column that rows bound from both sides, with the numbers by which it is compared.
#[derive(Clone, Copy)]
pub(crate) struct Candidate {
    /// The column.
    pub(crate) column: usize,
    /// How many splinters its lower rows have, where that is a number of `i128`.
    pub(crate) splinters: Option<i128>,
    /// By how many rows its pairs exceed its bounds.
    pub(crate) excess: i128,
}

/// How many splinters the lower rows of a column have together; none exactly where that, or a number that makes them, leaves
/// `i128`.
fn splinters_of(alloc: Global, z: usize, rows: &[Row]) -> Result<Option<i128>, AllocError>
    requires { is_one_sided z rows.now ≡ false }
    ensures { IfOk result (λ count. count ≡ splinter_key rows.now z) }
{
    let mut total: u128 = 0;
    for row in rows {
        match splinter_count(alloc, Strategy::Economical, z, rows, &None, row) {
            Err(want) => return Err(want),
            Ok(None) => return Ok(None),
            Ok(Some(count)) => match total.checked_add(count) {
                None => return Ok(None),
                Some(more) => total = more,
            },
        }
    }
    Ok(i128::try_from(total).ok())
}

/// A column with its numbers.
fn weighed(alloc: Global, z: usize, rows: &[Row]) -> Result<Candidate, AllocError>
    requires { is_one_sided z rows.now ≡ false }
    ensures { IfOk result (λ made. made ≡ candidate_of rows.now z) }
{
    let splinters = splinters_of(alloc, z, rows)?;
    Ok(Candidate {
        column: z,
        splinters,
        excess: excess_of(z, rows),
    })
}

/// Whether a candidate comes before another by its excess, then by its column.
fn is_before(first: &Candidate, second: &Candidate) -> bool
    ensures { (rows : List Row) (x y : ℕ) → first.now ≡ candidate_of rows x → second.now ≡ candidate_of rows y → result ≡ precedes (excess_key rows) x y }
{
    first.excess < second.excess || (first.excess <= second.excess && first.column < second.column)
}

/// Whether it comes before another by its splinters, then by the others.
fn precedes(first: &Candidate, second: &Candidate) -> bool
    ensures { (rows : List Row) (x y : ℕ) → first.now ≡ candidate_of rows x → second.now ≡ candidate_of rows y → result ≡ precedes_by_two (splinter_key rows) (excess_key rows) x y }
{
    less(&first.splinters, &second.splinters)
        || (!less(&second.splinters, &first.splinters) && is_before(first, second))
}

/// The better of the best candidate so far and one more.
fn better(best: &Option<Candidate>, next: &Candidate) -> Candidate
    ensures { (rows : List Row) (o : Option ℕ) (z : ℕ) → best.now ≡ option_map (candidate_of rows) o → next.now ≡ candidate_of rows z → Some result ≡ option_map (candidate_of rows) (better (precedes_by_two (splinter_key rows) (excess_key rows)) o z) }
{
    match best {
        None => *next,
        Some(candidate) => {
            if precedes(next, candidate) {
                *next
            } else {
                *candidate
            }
        }
    }
}

/// The column of a candidate.
fn column_of(best: &Option<Candidate>) -> Option<usize>
    ensures { (rows : List Row) (o : Option ℕ) → best.now ≡ option_map (candidate_of rows) o → result ≡ o }
{
    match best {
        None => None,
        Some(candidate) => Some(candidate.column),
    }
}

/// Of the columns that rows bound from both sides the one with the fewest splinters, and of those the one whose pairs exceed
/// its bounds least.
pub(crate) fn fewest(
    alloc: Global,
    vars: &[usize],
    rows: &[Row],
) -> Result<Option<usize>, AllocError>
    ensures { IfOk result (λ best. best ≡ fewest vars.now rows.now) }
{
    let mut best: Option<Candidate> = None;
    for z in vars {
        if !is_one_sided(*z, rows) {
            match weighed(alloc, *z, rows) {
                Ok(next) => best = Some(better(&best, &next)),
                Err(want) => return Err(want),
            }
        }
    }
    Ok(column_of(&best))
}
