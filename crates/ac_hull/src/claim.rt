ghost use Rattle.std.specs.Prelude.{◌≡◌, ◌↔◌, ◌<◌, ◌^◌, ◌+◌, ◌≤ℤ◌, ℤ, pos, List, [], IfOk, IsTrue, length, map, ℕ};
ghost use Rattle.ac_forms.specs.Fits.{Fits};
ghost use Rattle.ac_forms.specs.FormStops.{MadeWhere};
ghost use Rattle.ac_forms.specs.ListMembers.{IsAmong};
ghost use Rattle.ac_widen.specs.Combinations.{Each};
ghost use Rattle.ac_widen.specs.WideningLaws.{AreEnough};
ghost use Rattle.ac_widen.specs.Walks.{narrowed_by};
ghost use Rattle.ac_hull.specs.ClaimRows.{AreClaimRows};
ghost use Rattle.ac_hull.specs.ColumnDifferences.{GapsFit, IsMetRow, IsThin, gap, row_of};
ghost use Rattle.ac_hull.specs.HullInternals.Gathering.{Gathers, OfFirst, OfFirsts, OfPair};
ghost use Rattle.ac_hull.specs.Templates.{template_rows};

use crate::difference::{Difference, gap};
use crate::finding::met_rows;
use crate::templates::difference;
use crate::thinning::{joined, thinned};
use ac_base::Items;
use ac_forms::{FormStop, Row};
use std::alloc::{AllocError, Global};

/// The template rows that a claim keeps, where found members of a recurrence pair have these points: rows that all of them
/// meet, from which, on their hull, all others follow that all of them meet. No row that is kept has one value on all
/// points, none says no more than another there, and none is the sum of two. A point has a number for each column.
/// `Wide` exactly where a difference of two numbers of a point, or of one and 0, leaves `i128`.
pub fn claim_rows(
    alloc: Global,
    columns: usize,
    thresholds: &[i128],
    moduli: &[i128],
    found: &[Items<i128>],
) -> Result<Items<Row>, FormStop>
    requires columns { columns < usize.MAX }
    requires widths { Each (λ p. length p ≡ columns) found.now }
    requires moduli { Each (λ m. pos 1 ≤ℤ m) moduli.now }
    ensures rows { MadeWhere result (Each GapsFit found.now) (AreClaimRows columns thresholds.now moduli.now found.now) }
    ensures enough { IfOk result (λ rows. (members : List (List ℤ)) → Each (λ p. IsAmong p found.now) members → AreEnough members (narrowed_by (template_rows columns thresholds.now moduli.now) found.now) rows) }
{
    if !gaps_fit(columns, found) {
        return Err(FormStop::Wide);
    }
    let kept = kept_rows(alloc, columns, thresholds, moduli, found)?;
    Ok(rows_of(alloc, columns, kept.as_slice())?)
}

/// Whether each difference of two columns is a number of `i128` at all points.
fn gaps_fit(columns: usize, points: &[Items<i128>]) -> bool
    requires columns { columns < usize.MAX }
    requires widths { Each (λ p. length p ≡ columns) points.now }
    ensures { IsTrue result ↔ Each GapsFit points.now }
{
    for point in points {
        if !gaps_fit_at(columns, point.as_slice()) {
            return false;
        }
    }
    true
}

/// Whether each difference of two columns is a number of `i128` at a point.
fn gaps_fit_at(columns: usize, point: &[i128]) -> bool
    requires columns { columns < usize.MAX }
    requires width { length point.now ≡ columns }
    ensures { IsTrue result ↔ GapsFit point.now }
{
    for first in 0..columns + 1 {
        if !gaps_fit_from(columns, point, first) {
            return false;
        }
    }
    true
}

/// Whether each difference of a column to another is a number of `i128` at a point.
fn gaps_fit_from(columns: usize, point: &[i128], first: usize) -> bool
    requires { columns < usize.MAX }
    ensures { IsTrue result ↔ ((t : ℕ) → t < columns + 1 → Fits (gap first t point.now)) }
{
    for second in 0..columns + 1 {
        if gap(point, first, second).is_err() {
            return false;
        }
    }
    true
}

/// The rows with those of two columns that are kept of the ones that all points meet.
fn with_pair(
    alloc: Global,
    made: &[Difference],
    points: &[Items<i128>],
    thresholds: &[i128],
    moduli: &[i128],
    first: usize,
    second: usize,
) -> Result<Items<Difference>, AllocError>
    requires fit { Each GapsFit points.now }
    requires moduli { Each (λ m. pos 1 ≤ℤ m) moduli.now }
    ensures { IfOk result (Gathers points.now (OfPair thresholds.now moduli.now points.now first second) made.now) }
{
    let rows = met_rows(alloc, points, thresholds, moduli, first, second)?;
    let kept = thinned(alloc, rows.as_slice(), points)?;
    joined(alloc, made, kept.as_slice())
}

/// The rows with those of a first column.
fn with_first(
    alloc: Global,
    columns: usize,
    made: Items<Difference>,
    points: &[Items<i128>],
    thresholds: &[i128],
    moduli: &[i128],
    first: usize,
) -> Result<Items<Difference>, AllocError>
    requires columns { columns < usize.MAX }
    requires fit { Each GapsFit points.now }
    requires moduli { Each (λ m. pos 1 ≤ℤ m) moduli.now }
    ensures { IfOk result (Gathers points.now (OfFirst thresholds.now moduli.now points.now first (columns + 1)) made) }
{
    let mut made = made;
    for second in 0..columns + 1 {
        made = with_pair(
            alloc,
            made.as_slice(),
            points,
            thresholds,
            moduli,
            first,
            second,
        )?;
    }
    Ok(made)
}

/// Of the template rows that all points meet those that are kept pair by pair.
fn gathered(
    alloc: Global,
    columns: usize,
    thresholds: &[i128],
    moduli: &[i128],
    points: &[Items<i128>],
) -> Result<Items<Difference>, AllocError>
    requires columns { columns < usize.MAX }
    requires fit { Each GapsFit points.now }
    requires moduli { Each (λ m. pos 1 ≤ℤ m) moduli.now }
    ensures { IfOk result (Gathers points.now (OfFirsts thresholds.now moduli.now points.now (columns + 1) (columns + 1)) []) }
{
    let mut made = Items::new(alloc);
    for first in 0..columns + 1 {
        made = with_first(alloc, columns, made, points, thresholds, moduli, first)?;
    }
    Ok(made)
}

/// Of the template rows that all points meet those that a claim keeps.
fn kept_rows(
    alloc: Global,
    columns: usize,
    thresholds: &[i128],
    moduli: &[i128],
    points: &[Items<i128>],
) -> Result<Items<Difference>, AllocError>
    requires columns { columns < usize.MAX }
    requires fit { Each GapsFit points.now }
    requires moduli { Each (λ m. pos 1 ≤ℤ m) moduli.now }
    ensures { IfOk result (IsThin points.now (IsMetRow columns thresholds.now moduli.now points.now)) }
{
    let rows = gathered(alloc, columns, thresholds, moduli, points)?;
    thinned(alloc, rows.as_slice(), points)
}

/// The rows of differences.
fn rows_of(
    alloc: Global,
    columns: usize,
    differences: &[Difference],
) -> Result<Items<Row>, AllocError>
    ensures { IfOk result (λ rows. rows ≡ map (row_of columns) differences.now) }
{
    let mut rows = Items::new(alloc);
    for row in differences {
        rows.push(row_of(alloc, columns, row)?)?;
    }
    Ok(rows)
}

/// The row of a difference.
fn row_of(alloc: Global, columns: usize, row: &Difference) -> Result<Row, AllocError>
    ensures { IfOk result (λ made. made ≡ row_of columns row.now) }
{
    let form = difference(alloc, columns, row.first, row.second, row.constant)?;
    Ok(match row.modulus {
        None => Row::Ge(form),
        Some(modulus) => Row::Div(modulus, form),
    })
}
