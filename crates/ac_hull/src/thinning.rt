ghost use Rattle.std.specs.Prelude.{◌≡◌, ◌↔◌, ◌++◌, IsTrue, IfOk};
ghost use Rattle.ac_forms.specs.ListMembers.{IsAmong};
ghost use Rattle.ac_widen.specs.Combinations.{Each};
ghost use Rattle.ac_hull.specs.declared.difference.Difference.{Difference};
ghost use Rattle.ac_hull.specs.ColumnDifferences.{AllMeetRow, GapsFit, IsSum, IsThin, IsWeaker};
ghost use Rattle.ac_hull.specs.HullInternals.Thinning.{IsRedundant};

use crate::difference::Difference;
use ac_base::Items;
use std::alloc::{AllocError, Global};

/// Whether a row says no more than one of others.
fn is_weaker_than_one(row: &Difference, others: &[Difference], points: &[Items<i128>]) -> bool
    requires { Each GapsFit points.now }
    ensures { IsTrue result ↔ ((e : Difference) × IsAmong e others.now × IsWeaker points.now e row.now) }
{
    for other in others {
        if row.is_weaker(other, points) {
            return true;
        }
    }
    false
}

/// Whether a row says no more than the sum of another and one of others.
fn is_sum_with(row: &Difference, left: &Difference, others: &[Difference]) -> bool
    ensures { IsTrue result ↔ ((b : Difference) × IsAmong b others.now × IsSum left.now b row.now) }
{
    for right in others {
        if row.is_sum(left, right) {
            return true;
        }
    }
    false
}

/// Whether a row says no more than the sum of two of others.
fn is_sum_of_two(row: &Difference, others: &[Difference]) -> bool
    ensures { IsTrue result ↔ ((a : Difference) × (b : Difference) × IsAmong a others.now × IsAmong b others.now × IsSum a b row.now) }
{
    for left in others {
        if left.first == row.first && is_sum_with(row, left, others) {
            return true;
        }
    }
    false
}

/// Whether a row is left out, with others about.
fn is_redundant(row: &Difference, others: &[Difference], points: &[Items<i128>]) -> bool
    requires { Each GapsFit points.now }
    ensures { IsTrue result ↔ IsRedundant points.now others.now row.now }
{
    row.is_constant(points) || is_weaker_than_one(row, others, points) || is_sum_of_two(row, others)
}

/// Two lists of rows, one behind the other.
pub(crate) fn joined(
    alloc: Global,
    front: &[Difference],
    back: &[Difference],
) -> Result<Items<Difference>, AllocError>
    ensures { IfOk result (λ made. made ≡ front.now ++ back.now) }
{
    let mut made = Vec::new(alloc);
    made.extend_from_slice(front)?;
    made.extend_from_slice(back)?;
    Ok(Items::from(made))
}

/// Of rows that all points meet those that a claim keeps. They are taken in order, and each is left out where it says no more
/// than others that are kept or still to come.
pub(crate) fn thinned(
    alloc: Global,
    rows: &[Difference],
    points: &[Items<i128>],
) -> Result<Items<Difference>, AllocError>
    requires fit { Each GapsFit points.now }
    requires met { Each (AllMeetRow points.now) rows.now }
    ensures { IfOk result (IsThin points.now (λ d. IsAmong d rows.now)) }
{
    let mut kept = Items::new(alloc);
    for at in 0..rows.len() {
        let others = joined(alloc, kept.as_slice(), &rows[at + 1..])?;
        if !is_redundant(&rows[at], others.as_slice(), points) {
            kept.push(rows[at])?;
        }
    }
    Ok(kept)
}
