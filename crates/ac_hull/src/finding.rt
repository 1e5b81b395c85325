ghost use Rattle.std.specs.Prelude.{◌≡◌, ◌↔◌, ◌⊎◌, ◌<◌, ◌≤◌, ◌^◌, ◌≤ℤ◌, ℕ, ℤ, pos, unsigned_abs, IfOk, IsTrue, length, IfSome};
ghost use Rattle.ac_forms.specs.ListMembers.{IsAmong};
ghost use Rattle.ac_widen.specs.Combinations.{Each};
ghost use Rattle.ac_hull.specs.declared.difference.Difference.{Difference};
ghost use Rattle.ac_hull.specs.ColumnDifferences.{AllMeetRow, GapsFit, IsOfPair, bound, class_of};
ghost use Rattle.ac_hull.specs.HullInternals.Finding.{AddsBounds, AddsClasses, AddsModuli, AddsRow};

use crate::difference::Difference;
use ac_base::Items;
use std::alloc::{AllocError, Global};

/// The rows with one more, if all points meet it.
#[tactic(auto, using(crate::proofs::Findings::row_steps))]
fn with_met(
    made: Items<Difference>,
    points: &[Items<i128>],
    row: Difference,
) -> Result<Items<Difference>, AllocError>
    requires fit { Each GapsFit points.now }
    requires modulus { IfSome row.modulus (λ m. pos 1 ≤ℤ m) }
    requires constant { IfSome row.modulus (λ _. pos 0 ≤ℤ row.constant) }
    ensures { IfOk result (AddsRow points.now row made) }
{
    if !row.is_met(points) {
        return Ok(made);
    }
    let mut made = made;
    made.push(row)?;
    Ok(made)
}

/// The bound of two columns by a number.
#[tactic(auto, using(ac_base::proofs::Bits::again_128))]
fn bound(first: usize, second: usize, constant: &i128) -> Difference
    ensures { result ≡ bound first second constant.now }
{
    Difference {
        first,
        second,
        constant: *constant,
        modulus: None,
    }
}

/// The class of two columns with a modulus.
#[tactic(auto, using(ac_base::proofs::Bits::again_128))]
fn class_row(first: usize, second: usize, modulus: &i128, class: u128) -> Difference
    requires { class < 2 ^ 127 }
    ensures { result ≡ class_of first second modulus.now class }
{
    Difference {
        first,
        second,
        constant: class as i128,
        modulus: Some(*modulus),
    }
}

/// The rows with the bounds of two columns that all points meet.
#[tactic(auto, using(crate::proofs::Findings::bound_steps))]
fn with_bounds(
    made: Items<Difference>,
    points: &[Items<i128>],
    thresholds: &[i128],
    first: usize,
    second: usize,
) -> Result<Items<Difference>, AllocError>
    requires { Each GapsFit points.now }
    ensures { IfOk result (AddsBounds points.now thresholds.now first second made) }
{
    let mut made = made;
    for threshold in thresholds {
        made = with_met(made, points, bound(first, second, threshold))?;
    }
    Ok(made)
}

/// The rows with the classes of a modulus that all points meet.
#[tactic(auto, using(crate::proofs::Findings::class_steps))]
fn with_classes(
    made: Items<Difference>,
    points: &[Items<i128>],
    modulus: &i128,
    first: usize,
    second: usize,
) -> Result<Items<Difference>, AllocError>
    requires fit { Each GapsFit points.now }
    requires modulus { pos 1 ≤ℤ modulus.now }
    ensures { IfOk result (AddsClasses points.now modulus.now (unsigned_abs modulus.now) first second made) }
{
    let mut made = made;
    for class in 0..modulus.unsigned_abs() {
        made = with_met(made, points, class_row(first, second, modulus, class))?;
    }
    Ok(made)
}

/// The rows with the classes of moduli that all points meet.
#[tactic(auto, using(crate::proofs::Findings::moduli_steps))]
fn with_moduli(
    made: Items<Difference>,
    points: &[Items<i128>],
    moduli: &[i128],
    first: usize,
    second: usize,
) -> Result<Items<Difference>, AllocError>
    requires fit { Each GapsFit points.now }
    requires moduli { Each (λ m. pos 1 ≤ℤ m) moduli.now }
    ensures { IfOk result (AddsModuli points.now moduli.now first second made) }
{
    let mut made = made;
    for modulus in moduli {
        made = with_classes(made, points, modulus, first, second)?;
    }
    Ok(made)
}

/// The template rows of two columns that all points meet.
pub(crate) fn met_rows(
    alloc: Global,
    points: &[Items<i128>],
    thresholds: &[i128],
    moduli: &[i128],
    first: usize,
    second: usize,
) -> Result<Items<Difference>, AllocError>
    requires fit { Each GapsFit points.now }
    requires moduli { Each (λ m. pos 1 ≤ℤ m) moduli.now }
    ensures { IfOk result (λ rows. (d : Difference) → IsAmong d rows ↔ (IsOfPair thresholds.now moduli.now first second d × AllMeetRow points.now d)) }
{
    let mut rows = Items::new(alloc);
    if first != second {
        rows = with_bounds(rows, points, thresholds, first, second)?;
    }
    if first < second {
        rows = with_moduli(rows, points, moduli, first, second)?;
    }
    Ok(rows)
}
