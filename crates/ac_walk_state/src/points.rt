//! Lists of points.
ghost use Rattle.std.specs.Prelude.{◌≡◌, [], ◌∷◌, ◌++◌, IfOk};
ghost use Rattle.ac_hull.specs.HullStops.{HandsBack};

use ac_base::Items;
use ac_hull::HullStop;
use std::alloc::{AllocError, Global};

/// The points with one more.
pub(crate) fn with_point(
    alloc: Global,
    points: Items<Items<i128>>,
    point: &[i128],
) -> Result<Items<Items<i128>>, AllocError>
    ensures { IfOk result (λ made. made ≡ points ++ point.now ∷ []) }
{
    let mut points = points;
    points.push(Items::from_slice(alloc, point)?)?;
    Ok(points)
}

/// Copies of points.
fn copies(alloc: Global, points: &[Items<i128>]) -> Result<Items<Items<i128>>, AllocError>
    ensures { IfOk result (λ made. made ≡ points.now) }
{
    let mut made = Items::new(alloc);
    for point in points {
        made.push(Items::from_slice(alloc, point.as_slice())?)?;
    }
    Ok(made)
}

/// Copies of points, and one more.
fn copies_with(
    alloc: Global,
    points: &[Items<i128>],
    point: &[i128],
) -> Result<Items<Items<i128>>, AllocError>
    ensures { IfOk result (λ made. made ≡ points.now ++ point.now ∷ []) }
{
    let made = copies(alloc, points)?;
    with_point(alloc, made, point)
}

/// The stop where a number at a point is too large for members.
pub(crate) fn stopped(alloc: Global, members: &[Items<i128>], point: &[i128]) -> HullStop
    ensures { HandsBack (members.now ++ point.now ∷ []) result (Unit {0}) }
{
    match copies_with(alloc, members, point) {
        Ok(points) => HullStop::Overflow(points),
        Err(want) => HullStop::Memory(want),
    }
}
