ghost use Rattle.std.specs.Prelude.{◌≡◌, [], ◌∷◌, ◌++◌, IfOk};
ghost use Rattle.ac_hull.specs.HullInternals.Stopping.{IsStopAt};

use crate::stop::HullStop;
use ac_base::Items;
use ac_forms::FormStop;
use std::alloc::{AllocError, Global};

/// The members, followed by a point.
fn with_point(
    alloc: Global,
    members: &[Items<i128>],
    point: &[i128],
) -> Result<Items<Items<i128>>, AllocError>
    ensures { IfOk result (λ points. points ≡ members.now ++ point.now ∷ []) }
{
    let mut points = Items::new(alloc);
    for member in members {
        points.push(Items::from_slice(alloc, member.as_slice())?)?;
    }
    points.push(Items::from_slice(alloc, point)?)?;
    Ok(points)
}

/// The stop of a call on a hull with these members, at a point.
pub(crate) fn stopped(
    alloc: Global,
    members: &[Items<i128>],
    point: &[i128],
    stop: FormStop,
) -> HullStop
    ensures { IsStopAt (members.now ++ point.now ∷ []) stop result }
{
    match stop {
        FormStop::Wide => match with_point(alloc, members, point) {
            Ok(points) => HullStop::Overflow(points),
            Err(want) => HullStop::Memory(want),
        },
        FormStop::Memory(want) => HullStop::Memory(want),
    }
}
