//! Which starts were seen to stand.
ghost use Rattle.std.specs.Prelude.{◌<◌, IfSome, length};

use ac_walk_state::WideningPoint;
use std::alloc::{AllocError, Global};

/// Whether the output was seen to stand, and for each widening point how many members it had when its claim was.
#[derive(Drop)]
pub(crate) struct Marks {
    pub output: bool,
    pub members: Vec<usize>,
}

/// The output was not seen to stand; claims without members stand.
pub(crate) fn first_marks(
    alloc: Global,
    widening_points: &[WideningPoint],
) -> Result<Marks, AllocError> {
    Ok(Marks {
        output: false,
        members: vec![in alloc; 0; widening_points.len()]?,
    })
}

/// How many members a widening point had when its claim was seen to stand.
fn stood_with(marks: &Marks, at: usize) -> usize {
    match marks.members.get(at) {
        Some(count) => *count,
        None => 0,
    }
}

/// The first widening point whose claim grew since it was seen to stand.
pub(crate) fn waiting(widening_points: &[WideningPoint], marks: &Marks) -> Option<usize>
    ensures { IfSome result (λ at. at < length widening_points.now) }
{
    for (at, widening_point) in widening_points.iter().enumerate() {
        if widening_point.count() != stood_with(marks, at) {
            return Some(at);
        }
    }
    None
}

/// The marks, with one for the output, or for the widening point with a number.
pub(crate) fn marked(
    marks: Marks,
    widening_points: &[WideningPoint],
    from: Option<usize>,
) -> Marks {
    let Marks { output, members } = marks;
    let mut members = members;
    match from {
        Some(at) => {
            if at < members.len() && at < widening_points.len() {
                members[at] = widening_points[at].count();
            }
            Marks { output, members }
        }
        None => Marks {
            output: true,
            members,
        },
    }
}
