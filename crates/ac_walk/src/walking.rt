//! The search under one order, turn by turn.
ghost use Rattle.std.specs.Prelude.{◌<◌, IfOk, IfErr, IfSome, length};
ghost use Rattle.ac_walk.specs.SearchEnds.{IsEnd, IsTurn, TurnsOn};
ghost use Rattle.ac_walk.specs.OutputSearch.{IsKnownUnder, IsSearch};
ghost use Rattle.ac_walk.specs.SearchStops.{EndsEarly};

use crate::marks::{Marks, first_marks, marked, waiting};
use crate::planning::{Planning, plan};
use crate::search_types::{Ended, Search};
use crate::stops::Stop;
use crate::taking::{alone, take, unfold};
use ac_syntax::tree::{Order, Site};
use ac_walk_state::{Growth, Known};
use ac_widen::Derivation;
use std::alloc::{AllocError, Global};

/// What is known under an order, and which starts were seen to stand.
#[derive(Drop)]
struct State {
    known: Known,
    marks: Marks,
}

/// What a turn of the search leaves.
#[derive(Drop)]
enum Turn {
    /// There is more to be done.
    Onward(State),
    /// The search has ended.
    Ended(Ended),
}

/// What the paths from a start leave; where there was none, the start stands.
fn turn_of(growth: Growth, marks: Marks, from: Option<usize>) -> Turn
    ensures { TurnsOn growth result }
{
    match growth {
        Growth::Grown(known) => Turn::Onward(State { known, marks }),
        Growth::Mismatch(entries) => Turn::Ended(Ended::Mismatch(Derivation { entries })),
        Growth::Nothing(known) => {
            let marks = marked(marks, known.widening_points.as_slice(), from);
            Turn::Onward(State { known, marks })
        }
    }
}

/// Unfolds the output, or the claim of the widening point with a number.
fn turn_from(
    alloc: Global,
    search: &Search<'_>,
    order: &[(Site, Order)],
    state: State,
    from: Option<usize>,
) -> Result<Turn, Stop>
    requires search { IsSearch search.now }
    requires known { IsKnownUnder search.now order.now state.known }
    requires from { IfSome from (λ at. at < length state.known.widening_points.items) }
    ensures turn { IfOk result (IsTurn search.now order.now) }
    ensures causes { IfErr result (EndsEarly search.now order.now) }
{
    let State { known, marks } = state;
    let growth = unfold(alloc, search, order, known, from)?;
    Ok(turn_of(growth, marks, from))
}

/// Plans the output and the claims, where all were seen to stand.
fn turn_plans(
    alloc: Global,
    search: &Search<'_>,
    order: &[(Site, Order)],
    state: State,
) -> Result<Turn, Stop>
    requires search { IsSearch search.now }
    requires known { IsKnownUnder search.now order.now state.known }
    ensures turn { IfOk result (IsTurn search.now order.now) }
    ensures causes { IfErr result (EndsEarly search.now order.now) }
{
    let State { known, marks } = state;
    match plan(alloc, search, order, &known)? {
        Planning::Part(part) => Ok(Turn::Ended(Ended::Stands(part))),
        Planning::Broken(from, path) => {
            let growth = take(alloc, search, order, known, from, alone(alloc, path)?)?;
            Ok(turn_of(growth, marks, from))
        }
    }
}

/// A turn of the search: the output until it stands, then the first claim that waits, and then the plans.
fn take_turn(
    alloc: Global,
    search: &Search<'_>,
    order: &[(Site, Order)],
    state: State,
) -> Result<Turn, Stop>
    requires search { IsSearch search.now }
    requires known { IsKnownUnder search.now order.now state.known }
    ensures turn { IfOk result (IsTurn search.now order.now) }
    ensures causes { IfErr result (EndsEarly search.now order.now) }
{
    if !state.marks.output {
        return turn_from(alloc, search, order, state, None);
    }
    match waiting(state.known.widening_points.as_slice(), &state.marks) {
        Some(at) => turn_from(alloc, search, order, state, Some(at)),
        None => turn_plans(alloc, search, order, state),
    }
}

/// Searches under an order, from an output up to the given pairs. It ends where the output and all claims stand: with the output's part
/// of a proof, behind as many claims as the search says, which stops at the recurrence pairs under the order; or with a derivation of a
/// mismatch under the order, where each of the given pairs is a recurrence pair.
///
/// It ends early at a question that an unfolding asks, from the claim of the output or of a widening point of what is known under the order: where a
/// number leaves `i128`, or it costs more than the budget; and at one of which a row that comes next cannot be formed. It ends early, too,
/// where too many ends are reached; with obligations at one of the pairs, where a number leaves `i128` as the last of them is taken beside the others;
/// and for want of memory.
pub fn walk(alloc: Global, search: &Search<'_>, order: &[(Site, Order)]) -> Result<Ended, Stop>
    requires { IsSearch search.now }
    ensures ends { IfOk result (IsEnd search.now order.now) }
    ensures causes { IfErr result (EndsEarly search.now order.now) }
{
    let known = Known::new(alloc, &search.program_flows.programs, search.stops)?;
    let marks = first_marks(alloc, known.widening_points.as_slice())?;
    let mut state = State { known, marks };
    for _turn in 0..u64::MAX {
        match take_turn(alloc, search, order, state)? {
            Turn::Onward(next) => {
                state = next;
                continue;
            }
            Turn::Ended(ended) => return Ok(ended),
        }
    }
    Err(Stop::Memory(AllocError))
}
