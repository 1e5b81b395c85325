//! Which case of a flow a branch of a read or an output assumes.
ghost use Rattle.std.specs.Prelude.{◌≡◌, Some, true};
ghost use Rattle.ac_unfold.specs.CaseBranches.{count_at, AssumesCase, AssumesSource};

use ac_claims::ending::same_position;
use ac_claims_paths::path::{Assumed, Seat, Side};
use ac_flow::types::{Case, ReadFlow};
use ac_poly::types::Model;
use ac_poly::width;
use ac_syntax::tree::Position;

/// Whether a position of a read or an output has so many coordinates.
fn has_count(model: &Model, position: &Position, count: usize) -> bool
    ensures { result ≡ true → count_at model.now position.now ≡ Some count }
{
    match position {
        Position::Output(array) => match model.extents.get(*array) {
            Some(extents) => extents.len() == count,
            None => false,
        },
        Position::Node { stmt, node: _ } => match model.stmts.get(*stmt) {
            Some(stmt) => width(stmt) == count,
            None => false,
        },
        Position::InitialOutput(_) | Position::InitialNode { .. } => false,
    }
}

/// Whether a seat is that of the root of an assignment, if there is one.
fn is_root(model: &Model, source: usize, seat: &Seat) -> bool
    ensures { result ≡ true → AssumesSource model.now (Some source) (Some seat.now) }
{
    let Some(stmt) = model.stmts.get(source) else {
        return false;
    };
    match &seat.position {
        Position::Node { stmt: s, node } => {
            *s == source && *node == 0 && width(stmt) == seat.width
        }
        _ => false,
    }
}

/// Whether the source of a case is assumed.
fn is_source(model: &Model, source: &Option<usize>, assumed: &Option<Seat>) -> bool
    ensures { result ≡ true → AssumesSource model.now source.now assumed.now }
{
    match (source, assumed) {
        (None, None) => true,
        (Some(source), Some(seat)) => is_root(model, *source, seat),
        _ => false,
    }
}

/// Whether a step of the read or output of a flow, on a side, assumes a case. So it is for each branch of a read and the case
/// with its number.
pub(crate) fn assumes_case(
    params: usize,
    model: &Model,
    side: Side,
    flow: &ReadFlow,
    case: &Case,
    assumed: &Assumed,
) -> bool
    ensures { result ≡ true → AssumesCase params model.now side flow.now case.now assumed.now }
{
    params == model.params
        && is_side(side, assumed.side)
        && same_position(&assumed.reader.position, &flow.position)
        && has_count(model, &flow.position, assumed.reader.width)
        && is_source(model, &case.source, &assumed.source)
}

/// Whether two sides are one.
fn is_side(side: Side, other: Side) -> bool
    ensures { result ≡ true → other ≡ side }
{
    match (side, other) {
        (Side::Left, Side::Left) | (Side::Right, Side::Right) => true,
        _ => false,
    }
}
