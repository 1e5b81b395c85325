//! Which step of a pair is taken: the order of two calls, and the flow of a read or an output.
ghost use Rattle.std.specs.Prelude.{◌≡◌, IfSome, option_copied};
ghost use Rattle.ac_forms.specs.ListMembers.{IsAmong};
ghost use Rattle.ac_claims_paths.specs.PathSteps.{seat_of};
ghost use Rattle.ac_widen_programs.specs.PairPathSteps.{flow_on};
ghost use Rattle.ac_unfold_plans.specs.ArgumentOrders.{order_of};
ghost use Rattle.ac_unfold.specs.PositionFlow.{flow_at};

use crate::types::ProgramFlows;
use ac_claims::ending::same_position;
use ac_claims_paths::path::{Path, Side};
use ac_flow::types::ReadFlow;
use ac_syntax::tree::{Order, Position, Site};

/// The order of a pair of calls: that of the first place of the list at which it stands, and `Keep` where there is none.
pub fn order_at(order: &[(Site, Order)], left: &Position, right: &Position) -> Order
    ensures { result ≡ order_of order.now (left.now, right.now) }
{
    for choice in order {
        if same_position(&choice.0.left, left) && same_position(&choice.0.right, right) {
            return choice.1;
        }
    }
    Order::Keep
}

/// The first flow of a position, if there is one.
fn flow_at<'a>(flows: &'a [ReadFlow], position: &Position) -> Option<&'a ReadFlow>
    ensures among { IfSome result (λ flow. IsAmong flow.now flows.now) }
    ensures position { IfSome result (λ flow. flow.now.position ≡ position.now) }
    ensures first { option_copied result ≡ flow_at flows.now position.now }
{
    for flow in flows {
        if same_position(&flow.position, position) {
            return Some(flow);
        }
    }
    None
}

/// The flow of the read or output that stands on a side of a path: the first of its position, if the setting has one.
pub fn flow_of<'a>(
    program_flows: &ProgramFlows<'a>,
    path: &Path,
    side: Side,
) -> Option<&'a ReadFlow>
    ensures among { IfSome result (λ flow. IsAmong flow.now (flow_on program_flows.now.left_flow.now program_flows.now.right_flow.now side).reads) }
    ensures position { IfSome result (λ flow. flow.now.position ≡ (seat_of path.now side).position) }
    ensures first { option_copied result ≡ flow_at (flow_on program_flows.now.left_flow.now program_flows.now.right_flow.now side).reads (seat_of path.now side).position }
{
    match side {
        Side::Left => flow_at(
            program_flows.left_flow.reads.as_slice(),
            &path.left.position,
        ),
        Side::Right => flow_at(
            program_flows.right_flow.reads.as_slice(),
            &path.right.position,
        ),
    }
}
