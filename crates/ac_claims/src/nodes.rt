//! The nodes of a plan, one after the other. No plan is too deep: those that are to come wait on a stack.
ghost use Rattle.std.specs.Prelude.{◌≡◌, ◌++◌, map, IfOk, OnOk};
ghost use Rattle.std.specs.List.{flat_map};
ghost use Rattle.ac_claims.specs.PlanNodes.{nodes_behind, nodes_of, nodes_on};

use crate::types::{Plan, PlanNext};
use std::alloc::{AllocError, Global};

/// Puts plans on a stack, the first one on top.
fn put_all<'a>(left: &mut Vec<&'a Plan>, plans: &'a [Plan]) -> Result<(), AllocError>
    ensures { OnOk result (nodes_on (map (λ node. node.now) left.new.items) ≡ flat_map nodes_of plans.now ++ nodes_on (map (λ node. node.now) left.old.items)) }
{
    let mut rest = plans;
    while let Some((plan, before)) = rest.split_last() {
        left.push(plan)?;
        rest = before;
    }
    Ok(())
}

/// Puts the plans of a branch on a stack, the first one on top. An end has none.
fn put_behind<'a>(left: &mut Vec<&'a Plan>, next: &'a PlanNext) -> Result<(), AllocError>
    ensures { OnOk result (nodes_on (map (λ node. node.now) left.new.items) ≡ nodes_behind next.now ++ nodes_on (map (λ node. node.now) left.old.items)) }
{
    match next {
        PlanNext::Split(_, first, second) => {
            left.push(second.as_ref())?;
            left.push(first.as_ref())?;
            Ok(())
        }
        PlanNext::Residue(_, _, children) => {
            put_all(left, children.as_slice())?;
            Ok(())
        }
        PlanNext::Go { cases, .. } => {
            put_all(left, cases.as_slice())?;
            Ok(())
        }
        PlanNext::Absurd(_)
        | PlanNext::Killed(_)
        | PlanNext::Hit(_)
        | PlanNext::SameNumber
        | PlanNext::SameInitial => Ok(()),
    }
}

/// A plan and all plans behind its branches, each before those behind it.
pub fn nodes(alloc: Global, plan: &Plan) -> Result<Vec<&Plan>, AllocError>
    ensures { IfOk result (λ nodes. map (λ node. node.now) nodes.items ≡ nodes_of plan.now) }
{
    let mut all = Vec::new(alloc);
    let mut left = Vec::new(alloc);
    left.push(plan)?;
    while let Some(node) = left.pop() {
        all.push(node)?;
        put_behind(&mut left, &node.next)?;
    }
    Ok(all)
}
