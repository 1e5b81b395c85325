//! Whether plans end at the first of some claims alone.
ghost use Rattle.std.specs.Prelude.{◌↔◌, IfOk, IsTrue};
ghost use Rattle.ac_walk_state.specs.Hits.{HitsWithin, NodeHitsWithin, NodesHitWithin, TreesHitWithin};

use ac_claims::nodes::nodes;
use ac_claims::types::{ClaimTree, Plan, PlanNext};
use std::alloc::{AllocError, Global};

/// Whether a node of a plan, if it is a hit, hits a claim with a number below a limit.
fn node_hits_within(node: &Plan, limit: usize) -> bool
    ensures { IsTrue result ↔ NodeHitsWithin limit node.now.next }
{
    match &node.next {
        PlanNext::Hit(claim) => *claim < limit,
        PlanNext::Split(..)
        | PlanNext::Residue(..)
        | PlanNext::Go { .. }
        | PlanNext::Absurd(_)
        | PlanNext::Killed(_)
        | PlanNext::SameNumber
        | PlanNext::SameInitial => true,
    }
}

/// The same for each of some nodes.
fn nodes_hit_within(nodes: &[&Plan], limit: usize) -> bool
    ensures { IsTrue result ↔ NodesHitWithin limit nodes.now }
{
    for node in nodes {
        if !node_hits_within(*node, limit) {
            return false;
        }
    }
    true
}

/// Whether each claim at which a plan ends has a number below a limit.
fn hits_within(alloc: Global, plan: &Plan, limit: usize) -> Result<bool, AllocError>
    ensures { IfOk result (λ within. IsTrue within ↔ HitsWithin limit plan.now.next) }
{
    let all = nodes(alloc, plan)?;
    let within = nodes_hit_within(all.as_slice(), limit);
    Ok(within)
}

/// Whether each claim at which the plans of claims end has a number below a limit.
pub fn trees_hit_within(
    alloc: Global,
    trees: &[ClaimTree],
    limit: usize,
) -> Result<bool, AllocError>
    ensures { IfOk result (λ within. IsTrue within ↔ TreesHitWithin limit trees.now) }
{
    for tree in trees {
        if !hits_within(alloc, &tree.tree, limit)? {
            return Ok(false);
        }
    }
    Ok(true)
}
