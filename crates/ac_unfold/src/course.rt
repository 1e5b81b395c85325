//! A plan under way: the node that it has come to, and the branches on rows behind which it stands.
ghost use Rattle.std.specs.Prelude.{◌≡◌, ◌++◌, ◌∷◌, [], IfOk};
ghost use Rattle.ac_claims_paths.specs.PathSteps.{at_rows};
ghost use Rattle.ac_claims_plans.specs.Embeddings.{advanced};
ghost use Rattle.ac_claims_plans.specs.BranchSides.{on_side, side_of};
ghost use Rattle.ac_unfold.specs.OpenBranches.{IsBehind, IsBranched, HasBranchMore};

use crate::node::Node;
use ac_claims::types::Plan;
use ac_claims_plans::{Embedding, Part, branch_plan};
use ac_forms::Row;
use std::alloc::{AllocError, Global};

/// A branch that is open: a row, where it was branched on, and the plans of the parts of its negation.
#[derive(Drop)]
struct Open {
    embedding: Embedding,
    row: Row,
    outside: Vec<Plan>,
}

/// The node that a plan has come to, behind branches.
#[derive(Drop)]
pub(crate) struct Course {
    pub node: Node,
    branches: Vec<Open>,
}

impl Course {
    /// At a node, behind no branch.
    pub(crate) fn new(alloc: Global, node: Node) -> Course
        ensures node { result.node ≡ node }
        ensures branches { result.branches.items ≡ [] }
    {
        Course {
            node,
            branches: Vec::new(alloc),
        }
    }

    /// Behind a branch on a row too, of whose negation these are the plans; the node is what is given.
    fn with_branch(
        self,
        alloc: Global,
        row: &Row,
        outside: Vec<Plan>,
        node: Node,
    ) -> Result<Course, AllocError>
        ensures node { IfOk result (λ course. course.node ≡ node) }
        ensures with_branch { IfOk result (HasBranchMore self row.now outside.items) }
    {
        let Course {
            node: before,
            mut branches,
        } = self;
        branches.push(Open {
            embedding: before.embedding,
            row: row.copy(alloc)?,
            outside,
        })?;
        Ok(Course { node, branches })
    }

    /// Behind a branch on a row, which the question has from then on.
    pub(crate) fn within(
        self,
        alloc: Global,
        row: &Row,
        inside: &Part,
        outside: Vec<Plan>,
    ) -> Result<Course, AllocError>
        ensures question { IfOk result (λ course. course.node.question ≡ at_rows self.node.question (side_of self.node.question.conj inside.now)) }
        ensures embedding { IfOk result (λ course. course.node.embedding ≡ on_side self.node.embedding inside.now) }
        ensures pair_path { IfOk result (λ course. course.node.pair_path ≡ self.node.pair_path) }
        ensures with_branch { IfOk result (HasBranchMore self row.now outside.items) }
    {
        let node = self.node.within(alloc, inside)?;
        self.with_branch(alloc, row, outside, node)
    }

    /// Behind a branch on a row, which stands on the path; the question stays.
    pub(crate) fn beyond(
        self,
        alloc: Global,
        row: &Row,
        inside: &Part,
        outside: Vec<Plan>,
    ) -> Result<Course, AllocError>
        ensures question { IfOk result (λ course. course.node.question ≡ self.node.question) }
        ensures embedding { IfOk result (λ course. course.node.embedding ≡ advanced self.node.embedding inside.now.path_columns inside.now.path_rows) }
        ensures pair_path { IfOk result (λ course. course.node.pair_path ≡ self.node.pair_path) }
        ensures with_branch { IfOk result (HasBranchMore self row.now outside.items) }
    {
        let node = self.node.beyond(alloc, inside)?;
        self.with_branch(alloc, row, outside, node)
    }

    /// The plan that ends as said, behind all branches.
    pub(crate) fn closed(self, alloc: Global, end: Plan) -> Result<Plan, AllocError>
        ensures { IfOk result (IsBehind self.branches.items end) }
    {
        let Course {
            node: _,
            mut branches,
        } = self;
        let mut plan = end;
        while let Some(last) = branches.pop() {
            plan = behind(alloc, last, plan)?;
        }
        Ok(plan)
    }
}

/// The plan of a branch whose inside is a plan.
fn behind(alloc: Global, branch: Open, inside: Plan) -> Result<Plan, AllocError>
    ensures { IfOk result (IsBranched branch inside) }
{
    let Open {
        embedding,
        row,
        outside,
    } = branch;
    branch_plan(alloc, &embedding, &row, inside, outside)
}
