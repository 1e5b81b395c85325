//! A step of the pair of positions.
ghost use Rattle.std.specs.Prelude.{◌≡◌, [], List, Some};
ghost use Rattle.ac_claims_paths.specs.WellFormedPaths.{HasModuli, IsFormed};
ghost use Rattle.ac_claims_paths.specs.PathSteps.{Pairing, branches};
ghost use Rattle.ac_claims_paths.specs.declared.path.Path.{Path};
ghost use Rattle.ac_claims.specs.declared.types.Claim.{Claim};
ghost use Rattle.ac_claims.specs.declared.types.PlanNext.{Go};
ghost use Rattle.ac_claims_plans.specs.declared.embedding.Embedding.{Embedding};
ghost use Rattle.ac_claims_plans.specs.QuestionPaths.{IsPlanFor, ArePlansFor};

use crate::embedded_plans::plan_of;
use ac_claims::types::{Plan, PlanNext};
use ac_syntax::tree::Order;
use std::alloc::Global;

/// A step of the pair, with a plan for each of its branches. Where these are plans for the branches of a question, each placed
/// as behind the step, it is a plan for the question.
pub fn step_plan(alloc: Global, order: Order, cases: Vec<Plan>) -> Plan
    ensures steps { result.steps ≡ [] }
    ensures next { result.next ≡ Go order cases }
    ensures follows { (g : Pairing) → HasModuli g.left → HasModuli g.right → (cs : List Claim) (s : Embedding) (q : Path) (bs : List Path) → IsFormed g.params q → branches g order q ≡ Some bs → ArePlansFor g cs s q bs cases.items → IsPlanFor g cs s q result }
{
    plan_of(alloc, PlanNext::Go { order, cases })
}
