//! A certificate that a question has no point, as a plan on the path that the question stands on.
ghost use Rattle.std.specs.Prelude.{◌≡◌, [], map, List, IfOk};
ghost use Rattle.ac_forms.specs.Rows.{IsWellMade};
ghost use Rattle.ac_forms.specs.declared.conj.Conj.{Conj};
ghost use Rattle.ac_cert.specs.AcceptedTrees.{Accepts, absurd_refusals};
ghost use Rattle.ac_claims_paths.specs.PathSteps.{Pairing};
ghost use Rattle.ac_claims_paths.specs.declared.path.Path.{Path};
ghost use Rattle.ac_claims.specs.declared.types.Claim.{Claim};
ghost use Rattle.ac_claims_plans.specs.Embeddings.{moved_step, moved_terms};
ghost use Rattle.ac_claims_plans.specs.PlanAcceptance.{AreMoved, IsMoved, IsMovedNext, Serves};

use crate::embedding::Embedding;
use ac_base::Items;
use ac_cert::types::Step;
use ac_cert::{Absurd, Next, Tree};
use ac_claims::types::{Plan, PlanNext};
use std::alloc::{AllocError, Global};

/// A plan without steps.
pub fn plan_of(alloc: Global, next: PlanNext) -> Plan
    ensures steps { result.steps ≡ [] }
    ensures next { result.next ≡ next }
{
    Plan {
        steps: Items::new(alloc),
        next,
    }
}

/// Multiples of rows of the path.
fn moved_pairs(
    alloc: Global,
    embedding: &Embedding,
    pairs: &[(usize, i128)],
) -> Result<Items<(usize, i128)>, AllocError>
    ensures { IfOk result (λ moved. moved ≡ moved_terms embedding.now pairs.now) }
{
    let mut moved = Items::new(alloc);
    for pair in pairs {
        moved.push((embedding.row(pair.0)?, pair.1))?;
    }
    Ok(moved)
}

/// A step on the path.
pub fn moved_step(alloc: Global, embedding: &Embedding, step: &Step) -> Result<Step, AllocError>
    ensures { IfOk result (λ moved. moved ≡ moved_step embedding.now step.now) }
{
    match step {
        Step::Add(pairs) => Ok(Step::Add(moved_pairs(alloc, embedding, pairs.as_slice())?)),
        Step::Cut(row, divisor) => Ok(Step::Cut(embedding.row(*row)?, *divisor)),
        Step::DivScale(row, factor) => Ok(Step::DivScale(embedding.row(*row)?, *factor)),
        Step::DivAdd(row, factor, second, other) => Ok(Step::DivAdd(
            embedding.row(*row)?,
            *factor,
            embedding.row(*second)?,
            *other,
        )),
        Step::DivMod(row, divisor, modulus, form) => Ok(Step::DivMod(
            embedding.row(*row)?,
            *divisor,
            *modulus,
            embedding.form(alloc, form)?,
        )),
        Step::DivEq(row, modulus) => Ok(Step::DivEq(embedding.row(*row)?, *modulus)),
        Step::Quot(row) => Ok(Step::Quot(embedding.row(*row)?)),
        Step::Floor(divisor, form) => Ok(Step::Floor(*divisor, embedding.form(alloc, form)?)),
        Step::EqCut(first, second) => {
            Ok(Step::EqCut(embedding.row(*first)?, embedding.row(*second)?))
        }
    }
}

/// Steps on the path.
fn moved_steps(
    alloc: Global,
    embedding: &Embedding,
    steps: &[Step],
) -> Result<Items<Step>, AllocError>
    ensures { IfOk result (λ moved. moved ≡ map (moved_step embedding.now) steps.now) }
{
    let mut moved = Items::new(alloc);
    for step in steps {
        moved.push(moved_step(alloc, embedding, step)?)?;
    }
    Ok(moved)
}

/// A certificate as a plan. Where it is accepted on a question, the plan is accepted on each path on which the question stands
/// so, by whatever pair, claims and positions.
pub fn moved_plan(
    alloc: Global,
    embedding: &Embedding,
    tree: &Tree<Absurd>,
) -> Result<Plan, AllocError>
    ensures moved { IfOk result (λ plan. IsMoved embedding.now tree.now plan) }
    ensures serves { IfOk result (λ plan. (g : Pairing) (cs : List Claim) (h : Path) (c : Conj) → IsWellMade c → Accepts tree.now absurd_refusals c → Serves g cs h embedding.now c plan) }
{
    embedded(alloc, embedding, tree)
}

/// A certificate, moved.
#[cycle(embed)]
fn embedded(alloc: Global, embedding: &Embedding, tree: &Tree<Absurd>) -> Result<Plan, AllocError>
    ensures { IfOk result (λ plan. IsMoved embedding.now tree.now plan) }
{
    let steps = moved_steps(alloc, embedding, tree.steps.as_slice())?;
    let next = embedded_next(alloc, embedding, &tree.next)?;
    Ok(Plan { steps, next })
}

/// What comes behind the steps of a certificate, moved.
#[tactic(auto, using(crate::proofs::Shapes::residue_moved, crate::proofs::Shapes::split_moved, crate::proofs::Shapes::end_moved))]
#[cycle(embed)]
fn embedded_next(
    alloc: Global,
    embedding: &Embedding,
    next: &Next<Absurd>,
) -> Result<PlanNext, AllocError>
    ensures { IfOk result (λ made. IsMovedNext embedding.now next.now made) }
{
    match next {
        Next::Split(form, first, second) => Ok(PlanNext::Split(
            embedding.form(alloc, form)?,
            Box::new(alloc, embedded(alloc, embedding, first)?)?,
            Box::new(alloc, embedded(alloc, embedding, second)?)?,
        )),
        Next::Residue(modulus, form, kids) => Ok(PlanNext::Residue(
            *modulus,
            embedding.form(alloc, form)?,
            embedded_kids(alloc, embedding, kids)?,
        )),
        Next::End(end) => Ok(PlanNext::Absurd(embedding.row(end.row)?)),
    }
}

/// Certificates, moved.
#[tactic(auto, using(crate::proofs::Shapes::kids_next))]
#[cycle(embed)]
fn embedded_kids(
    alloc: Global,
    embedding: &Embedding,
    trees: &[Tree<Absurd>],
) -> Result<Vec<Plan>, AllocError>
    ensures { IfOk result (λ plans. AreMoved embedding.now trees.now plans.items) }
{
    let mut plans = Vec::new(alloc);
    for tree in trees {
        plans.push(embedded(alloc, embedding, tree)?)?;
    }
    Ok(plans)
}
