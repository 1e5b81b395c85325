//! What is said where the search does not begin.
ghost use Rattle.std.specs.Prelude.{◌≡◌, ℕ, Some, true, IfOk};
ghost use Rattle.ac_claims.specs.ProofFaults.{is_point};
ghost use Rattle.ac_claims.specs.Soundness.{ArePaired};
ghost use Rattle.ac_walk.specs.TriedValuations.{AreSamples, AreTried, samples_of};
ghost use Rattle.ac_walk.specs.UnknownCauses.{AreUnknown, cause_of, left_model};
ghost use Rattle.ac_walk.specs.VerdictCollection.{IsProvedOf};
ghost use Rattle.ac_walk.specs.Verdicts.{IsAccepted};

use crate::differing::unknown_or_different;
use crate::valuations::samples;
use crate::verdict_types::Proved;
use ac_base::Items;
use ac_flow::types::FlowStop;
use ac_forms::Conj;
use ac_report::Cause;
use ac_syntax::tree::Pair;
use ac_walk_state::empty_proof;
use std::alloc::{AllocError, Global};

/// Copies of conjunctions.
fn copies(alloc: Global, conjs: &[Conj]) -> Result<Items<Conj>, AllocError>
    ensures { IfOk result (λ made. made ≡ conjs.now) }
{
    let mut made = Items::new(alloc);
    for conj in conjs {
        made.push(conj.copy(alloc)?)?;
    }
    Ok(made)
}

/// The cause by which an output is unknown where there is no flow, or no valuation.
fn cause_of(alloc: Global, stop: &FlowStop) -> Result<Cause, AllocError>
    ensures { IfOk result (λ cause. cause_of stop.now ≡ Some cause) }
{
    match stop {
        FlowStop::Overflow(question) => Ok(Cause::OverflowQuestion(question.copy(alloc)?)),
        FlowStop::Spent { question, cost } => Ok(Cause::SpentQuestion {
            question: question.copy(alloc)?,
            cost: *cost,
        }),
        FlowStop::Pieces { position, kept } => Ok(Cause::SpentPieces {
            position: *position,
            kept: copies(alloc, kept.as_slice())?,
        }),
        FlowStop::Memory(_) => Err(AllocError),
    }
}

/// Each output is unknown, for the same reason, unless an element is seen to differ.
pub(crate) fn unknown_all(
    alloc: Global,
    pair: &Pair,
    point: Vec<i128>,
    stop: &FlowStop,
) -> Result<Proved, AllocError>
    requires { ArePaired pair.now }
    ensures proved { IfOk result (IsProvedOf pair.now pair.now.outputs) }
    ensures causes { IfOk result (λ proved. AreUnknown (cause_of stop.now) proved.verdicts) }
    ensures accepted { is_point (left_model pair.now) point.items ≡ true → IfOk result (λ proved. IsAccepted pair.now proved.proof) }
    ensures tried { IfOk result (λ proved. (budget : ℕ) → AreSamples budget pair.now (samples_of pair.now point.items) → AreTried budget pair.now pair.now.outputs proved.verdicts) }
{
    let samples = samples(alloc, pair, point.as_slice())?;
    let mut verdicts = Items::new(alloc);
    for number in 0..pair.outputs.len() {
        let cause = cause_of(alloc, stop)?;
        let left = unknown_or_different(alloc, pair, samples.as_slice(), number, cause)?;
        verdicts.push(left)?;
    }
    Ok(Proved {
        verdicts,
        proof: empty_proof(alloc, point, None),
    })
}
