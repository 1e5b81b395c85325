ghost use Rattle.std.specs.Prelude.{◌≡◌, [], ◌∷◌, true, IfOk, IfErr};
ghost use Rattle.ac_poly.specs.Model.{model_of};
ghost use Rattle.ac_syntax.specs.ExecutedCalls.{HaveArities};
ghost use Rattle.ac_claims.specs.ProofFaults.{is_point};
ghost use Rattle.ac_claims.specs.ProofMachine.{AreSpelledTrees};
ghost use Rattle.ac_claims.specs.Soundness.{ArePaired, ClaimsHaveModuli};
ghost use Rattle.ac_flow.specs.Contexts.{ContextStops};
ghost use Rattle.ac_graph.specs.GraphMeaning.{HaveFlows};
ghost use Rattle.ac_walk_state.specs.Elements.{AreProgramsOf};
ghost use Rattle.ac_walk.specs.Verdicts.{AreMatched, AreVerdicts, IsAccepted, IsStop, equal_outputs, named};
ghost use Rattle.ac_walk.specs.TriedValuations.{AreSamples, AreTried, samples_of};
ghost use Rattle.ac_walk.specs.UnknownCauses.{HasValuation, IsAnswered, IsEmptyAt, left_model};
ghost use Rattle.ac_walk.specs.VerdictCollection.{IsProvedOf, IsSearchedOf};

use crate::outputs::{Basis, verdicts};
use crate::unanswered::unknown_all;
use crate::valuations::samples;
use crate::verdict_types::{ProveStop, Proved};
use ac_claims_paths::path::Programs;
use ac_flow::types::{ContextStop, Flow, FlowStop, Limits};
use ac_flow::{context_point, flow};
use ac_graph::graph;
use ac_poly::types::Model;
use ac_syntax::tree::Pair;
use ac_unfold::types::ProgramFlows;
use ac_walk_state::template_of;
use std::alloc::{AllocError, Global};

/// The verdicts where both programs have a flow.
fn with_flows(
    alloc: Global,
    pair: &Pair,
    programs: Programs<'_>,
    left_flow: &Flow,
    right_flow: &Flow,
    budget: u64,
    point: Vec<i128>,
) -> Result<Proved, AllocError>
    requires programs { AreProgramsOf pair.now programs }
    requires commutative { programs.commutative.now ≡ pair.now.commutative }
    requires flows { HaveFlows pair.now left_flow.now right_flow.now }
    requires arities { HaveArities pair.now.left.body × HaveArities pair.now.right.body }
    requires point { is_point (left_model pair.now) point.items ≡ true }
    requires samples { AreSamples budget pair.now (samples_of pair.now point.items) }
    ensures { IfOk result (IsSearchedOf budget pair.now pair.now.outputs) }
{
    let program_flows = ProgramFlows {
        programs,
        left_flow,
        right_flow,
        budget,
    };
    let graph = graph(alloc, pair, left_flow, right_flow)?;
    let template = template_of(alloc, pair)?;
    let samples = samples(alloc, pair, point.as_slice())?;
    let basis = Basis {
        pair,
        program_flows: &program_flows,
        graph: &graph,
        template: &template,
        samples: samples.as_slice(),
    };
    verdicts(alloc, &basis, point)
}

/// The verdicts where the context has a valuation.
fn with_point(
    alloc: Global,
    pair: &Pair,
    left: &Model,
    right: &Model,
    limits: &Limits,
    point: Vec<i128>,
) -> Result<Proved, AllocError>
    requires pair { ArePaired pair.now }
    requires left { left.now ≡ model_of pair.now.left pair.now.context }
    requires right { right.now ≡ model_of pair.now.right pair.now.context }
    requires arities { HaveArities pair.now.left.body × HaveArities pair.now.right.body }
    requires valuation { HasValuation limits.now.budget (left_model pair.now) }
    requires point { is_point (left_model pair.now) point.items ≡ true }
    requires samples { AreSamples limits.now.budget pair.now (samples_of pair.now point.items) }
    ensures proved { IfOk result (IsProvedOf pair.now pair.now.outputs) }
    ensures causes { IfOk result (λ proved. IsAnswered limits.now.budget pair.now proved.verdicts) }
    ensures accepted { IfOk result (λ proved. IsAccepted pair.now proved.proof) }
    ensures tried { IfOk result (λ proved. AreTried limits.now.budget pair.now pair.now.outputs proved.verdicts) }
{
    let left_flow = match flow(alloc, left, limits) {
        Ok(found) => found,
        Err(stop) => return unknown_all(alloc, pair, point, &stop),
    };
    let right_flow = match flow(alloc, right, limits) {
        Ok(found) => found,
        Err(stop) => return unknown_all(alloc, pair, point, &stop),
    };
    let programs = Programs {
        left,
        right,
        commutative: pair.commutative.as_slice(),
    };
    with_flows(
        alloc,
        pair,
        programs,
        &left_flow,
        &right_flow,
        limits.budget,
        point,
    )
}

/// The verdicts where the question of the context stops.
fn without_point(
    alloc: Global,
    pair: &Pair,
    left: &Model,
    budget: u64,
    stop: ContextStop,
) -> Result<Proved, ProveStop>
    requires pair { ArePaired pair.now }
    requires left { left.now ≡ model_of pair.now.left pair.now.context }
    requires stop { ContextStops budget left.now stop }
    ensures proved { IfOk result (IsProvedOf pair.now pair.now.outputs) }
    ensures causes { IfOk result (λ proved. IsAnswered budget pair.now proved.verdicts) }
    ensures valuation { IfOk result (λ _. ¬ (HasValuation budget (left_model pair.now))) }
    ensures tried { IfOk result (λ proved. AreTried budget pair.now pair.now.outputs proved.verdicts) }
    ensures stops { IfErr result (IsStop pair.now) }
    ensures empty { IfErr result (IsEmptyAt budget pair.now) }
{
    let stop = match stop {
        ContextStop::EmptyContext => return Err(ProveStop::EmptyContext),
        ContextStop::Overflow(question) => FlowStop::Overflow(question),
        ContextStop::Spent { question, cost } => FlowStop::Spent { question, cost },
        ContextStop::Memory(want) => return Err(ProveStop::Memory(want)),
    };
    Ok(unknown_all(alloc, pair, Vec::new(alloc), &stop)?)
}

/// Compares the outputs of two programs for all valuations of their context, by claims that are widened where the programs
/// recur (S. Verdoolaege, G. Janssens, M. Bruynooghe, Equivalence checking of static affine programs using widening to handle
/// recurrences, 2012).
///
/// It gives one verdict for each output, in order. `Equal` only where the output is the same in both programs: for each
/// valuation of the context, at each element, for all contents of the arrays that agree on the inputs, and whatever the symbols
/// stand for, as long as the commutative ones commute; and in the setting of the search on the output (`ac_walk_state`) some order of
/// commutative arguments has no mismatch. `Different` only where the terms that both programs leave in an
/// element do not agree at a valuation of the context, and then the least such element is named. The proof names exactly
/// the outputs with the verdict `Equal`, and `check_proof` accepts it, unless the question of the context stops. `EmptyContext` only where no
/// valuation meets the context. The models are those of the pair's programs under its context, and each call of an assignment that is
/// executed has as many arguments as its symbol says.
///
/// An output is unknown as `Unmatched` only where in the setting of the search on it the named partial orders are refuted one after
/// another, each by its derivation, and each order of the output's sites extends one, so that it has a mismatch; as `SpentOrders` only
/// with 1,024 or more refuted so, of more than 10 sites, where some order extends none. As `OverflowHull` it is unknown only
/// with obligations there at one recurrence pair, where a number leaves `i128` as the last of them is taken beside the others. A question that the search says to be
/// too wide or spent is one at which an unfolding stops, from the output or a recurrence pair, against claims whose members a derivation there has: it is asked
/// there, and too wide or too costly for both eliminations, with the cost of the full one; or a row that comes next at it cannot be formed in `i128`.
///
/// Where the question of the context is too wide or costs more than the budget, each output is unknown for that cause; then where the
/// flow of the first program stops, for the cause of its stop, and then likewise for the second. A context without a valuation
/// is answered by `EmptyContext`, or unknown for such a cause of its question.
///
/// An output is unknown only where both programs were run at the samples and at the first 16 different valuations of the derivations that
/// its cause lists, and no run that ends within 1,000,000 events shows an element that differs. The samples are the valuation that the
/// question of the context gives, and 1, 2, 17 and 33 for all parameters. Valuations that do not fit in `i64` are passed over.
pub fn prove(
    alloc: Global,
    pair: &Pair,
    models: &[Model; 2],
    limits: &Limits,
) -> Result<Proved, ProveStop>
    requires pair { ArePaired pair.now }
    requires models { models.now ≡ model_of pair.now.left pair.now.context ∷ model_of pair.now.right pair.now.context ∷ [] }
    requires arities { HaveArities pair.now.left.body × HaveArities pair.now.right.body }
    ensures verdicts { IfOk result (λ proved. AreVerdicts pair.now pair.now.outputs proved.verdicts) }
    ensures matched { IfOk result (λ proved. AreMatched pair.now pair.now.outputs proved.verdicts) }
    ensures causes { IfOk result (λ proved. IsAnswered limits.now.budget pair.now proved.verdicts) }
    ensures tried { IfOk result (λ proved. AreTried limits.now.budget pair.now pair.now.outputs proved.verdicts) }
    ensures outputs { IfOk result (λ proved. named proved.proof ≡ equal_outputs pair.now.outputs proved.verdicts) }
    ensures accepted { IfOk result (λ proved. HasValuation limits.now.budget (left_model pair.now) → IsAccepted pair.now proved.proof) }
    ensures spelled { IfOk result (λ proved. AreSpelledTrees proved.proof.trees.items) }
    ensures claims { IfOk result (λ proved. ClaimsHaveModuli proved.proof) }
    ensures stops { IfErr result (IsStop pair.now) }
    ensures empty { IfErr result (IsEmptyAt limits.now.budget pair.now) }
{
    let left = &models[0];
    let right = &models[1];
    match context_point(alloc, left, limits) {
        Ok(point) => Ok(with_point(alloc, pair, left, right, limits, point)?),
        Err(stop) => without_point(alloc, pair, left, limits.budget, stop),
    }
}
