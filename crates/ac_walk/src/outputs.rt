//! The verdicts on the outputs, one after the other, and their proof.
ghost use Rattle.std.specs.Prelude.{◌≡◌, ◌+◌, [], take, Some, true, IfOk, slice_get};
ghost use Rattle.ac_claims.specs.ProofFaults.{is_point};
ghost use Rattle.ac_walk.specs.UnknownCauses.{left_model};
ghost use Rattle.ac_walk.specs.VerdictCollection.{IsBasis, IsSaidOf, IsSearchedOf, IsValid};

use crate::deciding::{Decision, decide, reach_of};
use crate::differing::unknown_or_different;
use crate::search_types::Search;
use crate::verdict_types::Proved;
use ac_base::Items;
use ac_claims::types::Proof;
use ac_graph::types::Graph;
use ac_report::Verdict;
use ac_syntax::tree::Pair;
use ac_unfold::types::ProgramFlows;
use ac_walk_state::{Template, empty_proof, heads, with_part};
use std::alloc::{AllocError, Global};

/// What is known of a pair before its outputs are searched on.
#[derive(Clone, Copy)]
pub(crate) struct Basis<'a> {
    pub pair: &'a Pair,
    pub program_flows: &'a ProgramFlows<'a>,
    pub graph: &'a Graph,
    pub template: &'a Template,
    /// The valuations that are tried before an output is left unknown.
    pub samples: &'a [Items<i64>],
}

/// The verdict on the output with a number, and the proof, with its part where the output is equal.
fn verdict(
    alloc: Global,
    basis: &Basis<'_>,
    proof: Proof,
    number: usize,
    array: usize,
) -> Result<(Verdict, Proof), AllocError>
    requires basis { IsBasis basis.now }
    requires proof { IsValid basis.now.pair.now proof }
    requires array { slice_get basis.now.pair.now.outputs number ≡ Some array }
    ensures { IfOk result (IsSaidOf basis.now.program_flows.now.budget basis.now.pair.now array proof) }
{
    let reach = reach_of(alloc, basis.pair, basis.graph, array)?;
    let search = Search {
        pair: basis.pair,
        program_flows: basis.program_flows,
        template: basis.template,
        array,
        stops: reach.recurrent.as_slice(),
        first: proof.claims.len(),
        tabling: reach.is_shared(),
    };
    match decide(alloc, &search, number, &reach)? {
        Decision::Stands(part) => Ok((Verdict::Equal, with_part(proof, part, array)?)),
        Decision::Different(found) => {
            let said = Verdict::Different {
                at: found.at,
                element: found.element,
            };
            Ok((said, proof))
        }
        Decision::Unknown(cause) => {
            let left = unknown_or_different(alloc, basis.pair, basis.samples, number, cause)?;
            Ok((left, proof))
        }
    }
}

/// The verdicts with that on the next output.
fn with_verdict(
    alloc: Global,
    basis: &Basis<'_>,
    proved: Proved,
    number: usize,
    array: usize,
) -> Result<Proved, AllocError>
    requires basis { IsBasis basis.now }
    requires proved { IsSearchedOf basis.now.program_flows.now.budget basis.now.pair.now (take number basis.now.pair.now.outputs) proved }
    requires array { slice_get basis.now.pair.now.outputs number ≡ Some array }
    ensures { IfOk result (IsSearchedOf basis.now.program_flows.now.budget basis.now.pair.now (take (number + 1) basis.now.pair.now.outputs)) }
{
    let Proved { verdicts, proof } = proved;
    let mut verdicts = verdicts;
    let (said, proof) = verdict(alloc, basis, proof, number, array)?;
    verdicts.push(said)?;
    Ok(Proved { verdicts, proof })
}

/// The verdicts on no output, and a proof at a point.
fn none_said(alloc: Global, basis: &Basis<'_>, point: Vec<i128>) -> Result<Proved, AllocError>
    requires basis { IsBasis basis.now }
    requires point { is_point (left_model basis.now.pair.now) point.items ≡ true }
    ensures { IfOk result (IsSearchedOf basis.now.program_flows.now.budget basis.now.pair.now []) }
{
    let programs = &basis.program_flows.programs;
    let heads = heads(alloc, programs.left, programs.right)?;
    Ok(Proved {
        verdicts: Items::new(alloc),
        proof: empty_proof(alloc, point, Some(heads)),
    })
}

/// The verdicts on all outputs, one after the other.
pub(crate) fn verdicts(
    alloc: Global,
    basis: &Basis<'_>,
    point: Vec<i128>,
) -> Result<Proved, AllocError>
    requires basis { IsBasis basis.now }
    requires point { is_point (left_model basis.now.pair.now) point.items ≡ true }
    ensures { IfOk result (IsSearchedOf basis.now.program_flows.now.budget basis.now.pair.now basis.now.pair.now.outputs) }
{
    let outputs = basis.pair.outputs.as_slice();
    let mut proved = none_said(alloc, basis, point)?;
    for number in 0..outputs.len() {
        let array = outputs[number];
        proved = with_verdict(alloc, basis, proved, number, array)?;
    }
    Ok(proved)
}
