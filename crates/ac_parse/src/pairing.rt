// From two programs to a pair.
ghost use Rattle.std.specs.Prelude.{◌≡◌, IfOk, IfErr};
ghost use Rattle.ac_parse.specs.ProgramPairs.{IsPairOf, HasPairFault};
ghost use Rattle.ac_parse.specs.ProgramPairs as spec;

use crate::faults::PairFault;
use crate::join::{join_comparisons, join_names};
use crate::outputs::outputs;
use crate::signature::first_difference;
use ac_syntax::tree::{Cond, Pair, Program};
use std::alloc::Global;

fn ordinal(place: usize) -> u32
    ensures { result ≡ spec.ordinal place }
{
    u32::try_from(place.saturating_add(1)).unwrap_or(u32::MAX)
}

/// The pair of two programs: both contexts joined, the commutative names of both, and the outputs in the order of the
/// parameter list. These are the arrays that an output line of either file names; without any such line they are the
/// array parameters with an extent that either file assigns.
///
/// `Signature` names the first parameter, from 1, whose kind, name, number of dimensions or extents differ; where one list
/// is the front of the other it is the first that only the longer one has. `NoOutput` comes where nothing is compared.
/// A refusal drops both programs.
pub fn pair(alloc: Global, left: Program, right: Program) -> Result<Pair, PairFault>
    ensures pair { IfOk result (IsPairOf left right) }
    ensures fault { IfErr result (HasPairFault left right) }
{
    if let Some(place) = first_difference(&left, &right) {
        return Err(PairFault::Signature(ordinal(place)));
    }
    let outputs = outputs(alloc, &left, &right)?;
    if outputs.is_empty() {
        return Err(PairFault::NoOutput);
    }
    let left_parts = left.context.parts.as_slice();
    let parts = join_comparisons(alloc, left_parts, right.context.parts.as_slice())?;
    let left_names = left.commutative.as_slice();
    let commutative = join_names(alloc, left_names, right.commutative.as_slice())?;
    Ok(Pair {
        left,
        right,
        context: Cond { parts },
        commutative,
        outputs,
    })
}
