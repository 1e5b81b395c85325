//! The valuation at which an element differed in one arrangement is tried first in those behind it.
ghost use Rattle.std.specs.Prelude.{◌≡◌, ◌∷◌, [], ℕ, true, IfOk, OnOk};
ghost use Rattle.ac_claims.specs.Soundness.{ArePaired};
ghost use Rattle.ac_top.specs.ArrangementReports.{IsApart};
ghost use Rattle.ac_top.specs.ArrangementStages.{kept_behind};

use crate::halts::status_of_outcomes;
use crate::status::Status;
use ac_base::Items;
use ac_instance::{Halt, instance};
use ac_report::Verdict;
use ac_syntax::tree::Pair;
use std::alloc::{AllocError, Global};

/// How many events a run may have.
const EVENTS: u64 = 1_000_000;

/// Whether both programs of a pair run to their end at a valuation, and an element of its one output differs there.
fn differs_at(alloc: Global, pair: &Pair, at: &[i64]) -> Result<bool, AllocError>
    requires { ArePaired pair.now }
    ensures { IfOk result (λ differs. (output : ℕ) → pair.now.outputs ≡ output ∷ [] → differs ≡ true → IsApart pair.now output) }
{
    if at.len() != pair.left.params.len() {
        return Ok(false);
    }
    match instance(alloc, pair, at, EVENTS) {
        Ok(ran) => match status_of_outcomes(ran.outcomes.as_slice()) {
            Status::Different => Ok(true),
            _ => Ok(false),
        },
        Err(Halt::Memory(want)) => Err(want),
        Err(Halt::OutsideContext | Halt::TooLarge(_) | Halt::Range { .. } | Halt::Wide) => Ok(
            false,
        ),
    }
}

/// Whether an element of the one output of the pair of the arrangement with a number differs where one differed before. The first arrangement
/// is always searched.
pub fn is_refuted(alloc: Global, pair: &Pair, number: u64, last: &[i64]) -> Result<bool, AllocError>
    requires { ArePaired pair.now }
    ensures { IfOk result (λ refuted. (output : ℕ) → pair.now.outputs ≡ output ∷ [] → refuted ≡ true → IsApart pair.now output) }
{
    if number == 0 {
        return Ok(false);
    }
    differs_at(alloc, pair, last)
}

/// Keeps the valuation at which an element differs, if the verdict says so.
pub fn keep(alloc: Global, last: &mut Items<i64>, verdict: &Verdict) -> Result<(), AllocError>
    ensures { OnOk result (last.new ≡ kept_behind verdict.now last.old) }
{
    match verdict {
        Verdict::Different { at, .. } => {
            *last = Items::from_slice(alloc, at.as_slice())?;
            Ok(())
        }
        Verdict::Equal | Verdict::Unknown(_) => Ok(()),
    }
}
