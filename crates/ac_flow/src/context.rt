//! A valuation of a program's context.
ghost use Rattle.std.specs.Prelude.{◌≡◌, length, IfOk, IfErr};
ghost use Rattle.ac_forms.specs.Rows.{AreRowsOver, Meets};
ghost use Rattle.ac_omega.specs.Decisions.{walk_of, EndsAt};
ghost use Rattle.ac_omega_certify.specs.declared.strategy.Strategy.TheVariants.{Full};
ghost use Rattle.ac_flow.specs.Contexts.{ContextStops};
ghost use Rattle.ac_flow.specs.Readers.{IsLowered};
ghost use Rattle.ac_flow.specs.Writings.{over};

use crate::flowing::with_context;
use crate::types::{ContextStop, Limits};
use ac_omega::{Decision, Stop, decide};
use ac_poly::types::Model;
use std::alloc::Global;

/// A valuation of the parameters that meets the context, as `decide` finds it: 0 for each parameter that isn't eliminated.
///
/// `EmptyContext` exactly where there is none, unless the question is too wide or costs more than the budget: `Overflow` where
/// a number of its elimination leaves `i128`, or where it has no point and its numbers are too large for a certificate;
/// `Spent` where its running cost exceeds the budget, with that cost. The question is handed back.
pub fn context_point(alloc: Global, m: &Model, limits: &Limits) -> Result<Vec<i128>, ContextStop>
    requires { IsLowered m.now }
    ensures exact { IfOk result (λ params. EndsAt params.items (over m.now.params m.now.context) (walk_of Full limits.now.budget (over m.now.params m.now.context))) }
    ensures point { IfOk result (λ params. (length params.items ≡ m.now.params) × Meets m.now.context params.items) }
    ensures stops { IfErr result (ContextStops limits.now.budget m.now) }
{
    let question = with_context(alloc, m)?;
    match decide(alloc, &question, limits.budget) {
        Ok(Decision::Point(params)) => Ok(params),
        Ok(Decision::Empty(_)) => Err(ContextStop::EmptyContext),
        Err(Stop::Overflow(question)) => Err(ContextStop::Overflow(question)),
        Err(Stop::Spent { question, cost }) => Err(ContextStop::Spent { question, cost }),
        Err(Stop::Memory(want)) => Err(ContextStop::Memory(want)),
    }
}
