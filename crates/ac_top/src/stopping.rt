//! Whether what stands before the search of a pair stops at the budget.
ghost use Rattle.std.specs.Prelude.{length, IfOk};
ghost use Rattle.ac_claims.specs.Soundness as judge;
ghost use Rattle.ac_flow.specs.Readers.{IsLowered};
ghost use Rattle.ac_walk.specs.UnknownCauses.{left_model, right_model};
ghost use Rattle.ac_top.specs.ArrangementStages.{IfContextStops, IfFlowStops, IfStops};
ghost use Rattle.ac_top.specs.ProgramAnswers.{AreLowered};

use crate::findings::model_of;
use ac_flow::types::{ContextStop, FlowStop, Limits};
use ac_flow::{context_point, flow};
use ac_poly::types::Model;
use ac_syntax::tree::Pair;
use std::alloc::{AllocError, Global};

/// The budget of each question.
const LIMITS: Limits = Limits { budget: 50_000 };

/// Whether the question of a context stops.
fn context_stops(alloc: Global, model: &Model) -> Result<bool, AllocError>
    requires { IsLowered model.now }
    ensures { IfOk result (IfContextStops model.now) }
{
    match context_point(alloc, model, &LIMITS) {
        Ok(_point) => Ok(false),
        Err(ContextStop::EmptyContext) => Ok(false),
        Err(ContextStop::Overflow(_question)) => Ok(true),
        Err(
            ContextStop::Spent {
                question: _question,
                cost: _cost,
            },
        ) => Ok(true),
        Err(ContextStop::Memory(error)) => Err(error),
    }
}

/// Whether the flow of a program stops.
fn flow_stops(alloc: Global, model: &Model) -> Result<bool, AllocError>
    requires { IsLowered model.now }
    ensures { IfOk result (IfFlowStops model.now) }
{
    match flow(alloc, model, &LIMITS) {
        Ok(_flow) => Ok(false),
        Err(FlowStop::Overflow(_question)) => Ok(true),
        Err(
            FlowStop::Spent {
                question: _question,
                cost: _cost,
            },
        ) => Ok(true),
        Err(
            FlowStop::Pieces {
                position: _position,
                kept: _kept,
            },
        ) => Ok(true),
        Err(FlowStop::Memory(error)) => Err(error),
    }
}

/// Whether the question of the context stops, or the flow of one of two programs.
fn one_stops(alloc: Global, left: &Model, right: &Model) -> Result<bool, AllocError>
    requires left { IsLowered left.now }
    requires right { IsLowered right.now }
    ensures { IfOk result (IfStops left.now right.now) }
{
    let context = context_stops(alloc, left)?;
    if context {
        return Ok(true);
    }
    let first = flow_stops(alloc, left)?;
    if first {
        return Ok(true);
    }
    let second = flow_stops(alloc, right)?;
    Ok(second)
}

/// Whether the question of the context of a pair stops, or the flow of one of its programs.
pub fn stops(alloc: Global, pair: &Pair) -> Result<bool, AllocError>
    requires paired { judge.ArePaired pair.now }
    requires lowered { AreLowered pair.now }
    ensures { IfOk result (IfStops (left_model pair.now) (right_model pair.now)) }
{
    let left = model_of(alloc, &pair.left, &pair.context)?;
    let right = model_of(alloc, &pair.right, &pair.context)?;
    one_stops(alloc, &left, &right)
}
