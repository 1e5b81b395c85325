//! The texts of a flow that stops, and of a context without a valuation.
ghost use Rattle.std.specs.Prelude.{◌≡◌, Some, IfOk};
ghost use Rattle.ac_flow.specs.declared.types.FlowStop.TheVariants as flow;
ghost use Rattle.ac_report.specs.ReportTexts as text;

use crate::causes::{push_cost_line, push_pieces_line, push_question_line};
use ac_flow::types::{ContextStop, FlowStop};
use ac_forms::Conj;
use std::alloc::{AllocError, Global};

/// The text of a question in which a number leaves its range.
fn overflow_text(alloc: Global, question: &Conj) -> Result<Vec<u8>, AllocError>
    ensures { IfOk result (λ bytes. text.flow_stop_text (flow.Overflow question.now) ≡ Some bytes.items) }
{
    let mut bytes = Vec::from_slice(alloc, b"stopped overflow\n")?;
    push_question_line(alloc, &mut bytes, question)?;
    Ok(bytes)
}

/// The text of a question whose cost exceeds the budget.
fn spent_text(alloc: Global, question: &Conj, cost: u64) -> Result<Vec<u8>, AllocError>
    ensures { IfOk result (λ bytes. text.flow_stop_text (flow.Spent question.now cost) ≡ Some bytes.items) }
{
    let mut bytes = Vec::from_slice(alloc, b"stopped spent question\n")?;
    push_cost_line(alloc, &mut bytes, cost, question)?;
    Ok(bytes)
}

/// The text of a flow that stops: `stopped overflow`, `stopped spent question` or `stopped spent pieces`, and a second line with
/// the question, or with the position of the pieces. Want of memory has no text: it is handed on.
pub fn flow_stop_text(alloc: Global, stop: &FlowStop) -> Result<Vec<u8>, AllocError>
    ensures { IfOk result (λ bytes. text.flow_stop_text stop.now ≡ Some bytes.items) }
{
    match stop {
        FlowStop::Overflow(question) => overflow_text(alloc, question),
        FlowStop::Spent { question, cost } => spent_text(alloc, question, *cost),
        FlowStop::Pieces { position, .. } => {
            let mut bytes = Vec::from_slice(alloc, b"stopped spent pieces\n")?;
            push_pieces_line(&mut bytes, position)?;
            Ok(bytes)
        }
        FlowStop::Memory(want) => Err(*want),
    }
}

/// The text of a context of which no valuation is given: `empty context` where there is none, and else the lines of a flow that
/// stops. Want of memory has no text: it is handed on.
pub fn context_stop_text(alloc: Global, stop: &ContextStop) -> Result<Vec<u8>, AllocError>
    ensures { IfOk result (λ bytes. text.context_stop_text stop.now ≡ Some bytes.items) }
{
    match stop {
        ContextStop::EmptyContext => Vec::from_slice(alloc, b"empty context\n"),
        ContextStop::Overflow(question) => overflow_text(alloc, question),
        ContextStop::Spent { question, cost } => spent_text(alloc, question, *cost),
        ContextStop::Memory(want) => Err(*want),
    }
}
