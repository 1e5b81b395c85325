//! The lines of causes.
ghost use Rattle.std.specs.Prelude.{◌≡◌, ◌++◌, codes, OnOk};
ghost use Rattle.std.specs.List.{join_by};
ghost use Rattle.ac_report.specs.ReportTexts as text;

use crate::entries::push_all_refuted;
use crate::layout::Layout;
use crate::numbers::{push_natural, push_position, push_tuple};
use crate::types::Cause;
use crate::unions::push_question;
use ac_base::Items;
use ac_forms::Conj;
use ac_syntax::tree::Position;
use std::alloc::{AllocError, Global};

/// Adds the line of a question in which a number leaves its range.
#[tactic(auto, using(crate::proofs::Layouts::joins))]
pub fn push_question_line(
    alloc: Global,
    bytes: &mut Vec<u8>,
    question: &Conj,
) -> Result<(), AllocError>
    ensures { OnOk result (bytes.new.items ≡ bytes.old.items ++ text.question_line question.now) }
{
    bytes.extend_from_slice(b"  question: ")?;
    push_question(alloc, bytes, question)?;
    bytes.push(b'\n')?;
    Ok(())
}

/// Adds the line of a question whose cost exceeds the budget.
#[tactic(auto, using(crate::proofs::Layouts::joins))]
pub fn push_cost_line(
    alloc: Global,
    bytes: &mut Vec<u8>,
    cost: u64,
    question: &Conj,
) -> Result<(), AllocError>
    ensures { OnOk result (bytes.new.items ≡ bytes.old.items ++ text.cost_line cost question.now) }
{
    bytes.extend_from_slice(b"  cost ")?;
    push_natural(bytes, cost as u128)?;
    bytes.extend_from_slice(b": ")?;
    push_question(alloc, bytes, question)?;
    bytes.push(b'\n')?;
    Ok(())
}

/// Adds the line of a position with too many pieces.
#[tactic(auto, using(crate::proofs::Layouts::joins))]
pub fn push_pieces_line(bytes: &mut Vec<u8>, position: &Position) -> Result<(), AllocError>
    ensures { OnOk result (bytes.new.items ≡ bytes.old.items ++ text.pieces_line position.now) }
{
    bytes.extend_from_slice(b"  4097 at ")?;
    push_position(bytes, position)?;
    bytes.push(b'\n')?;
    Ok(())
}

fn push_further_member(bytes: &mut Vec<u8>, member: &[i128]) -> Result<(), AllocError>
    ensures { OnOk result (bytes.new.items ≡ bytes.old.items ++ codes " " ++ text.tuple_text member.now) }
{
    bytes.push(b' ')?;
    push_tuple(bytes, member)
}

fn push_members(bytes: &mut Vec<u8>, members: &[Items<i128>]) -> Result<(), AllocError>
    ensures { OnOk result (bytes.new.items ≡ bytes.old.items ++ join_by text.tuple_text (codes " ") members.now) }
{
    let [first, rest @ ..] = members else {
        return Ok(());
    };
    push_tuple(bytes, first.as_slice())?;
    for member in rest {
        push_further_member(bytes, member.as_slice())?;
    }
    Ok(())
}

/// Adds the line of the members of a hull.
#[tactic(auto, using(crate::proofs::Layouts::joins))]
fn push_members_line(bytes: &mut Vec<u8>, members: &[Items<i128>]) -> Result<(), AllocError>
    ensures { OnOk result (bytes.new.items ≡ bytes.old.items ++ text.members_line members.now) }
{
    bytes.extend_from_slice(b"  members: ")?;
    push_members(bytes, members)?;
    bytes.push(b'\n')?;
    Ok(())
}

/// The words of a cause.
pub fn cause_words(cause: &Cause) -> &'static [u8]
    ensures { result.now ≡ text.cause_words cause.now }
{
    match cause {
        Cause::Unmatched(_) => b"unmatched",
        Cause::OverflowQuestion(_) | Cause::OverflowHull(_) => b"overflow",
        Cause::SpentQuestion { .. } => b"spent question",
        Cause::SpentPieces { .. } => b"spent pieces",
        Cause::SpentPaths(_) => b"spent paths",
        Cause::SpentOrders(_) => b"spent orders",
    }
}

/// Adds what follows the first line of a cause.
pub fn push_cause_lines(
    alloc: Global,
    bytes: &mut Vec<u8>,
    layout: &Layout<'_>,
    cause: &Cause,
) -> Result<(), AllocError>
    ensures { OnOk result (bytes.new.items ≡ bytes.old.items ++ text.cause_lines layout.now cause.now) }
{
    match cause {
        Cause::Unmatched(refuted) | Cause::SpentOrders(refuted) => {
            push_all_refuted(bytes, layout, refuted.as_slice())
        }
        Cause::OverflowQuestion(question) => push_question_line(alloc, bytes, question),
        Cause::OverflowHull(members) => push_members_line(bytes, members.as_slice()),
        Cause::SpentQuestion { question, cost } => push_cost_line(alloc, bytes, *cost, question),
        Cause::SpentPieces { position, .. } => push_pieces_line(bytes, position),
        Cause::SpentPaths(_) => bytes.extend_from_slice(b"  20001\n"),
    }
}
