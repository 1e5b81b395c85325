//! A search through the questions that are made of one choice for each part.
ghost use Rattle.std.specs.Prelude.{◌≡◌, ◌≤◌, None, length, drop, IfOk, IfErr, IfSome, IfNone};
ghost use Rattle.ac_forms.specs.Rows.{AreRowsOver};
ghost use Rattle.ac_legal.specs.QuestionChoices.{ArePartsOver, HasNoPointFrom, HaveNoPointsIfDecided, IsPointFrom, StopsFrom, UnlessMemory, want_of, first_stop};

use crate::asking::{ask, question, with_rows};
use crate::types::LegalStop;
use ac_base::Items;
use ac_forms::Row;
use std::alloc::{AllocError, Global};

/// The want of memory, if a stop is one.
fn want_of(stop: &LegalStop) -> Option<AllocError>
    ensures { result ≡ want_of stop.now }
{
    match stop {
        LegalStop::Memory(want) => Some(*want),
        LegalStop::Overflow(_) | LegalStop::Spent { .. } => None,
    }
}

/// The first of two stops, of which the first may be missing. Want of memory is handed on at once.
pub(crate) fn first_stop(
    held: Option<LegalStop>,
    stop: LegalStop,
) -> Result<Option<LegalStop>, AllocError>
    ensures first { IfOk result (λ first. first ≡ first_stop held stop) }
    ensures refusal { IfOk result (λ _. want_of stop ≡ None) }
{
    if let Some(want) = want_of(&stop) {
        return Err(want);
    }
    let Some(first) = held else {
        return Ok(Some(stop));
    };
    Ok(Some(first))
}

/// A point at which the rows hold and, of each part from the one with the number `depth` on, one of its choices; none where
/// there is none. A part without choices cannot be formed. The search goes on behind a stop, which is answered if no point is
/// found: each question that could be formed has none then, or is left undecided.
pub(crate) fn search(
    alloc: Global,
    budget: u64,
    columns: usize,
    front: &[Row],
    parts: &[Option<Items<Items<Row>>>],
    depth: usize,
) -> Result<Option<Vec<i128>>, LegalStop>
    requires within { depth ≤ length parts.now }
    requires front { AreRowsOver columns front.now }
    requires parts { ArePartsOver columns parts.now }
    ensures none { IfOk result (λ found. IfNone found (HasNoPointFrom columns front.now (drop depth parts.now))) }
    ensures point { IfOk result (λ found. IfSome found (λ p. IsPointFrom columns front.now (drop depth parts.now) p.items)) }
    ensures stops { IfErr result (StopsFrom budget columns front.now (drop depth parts.now)) }
    ensures decided { IfErr result (λ e. UnlessMemory e (HaveNoPointsIfDecided budget columns front.now (drop depth parts.now))) }
{
    if depth == parts.len() {
        return ask(alloc, budget, columns, front);
    }
    match &parts[depth] {
        None => Err(LegalStop::Overflow(question(alloc, columns, front)?)),
        Some(choices) => {
            let mut held = None;
            for choice in choices.as_slice() {
                let rows = with_rows(alloc, front, choice.as_slice())?;
                match search(alloc, budget, columns, rows.as_slice(), parts, depth + 1) {
                    Ok(None) => continue,
                    Ok(Some(point)) => return Ok(Some(point)),
                    Err(stop) => {
                        held = first_stop(held, stop)?;
                        continue;
                    }
                }
            }
            match held {
                Some(stop) => Err(stop),
                None => Ok(None),
            }
        }
    }
}
