//! How deep the branches of a proof's text are nested, and where the text ends to be one.
ghost use Rattle.std.specs.Prelude.{◌≡◌, ◌++◌, [], List, ℕ, IfOk, IsTrue, ◌↔◌};
ghost use Rattle.std.specs.List.{AllByRecursion};
ghost use Rattle.ac_prooftext_lines.specs.LineWords.{IsFree};
ghost use Rattle.ac_prooftext.specs.LinePrefixes.{Took};
ghost use Rattle.ac_prooftext.specs.ProofTexts.{IsNesting, lines_text};

use crate::lines::{LineReader, Reading};
use crate::stages::Stage;
use crate::types::Nesting;
use ac_prooftext_lines::cut;
use std::alloc::{AllocError, Global};

/// Whether a text is complete of whose last line this is left.
pub fn is_complete(reader: &LineReader, rest: &[u8]) -> bool
    ensures { IsTrue result ↔ ((reader.now.reading ≡ Reading.Within) × (reader.now.outline.stage ≡ Stage.Done) × (rest.now ≡ [])) }
{
    match reader.reading {
        Reading::Within => reader.outline.is_done() && rest.is_empty(),
        _ => false,
    }
}

/// What is told of a text whose lines a reader took, and of whose last line this is left.
fn told(reader: &LineReader, rest: &[u8]) -> Nesting
    ensures { (ls : List (List ℕ)) → Took ls reader.now → AllByRecursion (IsFree 10) ls → IsFree 10 rest.now → IsNesting (lines_text ls ++ rest.now) result.deepest result.fault }
{
    if is_complete(reader, rest) {
        Nesting {
            deepest: reader.deepest,
            fault: None,
        }
    } else {
        Nesting {
            deepest: reader.deepest,
            fault: Some(reader.lines.saturating_add(1)),
        }
    }
}

/// How many branches are open on one path at most, over the lines of a text before the first that is missing, malformed or
/// may not stand where it does, and that line; none exactly where the text is the spelling of a proof.
///
/// It takes room for one path and one line.
pub fn nesting(alloc: Global, bytes: &[u8]) -> Result<Nesting, AllocError>
    ensures { IfOk result (λ told. IsNesting bytes.now told.deepest told.fault) }
{
    let mut reader = LineReader::new(alloc);
    let mut rest = bytes;
    while let Some((line, behind)) = cut(rest, b'\n') {
        let _ = reader.take_line(alloc, line)?;
        rest = behind;
    }
    Ok(told(&reader, rest))
}
