//! Unions and questions in the texts.
ghost use Rattle.std.specs.Prelude.{◌≡◌, ◌++◌, ◌∷◌, [], OnOk, IfOk};
ghost use Rattle.ac_sets.specs.SetTexts.{rows_text, pieces_text};
ghost use Rattle.ac_report.specs.ReportTexts as text;

use crate::names::with_numbered;
use ac_base::Items;
use ac_forms::Conj;
use ac_sets::{Union, set_text};
use ac_syntax::name::Name;
use std::alloc::{AllocError, Global};

/// Adds the text of a union over columns of these names.
pub fn push_union(
    alloc: Global,
    bytes: &mut Vec<u8>,
    names: &[Name],
    pieces: Items<Conj>,
) -> Result<(), AllocError>
    ensures { OnOk result (bytes.new.items ≡ bytes.old.items ++ pieces_text names.now pieces) }
{
    let union = Union {
        visible: names.len(),
        pieces,
    };
    let text = set_text(alloc, &union, names)?;
    bytes.extend_from_slice(text.as_slice())
}

/// One conjunction as a union.
fn single(alloc: Global, conj: &Conj) -> Result<Items<Conj>, AllocError>
    ensures { IfOk result (λ pieces. pieces ≡ conj.now ∷ []) }
{
    let mut pieces = Items::new(alloc);
    pieces.push(conj.copy(alloc)?)?;
    Ok(pieces)
}

/// Adds the rows of a question.
pub fn push_question(alloc: Global, bytes: &mut Vec<u8>, question: &Conj) -> Result<(), AllocError>
    ensures { OnOk result (bytes.new.items ≡ bytes.old.items ++ text.question_text question.now) }
{
    let names = with_numbered(alloc, Items::new(alloc), b'c', question.columns)?;
    push_union(alloc, bytes, names.as_slice(), single(alloc, question)?)
}
