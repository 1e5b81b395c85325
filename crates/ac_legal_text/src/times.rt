//! Lines that spell a form of a time.
ghost use Rattle.std.specs.Prelude.{◌≡◌, ◌≤◌, ◌+◌, ◌^◌, ◌++◌, ◌∷◌, [], ℕ, suc, ℤ, List, length, codes, decimal, IfOk, IfSome, IsSomeAnd, MatchOption};
ghost use Rattle.std.specs.List.{AllByRecursion};
ghost use Rattle.ac_forms.specs.Affine.{Affine};
ghost use Rattle.ac_prooftext_lines.specs.LineWords.{further};
ghost use Rattle.ac_prooftext_lines.specs.Spelling.{term_words, terms_from};
ghost use Rattle.ac_legal_text.specs.LineKinds.{BeginsWith, time};
ghost use Rattle.ac_legal_text.specs.OrderTexts.{IsSmall, IsTimeOver, time_line};

use crate::fronts::{behind, behind_number};
use crate::numbers::number_at;
use ac_base::Items;
use ac_forms::Form;
use std::alloc::{AllocError, Global};

/// What stands behind ` k:`, if a text begins with it.
fn behind_column(text: &[u8], column: usize) -> Option<&[u8]>
    ensures { MatchOption result ((rest : List ℕ) → ¬ (text.now ≡ codes " " ++ (decimal column ++ (codes ":" ++ rest)))) (λ rest. text.now ≡ codes " " ++ (decimal column ++ (codes ":" ++ rest.now))) }
{
    let Some(word) = behind(text, b" ") else {
        return None;
    };
    behind_number(word, column, b":")
}

/// The coefficient of a column, and what stands behind it. It is 0, and the text is left, if the text does not begin with the
/// column. None if the column is there without a small coefficient that is not 0.
fn term(text: &[u8], column: usize) -> Option<(i128, &[u8])>
    ensures read { IfSome result (λ p. IsSmall p.0 × (text.now ≡ further (term_words column p.0) ++ p.1.now)) }
    ensures whole { (a : ℤ) (cs : List ℤ) (rest : List ℕ) → IsSmall a → suc column + length cs ≤ 2 ^ 64 → text.now ≡ further (terms_from column (a ∷ cs)) ++ 10 ∷ rest → IsSomeAnd result (λ p. (p.0 ≡ a) × (p.1.now ≡ further (terms_from (suc column) cs) ++ 10 ∷ rest)) }
{
    let Some(digits) = behind_column(text, column) else {
        return Some((0, text));
    };
    let Some((number, rest)) = number_at(digits) else {
        return None;
    };
    if number == 0 {
        return None;
    }
    Some((number, rest))
}

/// Adds the coefficients of so many columns up to the end of the line, and gives what stands behind it; none if the line does not
/// spell them.
fn push_coefficients<'a>(
    coefs: &mut Items<i128>,
    text: &'a [u8],
    columns: usize,
) -> Result<Option<&'a [u8]>, AllocError>
    requires { coefs.old ≡ [] }
    ensures { IfOk result (λ found. MatchOption found ((cs : List ℤ) (rest : List ℕ) → AllByRecursion IsSmall cs → length cs ≡ columns → ¬ (text.now ≡ further (terms_from 0 cs) ++ 10 ∷ rest)) (λ rest. AllByRecursion IsSmall coefs.new × (length coefs.new ≡ columns) × (text.now ≡ further (terms_from 0 coefs.new) ++ 10 ∷ rest.now))) }
{
    let mut rest = text;
    for column in 0..columns {
        let Some((number, left)) = term(rest, column) else {
            return Ok(None);
        };
        coefs.push(number)?;
        rest = left;
    }
    Ok(behind(rest, b"\n"))
}

/// Adds the form of a line `time F` over so many columns, and gives what stands behind the line; none if the text does not begin
/// with such a line.
pub(crate) fn push_time<'a>(
    alloc: Global,
    text: &'a [u8],
    columns: usize,
    forms: &mut Items<Form>,
) -> Result<Option<&'a [u8]>, AllocError>
    ensures { IfOk result (λ found. MatchOption found ((rest : List ℕ) → ¬ (BeginsWith (time columns) text.now rest)) (λ rest. (f : Affine) × (forms.new ≡ forms.old ++ f ∷ []) × IsTimeOver columns f × (text.now ≡ time_line f ++ 10 ∷ rest.now))) }
{
    let Some(words) = behind(text, b"time ") else {
        return Ok(None);
    };
    let Some((konst, terms)) = number_at(words) else {
        return Ok(None);
    };
    let mut coefs = Items::new(alloc);
    let Some(rest) = push_coefficients(&mut coefs, terms, columns)? else {
        return Ok(None);
    };
    forms.push(Form::from_parts(alloc, konst, coefs.as_slice())?)?;
    Ok(Some(rest))
}
