//! Rows.
ghost use Rattle.std.specs.Prelude.{◌≡◌, ◌∷◌, codes, ℤ, IfOk};
ghost use Rattle.std.specs.Fmt.{signed_decimal};
ghost use Rattle.ac_forms.specs.Affine.{Affine};
ghost use Rattle.ac_forms.specs.Fits.{Fits};
ghost use Rattle.ac_prooftext_lines.specs.ItemReaders.{Reads};
ghost use Rattle.ac_prooftext_lines.specs.Spellable.{IsModulus, IsSpellableForm, IsSpellableRow};
ghost use Rattle.ac_prooftext_lines.specs.Spelling.{form_words, row_words};

use crate::forms::read_form;
use crate::words::{Words, is};
use ac_forms::{Form, Row};
use std::alloc::{AllocError, Global};

/// An integer and a form.
pub fn integer_form(alloc: Global, words: &Words<'_>) -> Result<Option<(i128, Form)>, AllocError>
    ensures { IfOk result (λ found. Reads (λ (p : ℤ × Affine). Fits p.0 × IsSpellableForm p.1) (λ p. signed_decimal p.0 ∷ form_words p.1) words.now found) }
{
    let mut words = words.again();
    let Some(number) = words.integer() else {
        return Ok(None);
    };
    let Some(form) = read_form(alloc, &words)? else {
        return Ok(None);
    };
    Ok(Some((number, form)))
}

/// A modulus, which is at least 1, and a form.
pub fn modulus_form(alloc: Global, words: &Words<'_>) -> Result<Option<(i128, Form)>, AllocError>
    ensures { IfOk result (λ found. Reads (λ (p : ℤ × Affine). IsModulus p.0 × IsSpellableForm p.1) (λ p. signed_decimal p.0 ∷ form_words p.1) words.now found) }
{
    let Some((modulus, form)) = integer_form(alloc, words)? else {
        return Ok(None);
    };
    if modulus < 1 {
        return Ok(None);
    }
    Ok(Some((modulus, form)))
}

fn ge_row(alloc: Global, words: &Words<'_>) -> Result<Option<Row>, AllocError>
    ensures { IfOk result (λ found. Reads IsSpellableRow row_words (codes "ge" ∷ words.now) found) }
{
    let Some(form) = read_form(alloc, words)? else {
        return Ok(None);
    };
    Ok(Some(Row::Ge(form)))
}

fn eq_row(alloc: Global, words: &Words<'_>) -> Result<Option<Row>, AllocError>
    ensures { IfOk result (λ found. Reads IsSpellableRow row_words (codes "eq" ∷ words.now) found) }
{
    let Some(form) = read_form(alloc, words)? else {
        return Ok(None);
    };
    Ok(Some(Row::Eq(form)))
}

fn div_row(alloc: Global, words: &Words<'_>) -> Result<Option<Row>, AllocError>
    ensures { IfOk result (λ found. Reads IsSpellableRow row_words (codes "div" ∷ words.now) found) }
{
    let Some((modulus, form)) = modulus_form(alloc, words)? else {
        return Ok(None);
    };
    Ok(Some(Row::Div(modulus, form)))
}

/// The row that words spell.
pub fn read_row(alloc: Global, words: &Words<'_>) -> Result<Option<Row>, AllocError>
    ensures { IfOk result (λ found. Reads IsSpellableRow row_words words.now found) }
{
    let mut words = words.again();
    let Some(name) = words.next() else {
        return Ok(None);
    };
    if is(name, b"ge") {
        return ge_row(alloc, &words);
    }
    if is(name, b"eq") {
        return eq_row(alloc, &words);
    }
    if is(name, b"div") {
        return div_row(alloc, &words);
    }
    Ok(None)
}
