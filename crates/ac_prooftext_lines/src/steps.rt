//! Steps.
ghost use Rattle.std.specs.Prelude.{◌≡◌, ◌∷◌, [], codes, decimal, ℕ, ℤ, IfOk};
ghost use Rattle.std.specs.Fmt.{signed_decimal};
ghost use Rattle.ac_forms.specs.Affine.{Affine};
ghost use Rattle.ac_forms.specs.Fits.{Fits};
ghost use Rattle.ac_prooftext_lines.specs.ItemReaders.{Reads};
ghost use Rattle.ac_prooftext_lines.specs.Spellable.{IsIndex, IsSpellableForm, IsSpellableStep};
ghost use Rattle.ac_prooftext_lines.specs.Spelling.{form_words, step_words};

use crate::fields::{natural_integer, one_natural, two_naturals};
use crate::forms::read_form;
use crate::lists::multiples;
use crate::rows::integer_form;
use crate::words::{Words, is};
use ac_cert::types::Step;
use ac_forms::Form;
use std::alloc::{AllocError, Global};

/// A sum of at least one row.
fn add_step(alloc: Global, words: &Words<'_>) -> Result<Option<Step>, AllocError>
    ensures { IfOk result (λ found. Reads IsSpellableStep step_words (codes "add" ∷ words.now) found) }
{
    if words.is_done() {
        return Ok(None);
    }
    let Some(pairs) = multiples(alloc, words)? else {
        return Ok(None);
    };
    Ok(Some(Step::Add(pairs)))
}

fn cut_step(words: &Words<'_>) -> Option<Step>
    ensures { Reads IsSpellableStep step_words (codes "cut" ∷ words.now) result }
{
    let Some((row, divisor)) = natural_integer(words) else {
        return None;
    };
    Some(Step::Cut(row, divisor))
}

fn div_scale(words: &Words<'_>) -> Option<Step>
    ensures { Reads IsSpellableStep step_words (codes "divscale" ∷ words.now) result }
{
    let Some((row, factor)) = natural_integer(words) else {
        return None;
    };
    Some(Step::DivScale(row, factor))
}

/// Two rows, each with its factor.
fn two_multiples(words: &Words<'_>) -> Option<(usize, i128, usize, i128)>
    ensures { Reads (λ (p : ℕ × ℤ × ℕ × ℤ). IsIndex p.0 × Fits p.1 × IsIndex p.2 × Fits p.3) (λ p. decimal p.0 ∷ signed_decimal p.1 ∷ decimal p.2 ∷ signed_decimal p.3 ∷ []) words.now result }
{
    let mut words = words.again();
    let Some(first) = words.natural() else {
        return None;
    };
    let Some(factor) = words.integer() else {
        return None;
    };
    let Some(second) = words.natural() else {
        return None;
    };
    let Some(other) = words.last_integer() else {
        return None;
    };
    Some((first, factor, second, other))
}

fn div_add(words: &Words<'_>) -> Option<Step>
    ensures { Reads IsSpellableStep step_words (codes "divadd" ∷ words.now) result }
{
    let Some((first, factor, second, other)) = two_multiples(words) else {
        return None;
    };
    Some(Step::DivAdd(first, factor, second, other))
}

/// A row, two integers and a form.
fn row_integers_form(
    alloc: Global,
    words: &Words<'_>,
) -> Result<Option<(usize, i128, i128, Form)>, AllocError>
    ensures { IfOk result (λ found. Reads (λ (p : ℕ × ℤ × ℤ × Affine). IsIndex p.0 × Fits p.1 × Fits p.2 × IsSpellableForm p.3) (λ p. decimal p.0 ∷ signed_decimal p.1 ∷ signed_decimal p.2 ∷ form_words p.3) words.now found) }
{
    let mut words = words.again();
    let Some(row) = words.natural() else {
        return Ok(None);
    };
    let Some(first) = words.integer() else {
        return Ok(None);
    };
    let Some(second) = words.integer() else {
        return Ok(None);
    };
    let Some(form) = read_form(alloc, &words)? else {
        return Ok(None);
    };
    Ok(Some((row, first, second, form)))
}

fn div_mod(alloc: Global, words: &Words<'_>) -> Result<Option<Step>, AllocError>
    ensures { IfOk result (λ found. Reads IsSpellableStep step_words (codes "divmod" ∷ words.now) found) }
{
    let Some((row, divisor, modulus, form)) = row_integers_form(alloc, words)? else {
        return Ok(None);
    };
    Ok(Some(Step::DivMod(row, divisor, modulus, form)))
}

fn div_eq(words: &Words<'_>) -> Option<Step>
    ensures { Reads IsSpellableStep step_words (codes "diveq" ∷ words.now) result }
{
    let Some((row, modulus)) = natural_integer(words) else {
        return None;
    };
    Some(Step::DivEq(row, modulus))
}

fn quot_step(words: &Words<'_>) -> Option<Step>
    ensures { Reads IsSpellableStep step_words (codes "quot" ∷ words.now) result }
{
    let Some(row) = one_natural(words) else {
        return None;
    };
    Some(Step::Quot(row))
}

fn floor_step(alloc: Global, words: &Words<'_>) -> Result<Option<Step>, AllocError>
    ensures { IfOk result (λ found. Reads IsSpellableStep step_words (codes "floor" ∷ words.now) found) }
{
    let Some((divisor, form)) = integer_form(alloc, words)? else {
        return Ok(None);
    };
    Ok(Some(Step::Floor(divisor, form)))
}

fn eq_cut(words: &Words<'_>) -> Option<Step>
    ensures { Reads IsSpellableStep step_words (codes "eqcut" ∷ words.now) result }
{
    let Some((first, second)) = two_naturals(words) else {
        return None;
    };
    Some(Step::EqCut(first, second))
}

/// The step that words spell.
pub fn read_step(alloc: Global, words: &Words<'_>) -> Result<Option<Step>, AllocError>
    ensures { IfOk result (λ found. Reads IsSpellableStep step_words words.now found) }
{
    let mut words = words.again();
    let Some(name) = words.next() else {
        return Ok(None);
    };
    if is(name, b"add") {
        return add_step(alloc, &words);
    }
    if is(name, b"cut") {
        return Ok(cut_step(&words));
    }
    if is(name, b"divscale") {
        return Ok(div_scale(&words));
    }
    if is(name, b"divadd") {
        return Ok(div_add(&words));
    }
    if is(name, b"divmod") {
        return div_mod(alloc, &words);
    }
    if is(name, b"diveq") {
        return Ok(div_eq(&words));
    }
    if is(name, b"quot") {
        return Ok(quot_step(&words));
    }
    if is(name, b"floor") {
        return floor_step(alloc, &words);
    }
    if is(name, b"eqcut") {
        return Ok(eq_cut(&words));
    }
    Ok(None)
}
