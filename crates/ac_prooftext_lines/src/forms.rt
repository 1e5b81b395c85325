//! Forms.
ghost use Rattle.std.specs.Prelude.{◌≡◌, ◌≤◌, ◌-◌, ◌++◌, ◌∷◌, [], pos, replicate, length, ℤ, List, IfOk, OnOk};
ghost use Rattle.std.specs.Fmt.{signed_decimal};
ghost use Rattle.smallvec.specs.SmallVec.{small_vec_len};
ghost use Rattle.ac_prooftext_lines.specs.ItemReaders.{Reads, AreCoefficients, ReadsList};
ghost use Rattle.ac_prooftext_lines.specs.Spellable.{IsSpellableForm};
ghost use Rattle.ac_prooftext_lines.specs.Spelling.{terms_from, form_words};

use crate::numbers::indexed;
use crate::words::Words;
use ac_forms::Form;
use smallvec::SmallVec;
use std::alloc::{AllocError, Global};

/// Adds a coefficient behind zeros, in its column.
fn push_coefficient(
    alloc: Global,
    coefs: &mut SmallVec<i128, 8>,
    column: usize,
    coef: &i128,
) -> Result<(), AllocError>
    requires { small_vec_len coefs.old ≤ column }
    ensures { OnOk result (coefs.new.items ≡ coefs.old.items ++ (replicate (column - length coefs.old.items) (pos 0) ++ coef.now ∷ [])) }
{
    let zeros = SmallVec::<i128, 8>::from_elem(alloc, 0, column - coefs.len())?;
    coefs.extend_from_slice(zeros.as_slice())?;
    coefs.push(*coef)?;
    Ok(())
}

/// The coefficients that words spell, the columns rising.
fn coefficients(alloc: Global, words: &Words<'_>) -> Result<Option<SmallVec<i128, 8>>, AllocError>
    ensures { IfOk result (λ found. ReadsList AreCoefficients (terms_from 0) words.now found (λ coefs. coefs.items)) }
{
    let mut words = words.again();
    let mut coefs = SmallVec::new(alloc);
    while let Some(word) = words.next() {
        let Some((column, coef)) = indexed(word) else {
            return Ok(None);
        };
        if coef == 0 || column < coefs.len() {
            return Ok(None);
        }
        push_coefficient(alloc, &mut coefs, column, &coef)?;
    }
    Ok(Some(coefs))
}

/// The form that words spell.
pub fn read_form(alloc: Global, words: &Words<'_>) -> Result<Option<Form>, AllocError>
    ensures { IfOk result (λ found. Reads IsSpellableForm form_words words.now found) }
{
    let mut words = words.again();
    let Some(konst) = words.integer() else {
        return Ok(None);
    };
    let Some(coefs) = coefficients(alloc, &words)? else {
        return Ok(None);
    };
    let form = Form::from_parts(alloc, konst, coefs.as_slice())?;
    Ok(Some(form))
}
