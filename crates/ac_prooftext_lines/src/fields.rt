//! Numbers, each a word of its own, and nothing behind them.
ghost use Rattle.std.specs.Prelude.{◌≡◌, [], ◌∷◌, ℕ, ℤ, decimal};
ghost use Rattle.std.specs.Fmt.{signed_decimal};
ghost use Rattle.ac_forms.specs.Fits.{Fits};
ghost use Rattle.ac_prooftext_lines.specs.ItemReaders.{Reads};
ghost use Rattle.ac_prooftext_lines.specs.Spellable.{IsIndex, IsIndexed, AreIndices};

use crate::words::Words;

/// One number.
pub fn one_natural(words: &Words<'_>) -> Option<usize>
    ensures { Reads IsIndex (λ n. decimal n ∷ []) words.now result }
{
    words.again().last_natural()
}

/// Two numbers.
pub fn two_naturals(words: &Words<'_>) -> Option<(usize, usize)>
    ensures { Reads AreIndices (λ p. decimal p.0 ∷ decimal p.1 ∷ []) words.now result }
{
    let mut words = words.again();
    let Some(first) = words.natural() else {
        return None;
    };
    let Some(second) = words.last_natural() else {
        return None;
    };
    Some((first, second))
}

/// Three numbers.
pub fn three_naturals(words: &Words<'_>) -> Option<(usize, usize, usize)>
    ensures { Reads (λ (p : ℕ × ℕ × ℕ). IsIndex p.0 × IsIndex p.1 × IsIndex p.2) (λ p. decimal p.0 ∷ decimal p.1 ∷ decimal p.2 ∷ []) words.now result }
{
    let mut words = words.again();
    let Some(first) = words.natural() else {
        return None;
    };
    let Some(second) = words.natural() else {
        return None;
    };
    let Some(third) = words.last_natural() else {
        return None;
    };
    Some((first, second, third))
}

/// A number and an integer.
pub fn natural_integer(words: &Words<'_>) -> Option<(usize, i128)>
    ensures { Reads IsIndexed (λ p. decimal p.0 ∷ signed_decimal p.1 ∷ []) words.now result }
{
    let mut words = words.again();
    let Some(first) = words.natural() else {
        return None;
    };
    let Some(second) = words.last_integer() else {
        return None;
    };
    Some((first, second))
}

/// Two numbers and an integer.
pub fn two_naturals_integer(words: &Words<'_>) -> Option<(usize, usize, i128)>
    ensures { Reads (λ (p : ℕ × ℕ × ℤ). IsIndex p.0 × IsIndex p.1 × Fits p.2) (λ p. decimal p.0 ∷ decimal p.1 ∷ signed_decimal p.2 ∷ []) words.now result }
{
    let mut words = words.again();
    let Some(first) = words.natural() else {
        return None;
    };
    let Some(second) = words.natural() else {
        return None;
    };
    let Some(third) = words.last_integer() else {
        return None;
    };
    Some((first, second, third))
}

/// A number and two integers.
pub fn natural_two_integers(words: &Words<'_>) -> Option<(usize, i128, i128)>
    ensures { Reads (λ (p : ℕ × ℤ × ℤ). IsIndex p.0 × Fits p.1 × Fits p.2) (λ p. decimal p.0 ∷ signed_decimal p.1 ∷ signed_decimal p.2 ∷ []) words.now result }
{
    let mut words = words.again();
    let Some(first) = words.natural() else {
        return None;
    };
    let Some(second) = words.integer() else {
        return None;
    };
    let Some(third) = words.last_integer() else {
        return None;
    };
    Some((first, second, third))
}
