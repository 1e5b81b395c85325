//! Numbers as words: decimal digits without leading zeros, a minus in front of a negative one.
ghost use Rattle.std.specs.Prelude.{◌≡◌, ◌<◌, ◌^◌, ◌∷◌, ◌++◌, ℕ, suc, ℤ, pos, negsuc, List, decimal, MatchOption};
ghost use Rattle.std.specs.Fmt.{signed_decimal};
ghost use Rattle.ac_forms.specs.Fits.{Fits};
ghost use Rattle.ac_prooftext_lines.specs.ItemReaders.{Reads};
ghost use Rattle.ac_prooftext_lines.specs.Spellable.{IsIndexed, AreIndices};
ghost use Rattle.ac_prooftext_lines.specs.Spelling.{pair_word, dotted_word};
ghost use Rattle.ac_prooftext_lines.specs.LineWords.{IsFree};

use itoa::Buffer;

/// The number that a text spells.
fn canonical(text: &str) -> Option<u128>
    ensures { MatchOption result ((n : ℕ) → n < 2 ^ 128 → ¬ (text.now ≡ decimal n)) (λ n. text.now ≡ decimal n) }
{
    let Ok(value) = text.parse::<u128>() else {
        return None;
    };
    let mut buffer = Buffer::new();
    if buffer.format(value) == text {
        Some(value)
    } else {
        None
    }
}

/// The number that a word spells.
fn magnitude(word: &[u8]) -> Option<u128>
    ensures { MatchOption result ((n : ℕ) → n < 2 ^ 128 → ¬ (word.now ≡ decimal n)) (λ n. word.now ≡ decimal n) }
{
    match str::from_utf8(word) {
        Ok(text) => canonical(text),
        Err(_) => None,
    }
}

/// The number of 64 bits that a word spells.
pub fn natural(word: &[u8]) -> Option<usize>
    ensures { MatchOption result ((n : ℕ) → n < 2 ^ 64 → ¬ (word.now ≡ decimal n)) (λ n. word.now ≡ decimal n) }
{
    let Some(value) = magnitude(word) else {
        return None;
    };
    if value <= usize::MAX as u128 {
        Some(value as usize)
    } else {
        None
    }
}

/// The negative integer whose absolute value a word spells.
fn negative(digits: &[u8]) -> Option<i128>
    ensures { MatchOption result ((n : ℕ) → Fits (negsuc n) → ¬ (digits.now ≡ decimal (suc n))) (λ z. 45 ∷ digits.now ≡ signed_decimal z) }
{
    let Some(value) = magnitude(digits) else {
        return None;
    };
    if value == 0 || value > i128::MAX as u128 + 1 {
        return None;
    }
    Some(-1 - (value - 1) as i128)
}

/// The integer that a word without a minus spells.
fn positive(digits: &[u8]) -> Option<i128>
    ensures { MatchOption result ((n : ℕ) → Fits (pos n) → ¬ (digits.now ≡ decimal n)) (λ z. digits.now ≡ signed_decimal z) }
{
    let Some(value) = magnitude(digits) else {
        return None;
    };
    if value <= i128::MAX as u128 {
        Some(value as i128)
    } else {
        None
    }
}

/// What stands before and behind the first byte that is this one.
pub fn cut(text: &[u8], mark: u8) -> Option<(&[u8], &[u8])>
    ensures { MatchOption result (IsFree mark text.now) (λ parts. IsFree mark parts.0.now × (text.now ≡ parts.0.now ++ mark ∷ parts.1.now)) }
{
    for at in 0..text.len() {
        if text[at] == mark {
            return Some((&text[..at], &text[at + 1..]));
        }
    }
    None
}

/// What stands behind the first byte, where that is this one.
pub fn behind(text: &[u8], mark: u8) -> Option<&[u8]>
    ensures { MatchOption result ((rest : List ℕ) → ¬ (text.now ≡ mark ∷ rest)) (λ rest. text.now ≡ mark ∷ rest.now) }
{
    let Some((first, rest)) = text.split_first() else {
        return None;
    };
    if *first == mark { Some(rest) } else { None }
}

/// The integer of 128 bits that a word spells.
pub fn integer(word: &[u8]) -> Option<i128>
    ensures { MatchOption result ((z : ℤ) → Fits z → ¬ (word.now ≡ signed_decimal z)) (λ z. word.now ≡ signed_decimal z) }
{
    match behind(word, b'-') {
        Some(digits) => negative(digits),
        None => positive(word),
    }
}

/// A number and an integer of 128 bits, as `r:l`.
pub fn indexed(word: &[u8]) -> Option<(usize, i128)>
    ensures { Reads IsIndexed pair_word word.now result }
{
    let Some((before, after)) = cut(word, b':') else {
        return None;
    };
    let Some(index) = natural(before) else {
        return None;
    };
    let Some(number) = integer(after) else {
        return None;
    };
    Some((index, number))
}

/// Two numbers, as `k.q`.
pub fn dotted(word: &[u8]) -> Option<(usize, usize)>
    ensures { Reads AreIndices dotted_word word.now result }
{
    let Some((before, after)) = cut(word, b'.') else {
        return None;
    };
    let Some(first) = natural(before) else {
        return None;
    };
    let Some(second) = natural(after) else {
        return None;
    };
    Some((first, second))
}
