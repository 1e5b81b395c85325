//! Numbers at the front of a text: decimal digits without leading zeros, a minus in front of a negative one.
ghost use Rattle.std.specs.Prelude.{◌≡◌, ◌++◌, ℕ, ℤ, List, IfSome, IsTrue, ◌↔◌, MatchOption};
ghost use Rattle.std.specs.Fmt.{signed_decimal};
ghost use Rattle.ac_legal_text.specs.Fronts.{IsEnd};
ghost use Rattle.ac_legal_text.specs.OrderTexts.{IsSmall};

use crate::fronts::{halves, word_len};
use itoa::Buffer;

/// The greatest absolute value of a number.
const MOST: u128 = 2_147_483_648;

/// The integer that a text spells; at least each small one is read.
fn canonical(text: &str) -> Option<i128>
    ensures read { MatchOption result ((z : ℤ) → IsSmall z → ¬ (text.now ≡ signed_decimal z)) (λ z. text.now ≡ signed_decimal z) }
    ensures one { IfSome result (λ z. (y : ℤ) → IsSmall y → text.now ≡ signed_decimal y → y ≡ z) }
{
    let Ok(value) = text.parse::<i128>() else {
        return None;
    };
    let mut buffer = Buffer::new();
    if buffer.format(value) == text {
        Some(value)
    } else {
        None
    }
}

/// The integer that a word spells; at least each small one is read.
fn integer(word: &[u8]) -> Option<i128>
    ensures read { MatchOption result ((z : ℤ) → IsSmall z → ¬ (word.now ≡ signed_decimal z)) (λ z. word.now ≡ signed_decimal z) }
    ensures one { IfSome result (λ z. (y : ℤ) → IsSmall y → word.now ≡ signed_decimal y → y ≡ z) }
{
    match str::from_utf8(word) {
        Ok(text) => canonical(text),
        Err(_) => None,
    }
}

/// Whether an integer is of at most 2^31 in absolute value.
fn is_small(value: &i128) -> bool
    ensures { IsTrue result ↔ IsSmall value.now }
{
    value.unsigned_abs() <= MOST
}

/// The small integer that a word spells.
fn small(word: &[u8]) -> Option<i128>
    ensures { MatchOption result ((z : ℤ) → IsSmall z → ¬ (word.now ≡ signed_decimal z)) (λ z. IsSmall z × (word.now ≡ signed_decimal z)) }
{
    let Some(value) = integer(word) else {
        return None;
    };
    if is_small(&value) {
        return Some(value);
    }
    None
}

/// The small integer at the front of a text up to a blank, a newline or the end, and what stands behind it.
pub(crate) fn number_at(text: &[u8]) -> Option<(i128, &[u8])>
    ensures { MatchOption result ((z : ℤ) (rest : List ℕ) → IsSmall z → IsEnd rest → ¬ (text.now ≡ signed_decimal z ++ rest)) (λ p. IsSmall p.0 × IsEnd p.1.now × (text.now ≡ signed_decimal p.0 ++ p.1.now)) }
{
    let (word, rest) = halves(text, word_len(text));
    let Some(number) = small(word) else {
        return None;
    };
    Some((number, rest))
}
