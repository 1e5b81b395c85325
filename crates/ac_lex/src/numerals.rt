ghost use Rattle.std.specs.Prelude.{◌≡◌, ◌≤◌, ◌+◌, length};
ghost use Rattle.ac_lex.specs.LexerModel as spec;
ghost use Rattle.std.specs.List.{list_all};
ghost use Rattle.ac_lex.specs.Bytes.{is_digit};
ghost use Rattle.ac_lex.specs.Numerals.{continues};

use crate::bytes::{is_digit, is_exponent_letter, is_sign, is_suffix_letter, is_word_byte};

#[tactic(auto, unfolding(crate::specs::LexerModel::digit_count), using(crate::proofs::Turns::count_is, crate::proofs::Turns::count_fits))]
fn digit_count(bytes: &[u8]) -> usize
    ensures count { result ≡ spec.digit_count bytes.now }
    ensures fits { result ≤ length bytes.now }
{
    bytes.iter().take_while(|b| is_digit(**b)).count()
}

#[tactic(auto, unfolding(crate::specs::LexerModel::after_digits))]
fn after_digits(bytes: &[u8]) -> &[u8]
    ensures { result.now ≡ spec.after_digits bytes.now }
{
    &bytes[digit_count(bytes)..]
}

fn is_suffix(bytes: &[u8]) -> bool
    ensures { result ≡ spec.is_suffix bytes.now }
{
    match bytes {
        [] => true,
        [b] => is_suffix_letter(*b),
        _ => false,
    }
}

#[tactic(auto, unfolding(crate::specs::LexerModel::ends_in_digits))]
fn ends_in_digits(bytes: &[u8]) -> bool
    ensures { result ≡ spec.ends_in_digits bytes.now }
{
    digit_count(bytes) > 0 && is_suffix(after_digits(bytes))
}

fn past_sign(bytes: &[u8]) -> &[u8]
    ensures { result.now ≡ spec.past_sign bytes.now }
{
    match bytes {
        [b, rest @ ..] if is_sign(*b) => rest,
        _ => bytes,
    }
}

fn ends_in_exponent(bytes: &[u8]) -> bool
    ensures { result ≡ spec.ends_in_exponent bytes.now }
{
    match bytes {
        [] => false,
        [e, rest @ ..] => is_exponent_letter(*e) && ends_in_digits(past_sign(rest)),
    }
}

fn ends_in_fraction(whole: usize, bytes: &[u8]) -> bool
    ensures { result ≡ spec.ends_in_fraction whole bytes.now }
{
    let rest = after_digits(bytes);
    (whole > 0 || digit_count(bytes) > 0) && (is_suffix(rest) || ends_in_exponent(rest))
}

/// Whether a text is a decimal: digits with a point or an exponent or both, and an optional suffix.
#[tactic(auto, unfolding(crate::specs::LexerModel::is_decimal))]
pub fn is_decimal(text: &[u8]) -> bool
    ensures { result ≡ spec.is_decimal text.now }
{
    let whole = digit_count(text);
    match after_digits(text) {
        [] => false,
        [b'.', rest @ ..] => ends_in_fraction(whole, rest),
        rest => whole > 0 && ends_in_exponent(rest),
    }
}

fn all_digits(text: &[u8]) -> bool
    ensures { result ≡ list_all is_digit text.now }
{
    text.iter().all(|b| is_digit(*b))
}

/// Whether a text is 0, or digits that don't begin with 0.
#[tactic(auto, unfolding(crate::specs::LexerModel::is_number))]
pub fn is_number(text: &[u8]) -> bool
    ensures { result ≡ spec.is_number text.now }
{
    match text {
        [] => false,
        [d] => is_digit(*d),
        [d, ..] => *d != b'0' && all_digits(text),
    }
}

fn continues(before: u8, b: u8) -> bool
    ensures { result ≡ continues before b }
{
    is_word_byte(b) || b == b'.' || is_sign(b) && is_exponent_letter(before)
}

fn run_len(first: u8, bytes: &[u8]) -> usize
    ensures count { result ≡ spec.run_len first bytes.now }
    ensures fits { result ≤ length bytes.now }
{
    let mut before = first;
    for (n, b) in bytes.iter().enumerate() {
        if !continues(before, *b) {
            return n;
        }
        before = *b;
    }
    bytes.len()
}

fn pointed_run(bytes: &[u8]) -> usize
    ensures count { result ≡ spec.pointed_run bytes.now }
    ensures fits { result ≤ 1 + length bytes.now }
{
    match bytes {
        [b, rest @ ..] if is_digit(*b) => 2 + run_len(*b, rest),
        _ => 0,
    }
}

/// How many bytes the run at the front takes, or 0 where none begins there.
#[tactic(auto, unfolding(crate::specs::LexerModel::run_at))]
pub fn run_at(bytes: &[u8]) -> usize
    ensures count { result ≡ spec.run_at bytes.now }
    ensures fits { result ≤ length bytes.now }
{
    match bytes {
        [] => 0,
        [a, rest @ ..] if is_digit(*a) => 1 + run_len(*a, rest),
        [b'.', rest @ ..] => pointed_run(rest),
        _ => 0,
    }
}
