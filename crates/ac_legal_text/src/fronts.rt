//! What stands behind the front of a text.
ghost use Rattle.std.specs.Prelude.{◌≡◌, ◌≤◌, ◌++◌, ◌∷◌, ℕ, List, length, take, drop, codes, decimal, MatchOption, IsTrue, ◌↔◌};
ghost use Rattle.ac_legal_text.specs.Fronts.{IsInk, IsEnd};

use itoa::Buffer;

/// Whether two texts are one.
fn is(text: &[u8], other: &[u8]) -> bool
    ensures { IsTrue result ↔ (text.now ≡ other.now) }
{
    text == other
}

/// A text in two parts.
pub(crate) fn halves(text: &[u8], at: usize) -> (&[u8], &[u8])
    requires { at ≤ length text.now }
    ensures front { result.0.now ≡ take at text.now }
    ensures behind { result.1.now ≡ drop at text.now }
{
    text.split_at(at)
}

/// What stands behind a front, if the text begins with it.
pub(crate) fn behind<'a>(text: &'a [u8], front: &[u8]) -> Option<&'a [u8]>
    ensures { MatchOption result ((rest : List ℕ) → ¬ (text.now ≡ front.now ++ rest)) (λ rest. text.now ≡ front.now ++ rest.now) }
{
    let long = front.len();
    if text.len() < long {
        return None;
    }
    let (begin, rest) = halves(text, long);
    if is(begin, front) {
        return Some(rest);
    }
    None
}

/// What stands behind a number and a mark, if the text begins with them.
pub(crate) fn behind_number<'a>(text: &'a [u8], number: usize, mark: &[u8]) -> Option<&'a [u8]>
    ensures { MatchOption result ((rest : List ℕ) → ¬ (text.now ≡ decimal number ++ (mark.now ++ rest))) (λ rest. text.now ≡ decimal number ++ (mark.now ++ rest.now)) }
{
    let mut buffer = Buffer::new();
    let Some(rest) = behind(text, buffer.format(number).as_bytes()) else {
        return None;
    };
    behind(rest, mark)
}

/// How many bytes above the blank stand at the front of a text.
pub(crate) fn word_len(text: &[u8]) -> usize
    ensures within { result ≤ length text.now }
    ensures ink { IsInk (take result text.now) }
    ensures ends { IsEnd (drop result text.now) }
{
    for at in 0..text.len() {
        if text[at] <= b' ' {
            return at;
        }
    }
    text.len()
}
