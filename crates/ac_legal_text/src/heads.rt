//! Lines that spell no form: the first, that of an assignment, and the last.
ghost use Rattle.std.specs.Prelude.{◌≡◌, ◌≤◌, ◌<◌, ◌+◌, ◌^◌, ◌++◌, ◌∷◌, [], ℕ, List, length, decimal, IfOk, IfErr, MatchOption};
ghost use Rattle.ac_legal_text.specs.LineKinds.{BeginsWith, FailsAt, assign, last};
ghost use Rattle.ac_legal_text.specs.OrderAnswers.{IfLine};
ghost use Rattle.ac_legal_text.specs.OrderTexts.{head_line, assign_line, end_line, text_of, AreLevels};

use crate::fronts::{behind, behind_number};
use crate::types::OrderFault;

/// One more than the most numbers of a time.
const LEVELS: usize = 14;

/// The number of levels at the front of a text up to the end of its line, and what stands behind that.
fn levels_at(text: &[u8]) -> Option<(usize, &[u8])>
    ensures { MatchOption result ((levels : ℕ) (rest : List ℕ) → AreLevels levels → ¬ (text.now ≡ decimal levels ++ 10 ∷ rest)) (λ p. AreLevels p.0 × (text.now ≡ decimal p.0 ++ 10 ∷ p.1.now)) }
{
    for levels in 1..LEVELS {
        if let Some(rest) = behind_number(text, levels, b"\n") {
            return Some((levels, rest));
        }
    }
    None
}

/// How many numbers a time has by the first line, and what stands behind it; none if the text does not begin with such a line.
pub(crate) fn read_head(text: &[u8]) -> Option<(usize, &[u8])>
    ensures { MatchOption result ((levels : ℕ) (rest : List ℕ) → AreLevels levels → ¬ (text.now ≡ head_line levels ++ 10 ∷ rest)) (λ p. AreLevels p.0 × (text.now ≡ head_line p.0 ++ 10 ∷ p.1.now)) }
{
    let Some(digits) = behind(text, b"affine-order 1 ") else {
        return None;
    };
    levels_at(digits)
}

/// What stands behind the line of an assignment, if the text begins with it.
pub(crate) fn behind_assign(text: &[u8], number: usize) -> Option<&[u8]>
    ensures { MatchOption result ((rest : List ℕ) → ¬ (BeginsWith (assign number) text.now rest)) (λ rest. text.now ≡ assign_line number ++ 10 ∷ rest.now) }
{
    let Some(word) = behind(text, b"assign ") else {
        return None;
    };
    behind_number(word, number, b"\n")
}

/// The last line, behind so many lines; nothing may stand behind it.
pub(crate) fn read_end(text: &[u8], before: u64) -> Result<(), OrderFault>
    requires { before + length text.now + 1 < 2 ^ 64 }
    ensures end { IfOk result (λ _. text.now ≡ text_of (end_line ∷ [])) }
    ensures fault { IfErr result (λ fault. IfLine fault (FailsAt (last ∷ []) text.now before)) }
{
    let Some(rest) = behind(text, b"end\n") else {
        return Err(OrderFault::Line(before + 1));
    };
    if rest.is_empty() {
        return Ok(());
    }
    Err(OrderFault::Line(before + 2))
}
