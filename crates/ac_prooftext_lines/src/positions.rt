//! Positions.
ghost use Rattle.std.specs.Prelude.{◌≡◌, ◌++◌, ◌∷◌, ℕ, List, codes, decimal, MatchOption};
ghost use Rattle.ac_prooftext_lines.specs.ItemReaders.{Reads};
ghost use Rattle.ac_prooftext_lines.specs.Spellable.{IsIndex, AreIndices, IsSpellablePosition};
ghost use Rattle.ac_prooftext_lines.specs.Spelling.{dotted_word, position_word};

use crate::numbers::{behind, dotted, natural};
use ac_syntax::tree::Position;

/// The array behind an `O`.
fn array_of(word: &[u8]) -> Option<usize>
    ensures { Reads IsIndex (λ o. codes "O" ++ decimal o) word.now result }
{
    let Some(digits) = behind(word, b'O') else {
        return None;
    };
    natural(digits)
}

/// The assignment and the node behind an `S`.
fn node_of(word: &[u8]) -> Option<(usize, usize)>
    ensures { Reads AreIndices (λ p. codes "S" ++ dotted_word p) word.now result }
{
    let Some(numbers) = behind(word, b'S') else {
        return None;
    };
    dotted(numbers)
}

/// The initial position whose word stands behind an `I`.
fn initial_position(word: &[u8]) -> Option<Position>
    ensures { Reads IsSpellablePosition position_word (73 ∷ word.now) result }
{
    if let Some(array) = array_of(word) {
        return Some(Position::InitialOutput(array));
    }
    let Some((stmt, node)) = node_of(word) else {
        return None;
    };
    Some(Position::InitialNode { stmt, node })
}

/// The position that a word without an `I` in front spells.
fn present_position(word: &[u8]) -> Option<Position>
    requires { (rest : List ℕ) → ¬ (word.now ≡ 73 ∷ rest) }
    ensures { Reads IsSpellablePosition position_word word.now result }
{
    if let Some(array) = array_of(word) {
        return Some(Position::Output(array));
    }
    let Some((stmt, node)) = node_of(word) else {
        return None;
    };
    Some(Position::Node { stmt, node })
}

/// The position that a word spells.
pub fn read_position(word: &[u8]) -> Option<Position>
    ensures { Reads IsSpellablePosition position_word word.now result }
{
    match behind(word, b'I') {
        Some(rest) => initial_position(rest),
        None => present_position(word),
    }
}
