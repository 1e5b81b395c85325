//! Choices of elimination.
ghost use Rattle.std.specs.Prelude.{◌≡◌, ◌∷◌, codes};
ghost use Rattle.ac_prooftext_lines.specs.ItemReaders.{Reads};
ghost use Rattle.ac_prooftext_lines.specs.Spellable.{IsSpellableChoice};
ghost use Rattle.ac_prooftext_lines.specs.Spelling.{choice_words};

use crate::fields::{natural_two_integers, one_natural, two_naturals, two_naturals_integer};
use crate::words::{Words, is};
use ac_omega_steps::Choice;

fn drop_choice(words: &Words<'_>) -> Option<Choice>
    ensures { Reads IsSpellableChoice choice_words (codes "drop" ∷ words.now) result }
{
    let Some(column) = one_natural(words) else {
        return None;
    };
    Some(Choice::Drop(column))
}

fn equal_choice(words: &Words<'_>) -> Option<Choice>
    ensures { Reads IsSpellableChoice choice_words (codes "equal" ∷ words.now) result }
{
    let Some((column, row)) = two_naturals(words) else {
        return None;
    };
    Some(Choice::Equal(column, row))
}

fn residue_choice(words: &Words<'_>) -> Option<Choice>
    ensures { Reads IsSpellableChoice choice_words (codes "residue" ∷ words.now) result }
{
    let Some((column, modulus, residue)) = natural_two_integers(words) else {
        return None;
    };
    Some(Choice::Residue(column, modulus, residue))
}

fn shadow_choice(words: &Words<'_>) -> Option<Choice>
    ensures { Reads IsSpellableChoice choice_words (codes "shadow" ∷ words.now) result }
{
    let Some(column) = one_natural(words) else {
        return None;
    };
    Some(Choice::Shadow(column))
}

fn splinter_choice(words: &Words<'_>) -> Option<Choice>
    ensures { Reads IsSpellableChoice choice_words (codes "splinter" ∷ words.now) result }
{
    let Some((column, row, value)) = two_naturals_integer(words) else {
        return None;
    };
    Some(Choice::Splinter(column, row, value))
}

/// The choice that these words spell.
pub fn read_choice(words: &Words<'_>) -> Option<Choice>
    ensures { Reads IsSpellableChoice choice_words words.now result }
{
    let mut words = words.again();
    let Some(name) = words.next() else {
        return None;
    };
    if is(name, b"drop") {
        return drop_choice(&words);
    }
    if is(name, b"equal") {
        return equal_choice(&words);
    }
    if is(name, b"residue") {
        return residue_choice(&words);
    }
    if is(name, b"shadow") {
        return shadow_choice(&words);
    }
    if is(name, b"splinter") {
        return splinter_choice(&words);
    }
    None
}
