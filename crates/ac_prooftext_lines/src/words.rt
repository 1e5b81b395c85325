//! The words of a line.
ghost use Rattle.std.specs.Prelude.{◌≡◌, ◌<◌, ◌^◌, ◌∷◌, [], ℕ, ℤ, List, decimal, MatchOption, IsTrue, ◌↔◌};
ghost use Rattle.std.specs.Option.{option_copied};
ghost use Rattle.std.specs.Fmt.{signed_decimal};
ghost use Rattle.ac_forms.specs.Fits.{Fits};
ghost use Rattle.ac_prooftext_lines.specs.LineWords.{words_in, words_left};

use crate::numbers::{cut, integer, natural};
use std::marker::Model;

/// The words of a line that are left. Contracts see their list.
#[derive(Drop)]
pub struct Words<'a> {
    rest: Option<&'a [u8]>,
}

impl<'a> Model for Words<'a> {
    ghost use Rattle.std.specs.Prelude.{List, ℕ};
    ghost use Rattle.std.specs.Option.{option_copied};
    ghost use Rattle.ac_prooftext_lines.specs.LineWords.{words_left};

    ghost Value = { List (List ℕ) };

    ghost view = { λ words. words_left (option_copied words.rest) };
}

/// The first word of a text, and what stands behind the blank after it.
fn first_word(text: &[u8]) -> (&[u8], Option<&[u8]>)
    ensures { words_in text.now ≡ result.0.now ∷ words_left (option_copied result.1) }
{
    match cut(text, b' ') {
        Some((word, rest)) => (word, Some(rest)),
        None => (text, None),
    }
}

/// Whether a word is this one.
pub fn is(word: &[u8], name: &[u8]) -> bool
    ensures { IsTrue result ↔ (word.now ≡ name.now) }
{
    word == name
}

impl<'a> Words<'a> {
    /// The words of a line.
    pub fn new(line: &'a [u8]) -> Words<'a>
        ensures { result ≡ words_in line.now }
    {
        Words { rest: Some(line) }
    }

    /// The same words again.
    pub fn again(&self) -> Words<'a>
        ensures { result ≡ self.now }
    {
        Words { rest: self.rest }
    }

    /// Whether no word is left.
    pub fn is_done(&self) -> bool
        ensures { IsTrue result ↔ (self.now ≡ []) }
    {
        match self.rest {
            Some(_) => false,
            None => true,
        }
    }

    /// The next word, which is passed.
    pub fn next(&mut self) -> Option<&'a [u8]>
        ensures { MatchOption result ((self.old ≡ []) × (self.new ≡ [])) (λ word. self.old ≡ word.now ∷ self.new) }
    {
        let Some(text) = self.rest else {
            return None;
        };
        let (word, rest) = first_word(text);
        self.rest = rest;
        Some(word)
    }

    /// The number of 64 bits that the next word spells, which is passed.
    pub fn natural(&mut self) -> Option<usize>
        ensures { MatchOption result ((n : ℕ) (rest : List (List ℕ)) → n < 2 ^ 64 → ¬ (self.old ≡ decimal n ∷ rest)) (λ n. self.old ≡ decimal n ∷ self.new) }
    {
        let Some(word) = self.next() else {
            return None;
        };
        natural(word)
    }

    /// The integer of 128 bits that the next word spells, which is passed.
    pub fn integer(&mut self) -> Option<i128>
        ensures { MatchOption result ((z : ℤ) (rest : List (List ℕ)) → Fits z → ¬ (self.old ≡ signed_decimal z ∷ rest)) (λ z. self.old ≡ signed_decimal z ∷ self.new) }
    {
        let Some(word) = self.next() else {
            return None;
        };
        integer(word)
    }

    /// The number of 64 bits that the last word spells, where only one is left.
    pub fn last_natural(&mut self) -> Option<usize>
        ensures { MatchOption result ((n : ℕ) → n < 2 ^ 64 → ¬ (self.old ≡ decimal n ∷ [])) (λ n. self.old ≡ decimal n ∷ []) }
    {
        let Some(number) = self.natural() else {
            return None;
        };
        if self.is_done() { Some(number) } else { None }
    }

    /// The integer of 128 bits that the last word spells, where only one is left.
    pub fn last_integer(&mut self) -> Option<i128>
        ensures { MatchOption result ((z : ℤ) → Fits z → ¬ (self.old ≡ signed_decimal z ∷ [])) (λ z. self.old ≡ signed_decimal z ∷ []) }
    {
        let Some(number) = self.integer() else {
            return None;
        };
        if self.is_done() { Some(number) } else { None }
    }
}
