ghost use Rattle.std.specs.Prelude.{◌≡◌, ◌≤◌, ◌<◌, ◌^◌, length};
ghost use Rattle.std.specs.Str.{bytes_eq};
ghost use Rattle.ac_lex.specs.LexerModel as spec;

use crate::bytes::is_gap;
use crate::front::word_len;

/// Which directive a line is; of `#pragma affine` with the number of bytes through `affine`.
#[derive(Clone, Copy, PartialEq, Eq)]
pub enum Directive {
    Skipped,
    Affine(usize),
    Unknown,
}

#[tactic(auto, unfolding(crate::specs::LexerModel::gap_len), using(crate::proofs::Turns::count_is, crate::proofs::Turns::count_fits))]
fn gap_len(bytes: &[u8]) -> usize
    ensures count { result ≡ spec.gap_len bytes.now }
    ensures fits { result ≤ length bytes.now }
{
    bytes.iter().take_while(|b| is_gap(**b)).count()
}

#[tactic(auto, unfolding(crate::specs::LexerModel::word_of))]
fn word_of(bytes: &[u8]) -> &[u8]
    ensures { result.now ≡ spec.word_of bytes.now }
{
    bytes.split_at(word_len(bytes)).0
}

fn is_word(text: &[u8], word: &[u8]) -> bool
    ensures { result ≡ bytes_eq text.now word.now }
{
    text == word
}

fn pragma_of(after: &[u8]) -> Directive
    requires { length after.now < 2 ^ 32 }
    ensures { result ≡ spec.pragma_of after.now }
{
    // `#pragma` and `affine` have 13 bytes.
    let gap = gap_len(after);
    if is_word(word_of(&after[gap..]), b"affine") {
        Directive::Affine(13 + gap)
    } else {
        Directive::Skipped
    }
}

fn directive_after(rest: &[u8]) -> Directive
    requires { length rest.now < 2 ^ 32 }
    ensures { result ≡ spec.directive_of rest.now }
{
    let word = word_of(rest);
    if is_word(word, b"include") {
        Directive::Skipped
    } else if is_word(word, b"pragma") {
        pragma_of(&rest[word_len(rest)..])
    } else {
        Directive::Unknown
    }
}

/// Which directive a line is that begins with `#`.
#[tactic(auto, using(crate::proofs::DirectiveKinds::kind_is))]
pub fn directive_of(line: &[u8]) -> Directive
    requires some { 0 < length line.now }
    requires fits { length line.now < 2 ^ 32 }
    ensures { spec.IsOfKind line.now result }
{
    directive_after(&line[1..])
}
