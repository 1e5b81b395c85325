ghost use Rattle.std.specs.Prelude.{◌≡◌, ◌≤◌, length, IfSome};
ghost use Rattle.ac_lex.specs.LexerModel as spec;

use crate::bytes::{is_inside_line, is_letter, is_one_of, is_white_byte, is_word_byte};
use crate::numerals::{is_decimal, is_number, run_at};
use crate::tokens::TokenKind;

/// Why a text is refused.
#[derive(Clone, Copy, PartialEq, Eq)]
pub enum Refusal {
    Byte,
    Number,
    Long,
    Open,
}

/// What stands at the front of the bytes, and the bytes after it.
#[derive(Clone, Copy)]
pub enum Front<'a> {
    Nothing,
    Over(&'a [u8]),
    Text(TokenKind, &'a [u8], &'a [u8]),
    Bad(Refusal),
}

#[tactic(auto, unfolding(crate::specs::LexerModel::word_len), using(crate::proofs::Turns::count_is, crate::proofs::Turns::count_fits))]
pub fn word_len(bytes: &[u8]) -> usize
    ensures count { result ≡ spec.word_len bytes.now }
    ensures fits { result ≤ length bytes.now }
{
    bytes.iter().take_while(|b| is_word_byte(**b)).count()
}

#[tactic(auto, unfolding(crate::specs::LexerModel::line_len), using(crate::proofs::Turns::count_is, crate::proofs::Turns::count_fits))]
pub fn line_len(bytes: &[u8]) -> usize
    ensures count { result ≡ spec.line_len bytes.now }
    ensures fits { result ≤ length bytes.now }
{
    bytes.iter().take_while(|b| is_inside_line(**b)).count()
}

/// The first n bytes as a token.
fn cut(kind: TokenKind, n: usize, bytes: &[u8]) -> Front<'_>
    requires { n ≤ length bytes.now }
    ensures { spec.seen result ≡ spec.cut kind n bytes.now }
{
    let (text, rest) = bytes.split_at(n);
    Front::Text(kind, text, rest)
}

#[tactic(auto, unfolding(crate::specs::LexerModel::name_at))]
fn name_at(bytes: &[u8]) -> Front<'_>
    ensures { spec.seen result ≡ spec.name_at bytes.now }
{
    let n = word_len(bytes);
    if n > 64 {
        Front::Bad(Refusal::Long)
    } else {
        cut(TokenKind::Word, n, bytes)
    }
}

#[tactic(auto, unfolding(crate::specs::LexerModel::numeral_of))]
fn numeral_of(n: usize, bytes: &[u8]) -> Front<'_>
    requires { n ≤ length bytes.now }
    ensures { spec.seen result ≡ spec.numeral_of n bytes.now }
{
    let text = &bytes[..n];
    if is_number(text) {
        cut(TokenKind::Number, n, bytes)
    } else if !is_decimal(text) {
        Front::Bad(Refusal::Number)
    } else if n > 64 {
        Front::Bad(Refusal::Long)
    } else {
        cut(TokenKind::Decimal, n, bytes)
    }
}

/// How many bytes there are through the first `*/`.
fn close_end(bytes: &[u8]) -> Option<usize>
    ensures value { result ≡ spec.close_end 0 bytes.now }
    ensures fits { IfSome result (λ n. n ≤ length bytes.now) }
{
    let mut before = 0;
    for (n, b) in bytes.iter().enumerate() {
        if before == b'*' && *b == b'/' {
            return Some(n + 1);
        }
        before = *b;
    }
    None
}

#[tactic(auto, unfolding(crate::specs::LexerModel::comment_at))]
fn comment_at(inner: &[u8]) -> Front<'_>
    ensures { spec.seen result ≡ spec.comment_at inner.now }
{
    match close_end(inner) {
        Some(n) => Front::Over(&inner[n..]),
        None => Front::Bad(Refusal::Open),
    }
}

fn is_single_mark(a: u8) -> bool
    ensures { result ≡ spec.is_single_mark a }
{
    is_one_of(b"()[]{},;=+-*/%<>", a)
}

fn is_double_mark(a: u8, b: u8) -> bool
    ensures { result ≡ spec.is_double_mark a b }
{
    b == b'=' && is_one_of(b"+-*/%<>=", a) || a == b && is_one_of(b"+-&", a)
}

fn mark_len(bytes: &[u8]) -> usize
    ensures count { result ≡ spec.mark_len bytes.now }
    ensures fits { result ≤ length bytes.now }
{
    match bytes {
        [a, b, ..] if is_double_mark(*a, *b) => 2,
        [a, ..] if is_single_mark(*a) => 1,
        _ => 0,
    }
}

#[tactic(auto, unfolding(crate::specs::LexerModel::mark_at))]
fn mark_at(bytes: &[u8]) -> Front<'_>
    ensures { spec.seen result ≡ spec.mark_at bytes.now }
{
    let n = mark_len(bytes);
    if n == 0 {
        Front::Bad(Refusal::Byte)
    } else {
        cut(TokenKind::Mark, n, bytes)
    }
}

#[tactic(auto, unfolding(crate::specs::LexerModel::other_at))]
fn comment_or_mark(bytes: &[u8]) -> Front<'_>
    ensures { spec.seen result ≡ spec.other_at bytes.now }
{
    match bytes {
        [b'/', b'/', ..] => Front::Over(&bytes[line_len(bytes)..]),
        [b'/', b'*', inner @ ..] => comment_at(inner),
        _ => mark_at(bytes),
    }
}

/// The longest piece at the front of the bytes.
#[tactic(auto, unfolding(crate::specs::LexerModel::front))]
pub fn read_front(bytes: &[u8]) -> Front<'_>
    ensures { spec.seen result ≡ spec.front bytes.now }
{
    match bytes {
        [] => Front::Nothing,
        [a, rest @ ..] => {
            let run = run_at(bytes);
            if is_white_byte(*a) {
                Front::Over(rest)
            } else if is_letter(*a) {
                name_at(bytes)
            } else if run > 0 {
                numeral_of(run, bytes)
            } else {
                comment_or_mark(bytes)
            }
        }
    }
}
