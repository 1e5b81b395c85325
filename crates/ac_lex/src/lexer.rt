ghost use Rattle.std.specs.Prelude.{◌≡◌, ◌+◌, ◌^◌, ◌<◌, ◌≤◌, length, IfOk, IfErr, OnOk};
ghost use Rattle.ac_lex.specs.Lexemes.{lexemes, lexeme_of};
ghost use Rattle.std.specs.Prelude.{[], ◌∷◌, ◌++◌, take, drop};
ghost use Rattle.ac_lex.specs.Directives.{IsAffinePragma};
ghost use Rattle.ac_lex.specs.LexerAnswers.{IsFaultBy, HasFault, HasNoTokens, IsOnlyList};
ghost use Rattle.ac_lex.specs.Tokens.{AreTokens, AreSlices};
ghost use Rattle.ac_lex.specs.LexerModel.{ReadsPiece, ReadsLine, ReadsDirective, PieceFaultAt, LineFaultAt, DirectiveFaultAt, IsMemory};
ghost use Rattle.ac_lex.specs.LexerModel as spec;

use crate::bytes::is_indent;
use crate::directives::{Directive, directive_of};
use crate::front::{Front, Refusal, line_len, read_front};
use crate::tokens::{LexFault, Token, TokenKind};
use ac_syntax::tree::Place;
use std::alloc::{AllocError, Global};

fn fault(refusal: Refusal, at: u32) -> LexFault
    ensures { result ≡ spec.fault_of refusal at }
{
    let place = Place { at };
    match refusal {
        Refusal::Byte => LexFault::BadByte(place),
        Refusal::Number => LexFault::BadNumber(place),
        Refusal::Long => LexFault::LongName(place),
        Refusal::Open => LexFault::OpenComment(place),
    }
}

fn next_line_start(line_start: bool, first: u8) -> bool
    ensures { result ≡ spec.next_line_start line_start first }
{
    first == b'\n' || is_indent(first) && line_start
}

#[tactic(auto, using(crate::proofs::Turns::one_more_lexeme))]
fn push<'a>(tokens: &mut Vec<Token<'a>>, token: Token<'a>) -> Result<(), LexFault>
    ensures pushed { OnOk result (lexemes tokens.new ≡ lexemes tokens.old ++ lexeme_of token.entry ∷ []) }
    ensures memory { IfErr result IsMemory }
{
    tokens.push(token).map_err(|_| LexFault::Memory(AllocError))
}

/// Reads one piece from the front of the bytes, adds its token if it has one, and gives the bytes after it.
fn read_piece<'a>(
    tokens: &mut Vec<Token<'a>>,
    at: u32,
    bytes: &'a [u8],
) -> Result<&'a [u8], LexFault>
    requires { 0 < length bytes.now }
    ensures read { IfOk result (λ rest. ReadsPiece at bytes.now rest.now (lexemes tokens.old) (lexemes tokens.new)) }
    ensures fault { IfErr result (IsFaultBy (PieceFaultAt at bytes.now)) }
{
    match read_front(bytes) {
        Front::Nothing => Ok(bytes),
        Front::Over(rest) => Ok(rest),
        Front::Text(kind, text, rest) => {
            push(tokens, Token { kind, at, text })?;
            Ok(rest)
        }
        Front::Bad(refusal) => Err(fault(refusal, at)),
    }
}

/// Reads what follows `#pragma affine` on its line.
fn read_line<'a>(tokens: &mut Vec<Token<'a>>, at: u32, line: &'a [u8]) -> Result<(), LexFault>
    requires { at + length line.now < 2 ^ 32 }
    ensures read { OnOk result (ReadsLine at line.now (lexemes tokens.old) (lexemes tokens.new)) }
    ensures fault { IfErr result (IsFaultBy (LineFaultAt at line.now)) }
{
    let mut rest = line;
    while !rest.is_empty() {
        let place = at + (line.len() - rest.len()) as u32;
        rest = read_piece(tokens, place, rest)?;
    }
    Ok(())
}

/// Reads a `#pragma affine` line, of which the first bytes go through `affine`.
fn read_pragma<'a>(
    tokens: &mut Vec<Token<'a>>,
    at: u32,
    n: usize,
    line: &'a [u8],
) -> Result<(), LexFault>
    requires fits { at + length line.now < 2 ^ 32 }
    requires kind { IsAffinePragma line.now (take n line.now) (drop n line.now) }
    requires within { n ≤ length line.now }
    ensures read { OnOk result (ReadsDirective at line.now (lexemes tokens.old) (lexemes tokens.new)) }
    ensures fault { IfErr result (IsFaultBy (DirectiveFaultAt at line.now)) }
{
    let (start, tail) = line.split_at(n);
    let (_, end) = line.split_at(line.len());
    push(
        tokens,
        Token {
            kind: TokenKind::PragmaStart,
            at,
            text: start,
        },
    )?;
    read_line(tokens, at + n as u32, tail)?;
    push(
        tokens,
        Token {
            kind: TokenKind::PragmaEnd,
            at: at + line.len() as u32,
            text: end,
        },
    )
}

/// Reads a directive, of which line has all bytes.
fn read_directive<'a>(tokens: &mut Vec<Token<'a>>, at: u32, line: &'a [u8]) -> Result<(), LexFault>
    requires fits { at + length line.now < 2 ^ 32 }
    requires some { 0 < length line.now }
    ensures read { OnOk result (ReadsDirective at line.now (lexemes tokens.old) (lexemes tokens.new)) }
    ensures fault { IfErr result (IsFaultBy (DirectiveFaultAt at line.now)) }
{
    match directive_of(line) {
        Directive::Skipped => Ok(()),
        Directive::Affine(n) => read_pragma(tokens, at, n, line),
        Directive::Unknown => Err(fault(Refusal::Byte, at)),
    }
}

fn starts_directive(line_start: bool, first: u8) -> bool
    ensures { result ≡ spec.starts_directive line_start first }
{
    line_start && first == b'#'
}

/// The tokens of a source text, in order, each text a slice of it; or the fault at the least place.
///
/// White space, comments, `#include` lines and `#pragma` lines other than `#pragma affine` give no token. A
/// `#pragma affine` line gives its start, the tokens of its rest and its end. The next piece of the text is always the
/// longest (ISO/IEC 9899, 6.4, paragraph 4).
pub fn lex<'a>(alloc: Global, bytes: &'a [u8]) -> Result<Vec<Token<'a>>, LexFault>
    requires { length bytes.now < 2 ^ 32 }

    // Ok exactly where the text has tokens, and these are the only ones.
    ensures tokens { IfOk result (λ tokens. AreTokens bytes.now (lexemes tokens)) }
    ensures only { IfOk result (λ tokens. IsOnlyList bytes.now (lexemes tokens)) }
    ensures slices { IfOk result (λ tokens. AreSlices bytes.now 0 (lexemes tokens)) }

    // Otherwise the first fault, or want of memory.
    ensures fault { IfErr result (HasFault bytes.now) }
    ensures none { IfErr result (HasNoTokens bytes.now) }
{
    let mut tokens = Vec::new(alloc);
    let mut rest = bytes;
    let mut line_start = true;
    while !rest.is_empty() {
        let first = rest[0];
        let at = (bytes.len() - rest.len()) as u32;
        if starts_directive(line_start, first) {
            let (line, after) = rest.split_at(line_len(rest));
            read_directive(&mut tokens, at, line)?;
            rest = after;
            line_start = false;
        } else {
            rest = read_piece(&mut tokens, at, rest)?;
            line_start = next_line_start(line_start, first);
        }
    }
    Ok(tokens)
}
