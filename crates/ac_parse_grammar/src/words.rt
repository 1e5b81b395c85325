//! The words and numbers of tokens.

ghost use Rattle.std.specs.Prelude.{◌≡◌, ◌≤◌, ◌<◌, ◌+◌, ◌*◌, ◌-◌, length, min, IfOk};
ghost use Rattle.ac_lex.specs.Lexemes.{lexeme_of};
ghost use Rattle.ac_parse_grammar.specs.Terminals.{is_name};
ghost use Rattle.ac_parse_grammar.specs.TokenWords.{place_of, word_of, numeral_of, spelled};
ghost use Rattle.ac_parse_grammar.specs.ReaderCombinators as spec;
ghost use Rattle.ac_parse_grammar.specs.ReaderCombinators.{Reads};

use crate::cursor::{Cursor, Stop};
use crate::terminal::Terminal;
use crate::tree::{Numeral, Word};
use ac_lex::tokens::Token;
use ac_syntax::name::Name;
use ac_syntax::tree::Place;
use std::alloc::{AllocError, Global};

/// The least number that is too great for a literal.
const TOO_GREAT: u64 = 2147483649;

pub fn place(token: &Token<'_>) -> Place
    ensures { result ≡ place_of (lexeme_of token.now) }
{
    Place { at: token.at }
}

/// The word that a token is, from 1 to 64 bytes.
pub fn word(alloc: Global, token: &Token<'_>) -> Result<Word, AllocError>
    requires { (0 < length token.now.text.now) × (length token.now.text.now ≤ 64) }
    ensures { IfOk result (λ word. word ≡ word_of (lexeme_of token.now)) }
{
    let Some(name) = Name::new(token.text.to_vec(alloc)?) else {
        unreachable!();
    };
    Ok(Word {
        name,
        place: place(token),
    })
}

/// Passes a name.
#[tactic(auto, unfolding(crate::specs::ReaderCombinators::name), using(crate::proofs::Spellings::name_fits))]
pub fn name(alloc: Global, tokens: &mut Cursor<'_>) -> Result<Word, Stop>
    ensures { Reads (λ word. word) (spec.name tokens.old) result tokens.new }
{
    if !is_name(tokens.peek()) {
        return Err(Stop::Syntax);
    }
    let token = tokens.take();
    Ok(word(alloc, &token)?)
}

/// Whether this terminal may stand for a name.
pub fn is_name(terminal: Terminal) -> bool
    ensures { result ≡ is_name terminal }
{
    matches!(
        terminal,
        Terminal::Name | Terminal::Context | Terminal::Commutative | Terminal::Output
    )
}

/// The number that a token is.
pub fn numeral(token: &Token<'_>) -> Numeral
    ensures { result ≡ numeral_of (lexeme_of token.now) }
{
    Numeral {
        number: number(token.text),
        place: place(token),
    }
}

fn number(text: &[u8]) -> u32
    ensures { result ≡ min (spelled 0 text.now) 2147483649 }
{
    let mut number = 0;
    for digit in text {
        number = with_digit(number, *digit);
    }
    number
}

fn with_digit(number: u32, digit: u8) -> u32
    ensures { result ≡ min (10 * number + (digit - 48)) 2147483649 }
{
    let next = 10 * u64::from(number) + u64::from(digit.saturating_sub(b'0'));
    next.min(TOO_GREAT) as u32
}
