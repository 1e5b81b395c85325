//! The word that lists the symbols which are taken as associative and commutative.
ghost use Rattle.std.specs.Prelude.{◌≡◌, ◌≤◌, ◌<◌, ◌&&◌, length, map, nat_eq, nat_le, IfOk};
ghost use Rattle.std.specs.List.{AllByRecursion, list_any, list_all};
ghost use Rattle.std.specs.Cmp.Lexicographic.{pointwise};
ghost use Rattle.ac_lex.specs.Bytes.{is_letter, is_word_byte};
ghost use Rattle.ac_parse_grammar.specs.Terminals.{is_name, terminal_by};
ghost use Rattle.ac_cli_args.specs.SymbolLists as spec;
ghost use Rattle.ac_cli_args.specs.SymbolLists.{FitsAName, listed_in};

use ac_lex::tokens::{Token, TokenKind};
use ac_parse_grammar::terminal::terminal_of;
use ac_parse_grammar::words::is_name;
use ac_syntax::name::Name;
use std::alloc::{AllocError, Global};

/// A letter or an underscore.
fn is_letter(b: u8) -> bool
    ensures { result ≡ is_letter b }
{
    b >= b'a' && b <= b'z' || b >= b'A' && b <= b'Z' || b == b'_'
}

/// A letter, an underscore or a digit.
fn is_word_byte(b: u8) -> bool
    ensures { result ≡ is_word_byte b }
{
    is_letter(b) || b >= b'0' && b <= b'9'
}

/// Whether all are letters, underscores and digits.
fn all_word_bytes(text: &[u8]) -> bool
    ensures { result ≡ list_all is_word_byte text.now }
{
    text.iter().all(|b| is_word_byte(*b))
}

/// Whether a text is a letter or an underscore, and behind it letters, underscores and digits.
fn is_word(text: &[u8]) -> bool
    ensures { result ≡ spec.is_word text.now }
{
    match text {
        [] => false,
        [first, rest @ ..] => is_letter(*first) && all_word_bytes(rest),
    }
}

/// Whether the grammar takes a word for a name: it has at most 64 bytes, and is no reserved word.
fn is_grammar_name(text: &[u8]) -> bool
    ensures { result ≡ is_name (terminal_by TokenKind.Word text.now) }
{
    let token = Token {
        kind: TokenKind::Word,
        at: 0,
        text,
    };
    is_name(terminal_of(&token))
}

/// Whether a text is a name that nothing reserves.
fn is_free_name(text: &[u8]) -> bool
    ensures { result ≡ spec.is_free_name text.now }
{
    is_word(text) && is_grammar_name(text)
}

/// Whether a text is `+`, `*`, or such a name.
fn is_symbol(text: &[u8]) -> bool
    ensures { result ≡ spec.is_symbol text.now }
{
    text == b"+".as_slice() || text == b"*".as_slice() || is_free_name(text)
}

/// Whether each text is a symbol.
fn all_symbols(texts: &[&[u8]]) -> bool
    ensures { result ≡ list_all spec.is_symbol (map (λ t. t.now) texts.now) }
{
    for text in texts {
        if !is_symbol(*text) {
            return false;
        }
    }
    true
}

/// Whether a text stands among others.
fn is_among(text: &[u8], others: &[&[u8]]) -> bool
    ensures { result ≡ list_any (pointwise nat_eq text.now) (map (λ t. t.now) others.now) }
{
    for other in others {
        if text == *other {
            return true;
        }
    }
    false
}

/// Whether no text stands twice.
fn are_different(texts: &[&[u8]]) -> bool
    ensures { result ≡ spec.are_different (map (λ t. t.now) texts.now) }
{
    for at in 0..texts.len() {
        if is_among(texts[at], &texts[at + 1..]) {
            return false;
        }
    }
    true
}

/// Whether these are at most 8 different symbols.
fn are_symbols(texts: &[&[u8]]) -> bool
    ensures { result ≡ (nat_le (length texts.now) 8 && list_all spec.is_symbol (map (λ t. t.now) texts.now) && spec.are_different (map (λ t. t.now) texts.now)) }
{
    texts.len() <= 8 && all_symbols(texts) && are_different(texts)
}

/// The texts between the commas of a word.
fn listed_in(alloc: Global, word: &[u8]) -> Result<Vec<&[u8]>, AllocError>
    ensures { IfOk result (λ texts. map (λ t. t.now) texts.items ≡ listed_in word.now) }
{
    word.split(|b| *b == b',').collect(alloc)
}

/// Whether a word lists from 1 to 8 different symbols, joined by commas. Each is `+`, `*` or a name of at most 64 bytes that is not reserved.
pub fn is_symbol_list(alloc: Global, word: &[u8]) -> Result<bool, AllocError>
    ensures { IfOk result (λ is. spec.IsTold is word.now) }
{
    let texts = listed_in(alloc, word)?;
    Ok(are_symbols(texts.as_slice()))
}

/// The name of these bytes.
fn name_of(alloc: Global, text: &[u8]) -> Result<Name, AllocError>
    requires { (0 < length text.now) × (length text.now ≤ 64) }
    ensures { IfOk result (λ name. name ≡ text.now) }
{
    let Some(name) = Name::new(text.to_vec(alloc)?) else {
        unreachable!();
    };
    Ok(name)
}

/// The names that a word lists, in order.
pub fn symbol_names(alloc: Global, word: &[u8]) -> Result<Vec<Name>, AllocError>
    requires { AllByRecursion FitsAName (listed_in word.now) }
    ensures { IfOk result (λ names. names.items ≡ listed_in word.now) }
{
    let texts = listed_in(alloc, word)?;
    let mut names = Vec::new(alloc);
    for text in &texts {
        names.push(name_of(alloc, *text)?)?;
    }
    Ok(names)
}
