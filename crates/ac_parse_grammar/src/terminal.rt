//! The terminals of the grammar: all that reading decides by.

ghost use Rattle.std.specs.Prelude.{◌≡◌, map};
ghost use Rattle.ac_lex.specs.Lexemes.{lexeme_of};
ghost use Rattle.ac_parse_grammar.specs.Terminals as spec;
ghost use Rattle.ac_parse_grammar.specs.Terminals.{terminal, if_spelling};

use ac_lex::tokens::{Token, TokenKind};

/// A terminal of the grammar. `Context`, `Commutative` and `Output` are names too, wherever a name may stand. `Other` is a
/// token that no rule of the grammar has, as any other reserved word, and `End` stands behind the last token.
#[derive(Clone, Copy, PartialEq, Eq)]
pub enum Terminal {
    Open,
    Close,
    OpenBracket,
    CloseBracket,
    OpenBrace,
    CloseBrace,
    Comma,
    Semicolon,
    Becomes,
    PlusBecomes,
    MinusBecomes,
    StarBecomes,
    SlashBecomes,
    PercentBecomes,
    Plus,
    Minus,
    Star,
    Slash,
    Percent,
    PlusPlus,
    MinusMinus,
    Less,
    AtMost,
    Greater,
    AtLeast,
    Equal,
    And,
    Const,
    Double,
    Else,
    Float,
    For,
    If,
    Int,
    Long,
    Void,
    Floord,
    Ceild,
    Context,
    Commutative,
    Output,
    Name,
    Number,
    Decimal,
    PragmaStart,
    PragmaEnd,
    Other,
    End,
}

const MARKS: [(&[u8], Terminal); 27] = [
    (b"(", Terminal::Open),
    (b")", Terminal::Close),
    (b"[", Terminal::OpenBracket),
    (b"]", Terminal::CloseBracket),
    (b"{", Terminal::OpenBrace),
    (b"}", Terminal::CloseBrace),
    (b",", Terminal::Comma),
    (b";", Terminal::Semicolon),
    (b"=", Terminal::Becomes),
    (b"+=", Terminal::PlusBecomes),
    (b"-=", Terminal::MinusBecomes),
    (b"*=", Terminal::StarBecomes),
    (b"/=", Terminal::SlashBecomes),
    (b"%=", Terminal::PercentBecomes),
    (b"+", Terminal::Plus),
    (b"-", Terminal::Minus),
    (b"*", Terminal::Star),
    (b"/", Terminal::Slash),
    (b"%", Terminal::Percent),
    (b"++", Terminal::PlusPlus),
    (b"--", Terminal::MinusMinus),
    (b"<", Terminal::Less),
    (b"<=", Terminal::AtMost),
    (b">", Terminal::Greater),
    (b">=", Terminal::AtLeast),
    (b"==", Terminal::Equal),
    (b"&&", Terminal::And),
];

const WORDS: [(&[u8], Terminal); 39] = [
    (b"const", Terminal::Const),
    (b"double", Terminal::Double),
    (b"else", Terminal::Else),
    (b"float", Terminal::Float),
    (b"for", Terminal::For),
    (b"if", Terminal::If),
    (b"int", Terminal::Int),
    (b"long", Terminal::Long),
    (b"void", Terminal::Void),
    (b"floord", Terminal::Floord),
    (b"ceild", Terminal::Ceild),
    (b"context", Terminal::Context),
    (b"commutative", Terminal::Commutative),
    (b"output", Terminal::Output),
    (b"auto", Terminal::Other),
    (b"break", Terminal::Other),
    (b"case", Terminal::Other),
    (b"char", Terminal::Other),
    (b"continue", Terminal::Other),
    (b"default", Terminal::Other),
    (b"do", Terminal::Other),
    (b"enum", Terminal::Other),
    (b"extern", Terminal::Other),
    (b"goto", Terminal::Other),
    (b"inline", Terminal::Other),
    (b"register", Terminal::Other),
    (b"restrict", Terminal::Other),
    (b"return", Terminal::Other),
    (b"short", Terminal::Other),
    (b"signed", Terminal::Other),
    (b"sizeof", Terminal::Other),
    (b"static", Terminal::Other),
    (b"struct", Terminal::Other),
    (b"switch", Terminal::Other),
    (b"typedef", Terminal::Other),
    (b"union", Terminal::Other),
    (b"unsigned", Terminal::Other),
    (b"volatile", Terminal::Other),
    (b"while", Terminal::Other),
];

/// The terminal that a token is.
#[tactic(auto, unfolding(crate::specs::Terminals::terminal))]
pub fn terminal_of(token: &Token<'_>) -> Terminal
    ensures { result ≡ terminal (lexeme_of token.now) }
{
    match token.kind {
        TokenKind::Mark => mark(token.text),
        TokenKind::Word => word(token.text),
        TokenKind::Number => Terminal::Number,
        TokenKind::Decimal => spelling(Terminal::Decimal, token.text),
        TokenKind::PragmaStart => Terminal::PragmaStart,
        TokenKind::PragmaEnd => Terminal::PragmaEnd,
    }
}

fn mark(text: &[u8]) -> Terminal
    ensures { result ≡ if_spelling (spec.look_up spec.marks text.now Terminal.Other) text.now }
{
    let terminal = look_up(&MARKS, text, Terminal::Other);
    spelling(terminal, text)
}

fn word(text: &[u8]) -> Terminal
    ensures { result ≡ if_spelling (spec.look_up spec.words text.now Terminal.Name) text.now }
{
    let terminal = look_up(&WORDS, text, Terminal::Name);
    spelling(terminal, text)
}

/// The terminal with this spelling in a table, or else the other one.
fn look_up(table: &[(&[u8], Terminal)], text: &[u8], other: Terminal) -> Terminal
    ensures { result ≡ spec.look_up (map (λ row. (row.0.now, row.1)) table.now) text.now other }
{
    for row in table {
        if text == row.0 {
            return row.1;
        }
    }
    other
}

fn spelling(terminal: Terminal, text: &[u8]) -> Terminal
    ensures { result ≡ if_spelling terminal text.now }
{
    if text.is_empty() || text.len() > 64 {
        Terminal::Other
    } else {
        terminal
    }
}
