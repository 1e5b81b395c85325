//! The tokens that are left, and how reading stops.

ghost use Rattle.std.specs.Prelude.{◌≡◌, length};
ghost use Rattle.ac_lex.specs.Lexemes.{lexeme_of};
ghost use Rattle.ac_parse_grammar.specs.TokenWords.{place_of};
ghost use Rattle.ac_parse_grammar.specs.ReaderCombinators as spec;
ghost use Rattle.ac_parse_grammar.specs.ReaderCombinators.{Reads};

use crate::terminal::{Terminal, terminal_of};
use ac_lex::tokens::{Token, TokenKind};
use ac_syntax::tree::Place;
use std::alloc::AllocError;
use std::marker::Model;

/// Why reading stopped. The tokens that are left begin at the fault.
#[derive(Clone, Copy, PartialEq, Eq)]
pub enum Stop {
    Syntax,
    Nesting,
    Memory(AllocError),
}

impl From<AllocError> for Stop {
    ghost use Rattle.std.specs.Prelude.{◌≡◌};
    ghost use Rattle.ac_parse_grammar.specs.declared.cursor.Stop.TheVariants.{Memory};

    ghost from_gives = { λ error stop. stop ≡ Memory error };

    fn from(error: AllocError) -> Self {
        Stop::Memory(error)
    }
}

/// The tokens that are left. Contracts see a cursor as their list.
#[derive(Drop)]
pub struct Cursor<'a> {
    left: &'a [Token<'a>],
}

impl<'a> Model for Cursor<'a> {
    ghost use Rattle.std.specs.Prelude.{List, map};
    ghost use Rattle.ac_lex.specs.Lexemes.{Lexeme, lexeme_of};

    ghost Value = { List Lexeme };

    ghost view = { λ cursor. map lexeme_of cursor.left.now };
}

impl<'a> Cursor<'a> {
    ghost use Rattle.std.specs.Prelude.{map};

    pub fn new(left: &'a [Token<'a>]) -> Cursor<'a>
        ensures { result ≡ map lexeme_of left.now }
    {
        Cursor { left }
    }

    /// The terminal that comes next, `End` where no token is left.
    pub fn peek(&self) -> Terminal
        ensures { result ≡ spec.peek self.now }
    {
        match self.left {
            [] => Terminal::End,
            [first, ..] => terminal_of(first),
        }
    }

    /// The place of the next token, 0 where none is left.
    pub fn place(&self) -> Place
        ensures { result ≡ place_of (spec.front self.now) }
    {
        match self.left {
            [] => Place { at: 0 },
            [first, ..] => Place { at: first.at },
        }
    }

    /// How many tokens are left.
    pub fn count(&self) -> usize
        ensures { result ≡ length self.now }
    {
        self.left.len()
    }

    /// The next token, which is passed; an empty one where none is left.
    pub fn take(&mut self) -> Token<'a>
        ensures token { lexeme_of result ≡ spec.front self.old }
        ensures rest { self.new ≡ spec.rest self.old }
    {
        match self.left {
            [] => Token {
                kind: TokenKind::PragmaEnd,
                at: 0,
                text: &[],
            },
            [first, rest @ ..] => {
                self.left = rest;
                *first
            }
        }
    }

    /// Whether this terminal comes next.
    #[tactic(auto, unfolding(crate::specs::ReaderCombinators::is))]
    pub fn sees(&self, terminal: Terminal) -> bool
        ensures { result ≡ spec.is terminal (spec.peek self.now) }
    {
        self.peek() == terminal
    }

    /// Passes this terminal.
    #[tactic(auto, unfolding(crate::specs::ReaderCombinators::expect))]
    pub fn expect(&mut self, terminal: Terminal) -> Result<Token<'a>, Stop>
        ensures { Reads lexeme_of (spec.expect terminal self.old) result self.new }
    {
        if self.sees(terminal) {
            Ok(self.take())
        } else {
            Err(Stop::Syntax)
        }
    }
}
