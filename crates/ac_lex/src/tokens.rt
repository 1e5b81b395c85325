use ac_syntax::tree::Place;
use std::alloc::AllocError;
use thiserror::Error;

/// What a token is. Reserved words are words of the grammar, and come as `Word`.
#[derive(Clone, Copy, PartialEq, Eq)]
pub enum TokenKind {
    Word,
    Number,
    Decimal,
    Mark,
    PragmaStart,
    PragmaEnd,
}

/// A token of a source text: its kind, the place of its first byte, and its bytes there.
#[derive(Clone, Copy)]
pub struct Token<'a> {
    pub kind: TokenKind,
    pub at: u32,
    pub text: &'a [u8],
}

/// Why a text has no tokens, with the least place at which a fault stands.
#[derive(Clone, Copy, Debug, PartialEq, Eq, Drop, Error)]
pub enum LexFault {
    #[error("bad byte at {}", .0.at)]
    BadByte(Place),
    #[error("bad number at {}", .0.at)]
    BadNumber(Place),
    #[error("long name at {}", .0.at)]
    LongName(Place),
    #[error("open comment at {}", .0.at)]
    OpenComment(Place),
    #[error(transparent)]
    Memory(AllocError),
}
