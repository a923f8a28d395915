//! The tokens.
ghost use Rattle.std.specs.Prelude.{◌≡◌, ◌↔◌, IsTrue};

use crate::word::Word;

#[derive(Clone, Copy, Debug)]
pub enum Symbol {
    LeftBrace,
    RightBrace,
    LeftParen,
    RightParen,
    LeftBracket,
    RightBracket,
    Comma,
    Semicolon,
    Colon,
    Dot,
    Question,
    Star,
    Minus,
    Less,
    Plus,
    DotDot,
    Assign,
    Arrow,
}

impl Symbol {
    pub fn is(self, other: Symbol) -> bool
        ensures { IsTrue result ↔ (self ≡ other) }
    {
        self == other
    }
}

#[derive(Debug, Drop)]
pub enum Token<'t> {
    /// A letter, then letters, digits and `_`, at most 64 characters. It isn't a reserved word.
    Name(&'t str),
    Word(Word),
    /// A number without a sign, at most 9223372036854775808, which is valid only after a `-`.
    Number(u64),
    /// The text between its quotes, each doubled quote as one. Its characters are 32 to 126, one
    /// byte each.
    Text(Vec<u8>),
    Symbol(Symbol),
}

/// A token and the line on which it begins.
#[derive(Drop)]
pub struct Placed<'t> {
    pub token: Token<'t>,
    /// One more than the number of bytes 10 before it, from 1.
    pub line: u32,
}
