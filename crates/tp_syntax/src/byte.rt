//! Kinds of bytes.
ghost use Rattle.std.specs.Prelude.{◌≡◌};
ghost use Rattle.tp_syntax.specs.Byte.{byte_kind, is_word_byte, is_digit, is_printable};

/// What a byte can be part of, outside texts and comments.
#[derive(Clone, Copy)]
pub enum Kind {
    /// `a` to `z` and `A` to `Z`: it begins a name or a reserved word.
    Letter,
    Digit,
    /// `_`, which begins no token.
    Underscore,
    /// `"`, which begins and ends a text.
    Quote,
    /// White space: 9 to 13 and 32.
    Blank,
    /// Any other byte: one of a symbol or a comment, or one that begins no token.
    Other,
}

#[tactic(auto, unfolding(crate::specs::Byte::byte_kind))]
pub fn byte_kind(byte: u8) -> Kind
    ensures { result ≡ byte_kind byte }
{
    match byte {
        b'a'..=b'z' | b'A'..=b'Z' => Kind::Letter,
        b'0'..=b'9' => Kind::Digit,
        b'_' => Kind::Underscore,
        b'"' => Kind::Quote,
        9..=13 | 32 => Kind::Blank,
        _ => Kind::Other,
    }
}

#[tactic(auto, unfolding(crate::specs::Byte::byte_kind))]
pub fn is_word_byte(byte: u8) -> bool
    ensures { result ≡ is_word_byte byte }
{
    // Most bytes of a name are lower-case letters, which the compiler tests last in `byte_kind`.
    if b'a' <= byte && byte <= b'z' {
        return true;
    }
    matches!(
        byte_kind(byte),
        Kind::Letter | Kind::Digit | Kind::Underscore
    )
}

pub fn is_digit(byte: u8) -> bool
    ensures { result ≡ is_digit byte }
{
    matches!(byte_kind(byte), Kind::Digit)
}

/// Returns whether a text may contain the byte.
pub fn is_printable(byte: u8) -> bool
    ensures { result ≡ is_printable byte }
{
    32 <= byte && byte <= 126
}
