//! One piece of a text: white space, a comment or a token.
ghost use Rattle.std.specs.Prelude.{◌≡◌, ◌<◌, ◌≤◌, ◌+◌, ◌-◌, ◌++◌, ◌∷◌, [], codes, take, drop, length, slice_index};
ghost use Rattle.std.specs.Prelude.{IfErr, IfNone, IfOk, IfSome, OnErr, None};
ghost use Rattle.std.specs.List.{prefix_len};
ghost use Rattle.std.specs.Option.{option_map};
ghost use Rattle.tp_syntax.specs.Byte.{is_word_byte, is_digit, is_printable, is_in_line, is_quote};
ghost use Rattle.tp_syntax.specs.Cut.{BeginsAs, TokenAt, StopsAt, HasNoEnd, PieceAt};
ghost use Rattle.tp_syntax.specs.TextFaults.{HasNoSymbol, IsFaultAt, IsFoundWithinLimits, IsUnclosed, IsWithinLimits};
ghost use Rattle.tp_syntax.specs.Lexeme.{lexeme_of, number, symbol, text};
ghost use Rattle.tp_syntax.specs.Spelling.{Run, value_on, doubled};

use crate::byte::{Kind, byte_kind, is_digit, is_printable, is_word_byte};
use crate::script_fault::{ScriptFault, TextRule};
use crate::token::{Symbol, Token};
use crate::word::word_spelled;
use std::alloc::Global;

/// The maximum number of characters of a name.
const LONGEST_NAME: usize = 64;

/// The greatest number that a token may be. The least integer is this with a `-` before it.
const GREATEST_IN_TOKEN: u64 = 9_223_372_036_854_775_808;

/// The piece at the front: its token, if it is one, and its number of bytes. `line` is the line of
/// its first byte. The faults are those of [`lex`](crate::lexer::lex), except for the length of the
/// text, at this line.
#[tactic(auto, using(crate::proofs::PieceAtFront::piece_of_token, crate::proofs::PieceAtFront::blank_at))]
pub fn piece<'t>(
    alloc: Global,
    bytes: &'t [u8],
    line: u32,
) -> Result<(Option<Token<'t>>, usize), ScriptFault>
    requires { 0 < length bytes.now }
    ensures piece { IfOk result (λ r. PieceAt bytes.now (option_map lexeme_of r.0) r.1) }
    ensures limits { IfOk result (λ r. IsFoundWithinLimits (option_map lexeme_of r.0)) }
    ensures refused { IfErr result (IsFaultAt bytes.now line) }
{
    match byte_kind(bytes[0]) {
        Kind::Letter => {
            let (token, size) = word(bytes, line)?;
            Ok((Some(token), size))
        }
        Kind::Digit => {
            let (value, size) = number(bytes, line)?;
            Ok((Some(Token::Number(value)), size))
        }
        Kind::Quote => {
            let (characters, size) = text(alloc, bytes, line)?;
            Ok((Some(Token::Text(characters)), size))
        }
        Kind::Blank => Ok((None, 1)),
        Kind::Underscore => Err(ScriptFault::syntax(line)),
        Kind::Other => {
            if bytes[0] == b'/' {
                let size = comment(bytes, line)?;
                return Ok((None, size));
            }
            match symbol(bytes) {
                Some((symbol, size)) => Ok((Some(Token::Symbol(symbol)), size)),
                None => Err(ScriptFault::syntax(line)),
            }
        }
    }
}

/// 15 `Limit` if the name has more than 64 characters.
fn word<'t>(bytes: &'t [u8], line: u32) -> Result<(Token<'t>, usize), ScriptFault>
    requires { BeginsAs Kind.Letter bytes.now }
    ensures token { IfOk result (λ r. TokenAt bytes.now (lexeme_of r.0) r.1) }
    ensures limits { IfOk result (λ r. IsWithinLimits (lexeme_of r.0)) }
    ensures refused { IfErr result (IsFaultAt bytes.now line) }
{
    let size = word_len(bytes);
    let spelling = &bytes[..size];
    if let Some(word) = word_spelled(spelling) {
        return Ok((Token::Word(word), size));
    }
    if size > LONGEST_NAME {
        return Err(ScriptFault::limit(line));
    }
    let Ok(name) = str::from_utf8(spelling) else {
        // Letters, digits and underscores are each one byte.
        unreachable!();
    };
    Ok((Token::Name(name), size))
}

fn word_len(bytes: &[u8]) -> usize
    ensures { result ≡ prefix_len is_word_byte bytes.now }
{
    let mut n = 0;
    while n < bytes.len() && is_word_byte(bytes[n]) {
        n += 1;
    }
    n
}

/// 15 `Limit` if the number is too great.
fn number(bytes: &[u8], line: u32) -> Result<(u64, usize), ScriptFault>
    requires { BeginsAs Kind.Digit bytes.now }
    ensures token { IfOk result (λ r. TokenAt bytes.now (number r.0) r.1) }
    ensures limits { IfOk result (λ r. r.0 ≤ GREATEST_IN_TOKEN) }
    ensures refused { IfErr result (IsFaultAt bytes.now line) }
{
    if bytes[0] == b'0' {
        return Ok((0, 1));
    }
    let size = digits_len(bytes);
    let value = spelled_number(&bytes[..size], line)?;
    Ok((value, size))
}

fn digits_len(bytes: &[u8]) -> usize
    ensures { result ≡ prefix_len is_digit bytes.now }
{
    let mut n = 0;
    while n < bytes.len() && is_digit(bytes[n]) {
        n += 1;
    }
    n
}

fn spelled_number(digits: &[u8], line: u32) -> Result<u64, ScriptFault>
    requires { Run is_digit digits.now }
    ensures value { IfOk result (λ n. n ≡ value_on 0 digits.now) }
    ensures limits { IfOk result (λ n. n ≤ GREATEST_IN_TOKEN) }
    ensures refused { IfErr result (λ fault. fault ≡ ScriptFault.Refused TextRule.Limit line) }
    ensures great { OnErr result (GREATEST_IN_TOKEN < value_on 0 digits.now) }
{
    let mut value: u64 = 0;
    for digit in digits {
        // Before the product, which then fits in 64 bits. The exact limit is checked at the end.
        if value > GREATEST_IN_TOKEN / 10 {
            return Err(ScriptFault::limit(line));
        }
        value = value * 10 + digit_value(*digit) as u64;
    }
    if value > GREATEST_IN_TOKEN {
        return Err(ScriptFault::limit(line));
    }
    Ok(value)
}

fn digit_value(digit: u8) -> u8
    ensures low { result ≤ 207 }
    ensures value { result ≡ digit - 48 }
{
    // Only digits come here, which are 48 or more; saturating, it needs no condition.
    digit.saturating_sub(48)
}

/// The text at the front, and its number of bytes, with the quotes. 10 `Syntax` if it isn't closed,
/// or contains a character other than 32 to 126.
fn text(alloc: Global, bytes: &[u8], line: u32) -> Result<(Vec<u8>, usize), ScriptFault>
    requires { BeginsAs Kind.Quote bytes.now }
    ensures token { IfOk result (λ r. TokenAt bytes.now (text r.0.items) r.1) }
    ensures refused { IfErr result (IsFaultAt bytes.now line) }
{
    let (_, rest) = bytes.split_at(1);
    let (characters, size) = quoted(alloc, rest, line)?;
    Ok((characters, size + 1))
}

fn quoted(alloc: Global, bytes: &[u8], line: u32) -> Result<(Vec<u8>, usize), ScriptFault>
    ensures spelled { IfOk result (λ r. take r.1 bytes.now ≡ doubled r.0.items ++ 34 ∷ []) }
    ensures within { IfOk result (λ r. r.1 ≤ length bytes.now) }
    ensures closed { IfOk result (λ r. StopsAt is_quote (drop r.1 bytes.now)) }
    ensures printable { IfOk result (λ r. Run is_printable r.0.items) }
    ensures refused { IfErr result (IsUnclosed bytes.now line) }
{
    let mut characters = Vec::new(alloc);
    let mut at = 0;
    while at < bytes.len() {
        let byte = bytes[at];
        if byte == b'"' {
            if at + 1 < bytes.len() && bytes[at + 1] == b'"' {
                characters.push(b'"')?;
                at += 2;
            } else {
                return Ok((characters, at + 1));
            }
        } else if is_printable(byte) {
            characters.push(byte)?;
            at += 1;
        } else {
            return Err(ScriptFault::syntax(line));
        }
    }
    Err(ScriptFault::syntax(line))
}

fn symbol(bytes: &[u8]) -> Option<(Symbol, usize)>
    requires { BeginsAs Kind.Other bytes.now }
    ensures token { IfSome result (λ r. TokenAt bytes.now (symbol r.0) r.1) }
    ensures none { IfNone result (HasNoSymbol bytes.now) }
{
    // 0 if nothing follows: no symbol has it as its second byte.
    let second = if bytes.len() > 1 { bytes[1] } else { 0 };
    match bytes[0] {
        b'{' => Some((Symbol::LeftBrace, 1)),
        b'}' => Some((Symbol::RightBrace, 1)),
        b'(' => Some((Symbol::LeftParen, 1)),
        b')' => Some((Symbol::RightParen, 1)),
        b'[' => Some((Symbol::LeftBracket, 1)),
        b']' => Some((Symbol::RightBracket, 1)),
        b',' => Some((Symbol::Comma, 1)),
        b';' => Some((Symbol::Semicolon, 1)),
        b'?' => Some((Symbol::Question, 1)),
        b'*' => Some((Symbol::Star, 1)),
        b'<' => Some((Symbol::Less, 1)),
        b'+' => Some((Symbol::Plus, 1)),
        // A symbol of two bytes comes before the one that its first byte is.
        b'.' if second == b'.' => Some((Symbol::DotDot, 2)),
        b'.' => Some((Symbol::Dot, 1)),
        b':' if second == b'=' => Some((Symbol::Assign, 2)),
        b':' => Some((Symbol::Colon, 1)),
        b'-' if second == b'>' => Some((Symbol::Arrow, 2)),
        b'-' => Some((Symbol::Minus, 1)),
        _ => None,
    }
}

/// 10 `Syntax` if no comment begins here, or if it isn't closed.
fn comment(bytes: &[u8], line: u32) -> Result<usize, ScriptFault>
    requires some { 0 < length bytes.now }
    requires slash { slice_index bytes.now 0 ≡ 47 }
    ensures piece { IfOk result (λ size. PieceAt bytes.now None size) }
    ensures refused { IfErr result (IsFaultAt bytes.now line) }
{
    if bytes.len() < 2 {
        return Err(ScriptFault::syntax(line));
    }
    let (_, rest) = bytes.split_at(2);
    match bytes[1] {
        b'/' => Ok(2 + line_comment(rest)),
        b'*' => match block_comment(rest) {
            // With the two bytes that open the comment, and the two that close it.
            Some(n) => Ok(n + 4),
            None => Err(ScriptFault::syntax(line)),
        },
        _ => Err(ScriptFault::syntax(line)),
    }
}

fn line_comment(bytes: &[u8]) -> usize
    ensures within { result ≤ length bytes.now }
    ensures value { result ≡ prefix_len is_in_line bytes.now }
{
    let mut n = 0;
    while n < bytes.len() && bytes[n] != 10 {
        n += 1;
    }
    n
}

fn block_comment(bytes: &[u8]) -> Option<usize>
    ensures within { IfSome result (λ n. n + 2 ≤ length bytes.now) }
    ensures mark { IfSome result (λ n. take (n + 2) bytes.now ≡ take n bytes.now ++ codes "*/") }
    ensures first { IfSome result (λ n. HasNoEnd (take n bytes.now ++ codes "*")) }
    ensures none { IfNone result (HasNoEnd bytes.now) }
{
    let mut n = 0;
    while n + 1 < bytes.len() {
        if bytes[n] == b'*' && bytes[n + 1] == b'/' {
            return Some(n);
        }
        n += 1;
    }
    None
}
