//! From a text to its module.
ghost use Rattle.std.specs.Prelude.{◌≡◌, ◌+◌, ◌-◌, ◌≤◌, ◌++◌, IfErr, IfOk, Option, None, drop, false, length, map};
ghost use Rattle.tp_syntax.specs.Cut.{newlines};
ghost use Rattle.tp_syntax.specs.Lexeme.{placed_lexeme, lexeme_of};
ghost use Rattle.tp_syntax.specs.ReadTexts.{IsReadAs, IsUnread};
ghost use Rattle.tp_syntax.specs.Faults.{fault_in, fault_line, is_minus};
ghost use Rattle.tp_syntax.specs.SettledTokens.{has_negative_zero, is_zero, kept_at_end, kept_of, minus_on, settled};
ghost use Rattle.tp_syntax.specs.SettledTokens.{waiting};

use crate::cursor::Parser;
use crate::faults::{front_of, is_minus};
use crate::lexer::lex;
use crate::script_fault::ScriptFault;
use crate::stuck::Stuck;
use crate::token::{Placed, Symbol, Token};
use std::alloc::Global;
use tp_common::memory::Memory;
use tp_tree::tree::Module;

fn is_zero(token: &Token) -> bool
    ensures { result ≡ is_zero (lexeme_of token.now) }
{
    match token {
        Token::Number(number) => *number == 0,
        Token::Name(_) => false,
        Token::Word(_) => false,
        Token::Text(_) => false,
        Token::Symbol(_) => false,
    }
}

fn minus_on<'t>(line: u32) -> Placed<'t>
    ensures { placed_lexeme result ≡ minus_on line }
{
    Placed {
        token: Token::Symbol(Symbol::Minus),
        line,
    }
}

/// Keeps a token, and before it the `-` that has waited for it. The number 0 takes the line of that
/// `-` instead. If the token is a `-` itself, it waits in turn: its line is returned.
fn keep<'t>(
    kept: &mut Vec<Placed<'t>>,
    minus: Option<u32>,
    placed: Placed<'t>,
) -> Result<Option<u32>, Memory>
    ensures { IfOk result (λ after. (map placed_lexeme kept.new.items
        ≡ map placed_lexeme kept.old.items ++ kept_of minus (placed_lexeme placed.entry))
        × (after ≡ waiting (placed_lexeme placed.entry))) }
{
    let Placed { token, line } = placed;
    if let Some(before) = minus {
        if is_zero(&token) {
            kept.push(Placed {
                token,
                line: before,
            })?;
            return Ok(None);
        }
        kept.push(minus_on(before))?;
    }
    if is_minus(&token) {
        return Ok(Some(line));
    }
    kept.push(Placed { token, line })?;
    Ok(None)
}

/// Whether a `-` stands directly before the number 0.
fn has_negative_zero(tokens: &[Placed]) -> bool
    ensures { result ≡ has_negative_zero false (map placed_lexeme tokens.now) }
{
    let mut after_minus = false;
    for placed in tokens {
        if after_minus && is_zero(&placed.token) {
            return true;
        }
        after_minus = is_minus(&placed.token);
    }
    false
}

/// The tokens without each `-` directly before the number 0, which takes its line.
fn settle<'t>(alloc: Global, tokens: Vec<Placed<'t>>) -> Result<Vec<Placed<'t>>, Memory>
    ensures { IfOk result (λ v. map placed_lexeme v.items
        ≡ settled (map placed_lexeme tokens.entry.items)) }
{
    let mut kept = Vec::new(alloc);
    let mut minus = None;
    let mut rest = tokens.into_iter();
    'more: while let Some(placed) = rest.next() {
        minus = keep(&mut kept, minus, placed)?;
    }
    if let Some(line) = minus {
        kept.push(minus_on(line))?;
    }
    Ok(kept)
}

/// The tokens without each `-` directly before the number 0. Few texts have one, and the tokens of
/// the others aren't copied.
fn settled_tokens<'t>(alloc: Global, tokens: Vec<Placed<'t>>) -> Result<Vec<Placed<'t>>, Memory>
    ensures { IfOk result (λ v. map placed_lexeme v.items
        ≡ settled (map placed_lexeme tokens.entry.items)) }
{
    if has_negative_zero(&tokens) {
        return settle(alloc, tokens);
    }
    Ok(tokens)
}

/// The line of the first of the last `left` tokens, or of the end of the text.
fn line_at(tokens: &[Placed], left: usize, last_line: u32) -> u32
    ensures { result
        ≡ fault_line (drop (length tokens.now - left) (map placed_lexeme tokens.now)) last_line }
{
    match tokens.get(tokens.len().saturating_sub(left)) {
        Some(placed) => placed.line,
        None => last_line,
    }
}

/// The fault of a text whose last `left` tokens can't be read: 10 `Syntax` at the first of them. If
/// `left` is 0: 15 `Limit` if the last token is beyond the limits, else 10 at the end of the text.
fn fault(tokens: &[Placed], beyond: Option<u32>, left: usize, text: &[u8]) -> ScriptFault
    requires { length text.now ≤ 1048576 }
    ensures { result
        ≡ fault_in (map placed_lexeme tokens.now) beyond left (newlines text.now + 1) }
{
    match beyond {
        Some(line) if left == 0 => ScriptFault::limit(line),
        _ => ScriptFault::syntax(line_at(tokens, left, last_line(text))),
    }
}

fn last_line(text: &[u8]) -> u32
    requires { length text.now ≤ 1048576 }
    ensures { result ≡ newlines text.now + 1 }
{
    1 + text.iter().filter(|byte| **byte == b'\n').count() as u32
}

/// Returns the module that the text spells. A `-` directly before the number 0 is left out.
///
/// The whole text is first split into tokens by [`lex`], whose refusals come before those of the
/// grammar. Of the grammar's refusals the first in the text is returned:
/// - 10 `Syntax` at the line of the first token that can't stand at its place, or of the end of the
///   text if more is needed. This includes an `[else]` branch that isn't the last one (at the `[`
///   after it), a `for` whose four names differ (at the first that differs), and a `pattern` whose
///   text contains one of `\ [ ] { } ( ) | # +` or a quote;
/// - 15 `Limit` at the line of the number 9223372036854775808 without a `-` before it, or of a
///   bracket that would be the 33rd open one.
pub fn parse(alloc: Global, text: &[u8]) -> Result<Module, ScriptFault>
    ensures read { IfOk result (IsReadAs text.now) }
    ensures refused { IfErr result (IsUnread text.now) }
{
    let tokens = lex(alloc, text)?;
    let front = front_of(tokens);
    let beyond = front.beyond;
    let settled = settled_tokens(alloc, front.tokens)?;
    let mut parser = Parser { rest: &settled };
    match parser.module(alloc) {
        Ok(module) => {
            if parser.rest.is_empty() && beyond.is_none() {
                return Ok(module);
            }
            Err(fault(&settled, beyond, parser.rest.len(), text))
        }
        Err(Stuck::At(left)) => Err(fault(&settled, beyond, left, text)),
        Err(Stuck::Memory) => Err(ScriptFault::Memory(Memory)),
    }
}
