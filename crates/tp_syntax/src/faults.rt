//! The first fault of a text, by its tokens.
ghost use Rattle.std.specs.Prelude.{◌≡◌, ◌<◌, ◌≤◌, ◌↔◌, ◌∷◌, ◌++◌, ◌-◌, IsTrue, List, drop, length, map};
ghost use Rattle.tp_syntax.specs.Lexeme.{PlacedLexeme, lexeme_of, placed_lexeme};
ghost use Rattle.tp_syntax.specs.Faults.{IsAllowed, IsCutOf, AreTokensSeen, brought_within, greatest_number, is_minus};
ghost use Rattle.tp_syntax.specs.Faults.{fault_line, opened_behind, symbol_bracket};

use crate::script_fault::ScriptFault;
use crate::token::{Placed, Symbol, Token};

/// The maximum number of brackets `{`, `(` and `[` that are open at once.
const BRACKETS: u32 = 32;

/// The greatest number without a `-` before it.
pub(crate) const GREATEST: u64 = 9_223_372_036_854_775_807;

#[derive(Clone, Copy)]
pub(crate) enum Bracket {
    Opens,
    Closes,
    Neither,
}

/// A function and not only the constant, so that a clause contains the number 32: an edit of the
/// number is then refused, even to a lower one.
fn most_brackets() -> u32
    ensures { result ≡ 32 }
{
    BRACKETS
}

fn symbol_bracket(symbol: Symbol) -> Bracket
    ensures { result ≡ symbol_bracket symbol }
{
    match symbol {
        Symbol::LeftBrace | Symbol::LeftParen | Symbol::LeftBracket => Bracket::Opens,
        Symbol::RightBrace | Symbol::RightParen | Symbol::RightBracket => Bracket::Closes,
        _ => Bracket::Neither,
    }
}

fn greatest_number(is_signed: bool) -> u64
    ensures { result ≡ greatest_number is_signed }
{
    if is_signed { GREATEST + 1 } else { GREATEST }
}

fn is_allowed(token: &Token, opened: u32, is_signed: bool) -> bool
    ensures { IsTrue result ↔ IsAllowed opened is_signed (lexeme_of token.now) }
{
    match token {
        Token::Number(number) => *number <= greatest_number(is_signed),
        Token::Symbol(symbol) => match symbol_bracket(*symbol) {
            Bracket::Opens => opened < most_brackets(),
            Bracket::Closes => true,
            Bracket::Neither => true,
        },
        Token::Name(_) => true,
        Token::Word(_) => true,
        Token::Text(_) => true,
    }
}

fn opened_behind(token: &Token, opened: u32) -> u32
    requires { opened ≤ 32 }
    ensures { result ≡ opened_behind opened (lexeme_of token.now) }
{
    match token {
        Token::Symbol(symbol) => match symbol_bracket(*symbol) {
            Bracket::Opens => opened + 1,
            // The parser refuses a bracket that closes none.
            Bracket::Closes => opened.saturating_sub(1),
            Bracket::Neither => opened,
        },
        Token::Name(_) => opened,
        Token::Word(_) => opened,
        Token::Number(_) => opened,
        Token::Text(_) => opened,
    }
}

pub(crate) fn is_minus(token: &Token) -> bool
    ensures { result ≡ is_minus (lexeme_of token.now) }
{
    matches!(token, Token::Symbol(Symbol::Minus))
}

/// The tokens among which the grammar looks for the fault of a text: all of them, or those up to
/// the first that is beyond the limits. That token is brought within the limits, so that the
/// grammar decides whether it can stand there.
#[derive(Drop)]
pub(crate) struct Front<'t> {
    pub tokens: Vec<Placed<'t>>,
    /// The line of the last token, if that is beyond the limits.
    pub beyond: Option<u32>,
}

/// The tokens of a text up to the first that is beyond the limits, or all. At most 33 brackets are
/// open at once in them. The parser calls itself only at a bracket, so this alone bounds its stack.
pub(crate) fn front_of(tokens: Vec<Placed>) -> Front
    ensures { AreTokensSeen (map placed_lexeme tokens.entry.items)
        (map placed_lexeme result.tokens.items) result.beyond }
{
    let mut opened = 0;
    let mut is_signed = false;
    let mut place = 0;
    'more: while place < tokens.len() {
        let placed = &tokens[place];
        if !is_allowed(&placed.token, opened, is_signed) {
            return cut_behind(tokens, place, is_signed);
        }
        opened = opened_behind(&placed.token, opened);
        is_signed = is_minus(&placed.token);
        place += 1;
    }
    Front {
        tokens,
        beyond: None,
    }
}

fn cut_behind(mut tokens: Vec<Placed>, place: usize, is_signed: bool) -> Front
    requires { place < length tokens.items }
    ensures { (passed rest : List PlacedLexeme) (t : PlacedLexeme) →
        map placed_lexeme tokens.entry.items ≡ passed ++ t ∷ rest →
        length passed ≡ place →
        IsCutOf passed t is_signed (map placed_lexeme result.tokens.items) result.beyond }
{
    tokens.truncate(place + 1);
    let line = tokens[place].line;
    bring_within(&mut tokens[place].token, is_signed);
    Front {
        tokens,
        beyond: Some(line),
    }
}

fn bring_within(token: &mut Token, is_signed: bool)
    ensures { lexeme_of token.new ≡ brought_within is_signed (lexeme_of token.old) }
{
    if let Token::Number(number) = token {
        *number = (*number).min(greatest_number(is_signed));
    }
}
