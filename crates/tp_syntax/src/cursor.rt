//! The tokens that are left to read, and how one of them is passed.
ghost use Rattle.std.specs.Prelude.{◌≡◌, ◌<◌, IfOk, OnOk, length, ◌≢◌, ◌↔◌, ◌∷◌, [], true, false, IsTrue, IfErr, OnErr};
ghost use Rattle.std.specs.Prelude.{Some, None, ℕ, List};
ghost use Rattle.tp_syntax.specs.Lexeme.{Lexeme, name, number, text, word, symbol};
ghost use Rattle.std.specs.List.{list_all};
ghost use Rattle.tp_syntax.specs.Code.{is_plain};
ghost use Rattle.tp_syntax.specs.Item.{a_name, a_number, a_pattern, a_text, accepts, negated, next, of_symbol, of_word};
ghost use Rattle.tp_syntax.specs.Item.{one_of, positive, token};
ghost use Rattle.tp_syntax.specs.Parsing.{Parses, left};
ghost use Rattle.tp_syntax.specs.Reading.{Reads, leaf, line_ahead};
ghost use Rattle.tp_syntax.specs.TemplateTrees.{magnitude, IsNegative, IsPositive};

use crate::stuck::Stuck;
use crate::token::{Placed, Symbol, Token};
use crate::word::Word;
use std::alloc::Global;
use tp_tree::name::Name;
use tp_value::items::Items;

/// The tokens that are left to read.
#[derive(Drop)]
pub(crate) struct Parser<'a, 't> {
    pub rest: &'a [Placed<'t>],
}

impl<'a, 't> Parser<'a, 't> {
    /// The line of the next token, or 0 at the end.
    pub fn line(&self) -> u32
        ensures { result ≡ line_ahead (left self.now) }
    {
        match self.rest.first() {
            Some(placed) => placed.line,
            None => 0,
        }
    }

    /// Passes the next token.
    pub fn skip(&mut self) -> &'a Placed<'t>
        requires { next (left self.old) ≢ None }
        ensures { self.old.rest.now ≡ result.now ∷ self.new.rest.now }
    {
        let tokens = self.rest;
        self.rest = &tokens[1..];
        &tokens[0]
    }

    /// Whether this symbol comes next.
    pub fn is_symbol(&self, want: Symbol) -> bool
        ensures { accepts (of_symbol want) (next (left self.now)) ≡ result }
    {
        match self.rest.first() {
            Some(placed) => match placed.token {
                Token::Symbol(found) => found.is(want),
                _ => false,
            },
            None => false,
        }
    }

    /// Whether this word comes next.
    pub fn is_word(&self, want: Word) -> bool
        ensures { accepts (of_word want) (next (left self.now)) ≡ result }
    {
        match self.rest.first() {
            Some(placed) => match placed.token {
                Token::Word(found) => found.is(want),
                _ => false,
            },
            None => false,
        }
    }

    /// Passes this symbol, which comes next.
    pub fn pass_symbol(&mut self, want: Symbol)
        requires { accepts (of_symbol want) (next (left self.old)) ≡ true }
        ensures read { Reads (token (of_symbol want)) (left self.old)
            (leaf (symbol want)) (left self.new) }
        ensures shorter { length self.new.rest.now < length self.old.rest.now }
    {
        self.skip();
    }

    /// Passes this word, which comes next.
    pub fn pass_word(&mut self, want: Word)
        requires { accepts (of_word want) (next (left self.old)) ≡ true }
        ensures read { Reads (token (of_word want)) (left self.old)
            (leaf (word want)) (left self.new) }
        ensures shorter { length self.new.rest.now < length self.old.rest.now }
    {
        self.skip();
    }

    /// Whether a name comes next.
    pub fn is_name(&self) -> bool
        ensures { accepts a_name (next (left self.now)) ≡ result }
    {
        match self.rest.first() {
            Some(placed) => matches!(&placed.token, Token::Name(_)),
            None => false,
        }
    }

    /// Whether a number comes next.
    pub fn is_number(&self) -> bool
        ensures { accepts a_number (next (left self.now)) ≡ result }
    {
        match self.rest.first() {
            Some(placed) => matches!(&placed.token, Token::Number(_)),
            None => false,
        }
    }

    /// Whether a text comes next.
    pub fn is_text(&self) -> bool
        ensures { accepts a_text (next (left self.now)) ≡ result }
    {
        match self.rest.first() {
            Some(placed) => matches!(&placed.token, Token::Text(_)),
            None => false,
        }
    }

    /// The name that comes next.
    pub fn next_name(&self) -> Result<&'a str, Stuck>
        ensures yes { IfOk result (λ n. next (left self.now) ≡ Some (name n.now)) }
        ensures no { OnErr result (accepts a_name (next (left self.now)) ≡ false) }
        ensures stuck { IfErr result (λ e. e ≡ Stuck.At (length self.now.rest.now)) }
    {
        match self.rest.first() {
            Some(placed) => match &placed.token {
                Token::Name(found) => Ok(*found),
                _ => Err(Stuck::At(self.rest.len())),
            },
            None => Err(Stuck::At(self.rest.len())),
        }
    }

    /// The number that comes next.
    pub fn next_number(&self) -> Result<u64, Stuck>
        ensures yes { IfOk result (λ n. next (left self.now) ≡ Some (number n)) }
        ensures no { OnErr result (accepts a_number (next (left self.now)) ≡ false) }
        ensures stuck { IfErr result (λ e. e ≡ Stuck.At (length self.now.rest.now)) }
    {
        match self.rest.first() {
            Some(placed) => match &placed.token {
                Token::Number(found) => Ok(*found),
                _ => Err(Stuck::At(self.rest.len())),
            },
            None => Err(Stuck::At(self.rest.len())),
        }
    }

    /// The text that comes next.
    pub fn next_text(&self) -> Result<&'a [u8], Stuck>
        ensures yes { IfOk result (λ n. next (left self.now) ≡ Some (text n.now)) }
        ensures no { OnErr result (accepts a_text (next (left self.now)) ≡ false) }
        ensures stuck { IfErr result (λ e. e ≡ Stuck.At (length self.now.rest.now)) }
    {
        match self.rest.first() {
            Some(placed) => match &placed.token {
                Token::Text(found) => Ok(found.as_slice()),
                _ => Err(Stuck::At(self.rest.len())),
            },
            None => Err(Stuck::At(self.rest.len())),
        }
    }

    /// Passes this symbol.
    pub fn symbol(&mut self, want: Symbol) -> Result<(), Stuck>
        ensures parses { Parses (token (of_symbol want)) (λ _. leaf (symbol want))
            self.old result self.new }
        ensures shorter { OnOk result (length self.new.rest.now < length self.old.rest.now) }
    {
        if self.is_symbol(want) {
            self.skip();
            return Ok(());
        }
        Err(Stuck::At(self.rest.len()))
    }

    /// Passes this word.
    pub fn word(&mut self, want: Word) -> Result<(), Stuck>
        ensures parses { Parses (token (of_word want)) (λ _. leaf (word want))
            self.old result self.new }
        ensures shorter { OnOk result (length self.new.rest.now < length self.old.rest.now) }
    {
        if self.is_word(want) {
            self.skip();
            return Ok(());
        }
        Err(Stuck::At(self.rest.len()))
    }

    /// Passes a name.
    pub fn name(&mut self, alloc: Global) -> Result<Name, Stuck>
        ensures parses { Parses (token a_name) (λ n. leaf (name n)) self.old result self.new }
        ensures shorter { OnOk result (length self.new.rest.now < length self.old.rest.now) }
    {
        let spelling = self.next_name()?;
        self.skip();
        let name = Name::from_str(alloc, spelling)?;
        Ok(name)
    }

    /// Passes a text.
    pub fn text(&mut self, alloc: Global) -> Result<Items<u8>, Stuck>
        ensures parses { Parses (token a_text) (λ bytes. leaf (text bytes))
            self.old result self.new }
        ensures shorter { OnOk result (length self.new.rest.now < length self.old.rest.now) }
    {
        let characters = self.next_text()?;
        self.skip();
        let copied = Items::from_slice(alloc, characters)?;
        Ok(copied)
    }

    /// Whether an integer comes next.
    pub fn is_integer(&self) -> bool
        ensures { one_of (of_symbol Symbol.Minus ∷ a_number ∷ []) (next (left self.now)) ≡ result }
    {
        self.is_symbol(Symbol::Minus) || self.is_number()
    }

    /// Passes a number without a `-` before it.
    pub fn positive(&mut self) -> Result<i64, Stuck>
        ensures parses { Parses (token positive) magnitude self.old result self.new }
        ensures sign { IfOk result IsPositive }
        ensures shorter { OnOk result (length self.new.rest.now < length self.old.rest.now) }
    {
        let found = self.next_number()?;
        if found <= GREATEST {
            self.skip();
            return Ok(found as i64);
        }
        Err(Stuck::At(self.rest.len()))
    }

    /// Passes the number after a `-`.
    pub fn negated(&mut self) -> Result<i64, Stuck>
        ensures parses { Parses (token negated) magnitude self.old result self.new }
        ensures sign { IfOk result IsNegative }
        ensures shorter { OnOk result (length self.new.rest.now < length self.old.rest.now) }
    {
        let found = self.next_number()?;
        if 1 <= found && found <= GREATEST + 1 {
            self.skip();
            return Ok(-1 - (found - 1) as i64);
        }
        Err(Stuck::At(self.rest.len()))
    }

    /// Passes a text that may follow `pattern`.
    pub fn pattern(&mut self, alloc: Global) -> Result<Items<u8>, Stuck>
        ensures parses { Parses (token a_pattern) (λ bytes. leaf (text bytes))
            self.old result self.new }
        ensures shorter { OnOk result (length self.new.rest.now < length self.old.rest.now) }
    {
        let characters = self.next_text()?;
        if is_pattern(characters) {
            self.skip();
            let copied = Items::from_slice(alloc, characters)?;
            return Ok(copied);
        }
        Err(Stuck::At(self.rest.len()))
    }
}

/// The greatest number that may stand without a `-`.
pub const GREATEST: u64 = 9_223_372_036_854_775_807;

fn is_plain(character: u8) -> bool
    ensures { result ≡ is_plain character }
{
    !matches!(
        character,
        b'\\' | b'[' | b']' | b'{' | b'}' | b'(' | b')' | b'|' | b'#' | b'+' | b'"'
    )
}

#[tactic(auto)]
fn is_pattern(characters: &[u8]) -> bool
    ensures { result ≡ list_all is_plain characters.now }
{
    characters.iter().all(|character| is_plain(*character))
}
