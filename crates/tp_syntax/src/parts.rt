//! Parts of statements: names in a `for`, ends, port operations, verdicts, the head of a `for`.
ghost use Rattle.std.specs.Prelude.{◌≡◌, ◌<◌, ◌≤◌, [], ◌∷◌, OnOk, length};
ghost use Rattle.tp_syntax.specs.Lexeme.{name, number};
ghost use Rattle.tp_syntax.specs.Item.{exactly, of_word, one_of, next, rule, this_name, token};
ghost use Rattle.tp_syntax.specs.Reading.{Reads, leaf};
ghost use Rattle.tp_syntax.specs.Rule.{closing, control_word, may_end, set_verdict, turns, verdict_word};
ghost use Rattle.tp_syntax.specs.Parsing.{Ends, Enters, HasEnd, closing_tree, may_end_tree, Parses, left};
ghost use Rattle.tp_syntax.specs.OperationTrees.{control_tree, set_verdict_tree, turns_tree, verdict_tree};

use crate::cursor::Parser;
use crate::stuck::Stuck;
use crate::token::Symbol;
use crate::word::Word;
use std::alloc::Global;
use tp_common::operation::PortOperation;
use tp_tree::name::Name;
use tp_tree::tree::{Turns, VerdictName};

/// Whether a part has a `;`, and whether a further one follows it.
#[derive(Clone, Copy)]
pub struct End {
    pub has_semicolon: bool,
    pub is_open: bool,
}

impl<'a, 't> Parser<'a, 't> {
    /// Passes this name.
    fn same_name(&mut self, want: &Name) -> Result<(), Stuck>
        ensures parses { Parses (token (this_name want.now)) (λ _. leaf (name want.now))
            self.old result self.new }
        ensures shorter { OnOk result (length self.new.rest.now < length self.old.rest.now) }
    {
        let spelling = self.next_name()?;
        if want.as_str() == spelling {
            self.skip();
            return Ok(());
        }
        Err(Stuck::At(self.rest.len()))
    }

    /// Passes the number 1.
    fn number_one(&mut self) -> Result<(), Stuck>
        ensures parses { Parses (token (exactly 1)) (λ _. leaf (number 1))
            self.old result self.new }
        ensures shorter { OnOk result (length self.new.rest.now < length self.old.rest.now) }
    {
        let found = self.next_number()?;
        if found == 1 {
            self.skip();
            return Ok(());
        }
        Err(Stuck::At(self.rest.len()))
    }

    /// Passes a `;`, if it comes next.
    #[tactic(auto, using(crate::proofs::StepsOfReading::parsing, crate::proofs::ReadingGoesOn::leading))]
    pub fn may_end(&mut self) -> bool
        ensures read { Reads (rule may_end) (left self.old) (may_end_tree result) (left self.new) }
        ensures end { HasEnd self.old result self.new }
        ensures shorter { length self.new.rest.now ≤ length self.old.rest.now }
    {
        if self.is_symbol(Symbol::Semicolon) {
            self.pass_symbol(Symbol::Semicolon);
            return true;
        }
        false
    }

    /// Whether a list has a further part: no `}` comes next.
    #[tactic(auto, using(crate::proofs::ReadingGoesOn::leading))]
    pub fn is_open(&self) -> bool
        ensures { Enters self.now result }
    {
        if self.is_symbol(Symbol::RightBrace) {
            return false;
        }
        true
    }

    /// Passes the `;` of a part, if it comes next. Without a `;` only a `}` may follow.
    #[tactic(auto, using(crate::proofs::ReadingGoesOn::leading))]
    pub fn end(&mut self) -> End
        ensures ends { Ends self.old result self.new }
        ensures shorter { length self.new.rest.now ≤ length self.old.rest.now }
    {
        if self.is_symbol(Symbol::Semicolon) {
            self.pass_symbol(Symbol::Semicolon);
            let is_open = self.is_open();
            return End {
                has_semicolon: true,
                is_open,
            };
        }
        End {
            has_semicolon: false,
            is_open: false,
        }
    }

    /// Passes the `;` of a part with a block, if it comes next. It need not come.
    pub fn block_end(&mut self) -> End
        ensures read { Reads (rule may_end) (left self.old) (may_end_tree result.has_semicolon)
            (left self.new) }
        ensures enters { Enters self.new result.is_open }
        ensures shorter { length self.new.rest.now ≤ length self.old.rest.now }
    {
        let has_semicolon = self.may_end();
        let is_open = self.is_open();
        End {
            has_semicolon,
            is_open,
        }
    }

    /// Passes the `}` of a list.
    pub fn closing(&mut self) -> Result<(), Stuck>
        ensures parses { Parses (rule closing) (λ _. closing_tree) self.old result self.new }
        ensures shorter { OnOk result (length self.new.rest.now < length self.old.rest.now) }
    {
        self.symbol(Symbol::RightBrace)?;
        Ok(())
    }

    /// Whether an `alt` or a `for` comes next.
    pub fn is_compound(&self) -> bool
        ensures { one_of (of_word Word.Alt ∷ of_word Word.For ∷ [])
            (next (left self.now)) ≡ result }
    {
        self.is_word(Word::Alt) || self.is_word(Word::For)
    }

    /// Passes an operation on a port.
    pub fn control_word(&mut self) -> Result<PortOperation, Stuck>
        ensures parses { Parses (rule control_word) control_tree self.old result self.new }
        ensures shorter { OnOk result (length self.new.rest.now < length self.old.rest.now) }
    {
        if self.is_word(Word::Start) {
            self.pass_word(Word::Start);
            return Ok(PortOperation::Start);
        }
        if self.is_word(Word::Stop) {
            self.pass_word(Word::Stop);
            return Ok(PortOperation::Stop);
        }
        if self.is_word(Word::Halt) {
            self.pass_word(Word::Halt);
            return Ok(PortOperation::Halt);
        }
        self.word(Word::Clear)?;
        Ok(PortOperation::Clear)
    }

    fn verdict_word(&mut self) -> Result<VerdictName, Stuck>
        ensures parses { Parses (rule verdict_word) verdict_tree self.old result self.new }
        ensures shorter { OnOk result (length self.new.rest.now < length self.old.rest.now) }
    {
        if self.is_word(Word::NoneWord) {
            self.pass_word(Word::NoneWord);
            return Ok(VerdictName::NoVerdict);
        }
        if self.is_word(Word::Pass) {
            self.pass_word(Word::Pass);
            return Ok(VerdictName::Pass);
        }
        if self.is_word(Word::Inconc) {
            self.pass_word(Word::Inconc);
            return Ok(VerdictName::Inconc);
        }
        if self.is_word(Word::Fail) {
            self.pass_word(Word::Fail);
            return Ok(VerdictName::Fail);
        }
        self.word(Word::Error)?;
        Ok(VerdictName::Error)
    }

    pub fn set_verdict(&mut self) -> Result<VerdictName, Stuck>
        ensures parses { Parses (rule set_verdict) set_verdict_tree self.old result self.new }
        ensures shorter { OnOk result (length self.new.rest.now < length self.old.rest.now) }
    {
        self.word(Word::Setverdict)?;
        self.symbol(Symbol::LeftParen)?;
        let verdict = self.verdict_word()?;
        self.symbol(Symbol::RightParen)?;
        Ok(verdict)
    }

    /// Passes the head of a `for`, after that word.
    #[tactic(auto, using(crate::proofs::BoundNames::turns_parsing))]
    pub fn turns(&mut self, alloc: Global) -> Result<Turns, Stuck>
        ensures parses { Parses (rule turns) turns_tree self.old result self.new }
        ensures shorter { OnOk result (length self.new.rest.now < length self.old.rest.now) }
    {
        self.symbol(Symbol::LeftParen)?;
        self.word(Word::Var)?;
        self.word(Word::Integer)?;
        let name = self.name(alloc)?;
        self.symbol(Symbol::Assign)?;
        let first = self.integer()?;
        self.symbol(Symbol::Semicolon)?;
        self.same_name(&name)?;
        self.symbol(Symbol::Less)?;
        let bound = self.integer()?;
        self.symbol(Symbol::Semicolon)?;
        self.same_name(&name)?;
        self.symbol(Symbol::Assign)?;
        self.same_name(&name)?;
        self.symbol(Symbol::Plus)?;
        self.number_one()?;
        self.symbol(Symbol::RightParen)?;
        Ok(Turns { name, first, bound })
    }
}
