//! The parts of a test case's body, and which part may follow which.
ghost use Rattle.std.specs.Prelude.{◌≡◌, ◌<◌, ◌≤◌, ◌&&◌, false, true, IfOk, OnOk, length, ◌∷◌, drop, map};
ghost use Rattle.tp_syntax.specs.Rule.{a_setup, a_start, after_case_name, after_variables, case_action, case_statement};
ghost use Rattle.tp_syntax.specs.Rule.{case_all, case_unnamed, a_pair, a_place, a_place_owner, after_case_var};
ghost use Rattle.tp_syntax.specs.Rule.{arguments, more_arguments, variable_parts};
ghost use Rattle.tp_syntax.specs.CaseTrees.{GoesCase, kind_of, stage_rank, action_frames, after_name_frames};
ghost use Rattle.tp_syntax.specs.CaseTrees.{case_all_frames, is_action, is_all, is_over, is_statement, is_unnamed};
ghost use Rattle.tp_syntax.specs.CaseTrees.{name_of, part_frames, part_rule, stage_of, statement_frames};
ghost use Rattle.tp_syntax.specs.CaseTrees.{unnamed_frames, after_var_frames, arguments_tree, is_var, owner_tree};
ghost use Rattle.tp_syntax.specs.CaseTrees.{pair_tree, place_tree, variable_frames};
ghost use Rattle.tp_syntax.specs.Reading.{line_ahead, chain};
ghost use Rattle.tp_syntax.specs.Parsing.{left, Parses};
ghost use Rattle.tp_syntax.specs.Item.{rule};
ghost use Rattle.tp_syntax.specs.OperationTrees.{component_tree};

use crate::cursor::Parser;
use crate::parts::End;
use crate::statements::Plain;
use crate::stuck::Stuck;
use crate::token::Symbol;
use crate::word::Word;
use std::alloc::Global;
use tp_tree::message::TypeName;
use tp_tree::name::Name;
use tp_tree::tree::{Action, ComponentName, Creation, EndComponent, PairEnd};
use tp_value::items::Items;

/// Which parts may follow: those of this variant and of the later ones.
#[derive(Clone, Copy)]
pub enum Stage {
    Setups,
    Starts,
    Variables,
    Statements,
}

/// What a part of a test case's body does.
#[derive(Drop)]
pub enum CaseAction {
    Connect(PairEnd, PairEnd),
    Map(PairEnd, PairEnd),
    Create(Creation),
    /// The start of a component with this function and these arguments.
    Start(Name, Name, Items<ComponentName>),
    Variable(TypeName, Name),
    Plain(Plain),
    /// An `alt` or a `for`.
    Compound(Action),
    /// `all component.done`
    Done,
}

/// A part of a test case's body.
#[derive(Drop)]
pub struct CasePart {
    pub action: CaseAction,
    pub end: End,
}

impl<'a, 't> Parser<'a, 't> {
    fn place_owner(&mut self, alloc: Global) -> Result<EndComponent, Stuck>
        ensures parses { Parses (rule a_place_owner) owner_tree self.old result self.new }
        ensures shorter { OnOk result (length self.new.rest.now < length self.old.rest.now) }
    {
        if self.is_word(Word::Mtc) {
            self.pass_word(Word::Mtc);
            return Ok(EndComponent::Mtc);
        }
        if self.is_word(Word::SelfWord) {
            self.pass_word(Word::SelfWord);
            return Ok(EndComponent::SelfComponent);
        }
        if self.is_word(Word::System) {
            self.pass_word(Word::System);
            return Ok(EndComponent::System);
        }
        let name = self.name(alloc)?;
        Ok(EndComponent::Named(name))
    }

    fn place(&mut self, alloc: Global) -> Result<PairEnd, Stuck>
        ensures parses { Parses (rule a_place) place_tree self.old result self.new }
        ensures shorter { OnOk result (length self.new.rest.now < length self.old.rest.now) }
    {
        let component = self.place_owner(alloc)?;
        self.symbol(Symbol::Colon)?;
        let port = self.name(alloc)?;
        Ok(PairEnd { component, port })
    }

    pub fn pair(&mut self, alloc: Global) -> Result<(PairEnd, PairEnd), Stuck>
        ensures parses { Parses (rule a_pair) (λ x. pair_tree x.0 x.1) self.old result self.new }
        ensures shorter { OnOk result (length self.new.rest.now < length self.old.rest.now) }
    {
        self.symbol(Symbol::LeftParen)?;
        let first = self.place(alloc)?;
        self.symbol(Symbol::Comma)?;
        let second = self.place(alloc)?;
        self.symbol(Symbol::RightParen)?;
        Ok((first, second))
    }

    #[tactic(auto, using(crate::proofs::TypeTrees::listing))]
    fn more_arguments(
        &mut self,
        alloc: Global,
        first: ComponentName,
    ) -> Result<Items<ComponentName>, Stuck>
        ensures parses { Parses (rule more_arguments)
            (λ cs. chain more_arguments (map component_tree (drop 1 cs))) self.old result self.new }
        ensures begins { IfOk result (λ cs. cs ≡ first ∷ drop 1 cs) }
        ensures shorter { OnOk result (length self.new.rest.now ≤ length self.old.rest.now) }
    {
        let mut arguments = Items::new(alloc);
        arguments.push(first)?;
        'more: while self.is_symbol(Symbol::Comma) {
            self.pass_symbol(Symbol::Comma);
            let next = self.component(alloc)?;
            arguments.push(next)?;
        }
        Ok(arguments)
    }

    pub fn arguments(&mut self, alloc: Global) -> Result<Items<ComponentName>, Stuck>
        ensures parses { Parses (rule arguments) arguments_tree self.old result self.new }
        ensures shorter { OnOk result (length self.new.rest.now < length self.old.rest.now) }
    {
        if self.is_symbol(Symbol::RightParen) {
            self.pass_symbol(Symbol::RightParen);
            return Ok(Items::new(alloc));
        }
        let first = self.component(alloc)?;
        let arguments = self.more_arguments(alloc, first)?;
        self.symbol(Symbol::RightParen)?;
        Ok(arguments)
    }

    /// Passes a creation or a variable after its `var`.
    #[tactic(auto, using(crate::proofs::CaseViews::case_parsing))]
    pub fn after_var(&mut self, alloc: Global) -> Result<CasePart, Stuck>
        ensures goes { GoesCase after_case_var after_var_frames self.old result self.new }
        ensures over { IfOk result (λ x. (is_over (kind_of x.action) && x.end.is_open) ≡ false) }
        ensures var { IfOk result (λ x. is_var (kind_of x.action) ≡ true) }
        ensures shorter { OnOk result (length self.new.rest.now < length self.old.rest.now) }
    {
        if self.is_name() {
            let type_name = self.name(alloc)?;
            let name = self.name(alloc)?;
            if self.is_symbol(Symbol::Assign) {
                self.pass_symbol(Symbol::Assign);
                let created = self.name(alloc)?;
                self.symbol(Symbol::Dot)?;
                self.word(Word::Create)?;
                let creation = Creation {
                    type_name,
                    name,
                    created,
                };
                let action = CaseAction::Create(creation);
                let end = self.end();
                return Ok(CasePart { action, end });
            }
            let action = CaseAction::Variable(TypeName::Named(type_name), name);
            let end = self.end();
            return Ok(CasePart { action, end });
        }
        let type_name = self.predefined()?;
        let name = self.name(alloc)?;
        let action = CaseAction::Variable(type_name, name);
        let end = self.end();
        Ok(CasePart { action, end })
    }

    /// Passes a variable after its `var`.
    #[tactic(auto, using(crate::proofs::CaseViews::case_parsing))]
    pub fn variable(&mut self, alloc: Global) -> Result<CasePart, Stuck>
        ensures goes { GoesCase variable_parts variable_frames self.old result self.new }
        ensures over { IfOk result (λ x. (is_over (kind_of x.action) && x.end.is_open) ≡ false) }
        ensures var { IfOk result (λ x. is_var (kind_of x.action) ≡ true) }
        ensures shorter { OnOk result (length self.new.rest.now < length self.old.rest.now) }
    {
        let type_name = self.type_name(alloc)?;
        let name = self.name(alloc)?;
        let action = CaseAction::Variable(type_name, name);
        let end = self.end();
        Ok(CasePart { action, end })
    }

    /// Passes an operation on all ports, or `all component.done`.
    #[tactic(auto, using(crate::proofs::CaseViews::case_parsing))]
    fn case_all(&mut self) -> Result<CasePart, Stuck>
        ensures goes { GoesCase case_all case_all_frames self.old result self.new }
        ensures over { IfOk result (λ x. (is_over (kind_of x.action) && x.end.is_open) ≡ false) }
        ensures all { IfOk result (λ x. is_all (kind_of x.action) ≡ true) }
        ensures shorter { OnOk result (length self.new.rest.now < length self.old.rest.now) }
    {
        self.word(Word::All)?;
        if self.is_word(Word::Port) {
            self.pass_word(Word::Port);
            self.symbol(Symbol::Dot)?;
            let operation = self.control_word()?;
            let action = CaseAction::Plain(Plain::AllPorts(operation));
            let end = self.end();
            return Ok(CasePart { action, end });
        }
        self.word(Word::Component)?;
        self.symbol(Symbol::Dot)?;
        self.word(Word::Done)?;
        let has_semicolon = self.may_end();
        let action = CaseAction::Done;
        let end = End {
            has_semicolon,
            is_open: false,
        };
        Ok(CasePart { action, end })
    }

    /// Passes a part that doesn't begin with a name: an `alt`, a `for`, `setverdict`, an operation
    /// on all ports, or `all component.done`.
    #[tactic(auto, using(crate::proofs::CaseViews::case_parsing))]
    fn case_unnamed(&mut self, alloc: Global) -> Result<CasePart, Stuck>
        ensures goes { GoesCase case_unnamed unnamed_frames self.old result self.new }
        ensures over { IfOk result (λ x. (is_over (kind_of x.action) && x.end.is_open) ≡ false) }
        ensures unnamed { IfOk result (λ x. is_unnamed (kind_of x.action) ≡ true) }
        ensures shorter { OnOk result (length self.new.rest.now < length self.old.rest.now) }
    {
        if self.is_compound() {
            let compound = self.compound(alloc)?;
            let action = CaseAction::Compound(compound);
            let end = self.block_end();
            return Ok(CasePart { action, end });
        }
        if self.is_word(Word::Setverdict) {
            let verdict = self.set_verdict()?;
            let action = CaseAction::Plain(Plain::SetVerdict(verdict));
            let end = self.end();
            return Ok(CasePart { action, end });
        }
        self.case_all()
    }

    /// Passes a statement, or `all component.done`.
    #[tactic(auto, using(crate::proofs::CaseViews::case_parsing))]
    pub fn case_statement(&mut self, alloc: Global) -> Result<CasePart, Stuck>
        ensures goes { GoesCase case_statement statement_frames self.old result self.new }
        ensures over { IfOk result (λ x. (is_over (kind_of x.action) && x.end.is_open) ≡ false) }
        ensures statement { IfOk result (λ x. is_statement (kind_of x.action) ≡ true) }
        ensures shorter { OnOk result (length self.new.rest.now < length self.old.rest.now) }
    {
        if self.is_name() {
            let plain = self.named(alloc)?;
            let action = CaseAction::Plain(plain);
            let end = self.end();
            return Ok(CasePart { action, end });
        }
        self.case_unnamed(alloc)
    }

    /// Passes the start of a component, or an operation on a port, after the dot.
    #[tactic(auto, using(crate::proofs::CaseViews::case_parsing))]
    fn after_name(&mut self, alloc: Global, name: Name) -> Result<CasePart, Stuck>
        ensures goes { GoesCase after_case_name after_name_frames self.old result self.new }
        ensures over { IfOk result (λ x. (is_over (kind_of x.action) && x.end.is_open) ≡ false) }
        ensures named { IfOk result (λ x. name_of (kind_of x.action) ≡ name) }
        ensures action { IfOk result (λ x. is_action (kind_of x.action) ≡ true) }
        ensures unnamed { IfOk result (λ x. is_unnamed (kind_of x.action) ≡ false) }
        ensures shorter { OnOk result (length self.new.rest.now < length self.old.rest.now) }
    {
        if self.is_word(Word::Start) {
            self.pass_word(Word::Start);
            if self.is_symbol(Symbol::LeftParen) {
                self.pass_symbol(Symbol::LeftParen);
                let function = self.name(alloc)?;
                self.symbol(Symbol::LeftParen)?;
                let arguments = self.arguments(alloc)?;
                self.symbol(Symbol::RightParen)?;
                let action = CaseAction::Start(name, function, arguments);
                let end = self.end();
                return Ok(CasePart { action, end });
            }
            let action = CaseAction::Plain(Plain::Start(name));
            let end = self.end();
            return Ok(CasePart { action, end });
        }
        let operation = self.other_operation(alloc)?;
        let action = CaseAction::Plain(Plain::Named(name, operation));
        let end = self.end();
        Ok(CasePart { action, end })
    }

    /// Passes the start of a component, a statement, or `all component.done`.
    #[tactic(auto, using(crate::proofs::CaseViews::case_parsing))]
    pub fn case_action(&mut self, alloc: Global) -> Result<CasePart, Stuck>
        ensures goes { GoesCase case_action action_frames self.old result self.new }
        ensures over { IfOk result (λ x. (is_over (kind_of x.action) && x.end.is_open) ≡ false) }
        ensures action { IfOk result (λ x. is_action (kind_of x.action) ≡ true) }
        ensures shorter { OnOk result (length self.new.rest.now < length self.old.rest.now) }
    {
        if self.is_name() {
            let name = self.name(alloc)?;
            self.symbol(Symbol::Dot)?;
            return self.after_name(alloc, name);
        }
        self.case_unnamed(alloc)
    }

    /// Passes any part of a test case's body.
    #[tactic(auto, using(crate::proofs::CaseViews::case_parsing))]
    fn setup_part(&mut self, alloc: Global) -> Result<CasePart, Stuck>
        ensures goes { GoesCase a_setup (part_frames Stage.Setups (line_ahead (left self.old)))
            self.old result self.new }
        ensures over { IfOk result (λ x. (is_over (kind_of x.action) && x.end.is_open) ≡ false) }
        ensures shorter { OnOk result (length self.new.rest.now < length self.old.rest.now) }
    {
        if self.is_word(Word::Connect) {
            self.pass_word(Word::Connect);
            let (first, second) = self.pair(alloc)?;
            let action = CaseAction::Connect(first, second);
            let end = self.end();
            return Ok(CasePart { action, end });
        }
        if self.is_word(Word::Map) {
            self.pass_word(Word::Map);
            let (first, second) = self.pair(alloc)?;
            let action = CaseAction::Map(first, second);
            let end = self.end();
            return Ok(CasePart { action, end });
        }
        if self.is_word(Word::Var) {
            self.pass_word(Word::Var);
            return self.after_var(alloc);
        }
        self.case_action(alloc)
    }

    /// Passes the start of a component, or a part that may follow it.
    #[tactic(auto, using(crate::proofs::CaseViews::case_parsing))]
    fn start_part(&mut self, alloc: Global) -> Result<CasePart, Stuck>
        ensures goes { GoesCase a_start (part_frames Stage.Starts (line_ahead (left self.old)))
            self.old result self.new }
        ensures over { IfOk result (λ x. (is_over (kind_of x.action) && x.end.is_open) ≡ false) }
        ensures late { IfOk result (λ x. 1 ≤ stage_rank (stage_of (kind_of x.action))) }
        ensures shorter { OnOk result (length self.new.rest.now < length self.old.rest.now) }
    {
        if self.is_word(Word::Var) {
            self.pass_word(Word::Var);
            return self.variable(alloc);
        }
        self.case_action(alloc)
    }

    /// Passes a variable, or a part that may follow it.
    #[tactic(auto, using(crate::proofs::CaseViews::case_parsing))]
    fn variable_part(&mut self, alloc: Global) -> Result<CasePart, Stuck>
        ensures goes { GoesCase after_variables
            (part_frames Stage.Variables (line_ahead (left self.old))) self.old result self.new }
        ensures over { IfOk result (λ x. (is_over (kind_of x.action) && x.end.is_open) ≡ false) }
        ensures late { IfOk result (λ x. 2 ≤ stage_rank (stage_of (kind_of x.action))) }
        ensures shorter { OnOk result (length self.new.rest.now < length self.old.rest.now) }
    {
        if self.is_word(Word::Var) {
            self.pass_word(Word::Var);
            return self.variable(alloc);
        }
        self.case_statement(alloc)
    }

    /// Passes a part that may stand at this stage.
    #[tactic(auto, using(crate::proofs::CaseViews::case_parsing))]
    pub fn case_part(&mut self, alloc: Global, stage: Stage) -> Result<CasePart, Stuck>
        ensures goes { GoesCase (part_rule stage) (part_frames stage (line_ahead (left self.old)))
            self.old result self.new }
        ensures over { IfOk result (λ x. (is_over (kind_of x.action) && x.end.is_open) ≡ false) }
        ensures late { IfOk result
            (λ x. stage_rank stage ≤ stage_rank (stage_of (kind_of x.action))) }
        ensures shorter { OnOk result (length self.new.rest.now < length self.old.rest.now) }
    {
        match stage {
            Stage::Setups => self.setup_part(alloc),
            Stage::Starts => self.start_part(alloc),
            Stage::Variables => self.variable_part(alloc),
            Stage::Statements => { self.case_statement(alloc) }
        }
    }
}
