//! The body of a test case.
ghost use Rattle.std.specs.Prelude.{◌≡◌, ◌<◌, ◌≤◌, [], ◌∷◌, ◌++◌, IfOk, OnOk, length};
ghost use Rattle.tp_syntax.specs.Item.{rule};
ghost use Rattle.tp_syntax.specs.Rule.{case_setups};
ghost use Rattle.tp_syntax.specs.CaseTrees.{IsUpTo, body_tree, kind_of, part, parts_of, rank_of, setup_kind};
ghost use Rattle.tp_syntax.specs.CaseTrees.{stage_rank, statement_part, does, stage_of};
ghost use Rattle.tp_syntax.specs.Parsing.{Parses};
ghost use Rattle.tp_syntax.specs.StatementTrees.{shape_of};

use crate::cases::{CaseAction, Stage};
use crate::cursor::Parser;
use crate::stuck::Stuck;
use std::alloc::Global;
use tp_common::memory::Memory;
use tp_tree::tree::{
    Action, AllDone, ComponentStart, SetupAction, SetupStatement, Statement, Variable,
};
use tp_value::items::Items;

#[derive(Drop)]
pub struct CaseBody {
    pub setups: Items<SetupStatement>,
    pub starts: Items<ComponentStart>,
    pub variables: Items<Variable>,
    pub statements: Items<Statement>,
    pub all_done: Option<AllDone>,
}

impl CaseAction {
    /// The stage to which such a part belongs.
    fn stage(&self) -> Stage
        ensures { result ≡ stage_of (kind_of self.now) }
    {
        match self {
            CaseAction::Connect(..) => Stage::Setups,
            CaseAction::Map(..) => Stage::Setups,
            CaseAction::Create(_) => Stage::Setups,
            CaseAction::Start(..) => Stage::Starts,
            CaseAction::Variable(..) => Stage::Variables,
            CaseAction::Plain(_) => Stage::Statements,
            CaseAction::Compound(_) => Stage::Statements,
            CaseAction::Done => Stage::Statements,
        }
    }
}

impl CaseBody {
    fn new(alloc: Global) -> CaseBody
        ensures none { parts_of result ≡ [] }
        ensures fits { IsUpTo 0 result }
    {
        CaseBody {
            setups: Items::new(alloc),
            starts: Items::new(alloc),
            variables: Items::new(alloc),
            statements: Items::new(alloc),
            all_done: None,
        }
    }

    fn keep_setup(
        &mut self,
        line: u32,
        action: SetupAction,
        has_semicolon: bool,
    ) -> Result<(), Memory>
        requires { IsUpTo 0 self.old }
        ensures kept { OnOk result (parts_of self.new
            ≡ parts_of self.old ++ part line (setup_kind action) has_semicolon ∷ []) }
        ensures fits { OnOk result (IsUpTo 0 self.new) }
    {
        self.setups.push(SetupStatement {
            line,
            action,
            has_semicolon,
        })?;
        Ok(())
    }

    fn push_statement(&mut self, statement: Statement) -> Result<(), Memory>
        requires { IsUpTo 3 self.old }
        ensures kept { OnOk result (parts_of self.new
            ≡ parts_of self.old ++ statement_part statement ∷ []) }
        ensures fits { OnOk result (IsUpTo 3 self.new) }
    {
        self.statements.push(statement)?;
        Ok(())
    }

    #[tactic(auto, using(crate::proofs::CaseViews::part_made))]
    fn keep_statement(
        &mut self,
        line: u32,
        action: Action,
        has_semicolon: bool,
    ) -> Result<(), Memory>
        requires { IsUpTo 3 self.old }
        ensures kept { OnOk result (parts_of self.new
            ≡ parts_of self.old ++ part line (does (shape_of action)) has_semicolon ∷ []) }
        ensures fits { OnOk result (IsUpTo 3 self.new) }
    {
        self.push_statement(Statement {
            line,
            action,
            has_semicolon,
        })
    }

    /// Appends a part to the others of its kind.
    #[tactic(auto, using(crate::proofs::CaseViews::part_made))]
    fn keep(&mut self, line: u32, action: CaseAction, has_semicolon: bool) -> Result<(), Memory>
        requires { IsUpTo (stage_rank (stage_of (kind_of action))) self.old }
        ensures kept { OnOk result (parts_of self.new
            ≡ parts_of self.old ++ part line (kind_of action) has_semicolon ∷ []) }
        ensures fits { OnOk result (IsUpTo (rank_of (kind_of action)) self.new) }
    {
        match action {
            CaseAction::Connect(first, second) => {
                self.keep_setup(line, SetupAction::Connect(first, second), has_semicolon)
            }
            CaseAction::Map(first, second) => {
                self.keep_setup(line, SetupAction::Map(first, second), has_semicolon)
            }
            CaseAction::Create(creation) => {
                self.keep_setup(line, SetupAction::Create(creation), has_semicolon)
            }
            CaseAction::Start(component, function, arguments) => self.starts.push(ComponentStart {
                line,
                component,
                function,
                arguments,
                has_semicolon,
            }),
            CaseAction::Variable(type_name, name) => self.variables.push(Variable {
                line,
                type_name,
                name,
                has_semicolon,
            }),
            CaseAction::Plain(plain) => self.keep_statement(line, plain.action(), has_semicolon),
            CaseAction::Compound(action) => self.keep_statement(line, action, has_semicolon),
            CaseAction::Done => {
                self.all_done = Some(AllDone {
                    line,
                    has_semicolon,
                });
                Ok(())
            }
        }
    }
}

impl<'a, 't> Parser<'a, 't> {
    /// Passes the parts of a test case's body, and the `}` that follows them.
    #[tactic(auto, using(crate::proofs::CaseViews::case_parsing))]
    pub fn case_body(&mut self, alloc: Global) -> Result<CaseBody, Stuck>
        ensures parses { Parses (rule case_setups) body_tree self.old result self.new }
        ensures shorter { OnOk result (length self.new.rest.now < length self.old.rest.now) }
    {
        let mut body = CaseBody::new(alloc);
        let mut stage = Stage::Setups;
        let mut is_open = self.is_open();
        'more: while is_open {
            let line = self.line();
            let part = self.case_part(alloc, stage)?;
            stage = part.action.stage();
            body.keep(line, part.action, part.end.has_semicolon)?;
            is_open = part.end.is_open;
        }
        self.closing()?;
        Ok(body)
    }
}
