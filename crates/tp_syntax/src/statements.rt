//! Statements, their blocks, and the branches of an `alt`.
ghost use Rattle.std.specs.Prelude.{◌≡◌, ◌<◌, true, IfOk, OnOk, length, ◌≤◌, map};
ghost use Rattle.tp_syntax.specs.Item.{rule};
ghost use Rattle.tp_syntax.specs.Rule.{all_ports, named, plain, a_branch, a_reception, a_statement, an_otherwise};
ghost use Rattle.tp_syntax.specs.Rule.{compound, end_of_branch, statements};
ghost use Rattle.tp_syntax.specs.OperationTrees.{operation_tree};
ghost use Rattle.tp_syntax.specs.Parsing.{Parses, Goes, part_or_end};
ghost use Rattle.tp_syntax.specs.StatementTrees.{all_ports_tree, is_named, named_part, plain_shape, on_port};
ghost use Rattle.tp_syntax.specs.StatementTrees.{plain_tree, shape_of, body_frames, body_of, branch_of, branches_tree};
ghost use Rattle.tp_syntax.specs.StatementTrees.{compound_tree, compounded, else_of, otherwise_of, otherwise_tree};
ghost use Rattle.tp_syntax.specs.StatementTrees.{reception_frames, statements_tree, step_frames, step_of};

use crate::cursor::Parser;
use crate::operations::OtherOperation;
use crate::parts::End;
use crate::stuck::Stuck;
use crate::token::Symbol;
use crate::word::Word;
use std::alloc::Global;
use tp_common::operation::PortOperation;
use tp_tree::name::Name;
use tp_tree::tree::{
    Action, Branch, BranchBody, Control, Counted, ElseBranch, Receive, Send, Statement, VerdictName,
};
use tp_value::items::Items;

/// What a statement without a block does.
#[derive(Drop)]
pub enum Plain {
    SetVerdict(VerdictName),
    AllPorts(PortOperation),
    /// The start of a port.
    Start(Name),
    /// Another operation on a port.
    Named(Name, OtherOperation),
}

impl Plain {
    #[tactic(auto, using(crate::proofs::StatementViews::shapes))]
    pub fn action(self) -> Action
        ensures { shape_of result ≡ plain_shape self }
    {
        match self {
            Plain::SetVerdict(verdict) => Action::SetVerdict(verdict),
            Plain::AllPorts(operation) => Action::AllPorts(operation),
            Plain::Start(port) => Action::Control(Control {
                port,
                operation: PortOperation::Start,
            }),
            Plain::Named(port, operation) => on_port(port, operation),
        }
    }
}

#[tactic(auto, using(crate::proofs::StatementViews::shapes))]
fn on_port(port: Name, operation: OtherOperation) -> Action
    ensures { shape_of result ≡ on_port port (operation_tree operation) }
{
    match operation {
        OtherOperation::Send(sent, to) => Action::Send(Send { port, sent, to }),
        OtherOperation::Receive(receiving) => Action::Receive(Receive {
            port,
            kind: receiving.kind,
            template: receiving.received.template,
            sender: receiving.received.sender,
            redirect: receiving.received.redirect,
        }),
        OtherOperation::Stop => Action::Control(Control {
            port,
            operation: PortOperation::Stop,
        }),
        OtherOperation::Halt => Action::Control(Control {
            port,
            operation: PortOperation::Halt,
        }),
        OtherOperation::Clear => Action::Control(Control {
            port,
            operation: PortOperation::Clear,
        }),
    }
}

impl<'a, 't> Parser<'a, 't> {
    fn all_ports(&mut self) -> Result<PortOperation, Stuck>
        ensures parses { Parses (rule all_ports) all_ports_tree self.old result self.new }
        ensures shorter { OnOk result (length self.new.rest.now < length self.old.rest.now) }
    {
        self.word(Word::All)?;
        self.word(Word::Port)?;
        self.symbol(Symbol::Dot)?;
        self.control_word()
    }

    pub fn named(&mut self, alloc: Global) -> Result<Plain, Stuck>
        ensures parses { Parses (rule named) (λ p. named_part (plain_shape p))
            self.old result self.new }
        ensures named { IfOk result (λ p. is_named (plain_shape p) ≡ true) }
        ensures shorter { OnOk result (length self.new.rest.now < length self.old.rest.now) }
    {
        let port = self.name(alloc)?;
        self.symbol(Symbol::Dot)?;
        if self.is_word(Word::Start) {
            self.pass_word(Word::Start);
            return Ok(Plain::Start(port));
        }
        let operation = self.other_operation(alloc)?;
        Ok(Plain::Named(port, operation))
    }

    #[tactic(auto, using(crate::proofs::StatementViews::plain_parsing))]
    pub fn plain(&mut self, alloc: Global) -> Result<Plain, Stuck>
        ensures parses { Parses (rule plain) (λ p. plain_tree (plain_shape p))
            self.old result self.new }
        ensures shorter { OnOk result (length self.new.rest.now < length self.old.rest.now) }
    {
        if self.is_word(Word::Setverdict) {
            let verdict = self.set_verdict()?;
            return Ok(Plain::SetVerdict(verdict));
        }
        if self.is_word(Word::All) {
            let operation = self.all_ports()?;
            return Ok(Plain::AllPorts(operation));
        }
        self.named(alloc)
    }
}

/// What follows the operation of a branch.
#[derive(Drop)]
pub struct BranchEnd {
    pub body: BranchBody,
    pub end: End,
}

impl<'a, 't> Parser<'a, 't> {
    /// Passes a statement. Returns it, and whether a further one follows.
    #[cycle(statement)]
    #[tactic(auto, using(crate::proofs::StatementViews::statement_parsing))]
    fn statement(&mut self, alloc: Global) -> Result<(Statement, bool), Stuck>
        ensures goes { Goes a_statement (λ x. step_frames (step_of x.0))
            (λ x. part_or_end a_statement x.1)
            self.old result self.new }
        ensures shorter { OnOk result (length self.new.rest.now < length self.old.rest.now) }
    {
        let line = self.line();
        if self.is_compound() {
            let action = self.compound(alloc)?;
            let end = self.block_end();
            let statement = Statement {
                line,
                action,
                has_semicolon: end.has_semicolon,
            };
            return Ok((statement, end.is_open));
        }
        let plain = self.plain(alloc)?;
        let end = self.end();
        let action = plain.action();
        let statement = Statement {
            line,
            action,
            has_semicolon: end.has_semicolon,
        };
        Ok((statement, end.is_open))
    }

    /// Passes an `alt` or a `for`.
    #[cycle(statement)]
    #[tactic(auto, using(crate::proofs::StatementViews::statement_parsing))]
    pub fn compound(&mut self, alloc: Global) -> Result<Action, Stuck>
        ensures parses { Parses (rule compound) (λ a. compound_tree (shape_of a))
            self.old result self.new }
        ensures compound { IfOk result (λ a. shape_of a ≡ compounded (compound_tree (shape_of a))) }
        ensures shorter { OnOk result (length self.new.rest.now < length self.old.rest.now) }
    {
        if self.is_word(Word::Alt) {
            self.pass_word(Word::Alt);
            self.symbol(Symbol::LeftBrace)?;
            let (branches, otherwise) = self.branches(alloc)?;
            return Ok(Action::Alt(branches, otherwise));
        }
        self.word(Word::For)?;
        let turns = self.turns(alloc)?;
        self.symbol(Symbol::LeftBrace)?;
        let block = self.statements(alloc)?;
        Ok(Action::For(Counted { turns, block }))
    }

    /// Passes statements and the `}` that follows them.
    #[cycle(statement)]
    #[tactic(auto, using(crate::proofs::StatementViews::statement_parsing))]
    pub fn statements(&mut self, alloc: Global) -> Result<Items<Statement>, Stuck>
        ensures parses { Parses (rule statements) statements_tree self.old result self.new }
        ensures shorter { OnOk result (length self.new.rest.now < length self.old.rest.now) }
    {
        let mut statements = Items::new(alloc);
        let mut is_open = self.is_open();
        'more: while is_open {
            let (statement, goes_on) = self.statement(alloc)?;
            statements.push(statement)?;
            is_open = goes_on;
        }
        self.closing()?;
        Ok(statements)
    }

    /// Passes the branches of an `alt`, and the `}` that follows them.
    #[cycle(statement)]
    #[tactic(auto, using(crate::proofs::StatementViews::statement_parsing))]
    fn branches(&mut self, alloc: Global) -> Result<(Items<Branch>, Option<ElseBranch>), Stuck>
        ensures parses { Parses (rule a_branch)
            (λ x. branches_tree (map branch_of x.0) (otherwise_of x.1))
            self.old result self.new }
        ensures shorter { OnOk result (length self.new.rest.now < length self.old.rest.now) }
    {
        let mut branches = Items::new(alloc);
        let mut is_open = true;
        'more: while is_open {
            let line = self.line();
            self.symbol(Symbol::LeftBracket)?;
            if !self.is_symbol(Symbol::RightBracket) {
                let otherwise = self.otherwise(alloc, line)?;
                return Ok((branches, Some(otherwise)));
            }
            let (branch, goes_on) = self.reception(alloc, line)?;
            branches.push(branch)?;
            is_open = goes_on;
        }
        self.closing()?;
        Ok((branches, None))
    }

    /// Passes a branch after its `[`. Returns it, and whether a further one follows.
    #[cycle(statement)]
    #[tactic(auto, using(crate::proofs::StatementViews::statement_parsing))]
    fn reception(&mut self, alloc: Global, line: u32) -> Result<(Branch, bool), Stuck>
        ensures goes { Goes a_reception (λ x. reception_frames (branch_of x.0))
            (λ x. part_or_end a_branch x.1)
            self.old result self.new }
        ensures line { IfOk result (λ x. (branch_of x.0).line ≡ line) }
        ensures shorter { OnOk result (length self.new.rest.now < length self.old.rest.now) }
    {
        self.symbol(Symbol::RightBracket)?;
        let port = self.name(alloc)?;
        self.symbol(Symbol::Dot)?;
        let receiving = self.receiving(alloc)?;
        let BranchEnd { body, end } = self.branch_end(alloc)?;
        let receive = Receive {
            port,
            kind: receiving.kind,
            template: receiving.received.template,
            sender: receiving.received.sender,
            redirect: receiving.received.redirect,
        };
        let branch = Branch {
            line,
            receive,
            body,
            has_semicolon: end.has_semicolon,
        };
        Ok((branch, end.is_open))
    }

    #[cycle(statement)]
    #[tactic(auto, using(crate::proofs::StatementViews::statement_parsing))]
    fn branch_end(&mut self, alloc: Global) -> Result<BranchEnd, Stuck>
        ensures goes { Goes end_of_branch
            (λ e. body_frames (body_of e.body) e.end.has_semicolon)
            (λ e. part_or_end a_branch e.end.is_open) self.old result self.new }
        ensures shorter { OnOk result (length self.new.rest.now ≤ length self.old.rest.now) }
    {
        if self.is_symbol(Symbol::LeftBrace) {
            self.pass_symbol(Symbol::LeftBrace);
            let block = self.statements(alloc)?;
            let body = BranchBody::Block(block);
            let end = self.block_end();
            return Ok(BranchEnd { body, end });
        }
        let body = BranchBody::Nothing;
        let end = self.end();
        Ok(BranchEnd { body, end })
    }

    /// Passes `[else]` after its `[`, and the `}` of the `alt`.
    #[cycle(statement)]
    #[tactic(auto, using(crate::proofs::StatementViews::statement_parsing))]
    fn otherwise(&mut self, alloc: Global, line: u32) -> Result<ElseBranch, Stuck>
        ensures parses { Parses (rule an_otherwise)
            (λ e. otherwise_tree (else_of e).block (else_of e).semicolon)
            self.old result self.new }
        ensures line { IfOk result (λ e. (else_of e).line ≡ line) }
        ensures shorter { OnOk result (length self.new.rest.now < length self.old.rest.now) }
    {
        self.word(Word::Else)?;
        self.symbol(Symbol::RightBracket)?;
        self.symbol(Symbol::LeftBrace)?;
        let block = self.statements(alloc)?;
        let has_semicolon = self.may_end();
        self.closing()?;
        Ok(ElseBranch {
            line,
            block,
            has_semicolon,
        })
    }
}
