//! Operations on ports.
ghost use Rattle.std.specs.Prelude.{◌≡◌, ◌<◌, ◌≤◌, [], ◌∷◌, true, IfOk, OnOk, length};
ghost use Rattle.tp_syntax.specs.Item.{next, of_word, one_of, rule};
ghost use Rattle.tp_syntax.specs.Rule.{a_predefined, a_type, may_have_from, may_have_sender, may_have_template};
ghost use Rattle.tp_syntax.specs.Rule.{other_operation, received, receivers, receiving, redirect, sent, who};
ghost use Rattle.tp_syntax.specs.OperationTrees.{component_tree, from_tree, is_predefined, predefined_tree};
ghost use Rattle.tp_syntax.specs.OperationTrees.{received_tree, receivers_tree, receiving_tree, redirect_tree};
ghost use Rattle.tp_syntax.specs.OperationTrees.{sender_tree, sent_tree, template_part, type_tree, operation_tree};
ghost use Rattle.tp_syntax.specs.Parsing.{Parses, left};

use crate::cursor::Parser;
use crate::stuck::Stuck;
use crate::token::Symbol;
use crate::word::Word;
use std::alloc::Global;
use tp_common::operation::ReceiveKind;
use tp_tree::message::{Message, MessageTemplate, TypeName};
use tp_tree::name::Name;
use tp_tree::tree::{ComponentName, Receivers, Redirect, SentExpression};

#[derive(Drop)]
pub struct Received {
    pub template: Option<MessageTemplate>,
    pub sender: Option<ComponentName>,
    pub redirect: Redirect,
}

#[derive(Drop)]
pub struct Receiving {
    pub kind: ReceiveKind,
    pub received: Received,
}

/// An operation on a port other than `start`.
#[derive(Drop)]
pub enum OtherOperation {
    Send(SentExpression, Option<Receivers>),
    Receive(Receiving),
    Stop,
    Halt,
    Clear,
}

impl<'a, 't> Parser<'a, 't> {
    pub fn predefined(&mut self) -> Result<TypeName, Stuck>
        ensures parses { Parses (rule a_predefined) predefined_tree self.old result self.new }
        ensures predefined { IfOk result (λ t. is_predefined t ≡ true) }
        ensures shorter { OnOk result (length self.new.rest.now < length self.old.rest.now) }
    {
        if self.is_word(Word::Integer) {
            self.pass_word(Word::Integer);
            return Ok(TypeName::Integer);
        }
        if self.is_word(Word::Boolean) {
            self.pass_word(Word::Boolean);
            return Ok(TypeName::Boolean);
        }
        self.word(Word::Charstring)?;
        Ok(TypeName::Charstring)
    }

    #[tactic(auto, using(crate::proofs::PredefinedTypes::predefined_parsing))]
    pub fn type_name(&mut self, alloc: Global) -> Result<TypeName, Stuck>
        ensures parses { Parses (rule a_type) type_tree self.old result self.new }
        ensures shorter { OnOk result (length self.new.rest.now < length self.old.rest.now) }
    {
        if self.is_name() {
            let name = self.name(alloc)?;
            return Ok(TypeName::Named(name));
        }
        self.predefined()
    }

    pub fn component(&mut self, alloc: Global) -> Result<ComponentName, Stuck>
        ensures parses { Parses (rule who) component_tree self.old result self.new }
        ensures shorter { OnOk result (length self.new.rest.now < length self.old.rest.now) }
    {
        if self.is_word(Word::Mtc) {
            self.pass_word(Word::Mtc);
            return Ok(ComponentName::Mtc);
        }
        if self.is_word(Word::SelfWord) {
            self.pass_word(Word::SelfWord);
            return Ok(ComponentName::SelfComponent);
        }
        let name = self.name(alloc)?;
        Ok(ComponentName::Named(name))
    }

    #[tactic(auto, using(crate::proofs::PredefinedTypes::predefined_parsing))]
    fn sent(&mut self, alloc: Global) -> Result<SentExpression, Stuck>
        ensures parses { Parses (rule sent) sent_tree self.old result self.new }
        ensures shorter { OnOk result (length self.new.rest.now < length self.old.rest.now) }
    {
        if self.is_name() {
            let name = self.name(alloc)?;
            if self.is_symbol(Symbol::Colon) {
                self.pass_symbol(Symbol::Colon);
                let value = self.value(alloc)?;
                return Ok(SentExpression::Message(Message {
                    type_name: TypeName::Named(name),
                    value,
                }));
            }
            return Ok(SentExpression::Variable(name));
        }
        let type_name = self.predefined()?;
        self.symbol(Symbol::Colon)?;
        let value = self.value(alloc)?;
        Ok(SentExpression::Message(Message { type_name, value }))
    }

    fn to_part(&mut self, alloc: Global) -> Result<Option<Receivers>, Stuck>
        ensures parses { Parses (rule receivers) receivers_tree self.old result self.new }
        ensures shorter { OnOk result (length self.new.rest.now ≤ length self.old.rest.now) }
    {
        if !self.is_word(Word::To) {
            return Ok(None);
        }
        self.pass_word(Word::To);
        if self.is_word(Word::All) {
            self.pass_word(Word::All);
            self.word(Word::Component)?;
            return Ok(Some(Receivers::AllComponents));
        }
        let component = self.component(alloc)?;
        Ok(Some(Receivers::Component(component)))
    }

    fn template_part(&mut self, alloc: Global) -> Result<Option<MessageTemplate>, Stuck>
        ensures parses { Parses (rule may_have_template) template_part self.old result self.new }
        ensures shorter { OnOk result (length self.new.rest.now ≤ length self.old.rest.now) }
    {
        if !self.is_symbol(Symbol::LeftParen) {
            return Ok(None);
        }
        self.pass_symbol(Symbol::LeftParen);
        let type_name = self.type_name(alloc)?;
        self.symbol(Symbol::Colon)?;
        let template = self.template(alloc)?;
        self.symbol(Symbol::RightParen)?;
        Ok(Some(MessageTemplate {
            type_name,
            template,
        }))
    }

    fn from_part(&mut self, alloc: Global) -> Result<Option<ComponentName>, Stuck>
        ensures parses { Parses (rule may_have_from) from_tree self.old result self.new }
        ensures shorter { OnOk result (length self.new.rest.now ≤ length self.old.rest.now) }
    {
        if !self.is_word(Word::From) {
            return Ok(None);
        }
        self.pass_word(Word::From);
        let component = self.component(alloc)?;
        Ok(Some(component))
    }

    fn sender_part(&mut self, alloc: Global) -> Result<Option<Name>, Stuck>
        ensures parses { Parses (rule may_have_sender) sender_tree self.old result self.new }
        ensures shorter { OnOk result (length self.new.rest.now ≤ length self.old.rest.now) }
    {
        if !self.is_word(Word::Sender) {
            return Ok(None);
        }
        self.pass_word(Word::Sender);
        let name = self.name(alloc)?;
        Ok(Some(name))
    }

    fn redirect(&mut self, alloc: Global) -> Result<Redirect, Stuck>
        ensures parses { Parses (rule redirect) redirect_tree self.old result self.new }
        ensures shorter { OnOk result (length self.new.rest.now ≤ length self.old.rest.now) }
    {
        if !self.is_symbol(Symbol::Arrow) {
            return Ok(Redirect {
                value: None,
                sender: None,
            });
        }
        self.pass_symbol(Symbol::Arrow);
        if self.is_word(Word::Value) {
            self.pass_word(Word::Value);
            let value = self.name(alloc)?;
            let sender = self.sender_part(alloc)?;
            return Ok(Redirect {
                value: Some(value),
                sender,
            });
        }
        self.word(Word::Sender)?;
        let sender = self.name(alloc)?;
        Ok(Redirect {
            value: None,
            sender: Some(sender),
        })
    }

    fn received(&mut self, alloc: Global) -> Result<Received, Stuck>
        ensures parses { Parses (rule received) (λ r. received_tree r.template r.sender r.redirect)
            self.old result self.new }
        ensures shorter { OnOk result (length self.new.rest.now ≤ length self.old.rest.now) }
    {
        let template = self.template_part(alloc)?;
        let sender = self.from_part(alloc)?;
        let redirect = self.redirect(alloc)?;
        Ok(Received {
            template,
            sender,
            redirect,
        })
    }

    pub fn receiving(&mut self, alloc: Global) -> Result<Receiving, Stuck>
        ensures parses { Parses (rule receiving)
            (λ r. receiving_tree r.kind r.received.template r.received.sender r.received.redirect)
            self.old result self.new }
        ensures shorter { OnOk result (length self.new.rest.now < length self.old.rest.now) }
    {
        if self.is_word(Word::Receive) {
            self.pass_word(Word::Receive);
            let received = self.received(alloc)?;
            return Ok(Receiving {
                kind: ReceiveKind::Receive,
                received,
            });
        }
        if self.is_word(Word::Trigger) {
            self.pass_word(Word::Trigger);
            let received = self.received(alloc)?;
            return Ok(Receiving {
                kind: ReceiveKind::Trigger,
                received,
            });
        }
        self.word(Word::Check)?;
        self.symbol(Symbol::LeftParen)?;
        self.word(Word::Receive)?;
        let received = self.received(alloc)?;
        self.symbol(Symbol::RightParen)?;
        Ok(Receiving {
            kind: ReceiveKind::Check,
            received,
        })
    }

    /// Whether a receiving operation comes next.
    fn is_receiving(&self) -> bool
        ensures { one_of (of_word Word.Receive ∷ of_word Word.Trigger ∷ of_word Word.Check ∷ [])
            (next (left self.now)) ≡ result }
    {
        self.is_word(Word::Receive) || self.is_word(Word::Trigger) || self.is_word(Word::Check)
    }

    pub fn other_operation(&mut self, alloc: Global) -> Result<OtherOperation, Stuck>
        ensures parses { Parses (rule other_operation) operation_tree self.old result self.new }
        ensures shorter { OnOk result (length self.new.rest.now < length self.old.rest.now) }
    {
        if self.is_word(Word::Send) {
            self.pass_word(Word::Send);
            self.symbol(Symbol::LeftParen)?;
            let sent = self.sent(alloc)?;
            self.symbol(Symbol::RightParen)?;
            let to = self.to_part(alloc)?;
            return Ok(OtherOperation::Send(sent, to));
        }
        if self.is_receiving() {
            let receiving = self.receiving(alloc)?;
            return Ok(OtherOperation::Receive(receiving));
        }
        if self.is_word(Word::Stop) {
            self.pass_word(Word::Stop);
            return Ok(OtherOperation::Stop);
        }
        if self.is_word(Word::Halt) {
            self.pass_word(Word::Halt);
            return Ok(OtherOperation::Halt);
        }
        self.word(Word::Clear)?;
        Ok(OtherOperation::Clear)
    }
}
