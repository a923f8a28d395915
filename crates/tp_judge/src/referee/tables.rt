//! The tables of the numbers in a trace.
ghost use Rattle.std.specs.Prelude.{◌≡◌, ◌<◌, ◌≤◌, [], IfOk, OnOk, Some, length, slice_get};
ghost use Rattle.tp_judge.specs.Tree.{letter_of, names_of, told_of};
ghost use Rattle.tp_judge.specs.Numbering.{AreTablesDistinct, IsAct, IsComponentNumber, IsMention, IsOperated};
ghost use Rattle.tp_judge.specs.Numbering.{IsPassed, IsPortNumber, act_of, operation_act, receiver_of, sender_of};
ghost use Rattle.tp_judge.specs.Turns.{KeepsNumbers, HasRoom, IsWhole, size};

use crate::line::{Act, Mention, MessageId, Parcel};
use crate::referee::components::Components;
use crate::referee::line::{Line, MessageVerb, MessageWords};
use crate::referee::numbers::number_of;
use crate::referee::tree::Trace;
use crate::referee::words::NumberedWords;
use indexmap::IndexSet;
use std::alloc::Global;
use tp_common::memory::Memory;
use tp_common::operation::PortOperation;

/// A port: the number of its component, and that of its name among the names of ports.
#[derive(Clone, Copy, PartialEq, Eq, Hash)]
pub struct PortKey {
    pub component: u32,
    pub name: u32,
}

/// A route: the number of its sender, a component, and that of the port at its end.
#[derive(Clone, Copy, PartialEq, Eq, Hash)]
pub struct RouteKey {
    pub sender: u32,
    pub port: u32,
}

/// Each number is a place in its table.
pub struct Tables<'t> {
    pub components: Components<'t>,
    pub names: NumberedWords<'t>,
    pub ports: IndexSet<PortKey>,
    pub routes: IndexSet<RouteKey>,
    pub messages: NumberedWords<'t>,
}

impl Drop for Tables<'_> {
    // Written out, so that the drop of an owner calls this one and proves no drop of the parts.
    fn drop(self) {
        let Tables {
            components,
            names,
            ports,
            routes,
            messages,
        } = self;
        drop(components);
        drop(names);
        drop(ports);
        drop(routes);
        drop(messages);
    }
}

fn act_of(fate: MessageVerb, mention: Mention) -> Act
    ensures { result ≡ act_of fate mention }
{
    match fate {
        MessageVerb::Sent => Act::Sent(mention),
        MessageVerb::Came => Act::Came(mention),
        MessageVerb::Took => Act::Took(mention),
        MessageVerb::Found => Act::Found(mention),
        MessageVerb::Dropped => Act::Dropped(mention),
        MessageVerb::Left => Act::Left(mention),
    }
}

fn ends(fate: MessageVerb, here: u32, other: u32) -> (u32, u32)
    ensures sender { result.0 ≡ sender_of fate here other }
    ensures receiver { result.1 ≡ receiver_of fate here other }
{
    match fate {
        MessageVerb::Sent => (here, other),
        MessageVerb::Came
        | MessageVerb::Took
        | MessageVerb::Found
        | MessageVerb::Dropped
        | MessageVerb::Left => (other, here),
    }
}

fn operation_act(operation: PortOperation, port: u32) -> Act
    ensures { result ≡ operation_act operation port }
{
    match operation {
        PortOperation::Start => Act::Started(port),
        PortOperation::Stop => Act::Stopped(port),
        PortOperation::Halt => Act::Halted(port),
        PortOperation::Clear => Act::Cleared(port),
    }
}

impl<'t> Tables<'t> {
    pub fn new(alloc: Global, trace: &'t Trace<'t>) -> Result<Tables<'t>, Memory>
        ensures components { IfOk result (λ t. t.components ≡ names_of trace.now) }
        ensures size { IfOk result (λ t. size t ≡ length (names_of trace.now)) }
        ensures whole { IfOk result IsWhole }
    {
        // Most components have a port and a route or more, and a table that grows is hashed anew.
        let count = trace.section_count();
        let ports = IndexSet::with_capacity(alloc, count)?;
        let routes = IndexSet::with_capacity(alloc, count)?;
        Ok(Tables {
            components: Components::new(alloc, trace),
            names: NumberedWords::new(alloc),
            ports,
            routes,
            messages: NumberedWords::new(alloc),
        })
    }

    /// It exists for its clause: no name has two numbers.
    pub fn know_distinct(&self)
        requires { HasRoom 0 self.now }
        ensures { AreTablesDistinct self.now }
    {
        // Each call is for its clause `distinct`.
        let _ = self.components.len();
        let _ = self.names.len();
        let _ = self.ports.len();
        let _ = self.routes.len();
        let _ = self.messages.len();
    }

    pub fn component(&mut self, name: &'t [u8]) -> Result<u32, Memory>
        requires room { HasRoom 1 self.old }
        requires whole { IsWhole self.old }
        ensures there { IfOk result (λ number. IsComponentNumber self.new number name.now) }
        ensures grows { OnOk result (KeepsNumbers 1 self.old self.new) }
        ensures whole { OnOk result (IsWhole self.new) }
    {
        self.components.number(name)
    }

    fn port_key(&mut self, component: u32, name: u32) -> Result<u32, Memory>
        requires room { HasRoom 1 self.old }
        requires whole { IsWhole self.old }
        requires component { component < length self.old.components }
        ensures there { IfOk result (λ number. slice_get self.new.ports.keys number
            ≡ Some (record { component = component; name = name })) }
        ensures grows { OnOk result (KeepsNumbers 1 self.old self.new) }
        ensures whole { OnOk result (IsWhole self.new) }
    {
        number_of(&mut self.ports, PortKey { component, name })
    }

    fn name(&mut self, name: &'t [u8]) -> Result<u32, Memory>
        requires room { HasRoom 1 self.old }
        requires whole { IsWhole self.old }
        ensures there { IfOk result (λ number. slice_get self.new.names number ≡ Some name.now) }
        ensures grows { OnOk result (KeepsNumbers 1 self.old self.new) }
        ensures whole { OnOk result (IsWhole self.new) }
    {
        self.names.number(name)
    }

    fn port(&mut self, component: u32, name: &'t [u8]) -> Result<u32, Memory>
        requires room { HasRoom 2 self.old }
        requires whole { IsWhole self.old }
        requires component { component < length self.old.components }
        ensures there { IfOk result (λ number. IsPortNumber self.new number component name.now) }
        ensures grows { OnOk result (KeepsNumbers 2 self.old self.new) }
        ensures whole { OnOk result (IsWhole self.new) }
    {
        let word = self.name(name)?;
        self.port_key(component, word)
    }

    fn route(&mut self, sender: u32, port: u32) -> Result<u32, Memory>
        requires room { HasRoom 1 self.old }
        requires whole { IsWhole self.old }
        ensures there { IfOk result (λ number. slice_get self.new.routes.keys number
            ≡ Some (record { sender = sender; port = port })) }
        ensures grows { OnOk result (KeepsNumbers 1 self.old self.new) }
        ensures whole { OnOk result (IsWhole self.new) }
    {
        number_of(&mut self.routes, RouteKey { sender, port })
    }

    fn message(&mut self, text: &'t [u8]) -> Result<u32, Memory>
        requires room { HasRoom 1 self.old }
        requires whole { IsWhole self.old }
        ensures there { IfOk result (λ number. slice_get self.new.messages number ≡ Some text.now) }
        ensures grows { OnOk result (KeepsNumbers 1 self.old self.new) }
        ensures whole { OnOk result (IsWhole self.new) }
    {
        self.messages.number(text)
    }

    fn mention(
        &mut self,
        sender: u32,
        receiver: u32,
        message: &MessageWords<'t>,
    ) -> Result<Mention, Memory>
        requires room { HasRoom 4 self.old }
        requires whole { IsWhole self.old }
        requires receiver { receiver < length self.old.components }
        ensures mention { IfOk result (IsMention self.new sender receiver (letter_of message.now)) }
        ensures grows { OnOk result (KeepsNumbers 4 self.old self.new) }
        ensures whole { OnOk result (IsWhole self.new) }
    {
        let port = self.port(receiver, message.port)?;
        let route = self.route(sender, port)?;
        let text = self.message(message.text)?;
        let parcel = Parcel {
            number: message.number,
            message: MessageId(text),
        };
        Ok(Mention {
            port,
            route,
            parcel,
        })
    }

    fn passed(
        &mut self,
        here: u32,
        fate: MessageVerb,
        message: &MessageWords<'t>,
    ) -> Result<Act, Memory>
        requires room { HasRoom 5 self.old }
        requires whole { IsWhole self.old }
        requires here { here < length self.old.components }
        ensures act { IfOk result (IsPassed self.new here fate (letter_of message.now)) }
        ensures grows { OnOk result (KeepsNumbers 5 self.old self.new) }
        ensures whole { OnOk result (IsWhole self.new) }
    {
        let other = self.component(message.component)?;
        let (sender, receiver) = ends(fate, here, other);
        let mention = self.mention(sender, receiver, message)?;
        Ok(act_of(fate, mention))
    }

    fn operated(
        &mut self,
        here: u32,
        operation: PortOperation,
        name: &'t [u8],
    ) -> Result<Act, Memory>
        requires room { HasRoom 2 self.old }
        requires whole { IsWhole self.old }
        requires here { here < length self.old.components }
        ensures act { IfOk result (IsOperated self.new here operation name.now) }
        ensures grows { OnOk result (KeepsNumbers 2 self.old self.new) }
        ensures whole { OnOk result (IsWhole self.new) }
    {
        let port = self.port(here, name)?;
        Ok(operation_act(operation, port))
    }

    /// A line in the section of component `here`.
    pub fn act(&mut self, here: u32, line: &Line<'t>) -> Result<Act, Memory>
        requires room { HasRoom 5 self.old }
        requires whole { IsWhole self.old }
        requires here { here < length self.old.components }
        ensures act { IfOk result (IsAct self.new here (told_of line.now)) }
        ensures grows { OnOk result (KeepsNumbers 5 self.old self.new) }
        ensures whole { OnOk result (IsWhole self.new) }
    {
        match line {
            Line::Message(fate, message) => self.passed(here, *fate, message),
            Line::Operation(operation, name) => self.operated(here, *operation, name),
            Line::Else => Ok(Act::Else),
            Line::End(_) => Ok(Act::End),
            Line::Component(_) | Line::Remark(_, _) | Line::Result(_) => Ok(Act::Other),
        }
    }
}
