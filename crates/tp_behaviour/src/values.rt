//! Values of expressions in statements.
ghost use Rattle.std.specs.Prelude.{IfOk, MatchOption, length};
ghost use Rattle.tp_behaviour.specs.declared.held.Held.TheVariants as held;
ghost use Rattle.tp_behaviour.specs.Held.{Holds, IsNamed, IsSentAs, IsUnset, NamesUnset, SendsUnset};
ghost use Rattle.tp_behaviour.specs.Sends.{CanFill, CanName};
ghost use Rattle.tp_behaviour.specs.Workers.{HoldsNoMessage, HoldsMessages, role_of, values_of};

use crate::held::Held;
use crate::task::Task;
use crate::worker::Frame;
use std::alloc::Global;
use tp_common::memory::Memory;
use tp_common::payload::Payload;
use tp_config::port_type::CompId;
use tp_play::body::{Receiver, Sent};
use tp_play::fill::fill_message;
use tp_value::message::Message;

fn message_in(frame: &Frame, place: usize) -> Option<&Message>
    requires { HoldsMessages frame.now.variables.items place }
    ensures { MatchOption result (IsUnset (values_of frame.now) place)
        (λ m. Holds (values_of frame.now) place (held.Value m.now)) }
{
    match &frame.variables[place] {
        Some(held) => match held {
            Held::Value(message) => Some(message),
            // The variable is one of messages.
            Held::Component(_) => unreachable!(),
        },
        None => None,
    }
}

fn component_in(frame: &Frame, place: usize) -> Option<CompId>
    requires { HoldsNoMessage frame.now.variables.items place }
    ensures { MatchOption result (IsUnset (values_of frame.now) place)
        (λ c. Holds (values_of frame.now) place (held.Component c)) }
{
    match &frame.variables[place] {
        Some(held) => match held {
            Held::Component(comp) => Some(*comp),
            // The variable is one of components.
            Held::Value(_) => unreachable!(),
        },
        None => None,
    }
}

/// The message to send (ES 201 873-1, 22.2.1). `None` if it is a variable that isn't set.
pub(crate) fn message_of(
    alloc: Global,
    frame: &Frame,
    sent: &Sent,
) -> Result<Option<Message>, Memory>
    requires { CanFill frame.now.variables.items (length frame.now.turns.items) sent.now }
    ensures { IfOk result (λ m. MatchOption m (SendsUnset (values_of frame.now) sent.now)
        (IsSentAs (values_of frame.now) sent.now)) }
{
    match sent {
        Sent::Written(message) => {
            let filled = fill_message(alloc, message, frame.turns.as_slice())?;
            Ok(Some(filled))
        }
        Sent::Variable(place) => match message_in(frame, *place) {
            Some(message) => {
                let copy = message.copy(alloc)?;
                Ok(Some(copy))
            }
            None => Ok(None),
        },
    }
}

/// The receiver, if one component is named. The outer `None` means a variable that isn't set.
pub(crate) fn named_of(task: &Task<'_>, frame: &Frame, to: Receiver) -> Option<Option<CompId>>
    requires { CanName frame.now.variables.items (length task.now.behaviour.references.now) to }
    ensures { MatchOption result (NamesUnset (values_of frame.now) to)
        (IsNamed (role_of task.now) (values_of frame.now) to) }
{
    match to {
        Receiver::Nobody => Some(None),
        Receiver::Reference(place) => Some(Some(task.behaviour.references[place])),
        Receiver::Variable(place) => match component_in(frame, place) {
            Some(comp) => Some(Some(comp)),
            None => None,
        },
        // It names no one component, and the condition leaves it out.
        Receiver::All => unreachable!(),
    }
}
