//! Messages, and those that a receiving operation wants.
use crate::matching::matches;
use crate::template::Template;
use crate::types::Ty;
use crate::value::Value;
use std::alloc::Global;
use tp_common::memory::Memory;
use tp_common::payload::{Payload, Wanted};

/// A message to send: a value under a type (ES 201 873-1, 22.2.1). A message of a script has a
/// value of its type; one that a caller builds may have another.
#[derive(Debug, Drop)]
pub struct Message {
    /// The type under which it is sent.
    pub ty: Ty,
    pub value: Value,
}

/// The copy equals the original and doesn't allocate, like the copy of a [`Value`].
impl Payload for Message {
    fn copy(&self, alloc: Global) -> Result<Message, Memory> {
        Ok(Message {
            ty: self.ty,
            value: self.value.copy(alloc)?,
        })
    }
}

/// The wanted part of a receiving operation (ES 201 873-1, 22.2.2).
#[derive(Drop)]
pub enum MsgTemplate {
    /// Every message: no type and no template.
    Any,
    /// The messages of exactly this type whose value matches the template.
    Of(Ty, Template),
}

/// Returns whether a message is wanted.
impl Wanted<Message> for MsgTemplate {
    ghost use Rattle.tp_value.specs.Admits.{Admits};

    ghost admits = { Admits };

    fn admits(&self, msg: &Message) -> bool {
        match self {
            MsgTemplate::Any => true,
            MsgTemplate::Of(ty, template) => msg.ty == *ty && matches(template, &msg.value),
        }
    }
}
