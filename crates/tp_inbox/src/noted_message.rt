//! Stamped messages as entries and envelopes keep them, in less room.
ghost use Rattle.std.specs.Prelude.{◌≡◌, IfErr, IfOk, OnOk};
ghost use Rattle.tp_inbox.specs.Noted.{IsShortType, NoteCause};

use crate::note_fault::NoteFault;
use crate::stamped::Stamped;
use crate::type_kind::{TypeKind, kind_of, type_of_kind};
use std::alloc::Global;
use std::marker::Model;
use tp_value::message::Message;
use tp_value::types::Ty;
use tp_value::value::Value;

/// A message in a history or in an inbox, with the stamp of its sending. Contracts see it as that
/// message.
#[derive(Debug, Drop)]
pub struct NotedMessage {
    stamp: u32,
    kind: TypeKind,
    /// The number of a named type, else 0.
    named: u16,
    value: Value,
}

impl Model for NotedMessage {
    ghost use Rattle.tp_inbox.specs.declared.stamped.Stamped.{Stamped};
    ghost use Rattle.tp_value.specs.contracts.value.Value as value_contract;
    ghost use Rattle.std.specs.Coded.{codes};
    ghost use Rattle.tp_inbox.specs.Noted.{type_of};

    ghost Value = { Stamped };

    ghost coded = { Prim.hlevel (codes, value_contract.the_row.coded) };

    ghost view = { λ m. record {
      stamp = m.stamp;
      message = record { ty = type_of m.kind m.named; value = m.value };
    } };
}

impl NotedMessage {
    /// The stamped message itself. It is handed back if and only if the number of its type is
    /// 65,536 or more.
    pub(crate) fn of(stamped: Stamped) -> Result<NotedMessage, Stamped>
        ensures ok { IfOk result (λ noted. noted ≡ stamped) }
        ensures short { OnOk result (IsShortType stamped.message.ty) }
        ensures err { IfErr result (λ back.
            (back ≡ stamped) × ¬ IsShortType stamped.message.ty) }
    {
        let Some((kind, named)) = kind_of(stamped.message.ty) else {
            return Err(stamped);
        };
        let Stamped { stamp, message } = stamped;
        Ok(NotedMessage {
            stamp,
            kind,
            named,
            value: message.value,
        })
    }

    /// The message again. Its type has room in a `NotedMessage`.
    pub(crate) fn into_stamped(self) -> Stamped
        ensures same { result ≡ self }
        ensures short { IsShortType result.message.ty }
    {
        let ty = self.ty();
        let NotedMessage {
            stamp,
            kind: _,
            named: _,
            value,
        } = self;
        Stamped {
            stamp,
            message: Message { ty, value },
        }
    }

    /// A copy of a stamped message. `NoRoom` if and only if the number of its type is 65,536 or
    /// more.
    pub fn copy_of(alloc: Global, stamped: &Stamped) -> Result<NotedMessage, NoteFault>
        ensures ok { IfOk result (λ noted. noted ≡ stamped.now) }
        ensures err { IfErr result (NoteCause (IsShortType stamped.now.message.ty)) }
    {
        let Some((kind, named)) = kind_of(stamped.message.ty) else {
            return Err(NoteFault::NoRoom);
        };
        let Ok(value) = stamped.message.value.copy(alloc) else {
            return Err(NoteFault::Memory);
        };
        Ok(NotedMessage {
            stamp: stamped.stamp,
            kind,
            named,
            value,
        })
    }

    pub fn stamp(&self) -> u32
        ensures { result ≡ self.now.stamp }
    {
        self.stamp
    }

    /// The type of the message.
    pub fn ty(&self) -> Ty
        ensures { result ≡ self.now.message.ty }
    {
        type_of_kind(self.kind, self.named)
    }

    /// The value of the message.
    pub fn value(&self) -> &Value
        ensures { result.now ≡ self.now.message.value }
    {
        &self.value
    }
}
