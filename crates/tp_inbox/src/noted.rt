//! Envelopes and routes as an entry keeps them, in less room.
ghost use Rattle.std.specs.Prelude.{◌≡◌, IfErr, IfOk, OnOk, SomeIff};
ghost use Rattle.tp_inbox.specs.Noted.{IsShortEnvelope, IsShortRoute, NoteCause};

use crate::note_fault::NoteFault;
use crate::type_kind::{TypeKind, kind_of, type_of_kind};
use std::alloc::Global;
use std::marker::Model;
use tp_common::event::Env;
use tp_config::port_type::{CompId, PortRef, RouteId};
use tp_value::message::Message;
use tp_value::types::Ty;
use tp_value::value::Value;

/// An envelope in a history. Contracts see it as that envelope.
#[derive(Debug, Drop)]
pub struct NotedEnvelope {
    /// A configuration has 64 components.
    sender: u8,
    kind: TypeKind,
    /// The number of a named type, else 0. A script has room for fewer than 65,536 definitions.
    named: u16,
    /// A route has 100,000 messages at most.
    number: u32,
    value: Value,
}

impl Model for NotedEnvelope {
    ghost use Rattle.tp_common.specs.declared.event.Env.{Env};
    ghost use Rattle.tp_value.specs.declared.message.Message.{Message};
    ghost use Rattle.tp_value.specs.contracts.value.Value as value_contract;
    ghost use Rattle.std.specs.Coded.{codes};
    ghost use Rattle.tp_inbox.specs.Noted.{type_of};

    ghost Value = { Env Message };

    ghost coded = { Prim.hlevel (codes, value_contract.the_row.coded) };

    ghost view = { λ e. record {
      sender = e.sender;
      number = e.number;
      msg = record { ty = type_of e.kind e.named; value = e.value };
    } };
}

/// `NoRoom` if and only if an entry has no room for the envelope ([`NotedEnvelope::copy_of`]).
pub(crate) fn check_room(env: &Env<Message>) -> Result<(), NoteFault>
    ensures ok { OnOk result (IsShortEnvelope env.now) }
    ensures err { IfErr result (λ fault.
        (fault ≡ NoteFault.NoRoom) × ¬ IsShortEnvelope env.now) }
{
    let has_room = u8::try_from(env.sender).is_ok()
        && u32::try_from(env.number).is_ok()
        && kind_of(env.msg.ty).is_some();
    if !has_room {
        return Err(NoteFault::NoRoom);
    }
    Ok(())
}

impl NotedEnvelope {
    /// The envelope itself.
    pub(crate) fn of(env: Env<Message>) -> NotedEnvelope
        requires { IsShortEnvelope env }
        ensures { result ≡ env }
    {
        let Env {
            sender,
            number,
            msg,
        } = env;
        let Some((kind, named)) = kind_of(msg.ty) else {
            // There is room for it, by the condition.
            unreachable!()
        };
        NotedEnvelope {
            sender: sender as u8,
            kind,
            named,
            number: number as u32,
            value: msg.value,
        }
    }

    /// A copy of an envelope. `NoRoom` if and only if its sender's number is 256 or more, its own
    /// number 2^32 or more, or the number of its type 65,536 or more.
    pub fn copy_of(alloc: Global, env: &Env<Message>) -> Result<NotedEnvelope, NoteFault>
        ensures ok { IfOk result (λ noted. noted ≡ env.now) }
        ensures err { IfErr result (NoteCause (IsShortEnvelope env.now)) }
    {
        check_room(env)?;
        let Ok(twin) = env.copy(alloc) else {
            return Err(NoteFault::Memory);
        };
        Ok(NotedEnvelope::of(twin))
    }

    pub fn sender(&self) -> u32
        ensures { result ≡ self.now.sender }
    {
        self.sender as u32
    }

    pub fn number(&self) -> u64
        ensures { result ≡ self.now.number }
    {
        self.number as u64
    }

    /// The type of its message.
    pub fn ty(&self) -> Ty
        ensures { result ≡ self.now.msg.ty }
    {
        type_of_kind(self.kind, self.named)
    }

    /// The value of its message.
    pub fn value(&self) -> &Value
        ensures { result.now ≡ self.now.msg.value }
    {
        &self.value
    }
}

/// A route in a history. Contracts see it as that route.
#[derive(Debug, Drop)]
pub struct NotedRoute {
    source: u8,
    comp: u8,
    port: u8,
}

impl Model for NotedRoute {
    ghost use Rattle.tp_config.specs.declared.port_type.RouteId.{RouteId};

    ghost Value = { RouteId };

    ghost view = { λ r. record {
      source = record { 0 = r.source };
      to = record { comp = record { 0 = r.comp }; port = r.port };
    } };
}

impl NotedRoute {
    /// `None` if and only if a component or the port has a number of 256 or more: a configuration
    /// has 64 of each.
    pub fn of(route: RouteId) -> Option<NotedRoute>
        ensures { SomeIff result (IsShortRoute route) route }
    {
        let (Ok(source), Ok(comp), Ok(port)) = (
            u8::try_from(route.source.0),
            u8::try_from(route.to.comp.0),
            u8::try_from(route.to.port),
        ) else {
            return None;
        };
        Some(NotedRoute { source, comp, port })
    }

    pub fn id(&self) -> RouteId
        ensures { result ≡ self.now }
    {
        RouteId {
            source: CompId(self.source as u32),
            to: PortRef {
                comp: CompId(self.comp as u32),
                port: self.port as u32,
            },
        }
    }
}
