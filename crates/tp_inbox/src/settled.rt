//! The messages put into a settled inbox, route by route.
ghost use Rattle.std.specs.Prelude.{◌≡◌, ◌++◌, IfOk, OnOk};
ghost use Rattle.std.specs.List.{flat_map};
ghost use Rattle.tp_inbox.specs.History.{arrived_from};
ghost use Rattle.tp_inbox.specs.PutMessages.{arrived_message, message_of_entry, messages_on};
ghost use Rattle.tp_inbox.specs.Routed.{rest_arrivals};

use crate::desk::Desk;
use crate::entry::Entry;
use std::alloc::Global;
use tp_common::event::Env;
use tp_common::memory::Memory;
use tp_config::port_type::RouteId;
use tp_value::message::Message;
use tp_value::types::Ty;
use tp_value::value::Value;

fn add_message(
    alloc: Global,
    route: RouteId,
    port: u32,
    sender: u32,
    ty: Ty,
    value: &Value,
    messages: &mut Vec<Message>,
) -> Result<(), Memory>
    ensures { OnOk result (messages.new.items
        ≡ messages.old.items
        ++ arrived_message route port sender record { ty = ty; value = value.now }) }
{
    if route.to.port == port && route.source.0 == sender {
        let value = value.copy(alloc)?;
        messages.push(Message { ty, value })?;
    }
    Ok(())
}

fn add_entry(
    alloc: Global,
    route: RouteId,
    entry: &Entry,
    messages: &mut Vec<Message>,
) -> Result<(), Memory>
    ensures { OnOk result (messages.new.items
        ≡ messages.old.items ++ message_of_entry route entry.now) }
{
    match entry {
        Entry::Arrive(port, _, env) => {
            add_message(
                alloc,
                route,
                *port as u32,
                env.sender(),
                env.ty(),
                env.value(),
                messages,
            )
        }
        _ => Ok(()),
    }
}

fn messages_of(alloc: Global, route: RouteId, log: &[Entry]) -> Result<Vec<Message>, Memory>
    ensures { IfOk result (λ ms. ms.items ≡ flat_map (message_of_entry route) log.now) }
{
    let mut messages = Vec::new(alloc);
    for entry in log {
        add_entry(alloc, route, entry, &mut messages)?;
    }
    Ok(messages)
}

/// Copies of the messages that were put on this route into an inbox that is settled, in order:
/// those that arrived at the desk of its component, and then those in the rest. By the clause
/// `delivered` of [`settle`](crate::gathered::Gathered::settle) they are what their sender has put.
pub fn put_on_route(
    alloc: Global,
    desk: &Desk,
    rest: &[(u32, Env<Message>, u32)],
    route: RouteId,
) -> Result<Vec<Message>, Memory>
    requires { route.to.comp ≡ desk.now.comp }
    ensures { IfOk result (λ ms. ms.items ≡ messages_on route
        (arrived_from desk.now.comp route.source (desk.now.log ++ rest_arrivals rest.now))) }
{
    let mut messages = messages_of(alloc, route, desk.log())?;
    for (port, env, _) in rest {
        let (ty, value) = (env.msg.ty, &env.msg.value);
        add_message(alloc, route, *port, env.sender, ty, value, &mut messages)?;
    }
    Ok(messages)
}
