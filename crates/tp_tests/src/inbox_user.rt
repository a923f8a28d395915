//! The inbox of a component in another executor. Two guests order in threads of their own, and the
//! counter takes their orders in a third. An order is an integer. It uses only `tp_inbox` and the
//! crates below it.
mod guests;
mod room;

ghost use Rattle.tp_config.specs.Setup.{IsComponent};

use crate::inbox_user::guests::{finish, start};
use crate::inbox_user::room::room;
use std::alloc::{AllocError, Global};
use std::sync::Wait;
use std::thread::Threads;
use tp_common::memory::Memory;
use tp_config::config::Config;
use tp_config::port_type::CompId;
use tp_floor::floor::Floor;
use tp_inbox::desk::Desk;
use tp_inbox::entry::Entry;
use tp_inbox::gathered::{Rest, gather};
use tp_inbox::making::inbox;

/// The desk of the counter, which has what was drained, and the rest.
fn evening<R>(
    rt: R,
    alloc: Global,
    config: &Config,
    counter: CompId,
) -> Result<(Desk, Rest), Memory>
where
    R: Threads + Wait + Copy + Send + 'static,
    requires { IsComponent config.now counter }
{
    let floor = Floor::new(alloc, 3)?;
    let mut desk = Desk::new(alloc, config, counter)?;
    let (mut owner, senders, _closer) = inbox(alloc, config, counter, &floor)?;
    let guests = start(rt, alloc, senders)?;
    owner.drain(&rt, &mut desk)?;
    let senders = finish(&rt, alloc, guests)?;
    match gather(&rt, owner, senders).settle(&rt, &desk) {
        Ok(rest) => Ok((desk, rest)),
        Err((memory, _)) => Err(memory),
    }
}

/// Writes the orders of a guest, in the order in which they came.
fn write_orders(
    guest: u32,
    desk: &Desk,
    rest: &Rest,
    orders: &mut String,
) -> Result<(), AllocError> {
    write!(orders, "guest {guest}:")?;
    for entry in desk.log() {
        if let Entry::Arrive(_, _, env) = entry {
            if env.sender() == guest {
                write!(orders, " {}", env.number())?;
            }
        }
    }
    for (_, env, _) in rest {
        if env.sender == guest {
            write!(orders, " {}", env.number)?;
        }
    }
    writeln!(orders)
}

/// What the two guests ordered, a line each.
pub fn ordered<R>(rt: R, alloc: Global) -> Result<String, Memory>
where
    R: Threads + Wait + Copy + Send + 'static,
{
    let Some(config) = room(alloc) else {
        return Err(Memory);
    };
    let Some(counter) = config.comp_of("counter") else {
        return Err(Memory);
    };
    let (desk, rest) = evening(rt, alloc, &config, counter)?;
    let mut orders = String::new(alloc);
    write_orders(1, &desk, &rest, &mut orders)?;
    write_orders(2, &desk, &rest, &mut orders)?;
    Ok(orders)
}
