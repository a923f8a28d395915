//! The calls of `tp_inbox`.
ghost use Rattle.tp_config.specs.Setup.{IsComponent};

use crate::surface::configurations::made;
use std::alloc::Global;
use std::process::Abort;
use std::sync::{Arc, Wait};
use tp_common::memory::Memory;
use tp_config::config::Config;
use tp_config::port_type::{CompId, PortRef, RouteId};
use tp_inbox::desk::Desk;
use tp_inbox::entry::Entry;
use tp_inbox::gathered::{Rest, gather};
use tp_inbox::making::inbox;
use tp_inbox::owner::{Closer, Owner};
use tp_inbox::sender::Sender;
use tp_inbox::settled::put_on_route;
use tp_inbox::stamped::Stamped;
use tp_inbox::triggered::Triggered;
use tp_inbox::{Floor, Woken};
use tp_port::Env;
use tp_value::message::{Message, MsgTemplate};
use tp_value::types::Ty;
use tp_value::value::Value;

/// The message `integer:n`, with a stamp.
fn integer(n: i64, stamp: u32) -> Stamped {
    Stamped {
        stamp,
        message: Message {
            ty: Ty::Integer,
            value: Value::Int(n),
        },
    }
}

#[test]
fn messages_are_put(rt: HostRuntime) {
    let config = made(&rt);
    assert!(rt; config.len() > 1);
    let floor = Floor::new(rt.alloc(), 2).ok().expect(&rt, "memory");
    let made: Result<(Owner, Vec<Sender>, Closer), Memory> = inbox(
        rt.alloc(),
        &config,
        CompId(1),
        &floor,
    );
    let (owner, mut senders, closer) = made.ok().expect(&rt, "memory");
    assert!(rt; senders.len() == 1 && senders[0].ways() == 1);
    assert!(rt; matches!(senders[0].put(&rt, 0, integer(4, 0)), Ok(0)));
    assert!(rt; senders[0].ways() == 1 && senders[0].count(0) == 1);
    assert!(rt; owner.drained(senders[0].route(0)) == 0 && owner.wait(&rt) == Woken::Arrived);
    closer.close(&rt);
    assert!(rt; !floor.leave(&rt));
    drop((config, floor, owner, senders, closer));
}

/// The desk of a component, and what is left in its inbox, after a drain and the settling.
fn settled<R: Wait>(
    rt: &R,
    alloc: Global,
    config: &Config,
    floor: &Arc<Floor, Global>,
    comp: CompId,
) -> Result<(Desk, Rest), Memory>
    requires { IsComponent config.now comp }
{
    let mut desk = Desk::new(alloc, config, comp)?;
    let (mut owner, senders, _closer) = inbox(alloc, config, comp, floor)?;
    owner.drain(rt, &mut desk)?;
    match gather(rt, owner, senders).settle(rt, &desk) {
        Ok(rest) => Ok((desk, rest)),
        Err((memory, _)) => Err(memory),
    }
}

#[test]
fn nothing_is_left(rt: HostRuntime) {
    let config = made(&rt);
    assert!(rt; config.len() > 1);
    let floor = Floor::new(rt.alloc(), 2).ok().expect(&rt, "memory");
    let found = settled(&rt, rt.alloc(), &config, &floor, CompId(1));
    let (desk, rest) = found.ok().expect(&rt, "memory");
    let to = PortRef {
        comp: desk.comp(),
        port: 0,
    };
    let source = CompId(0);
    let put = put_on_route(rt.alloc(), &desk, rest.as_slice(), RouteId { source, to });
    assert!(rt; put.ok().expect(&rt, "memory").is_empty() && rest.is_empty());
    drop((config, floor, desk, rest));
}

#[test]
fn one_desk(rt: HostRuntime) {
    let config = made(&rt);
    assert!(rt; config.len() > 1);
    let mut desk = Desk::new(rt.alloc(), &config, CompId(1))
        .ok()
        .expect(&rt, "memory");
    assert!(rt; desk.port_count() == 1);
    let any = MsgTemplate::Any;
    let env = Env {
        sender: 0,
        number: 0,
        msg: integer(4, 0).message,
    };
    assert!(rt; desk.arrive(0, env, 0).is_ok());
    assert!(rt; matches!(desk.halt(0), Ok(Some(1))) && matches!(desk.clear(0), Ok(1)));
    assert!(rt; desk.stop(0).is_ok() && matches!(desk.start(0), Ok(0)));
    assert!(rt; matches!(desk.receive(0, &any, None, 0), Ok(false)));
    assert!(rt; matches!(desk.check(0, &any, None, 0), Ok(None)));
    assert!(rt; matches!(desk.trigger(0, &any, None, 0), Ok(Triggered::Nothing)));
    assert!(rt; desk.last_chosen().is_none());
    assert!(rt; desk.note(Entry::Else).is_ok() && desk.port_count() == 1);
    assert!(rt; desk.queue(0).queued_len() == 0);
    assert!(rt; matches!(desk.log().last(), Some(Entry::Else)));
    drop((config, desk, any));
}
