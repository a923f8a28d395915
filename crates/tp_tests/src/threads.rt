//! Threads that put while the owner drains. What has arrived, followed by what is left, is what they
//! have put.
ghost use Rattle.std.specs.Prelude.{◌≡◌, IfOk, map};
ghost use Rattle.tp_inbox.specs.Ledgers.{end_of};

use crate::ends::{InboxEnds, Mailbox, ends_of, floor_of, stamped};
use crate::making::{add, connect, empty};
use std::alloc::{AllocError, Global};
use std::process::Abort;
use std::snapshot::Snapshot;
use std::sync::Wait;
use std::thread;
use std::thread::{Promise, PromisedHandle, Threads};
use tp_common::memory::Memory;
use tp_config::config::Config;
use tp_config::port_type::{CompId, Role};
use tp_inbox::entry::Entry;
use tp_inbox::gathered::Rest;
use tp_inbox::sender::Sender;
use tp_value::types::Ty;
use tp_value::value::Value;

/// How many messages each thread puts.
const EACH: u64 = 1_000;

/// How often the owner drains beside the threads.
const DRAINS: u32 = 50;

/// The sender as it was when it went into a thread.
#[derive(Drop)]
struct Back(Snapshot<Sender>);

impl Promise<Sender> for Back {
    ghost use Rattle.std.specs.Prelude.{◌≡◌};
    ghost use Rattle.tp_inbox.specs.Ledgers.{end_of};

    ghost kept_by = { λ p r. end_of r ≡ end_of p.0.value };
}

/// A sender that is out in a thread.
type Out = PromisedHandle<Sender, Back>;

/// Puts the integers from 0 on, [`EACH`] of them, on the sender's first route.
fn put_all<R: Wait>(rt: &R, mut sender: Sender) -> Sender
    ensures { end_of result ≡ end_of sender }
{
    if sender.ways() == 0 {
        return sender;
    }
    for n in 0..EACH {
        if sender.put(rt, 0, stamped(n as i64)).is_err() {
            return sender;
        }
    }
    sender
}

/// Starts a thread that puts with this sender.
fn send_off<R>(rt: R, sender: Sender) -> Result<Out, AllocError>
where
    R: Threads + Wait + Copy + Send + 'static,
    ensures { IfOk result (λ h. h.promise.0.value ≡ sender) }
{
    let promise = Back(Snapshot::of(&sender));
    Ok(thread::spawn_with(&rt, promise, move || put_all(&rt, sender))?)
}

/// Starts a thread for each sender.
fn start<R>(rt: R, alloc: Global, senders: Vec<Sender>) -> Result<Vec<Out>, AllocError>
where
    R: Threads + Wait + Copy + Send + 'static,
    ensures { IfOk result (λ hs.
        map (λ h. end_of h.promise.0.value) hs.items ≡ map end_of senders.items) }
{
    let mut children = Vec::new(alloc);
    for sender in senders {
        children.push(send_off(rt, sender)?)?;
    }
    Ok(children)
}

/// The senders come back.
fn finish<R: Threads>(rt: &R, alloc: Global, children: Vec<Out>) -> Result<Vec<Sender>, AllocError>
    ensures { IfOk result (λ ss.
        map end_of ss.items ≡ map (λ h. end_of h.promise.0.value) children.items) }
{
    let mut senders = Vec::new(alloc);
    for child in children {
        senders.push(child.join(rt))?;
    }
    Ok(senders)
}

/// Drains some times.
fn drain_some<R: Wait>(rt: &R, mailbox: &mut Mailbox) -> Result<(), Memory>
    ensures { mailbox.new.0.inbox ≡ mailbox.old.0.inbox }
{
    for _ in 0..DRAINS {
        mailbox.drain(rt)?;
        thread::yield_now();
    }
    Ok(())
}

/// Each sender puts in a thread of its own, while the owner drains in this one.
fn exchange<R>(rt: R, alloc: Global, ends: InboxEnds) -> Result<InboxEnds, Memory>
where
    R: Threads + Wait + Copy + Send + 'static,
{
    let InboxEnds {
        mut mailbox,
        senders,
        closer,
    } = ends;
    let children = start(rt, alloc, senders)?;
    drain_some(&rt, &mut mailbox)?;
    let senders = finish(&rt, alloc, children)?;
    Ok(InboxEnds {
        mailbox,
        senders,
        closer,
    })
}

/// The count with this message, if its number is the next of its sender.
fn counted(number: u64, value: &Value, count: u64) -> Option<u64> {
    match value {
        Value::Int(n) if n.unsigned_abs() == count && number == count => {
            Some(count.wrapping_add(1))
        }
        _ => None,
    }
}

/// How many messages of this sender have arrived or are left. Nothing if they aren't in the order in
/// which they were put.
fn all_from(log: &[Entry], rest: &Rest, sender: u32) -> Option<u64> {
    let mut count = 0;
    for entry in log {
        if let Entry::Arrive(0, _, env) = entry {
            if env.sender() == sender {
                count = counted(env.number(), env.value(), count)?;
            }
        }
    }
    for (_, env, _) in rest {
        if env.sender == sender {
            count = counted(env.number, &env.msg.value, count)?;
        }
    }
    Some(count)
}

/// The component mtc, and others of these names, each connected with it.
fn crowd<R: AllocGlobal + Abort>(rt: &R, names: &[&str]) -> Config {
    let both = [Ty::Integer];
    let mut config = empty(rt.alloc(), both.as_slice(), both.as_slice()).expect(rt, "memory");
    assert!(rt; add(rt.alloc(), &mut config, "mtc", 0, Role::Test).is_ok());
    for name in names {
        assert!(rt; add(rt.alloc(), &mut config, *name, 0, Role::Test).is_ok());
        assert!(rt; connect(&mut config, ("mtc", "p"), (*name, "p")) == Some(Ok(())));
    }
    config
}

/// Asserts that no message is lost or out of order if each of the components with these names puts
/// its own into the inbox of mtc, in a thread of its own.
fn all_arrive<R>(rt: R, names: &[&str])
where
    R: AllocGlobal + Abort + Threads + Wait + Copy + Send + 'static,
{
    let config = crowd(&rt, names);
    let floor = floor_of(&rt, 1);
    let ends = ends_of(&rt, &config, CompId(0), &floor);
    assert!(rt; ends.senders.len() == names.len());
    let back = exchange(rt, rt.alloc(), ends).ok().expect(&rt, "memory");
    let (rest, desk) = back.settle(&rt);
    for sender in 0..config.len() as u32 {
        let wanted = if sender == 0 { 0 } else { EACH };
        assert!(rt; all_from(desk.log(), &rest, sender) == Some(wanted));
    }
    drop((config, floor, rest, desk));
}

#[test]
fn one_thread_puts(rt: HostRuntime) {
    all_arrive(rt, ["a"].as_slice());
}

#[test]
fn three_threads_put(rt: HostRuntime) {
    all_arrive(rt, ["a", "b", "c"].as_slice());
}

#[test]
fn eight_threads_put(rt: HostRuntime) {
    let names = ["a", "b", "c", "d", "e", "f", "g", "h"];
    all_arrive(rt, names.as_slice());
}
