//! The calls of a desk: their results, the history, stamps, and refused memory.
use crate::ends::{InboxEnds, Mailbox, integer, two};
use crate::making::{four_again, route};
use crate::showing::{debug, says};
use std::mem::size_of;
use std::process::Abort;
use std::sync::Wait;
use tp_common::event::Env;
use tp_common::memory::Memory;
use tp_config::port_type::CompId;
use tp_inbox::desk::Desk;
use tp_inbox::entry::Entry;
use tp_inbox::noted::NotedRoute;
use tp_inbox::noted_message::NotedMessage;
use tp_inbox::send_fault::SendFault;
use tp_inbox::sender::{PutFault, Sender};
use tp_inbox::stamped::Stamped;
use tp_value::message::{Message, MsgTemplate};
use tp_value::template::Template;
use tp_value::types::Ty;
use tp_value::value::Value;
use tp_value::verdict::Verdict;

fn desk<R: AllocGlobal + Abort>(rt: &R) -> Desk {
    let config = four_again(rt);
    assert!(rt; config.len() > 1);
    let desk = match Desk::new(rt.alloc(), &config, CompId(1)) {
        Ok(desk) => desk,
        Err(Memory) => Desk::new(rt.alloc(), &config, CompId(1)).expect(rt, "memory"),
    };
    drop(config);
    desk
}

/// A call at port 0 of a desk. A wanted message has a type, if one is given, a sender and a branch.
#[derive(Clone, Copy)]
enum DeskCall {
    Arrive(u32, u32),
    Receive(Option<Ty>, Option<u32>, usize),
    Check(Option<Ty>, Option<u32>, usize),
    Trigger(Option<Ty>, Option<u32>, usize),
    LastChosen,
    Clear,
    Start,
    Stop,
    Halt,
    MaySend,
    Stamp,
    Sent,
    Else,
    Verdict,
    Failed,
}

fn wanted(ty: Option<Ty>) -> MsgTemplate {
    match ty {
        Some(ty) => MsgTemplate::Of(ty, Template::Any),
        None => MsgTemplate::Any,
    }
}

fn env(number: u32) -> Env<Message> {
    Env {
        sender: 0,
        number: u64::from(number),
        msg: integer(i64::from(number)),
    }
}

fn sent<R: AllocGlobal + Abort>(rt: &R, desk: &mut Desk) -> String {
    let stamp = desk.stamp().expect(rt, "a stamp");
    let message = integer(7);
    let way = NotedRoute::of(route(0, 1, 0)).expect(rt, "a route");
    let noted = NotedMessage::copy_of(rt.alloc(), &Stamped { stamp, message });
    debug(
        rt,
        desk.note(Entry::Sent(way, 0, noted.ok().expect(rt, "a message"))),
    )
}

fn answer<R: AllocGlobal + Abort>(rt: &R, desk: &mut Desk, call: DeskCall) -> String {
    assert!(rt; desk.port_count() > 0);
    match call {
        DeskCall::Arrive(number, stamp) => debug(rt, desk.arrive(0, env(number), stamp)),
        DeskCall::Receive(ty, from, branch) => debug(
            rt,
            desk.receive(0, &wanted(ty), from, branch),
        ),
        DeskCall::Check(ty, from, branch) => debug(rt, desk.check(0, &wanted(ty), from, branch)),
        DeskCall::Trigger(ty, from, branch) => debug(
            rt,
            desk.trigger(0, &wanted(ty), from, branch),
        ),
        DeskCall::LastChosen => debug(rt, desk.last_chosen()),
        DeskCall::Clear => debug(rt, desk.clear(0)),
        DeskCall::Start => debug(rt, desk.start(0)),
        DeskCall::Stop => debug(rt, desk.stop(0)),
        DeskCall::Halt => debug(rt, desk.halt(0)),
        DeskCall::MaySend => debug(rt, desk.queue(0).may_send()),
        DeskCall::Stamp => debug(rt, desk.stamp()),
        DeskCall::Sent => sent(rt, desk),
        DeskCall::Else => debug(rt, desk.note(Entry::Else)),
        DeskCall::Verdict => debug(rt, desk.note(Entry::Verdict(Verdict::Pass))),
        DeskCall::Failed => debug(rt, desk.note(Entry::Failed(SendFault::NotSending))),
    }
}

fn answer_again<R: AllocGlobal + Abort>(rt: &R, desk: &mut Desk, call: DeskCall) -> String {
    let had = desk.log().len();
    let first = answer(rt, desk, call);
    if first.as_str().starts_with("Err") {
        assert!(rt; desk.log().len() == had);
        drop(first);
        return answer(rt, desk, call);
    }
    first
}

fn carries_out<R: AllocGlobal + Abort>(rt: &R, desk: &mut Desk, calls: &[(DeskCall, &str)]) {
    for (place, (call, wanted)) in calls.iter().enumerate() {
        says(rt, place, answer_again(rt, desk, *call), *wanted);
    }
}

fn is_noted<R: AllocGlobal + Abort>(rt: &R, log: &[Entry], wanted: &[&str]) {
    assert!(rt; log.len() == wanted.len());
    for (place, (entry, wanted)) in log.iter().zip(wanted).enumerate() {
        says(rt, place, debug(rt, entry), *wanted);
    }
}

const CALLS_OF_A_DESK: &[(DeskCall, &str)] = &[
    (DeskCall::Arrive(0, 0), "Ok(())"),
    (DeskCall::Arrive(1, 1), "Ok(())"),
    (DeskCall::Arrive(2, 2), "Ok(())"),
    (DeskCall::Arrive(3, 3), "Ok(())"),
    (
        DeskCall::Receive(Some(Ty::Integer), Some(1), 0),
        "Ok(false)",
    ),
    (
        DeskCall::Check(Some(Ty::Integer), Some(0), 2),
        "Ok(Some(Env { sender: 0, number: 0, \
        msg: Message { ty: Integer, value: Int(0) } }))",
    ),
    (
        DeskCall::LastChosen,
        "Some(NotedEnvelope { sender: 0, kind: Integer, named: 0, \
        number: 0, value: Int(0) })",
    ),
    (DeskCall::Receive(None, None, 1), "Ok(true)"),
    (
        DeskCall::LastChosen,
        "Some(NotedEnvelope { sender: 0, kind: Integer, named: 0, \
        number: 0, value: Int(0) })",
    ),
    (
        DeskCall::Trigger(Some(Ty::Integer), Some(1), 3),
        "Ok(Dropped)",
    ),
    (DeskCall::LastChosen, "None"),
    (DeskCall::Trigger(Some(Ty::Integer), Some(0), 0), "Ok(Took)"),
    (
        DeskCall::LastChosen,
        "Some(NotedEnvelope { sender: 0, kind: Integer, named: 0, \
        number: 2, value: Int(2) })",
    ),
    (DeskCall::Halt, "Ok(Some(1))"),
    (DeskCall::Clear, "Ok(1)"),
    (DeskCall::Stop, "Ok(())"),
    (DeskCall::MaySend, "false"),
    (DeskCall::Start, "Ok(0)"),
    (DeskCall::Stamp, "Some(4)"),
    (DeskCall::Sent, "Ok(())"),
    (DeskCall::Else, "Ok(())"),
    (DeskCall::Verdict, "Ok(())"),
    (DeskCall::Failed, "Ok(())"),
];

const LOG_OF_A_DESK: &[&str] = &[
    "Arrive(0, 0, NotedEnvelope { sender: 0, kind: Integer, named: 0, \
    number: 0, value: Int(0) })",
    "Arrive(0, 1, NotedEnvelope { sender: 0, kind: Integer, named: 0, \
    number: 1, value: Int(1) })",
    "Arrive(0, 2, NotedEnvelope { sender: 0, kind: Integer, named: 0, \
    number: 2, value: Int(2) })",
    "Arrive(0, 3, NotedEnvelope { sender: 0, kind: Integer, named: 0, \
    number: 3, value: Int(3) })",
    "Found(0, 2, NotedEnvelope { sender: 0, kind: Integer, named: 0, \
    number: 0, value: Int(0) })",
    "Took(0, 1, NotedEnvelope { sender: 0, kind: Integer, named: 0, \
    number: 0, value: Int(0) })",
    "Dropped(0, 3, NotedEnvelope { sender: 0, kind: Integer, named: 0, \
    number: 1, value: Int(1) })",
    "Took(0, 0, NotedEnvelope { sender: 0, kind: Integer, named: 0, \
    number: 2, value: Int(2) })",
    "Halted(0)",
    "Cleared(0)",
    "Stopped(0)",
    "Started(0)",
    "Sent(NotedRoute { source: 0, comp: 1, port: 0 }, 0, \
    NotedMessage { stamp: 4, kind: Integer, named: 0, value: Int(7) })",
    "Else",
    "Verdict(Pass)",
    "Failed(NotSending)",
];

#[test]
fn refused_memory_leaves_a_desk_as_it_was(rt: HostRuntime) {
    let mut desk = desk(&rt);
    carries_out(&rt, &mut desk, CALLS_OF_A_DESK);
    is_noted(&rt, desk.log(), LOG_OF_A_DESK);
    drop(desk);
}

fn seven(sender: u32, number: u64, ty: Ty) -> Env<Message> {
    let value = Value::Int(7);
    let msg = Message { ty, value };
    Env {
        sender,
        number,
        msg,
    }
}

fn arrives<R: AllocGlobal + Abort>(rt: &R, desk: &mut Desk, env: Env<Message>) -> bool {
    assert!(rt; desk.port_count() > 0);
    desk.arrive(0, env, 1).is_ok()
}

#[test]
fn number_without_room_is_refused(rt: HostRuntime) {
    const GREATEST: u64 = 4_294_967_295;
    const LOG: &[&str] = &[
        "Arrive(0, 1, NotedEnvelope { sender: 255, kind: Named, named: 65535, \
    number: 4294967295, value: Int(7) })",
    ];
    let ty = Ty::Named(65_535);
    let mut desk = desk(&rt);
    assert!(rt; !arrives(&rt, &mut desk, seven(256, GREATEST, ty)));
    assert!(rt; !arrives(&rt, &mut desk, seven(255, GREATEST + 1, ty)));
    assert!(rt; !arrives(&rt, &mut desk, seven(255, GREATEST, Ty::Named(65_536))));
    assert!(rt;
        desk.note_sending(route(0, 1, 0), GREATEST + 1, integer(7))
            .is_err()
    );
    assert!(rt; desk.note_sending(route(0, 256, 0), 0, integer(7)).is_err());
    assert!(rt; desk.log().len() == 0);
    if !arrives(&rt, &mut desk, seven(255, GREATEST, ty)) {
        assert!(rt; arrives(&rt, &mut desk, seven(255, GREATEST, ty)));
    }
    assert!(rt; desk.port_count() > 0);
    assert!(rt; desk.receive(0, &wanted(None), None, 4_294_967_296).is_err());
    assert!(rt; desk.trigger(0, &wanted(None), None, 4_294_967_296).is_err());
    assert!(rt; desk.check(0, &wanted(None), None, 4_294_967_296).is_err());
    is_noted(&rt, desk.log(), LOG);
    drop(desk);
}

fn puts<R: Wait + Abort>(rt: &R, sender: &mut Sender, ty: Ty) -> bool {
    assert!(rt; sender.ways() > 0);
    let message = seven(0, 0, ty).msg;
    let Err((fault, back)) = sender.put(rt, 0, Stamped { stamp: 1, message }) else {
        return true;
    };
    assert!(rt; matches!(fault, PutFault::Memory) && back.message.ty == ty);
    drop(back);
    false
}

#[test]
fn type_without_room_is_not_put(rt: HostRuntime) {
    let (ends, floor) = two(&rt, ["p"].as_slice());
    let InboxEnds {
        mailbox,
        mut senders,
        closer,
    } = ends;
    assert!(rt; senders.len() > 0);
    assert!(rt; !puts(&rt, &mut senders[0], Ty::Named(65_536)));
    assert!(rt; senders.len() > 0);
    assert!(rt; senders[0].ways() > 0 && senders[0].count(0) == 0);
    if !puts(&rt, &mut senders[0], Ty::Named(65_535)) {
        assert!(rt; senders.len() > 0);
        assert!(rt; puts(&rt, &mut senders[0], Ty::Named(65_535)));
    }
    drop((mailbox, senders, closer, floor));
}

#[test]
fn an_entry_has_32_bytes(rt: HostRuntime) {
    assert!(rt; size_of::<Entry>() == 32);
}

#[test]
fn stamps_are_used_up(rt: HostRuntime) {
    const CALLS: &[(DeskCall, &str)] = &[
        (DeskCall::Stamp, "Some(1)"),
        (DeskCall::Arrive(0, 20), "Ok(())"),
        (DeskCall::Arrive(0, 7), "Ok(())"),
        (DeskCall::Stamp, "Some(21)"),
        (DeskCall::Sent, "Ok(())"),
        (DeskCall::Stamp, "Some(22)"),
        (DeskCall::Arrive(0, u32::MAX), "Ok(())"),
        (DeskCall::Stamp, "None"),
    ];
    let mut desk = desk(&rt);
    carries_out(&rt, &mut desk, CALLS);
    drop(desk);
}

fn send_again<R: Wait + Abort>(rt: &R, desk: &mut Desk, sender: &mut Sender, n: i64) {
    assert!(rt; sender.ways() == 1);
    let (put, noted) = (sender.count(0), desk.log().len());
    if let Err((_, message)) = sender.send(rt, &mut *desk, 0, integer(n)) {
        assert!(rt; sender.count(0) == put && desk.log().len() == noted);
        assert!(rt; sender.send(rt, &mut *desk, 0, message).is_ok());
    }
    assert!(rt; sender.ways() == 1);
    assert!(rt; sender.count(0) == put.wrapping_add(1));
}

fn send_by_each<R: Wait + Abort>(rt: &R, desk: &mut Desk, senders: &mut [Sender], n: i64) {
    for sender in senders {
        send_again(rt, desk, sender, n);
    }
}

#[test]
fn refused_memory_puts_and_notes_nothing(rt: HostRuntime) {
    const LOG: &[&str] = &[
        "Sent(NotedRoute { source: 0, comp: 1, port: 0 }, 0, \
        NotedMessage { stamp: 1, kind: Integer, named: 0, value: Int(1) })",
        "Sent(NotedRoute { source: 0, comp: 1, port: 0 }, 1, \
        NotedMessage { stamp: 2, kind: Integer, named: 0, value: Int(2) })",
    ];
    let (ends, floor) = two(&rt, ["p"].as_slice());
    let InboxEnds {
        mailbox,
        mut senders,
        closer,
    } = ends;
    let Mailbox { owner, mut desk } = mailbox;
    for n in 1..3 {
        send_by_each(&rt, &mut desk, senders.as_mut_slice(), n);
    }
    is_noted(&rt, desk.log(), LOG);
    drop((owner, desk, senders, closer, floor));
}

#[test]
fn owner_is_current_until_a_sending(rt: HostRuntime) {
    let (mut ends, floor) = two(&rt, ["p"].as_slice());
    let mut desk = desk(&rt);
    assert!(rt; ends.mailbox.owner.is_current(&desk));
    says(&rt, 0, debug(&rt, ends.mailbox.drain(&rt)), "Ok(0)");
    assert!(rt; ends.mailbox.owner.is_current(&desk));
    says(&rt, 1, sent(&rt, &mut desk), "Ok(())");
    assert!(rt; !ends.mailbox.owner.is_current(&desk));
    drop((ends, desk, floor));
}

#[test]
fn part_of_an_inbox_keeps_an_owner_current(rt: HostRuntime) {
    let (mut ends, floor) = two(&rt, ["p"].as_slice());
    says(&rt, 0, debug(&rt, ends.put(&rt, 0, 0, 4)), "Some(Ok(0))");
    says(&rt, 1, debug(&rt, ends.put(&rt, 0, 0, 5)), "Some(Ok(1))");
    says(&rt, 2, debug(&rt, ends.mailbox.drain_some(&rt, 1)), "Ok(1)");
    assert!(rt; ends.mailbox.owner.is_current(&ends.mailbox.desk));
    assert!(rt;
        ends.mailbox
            .note_sending(route(1, 0, 0), integer(7))
            .is_ok()
    );
    says(&rt, 3, debug(&rt, ends.put(&rt, 0, 0, 6)), "Some(Ok(2))");
    says(&rt, 4, debug(&rt, ends.mailbox.drain_some(&rt, 1)), "Ok(1)");
    assert!(rt; !ends.mailbox.owner.is_current(&ends.mailbox.desk));
    says(&rt, 5, debug(&rt, ends.mailbox.drain(&rt)), "Ok(1)");
    says(&rt, 6, debug(&rt, ends.put(&rt, 0, 0, 7)), "Some(Ok(3))");
    says(&rt, 7, debug(&rt, ends.mailbox.drain_some(&rt, 1)), "Ok(1)");
    assert!(rt; ends.mailbox.owner.is_current(&ends.mailbox.desk));
    drop((ends, floor));
}
