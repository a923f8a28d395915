//! The calls of a port's queue, with values from the standard's rules, and readers and writers that
//! fail.
use crate::showing::{debug, says};
use crate::writers::Short;
use std::io;
use std::io::{ErrorKind, Read};
use std::process::Abort;
use tp_common::event::{Env, Event};
use tp_common::limit::TEXT_LIMIT;
use tp_common::text::{ReadFault, read_text};
use tp_common::watched::Watched;
use tp_port::pattern::IntegerPattern;
use tp_port::port_queue::PortQueue;
use tp_port::replay::{QueueFault, replay, replay_text};

fn env(sender: u32, number: u64, msg: i64) -> Env<i64> {
    Env {
        sender,
        number,
        msg,
    }
}

/// A queue with the messages 1 from sender 0 and 2 from sender 1.
fn two<R: AllocGlobal + Abort>(rt: &R) -> PortQueue<i64> {
    let mut queue = PortQueue::new(rt.alloc());
    assert!(rt; queue.arrive(env(0, 0, 1)).is_ok());
    assert!(rt; queue.arrive(env(1, 1, 2)).is_ok());
    queue
}

enum QueueCall {
    Arrive(u64, i64),
    Receive(IntegerPattern, Option<u32>),
    Check(IntegerPattern, Option<u32>),
    Trigger(IntegerPattern, Option<u32>),
    Clear,
    Start,
    Stop,
    Halt,
}

fn answer<R: AllocGlobal + Abort>(rt: &R, queue: &mut PortQueue<i64>, call: &QueueCall) -> String {
    match *call {
        QueueCall::Arrive(number, msg) => debug(rt, queue.arrive(env(0, number, msg))),
        QueueCall::Receive(wanted, from) => debug(rt, queue.receive(&wanted, from)),
        QueueCall::Check(wanted, from) => debug(rt, queue.check(&wanted, from)),
        QueueCall::Trigger(wanted, from) => debug(rt, queue.trigger(&wanted, from)),
        QueueCall::Clear => debug(rt, queue.clear()),
        QueueCall::Start => debug(rt, queue.start()),
        QueueCall::Stop => debug(rt, queue.stop()),
        QueueCall::Halt => debug(rt, queue.halt()),
    }
}

fn state<R: AllocGlobal + Abort>(rt: &R, queue: &PortQueue<i64>) -> String {
    let counts = (queue.ahead(), queue.queued_len());
    debug(rt, (queue.status(), counts, queue.may_send()))
}

fn carries_out<R: AllocGlobal + Abort>(
    rt: &R,
    queue: &mut PortQueue<i64>,
    calls: &[(QueueCall, &str, &str)],
) {
    for (place, (call, wanted, behind)) in calls.iter().enumerate() {
        says(rt, place, answer(rt, queue, call), *wanted);
        says(rt, place, state(rt, queue), *behind);
    }
}

fn answered<R: AllocGlobal + Abort>(rt: &R, calls: &[(QueueCall, &str, &str)]) -> PortQueue<i64> {
    let mut queue = two(rt);
    carries_out(rt, &mut queue, calls);
    queue
}

#[test]
fn receives_in_order_and_only_what_matches(rt: HostRuntime) {
    const CALLS: &[(QueueCall, &str, &str)] = &[
        (
            QueueCall::Receive(IntegerPattern::Number(2), None),
            "Ok(None)",
            "(Started, (2, 2), true)",
        ),
        (
            QueueCall::Receive(IntegerPattern::Any, Some(1)),
            "Ok(None)",
            "(Started, (2, 2), true)",
        ),
        (
            QueueCall::Receive(IntegerPattern::Any, Some(0)),
            "Ok(Some(Env { sender: 0, number: 0, msg: 1 }))",
            "(Started, (1, 1), true)",
        ),
        (
            QueueCall::Receive(IntegerPattern::Number(2), None),
            "Ok(Some(Env { sender: 1, number: 1, msg: 2 }))",
            "(Started, (0, 0), true)",
        ),
        (
            QueueCall::Receive(IntegerPattern::Any, None),
            "Ok(None)",
            "(Started, (0, 0), true)",
        ),
    ];
    let queue = answered(&rt, CALLS);
    assert!(rt; queue.events().len() == 4);
    drop(queue);
}

fn queued<R: AllocGlobal + Abort>(rt: &R, queue: &PortQueue<i64>) -> String {
    let places = (queue.queued_at(0), queue.queued_at(1), queue.queued_at(2));
    debug(rt, (queue.top(), places))
}

const QUEUED: &str = "(Some(Env { sender: 0, number: 0, msg: 1 }), \
    (Some(Env { sender: 0, number: 0, msg: 1 }), \
    Some(Env { sender: 1, number: 1, msg: 2 }), None))";

#[test]
fn checks_without_taking(rt: HostRuntime) {
    const CALLS: &[(QueueCall, &str, &str)] = &[
        (
            QueueCall::Check(IntegerPattern::Number(2), None),
            "Ok(None)",
            "(Started, (2, 2), true)",
        ),
        (
            QueueCall::Check(IntegerPattern::Number(1), Some(0)),
            "Ok(Some(Env { sender: 0, number: 0, msg: 1 }))",
            "(Started, (2, 2), true)",
        ),
    ];
    let queue = answered(&rt, CALLS);
    assert!(rt; queue.events().len() == 3);
    says(&rt, 2, queued(&rt, &queue), QUEUED);
    drop(queue);
}

#[test]
fn looks_at_the_top(rt: HostRuntime) {
    const STOPPED: &str = "(None, (Some(Env { sender: 0, number: 0, msg: 1 }), \
        Some(Env { sender: 1, number: 1, msg: 2 }), None))";
    let mut queue = two(&rt);
    says(&rt, 0, queued(&rt, &queue), QUEUED);
    assert!(rt; queue.stop().is_ok());
    says(&rt, 1, queued(&rt, &queue), STOPPED);
    drop(queue);
}

#[test]
fn satisfies_by_message_and_sender(rt: HostRuntime) {
    let first = env(0, 0, 1);
    assert!(rt; first.satisfies(&IntegerPattern::Number(1), Some(0)));
    assert!(rt; !first.satisfies(&IntegerPattern::Number(2), None));
    assert!(rt; !first.satisfies(&IntegerPattern::Any, Some(1)));
}

#[test]
fn triggers_take_or_discard(rt: HostRuntime) {
    const CALLS: &[(QueueCall, &str, &str)] = &[
        (
            QueueCall::Trigger(IntegerPattern::Any, Some(1)),
            "Ok(Dropped(Env { sender: 0, number: 0, msg: 1 }))",
            "(Started, (1, 1), true)",
        ),
        (
            QueueCall::Trigger(IntegerPattern::Number(2), Some(1)),
            "Ok(Took(Env { sender: 1, number: 1, msg: 2 }))",
            "(Started, (0, 0), true)",
        ),
        (
            QueueCall::Trigger(IntegerPattern::Any, None),
            "Ok(Nothing)",
            "(Started, (0, 0), true)",
        ),
    ];
    let queue = answered(&rt, CALLS);
    assert!(rt; queue.events().len() == 4);
    drop(queue);
}

#[test]
fn halts_behind_what_is_queued(rt: HostRuntime) {
    const CALLS: &[(QueueCall, &str, &str)] = &[
        (QueueCall::Halt, "Ok(Some(2))", "(Halted, (2, 2), false)"),
        (QueueCall::Arrive(2, 3), "Ok(())", "(Halted, (2, 3), false)"),
        (
            QueueCall::Receive(IntegerPattern::Any, None),
            "Ok(Some(Env { sender: 0, number: 0, msg: 1 }))",
            "(Halted, (1, 2), false)",
        ),
        (
            QueueCall::Receive(IntegerPattern::Any, None),
            "Ok(Some(Env { sender: 1, number: 1, msg: 2 }))",
            "(Halted, (0, 1), false)",
        ),
        (
            QueueCall::Receive(IntegerPattern::Any, None),
            "Ok(None)",
            "(Halted, (0, 1), false)",
        ),
        (
            QueueCall::Trigger(IntegerPattern::Any, None),
            "Ok(Nothing)",
            "(Halted, (0, 1), false)",
        ),
        (QueueCall::Halt, "Ok(None)", "(Halted, (0, 1), false)"),
        (QueueCall::Start, "Ok(1)", "(Started, (0, 0), true)"),
    ];
    let queue = answered(&rt, CALLS);
    assert!(rt; queue.events().len() == 8);
    drop(queue);
}

#[test]
fn clears_both_sides_and_stays_halted(rt: HostRuntime) {
    const CALLS: &[(QueueCall, &str, &str)] = &[
        (QueueCall::Halt, "Ok(Some(2))", "(Halted, (2, 2), false)"),
        (QueueCall::Arrive(2, 3), "Ok(())", "(Halted, (2, 3), false)"),
        (QueueCall::Clear, "Ok(3)", "(Halted, (0, 0), false)"),
        (QueueCall::Arrive(3, 4), "Ok(())", "(Halted, (0, 1), false)"),
        (
            QueueCall::Receive(IntegerPattern::Any, None),
            "Ok(None)",
            "(Halted, (0, 1), false)",
        ),
        (QueueCall::Stop, "Ok(())", "(Stopped, (0, 1), false)"),
        (QueueCall::Halt, "Ok(None)", "(Stopped, (0, 1), false)"),
    ];
    let queue = answered(&rt, CALLS);
    assert!(rt; queue.events().len() == 8);
    assert!(rt; matches!(queue.events().last(), Some(Event::Halted)));
    drop(queue);
}

/// Returns one byte for each read, and an error of this kind instead of one of the reads.
#[derive(Drop)]
struct OneByOne<'t> {
    text: &'t [u8],
    reads_left: u32,
    kind: ErrorKind,
}

impl Read for OneByOne<'_> {
    fn read(&mut self, buf: &mut [u8]) -> io::Result<usize> {
        if self.reads_left == 0 {
            self.reads_left = u32::MAX;
            return Err(io::Error::from(self.kind));
        }
        self.reads_left -= 1;
        if self.text.is_empty() || buf.is_empty() {
            return Ok(0);
        }
        buf[0] = self.text[0];
        self.text = &self.text[1..];
        Ok(1)
    }
}

fn halt_line(reads_left: u32, kind: ErrorKind) -> OneByOne<'static> {
    OneByOne {
        text: b"halt\n".as_slice(),
        reads_left,
        kind,
    }
}

fn replayed_line<R: AllocGlobal>(rt: &R, line: OneByOne<'_>) -> (Result<(), QueueFault>, usize) {
    let mut out = Watched::new(Vec::new(rt.alloc()));
    let answer = replay(rt.alloc(), &mut Watched::new(line), &mut out);
    (answer, out.into_inner().len())
}

fn read_line<R: AllocGlobal>(rt: &R, line: OneByOne<'_>) -> Result<bool, ReadFault> {
    match read_text(rt.alloc(), &mut Watched::new(line)) {
        Ok(text) => Ok(text.as_slice() == b"halt\n".as_slice()),
        Err(fault) => Err(fault),
    }
}

#[test]
fn failed_reads_are_told_and_interrupted_ones_repeated(rt: HostRuntime) {
    for reads_left in 0..6 {
        let failing = halt_line(reads_left, ErrorKind::PermissionDenied);
        assert!(rt; replayed_line(&rt, failing) == (Err(QueueFault::Read), 0));
        let interrupted = halt_line(reads_left, ErrorKind::Interrupted);
        assert!(rt; read_line(&rt, interrupted) == Ok(true));
    }
}

#[test]
fn want_of_memory_of_the_reader_is_a_failed_read(rt: HostRuntime) {
    let failing = halt_line(3, ErrorKind::OutOfMemory);
    assert!(rt; read_line(&rt, failing) == Err(ReadFault::Read));
}

fn replayed<R: AllocGlobal>(rt: &R, room: usize) -> Result<(), QueueFault> {
    let mut short = Watched::new(Short { room });
    replay_text(rt.alloc(), b"stop\n".as_slice(), &mut short)
}

#[test]
fn failed_writes_are_told(rt: HostRuntime) {
    for room in 0..15 {
        assert!(rt; replayed(&rt, room) == Err(QueueFault::Write));
    }
    assert!(rt; replayed(&rt, 15) == Ok(()));
}

fn line_ends<R: AllocGlobal + Abort>(rt: &R, count: usize) -> Vec<u8> {
    (vec![in rt.alloc(); b'\n'; count]).expect(rt, "memory")
}

fn read_length<R: AllocGlobal>(rt: &R, text: &[u8]) -> (Result<usize, ReadFault>, usize) {
    let mut rest = Watched::new(text);
    let length = match read_text(rt.alloc(), &mut rest) {
        Ok(whole) => Ok(whole.len()),
        Err(fault) => Err(fault),
    };
    (length, rest.into_inner().len())
}

fn replayed_bytes<R: AllocGlobal>(rt: &R, text: &[u8]) -> (Result<(), QueueFault>, usize) {
    let mut out = Watched::new(Vec::new(rt.alloc()));
    let answer = replay_text(rt.alloc(), text, &mut out);
    (answer, out.into_inner().len())
}

#[test]
fn the_limit_is_allowed_and_one_more_is_not(rt: HostRuntime) {
    let text = line_ends(&rt, TEXT_LIMIT);
    assert!(rt; read_length(&rt, text.as_slice()) == (Ok(TEXT_LIMIT), 0));
    assert!(rt; replayed_bytes(&rt, text.as_slice()) == (Err(QueueFault::BadLine(1)), 0));
    let more = line_ends(&rt, TEXT_LIMIT + 1);
    assert!(rt; read_length(&rt, more.as_slice()) == (Err(ReadFault::Limit), 0));
    assert!(rt; replayed_bytes(&rt, more.as_slice()) == (Err(QueueFault::Limit), 0));
}
