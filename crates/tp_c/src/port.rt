//! The calls of a queue with arguments and results that can cross to C: numbers, `bool` and one
//! struct. Each contract is that of the queue's call.
ghost use Rattle.std.specs.Prelude.{◌≡◌, [], IsTrue};
ghost use Rattle.tp_queue.specs.Queues.{StandsFor};
ghost use Rattle.tp_c.specs.Calls.{Ahead, Arrived, Checked, Cleared, Halted, Length, Placed, Received, Started};
ghost use Rattle.tp_c.specs.Calls.{StatusIs, Stopped, Triggered, answer_with, the_sender};

use std::alloc::Global;
use tp_common::event::{Env, Status, TriggerAnswer};
use tp_common::payload::Wanted;
use tp_queue::queue::Queue;

/// Whether the caller wants the top message. The caller has looked at it before, by a `check`,
/// because a function of the caller can't cross.
#[derive(Clone, Copy)]
struct Fits {
    fits: bool,
}

impl Wanted<u64> for Fits {
    ghost admits = { λ wanted msg. IsTrue wanted.fits };

    fn admits(&self, _msg: &u64) -> bool {
        self.fits
    }
}

/// The result of a call: `tp_answer` of the header.
#[repr(C)]
#[derive(Drop)]
pub struct Answer {
    /// One of the three below.
    pub outcome: u32,
    pub sender: u32,
    /// The message's number on its way.
    pub number: u64,
    pub message: u64,
}

/// No message: the other fields are 0.
const NOTHING: u32 = 0;
/// The message was taken out, or found and left.
const TOOK: u32 = 1;
/// The message was taken out, and didn't fit.
const DROPPED: u32 = 2;

const STARTED: u32 = 0;

const HALTED: u32 = 1;

const STOPPED: u32 = 2;

const NO_ANSWER: Answer = Answer {
    outcome: NOTHING,
    sender: 0,
    number: 0,
    message: 0,
};

fn answer_of(outcome: u32, env: &Env<u64>) -> Answer
    ensures { result ≡ answer_with outcome env.now }
{
    Answer {
        outcome,
        sender: env.sender,
        number: env.number,
        message: env.msg,
    }
}

/// A sender that may be named. C has no `Option`.
fn sender_named(named: bool, from: u32) -> Option<u32>
    ensures { result ≡ the_sender named from }
{
    if named { Some(from) } else { None }
}

pub(crate) fn new(alloc: Global) -> Queue<u64>
    ensures { StandsFor result [] }
{
    Queue::new(alloc)
}

/// Frees the memory of the queue. Its messages are numbers, and are lost.
pub(crate) fn let_go(_queue: Queue<u64>) {}

/// Returns false if an allocation was refused, and then nothing has happened.
pub(crate) fn arrive(queue: &mut Queue<u64>, sender: u32, number: u64, message: u64) -> bool
    ensures { Arrived queue.old sender number message result queue.new }
{
    queue
        .arrive(Env {
            sender,
            number,
            msg: message,
        })
        .is_ok()
}

pub(crate) fn receive(queue: &mut Queue<u64>, named: bool, from: u32, fits: bool) -> Answer
    ensures { Received queue.old named from fits result queue.new }
{
    match queue.receive(&Fits { fits }, sender_named(named, from)) {
        None => NO_ANSWER,
        Some(env) => answer_of(TOOK, &env),
    }
}

pub(crate) fn trigger(queue: &mut Queue<u64>, named: bool, from: u32, fits: bool) -> Answer
    ensures { Triggered queue.old named from fits result queue.new }
{
    match queue.trigger(&Fits { fits }, sender_named(named, from)) {
        TriggerAnswer::Nothing => NO_ANSWER,
        TriggerAnswer::Took(env) => answer_of(TOOK, &env),
        TriggerAnswer::Dropped(env) => answer_of(DROPPED, &env),
    }
}

pub(crate) fn check(queue: &mut Queue<u64>, named: bool, from: u32, fits: bool) -> Answer
    ensures { Checked queue.old named from fits result queue.new }
{
    match queue.check(&Fits { fits }, sender_named(named, from)) {
        None => NO_ANSWER,
        Some(env) => answer_of(TOOK, env),
    }
}

pub(crate) fn start(queue: &mut Queue<u64>) -> u64
    ensures { Started queue.old result queue.new }
{
    queue.start()
}

pub(crate) fn clear(queue: &mut Queue<u64>) -> u64
    ensures { Cleared queue.old result queue.new }
{
    queue.clear()
}

pub(crate) fn stop(queue: &mut Queue<u64>) -> u64
    ensures { Stopped queue.old result queue.new }
{
    queue.stop();
    queue.queued_len()
}

pub(crate) fn halt(queue: &mut Queue<u64>) -> bool
    ensures { Halted queue.old result queue.new }
{
    queue.halt().is_some()
}

// This call and those below only look. They take `&mut`, because one template proves all exports.
pub(crate) fn ahead(queue: &mut Queue<u64>) -> u64
    ensures { Ahead queue.old result queue.new }
{
    queue.ahead()
}

pub(crate) fn len(queue: &mut Queue<u64>) -> u64
    ensures { Length queue.old result queue.new }
{
    queue.queued_len()
}

pub(crate) fn at(queue: &mut Queue<u64>, place: u64) -> Answer
    ensures { Placed queue.old place result queue.new }
{
    match queue.queued_at(place) {
        None => NO_ANSWER,
        Some(env) => answer_of(TOOK, env),
    }
}

pub(crate) fn status(queue: &mut Queue<u64>) -> u32
    ensures { StatusIs queue.old result queue.new }
{
    match queue.status() {
        Status::Started => STARTED,
        Status::Halted => HALTED,
        Status::Stopped => STOPPED,
    }
}
