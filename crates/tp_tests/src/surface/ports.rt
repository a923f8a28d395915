//! The calls of `tp_port`.
ghost use Rattle.std.specs.Prelude.{◌≡◌};

use std::process::Abort;
use tp_port::replay::replay;
use tp_port::{Env, Event, Payload, PortQueue, Status, TriggerAnswer, Wanted, Watched, read_text};

#[derive(Clone, Copy)]
struct Exactly {
    number: i64,
}

impl Wanted<i64> for Exactly {
    ghost admits = { λ wanted msg. msg ≡ wanted.number };

    fn admits(&self, msg: &i64) -> bool {
        *msg == self.number
    }
}

fn env(number: u64, msg: i64) -> Env<i64> {
    Env {
        sender: 7,
        number,
        msg,
    }
}

#[test]
fn payloads(rt: HostRuntime) {
    let message: i64 = 5;
    assert!(rt; Payload::copy(&message, rt.alloc()).is_ok());
}

#[test]
fn halted_queue(rt: HostRuntime) {
    let five = Exactly { number: 5 };
    let mut queue = PortQueue::new(rt.alloc());
    assert!(rt; queue.arrive(env(0, 5)).is_ok());
    assert!(rt; queue.arrive(env(1, 6)).is_ok());
    assert!(rt; matches!(queue.halt(), Ok(Some(2))));
    assert!(rt; queue.arrive(env(2, 5)).is_ok());
    assert!(rt; matches!(queue.check(&five, Some(7)), Ok(Some(_))));
    assert!(rt; matches!(queue.receive(&five, None), Ok(Some(_))));
    assert!(rt; matches!(queue.trigger(&five, None), Ok(TriggerAnswer::Dropped(_))));
    assert!(rt; matches!(queue.receive(&five, None), Ok(None)));
    assert!(rt; queue.ahead() == 0 && queue.queued_len() == 1 && queue.queued_at(0).is_some());
    assert!(rt; matches!(queue.events().last(), Some(Event::Dropped(_))));
    drop(queue);
}

#[test]
fn stopped_queue(rt: HostRuntime) {
    let mut queue: PortQueue<i64> = PortQueue::new(rt.alloc());
    assert!(rt; queue.arrive(env(0, 5)).is_ok());
    assert!(rt; matches!(queue.clear(), Ok(1)));
    assert!(rt; queue.stop().is_ok());
    assert!(rt; queue.status() == Status::Stopped && !queue.may_send());
    assert!(rt; matches!(queue.start(), Ok(0)));
    drop(queue);
}

#[test]
fn texts(rt: HostRuntime) {
    let mut text = Watched::new(b"halt\n".as_slice());
    assert!(rt; read_text(rt.alloc(), &mut text).is_ok());
    let mut file = Watched::new(b"halt\n".as_slice());
    let mut printed = Watched::new(Vec::new(rt.alloc()));
    assert!(rt; replay(rt.alloc(), &mut file, &mut printed).is_ok());
    assert!(rt; printed.into_inner().as_slice() == b"halted 0\nleft 0\n".as_slice());
}
