//! Tests of which behaviour is woken, by what and how often, and of the one that is reported as the
//! last one awake. Each behaviour that waits does so in a thread of its own. A test checks a
//! limited number of times whether it rests. If none is woken, the test doesn't end, and fails by
//! its limit of time.
use crate::configurations::star;
use crate::ends::{InboxEnds, Mailbox, ends_of, floor_of, stamped, two};
use std::alloc::Global;
use std::process::Abort;
use std::sync::{Arc, Wait};
use std::thread;
use std::thread::{Threads, join};
use tp_config::config::Config;
use tp_config::port_type::CompId;
use tp_floor::floor::Floor;
use tp_floor::notifier::Woken;
use tp_inbox::owner::Closer;
use tp_inbox::sender::Sender;

const TURNS: u32 = 10_000_000;

const ROUNDS: u32 = 50;

fn rest_is<R: Wait>(rt: &R, floor: &Floor, count: u64) -> bool {
    for _ in 0..TURNS {
        if floor.resting(rt) == count {
            return true;
        }
        thread::yield_now();
    }
    false
}

fn is_put<R: Wait>(rt: &R, sender: &mut Sender) -> bool {
    sender.ways() > 0 && sender.put(rt, 0, stamped(1)).is_ok()
}

fn drains_one<R: Wait>(rt: &R, mailbox: &mut Mailbox) -> bool {
    match mailbox.drain(rt) {
        Ok(count) => count == 1,
        Err(_) => false,
    }
}

/// Waits so many times for one message, and then once more: the result of the last wait. `None` if
/// one of the others found anything else.
fn waits<R: Wait>(rt: &R, mailbox: &mut Mailbox, rounds: u32) -> Option<Woken> {
    for _ in 0..rounds {
        if mailbox.owner.wait(rt) != Woken::Arrived || !drains_one(rt, mailbox) {
            return None;
        }
    }
    Some(mailbox.owner.wait(rt))
}

#[derive(Clone, Copy)]
enum Waking {
    Put,
    Closing,
    Often,
}

/// Puts to a resting behaviour, again and again, and leaves once it rests again. Returns whether
/// none is awake then.
fn puts_and_leaves<R: Wait>(rt: &R, floor: &Floor, sender: &mut Sender) -> bool {
    for _ in 0..ROUNDS {
        if !rest_is(rt, floor, 1) || !is_put(rt, sender) {
            return false;
        }
    }
    rest_is(rt, floor, 1) && floor.leave(rt)
}

/// Wakes a resting behaviour. Returns whether it rested and counts as awake at once. If it didn't
/// rest, its inbox is closed.
fn wakes<R: Wait>(
    rt: &R,
    floor: &Floor,
    sender: &mut Sender,
    closer: &Closer,
    waking: Waking,
) -> bool {
    let rests = match waking {
        Waking::Put => rest_is(rt, floor, 1) && is_put(rt, sender),
        Waking::Closing => rest_is(rt, floor, 1),
        Waking::Often => puts_and_leaves(rt, floor, sender),
    };
    if !rests || !matches!(waking, Waking::Put) {
        closer.close(rt);
    }
    rests && floor.resting(rt) == 0
}

/// Lets a behaviour wait in a thread of its own, and wakes it. Returns what it found at the end,
/// and whether everything went well here.
fn woken<R: Threads + Wait + Sync>(
    rt: &R,
    floor: &Floor,
    mailbox: &mut Mailbox,
    sender: &mut Sender,
    closer: &Closer,
    waking: Waking,
) -> (Option<Woken>, bool) {
    let rounds = match waking {
        Waking::Often => ROUNDS,
        _ => 0,
    };
    join(
        rt,
        || waits(rt, mailbox, rounds),
        || wakes(rt, floor, sender, closer, waking),
    )
}

fn is_woken<R: AllocGlobal + Abort + Threads + Wait + Sync>(rt: &R, waking: Waking, found: Woken) {
    let (ends, floor) = two(rt, ["p"].as_slice());
    let InboxEnds {
        mut mailbox,
        mut senders,
        closer,
    } = ends;
    assert!(rt; senders.len() == 1);
    let told = woken(rt, &floor, &mut mailbox, &mut senders[0], &closer, waking);
    assert!(rt; told == (Some(found), true));
    drop((mailbox, senders, closer, floor));
}

#[test]
fn a_put_wakes(rt: HostRuntime) {
    is_woken(&rt, Waking::Put, Woken::Arrived);
}

#[test]
fn a_closing_wakes(rt: HostRuntime) {
    is_woken(&rt, Waking::Closing, Woken::Closed);
}

/// An owner waits, is woken, and waits again: each waking is one resting behaviour less. When it
/// rests after the last, the other behaviour learns of that when it leaves.
#[test]
fn woken_again_and_again(rt: HostRuntime) {
    is_woken(&rt, Waking::Often, Woken::Closed);
}

/// Puts a message for each of so many that arrive, and waits once more: the result of that. `None`
/// if a wait before it found anything else.
fn answers<R: Wait>(
    rt: &R,
    mailbox: &mut Mailbox,
    answer: &mut Sender,
    rounds: u32,
) -> Option<Woken> {
    for _ in 0..rounds {
        if waits(rt, mailbox, 0) != Some(Woken::Arrived) || !drains_one(rt, mailbox) {
            return None;
        }
        if !is_put(rt, answer) {
            return None;
        }
    }
    Some(mailbox.owner.wait(rt))
}

#[derive(Drop)]
struct Answerer {
    mailbox: Mailbox,
    answer: Sender,
    sender: Sender,
    closer: Closer,
}

fn answerer_of<R: AllocGlobal + Abort>(
    rt: &R,
    config: &Config,
    comp: u32,
    floor: &Arc<Floor, Global>,
    answer: Option<Sender>,
) -> Answerer {
    let InboxEnds {
        mailbox,
        mut senders,
        closer,
    } = ends_of(rt, config, CompId(comp), floor);
    let sender = senders.pop().expect(rt, "a sender");
    drop(senders);
    Answerer {
        mailbox,
        answer: answer.expect(rt, "a sender"),
        sender,
        closer,
    }
}

fn is_answered<R: Wait>(rt: &R, mailbox: &mut Mailbox, sender: &mut Sender) -> bool {
    is_put(rt, sender) && mailbox.owner.wait(rt) == Woken::Arrived && drains_one(rt, mailbox)
}

fn asks_often<R: Wait>(
    rt: &R,
    mailbox: &mut Mailbox,
    one: &mut Sender,
    other: &mut Sender,
) -> bool {
    for _ in 0..ROUNDS {
        if !is_answered(rt, mailbox, one) || !is_answered(rt, mailbox, other) {
            return false;
        }
    }
    true
}

/// Asks both, waits until they rest, finds twice that it is the last, and closes their inboxes.
/// Returns whether everything went well.
fn is_last<R: Wait>(
    rt: &R,
    floor: &Floor,
    mailbox: &mut Mailbox,
    one: (&mut Sender, &Closer),
    other: (&mut Sender, &Closer),
) -> bool {
    let rest = asks_often(rt, mailbox, one.0, other.0) && rest_is(rt, floor, 2);
    let told = rest
        // The last one awake doesn't come to rest, so that a second wait returns the same.
        && mailbox.owner.wait(rt) == Woken::Last
        && mailbox.owner.wait(rt) == Woken::Last;
    one.1.close(rt);
    other.1.close(rt);
    told && floor.resting(rt) == 0
}

/// Lets a behaviour answer in a thread of its own, beside one that does so already. Returns what it
/// found at the end, and whether everything went well here.
fn beside<R: Threads + Wait + Sync>(
    rt: &R,
    floor: &Floor,
    mailbox: &mut Mailbox,
    one: (&mut Sender, &Closer),
    other: &mut Answerer,
) -> (Option<Woken>, bool) {
    let Answerer {
        mailbox: its,
        answer,
        sender,
        closer,
    } = other;
    join(
        rt,
        || answers(rt, its, answer, ROUNDS),
        || is_last(rt, floor, mailbox, one, (sender, closer)),
    )
}

fn three<R: Threads + Wait + Sync>(
    rt: &R,
    floor: &Floor,
    mailbox: &mut Mailbox,
    one: &mut Answerer,
    other: &mut Answerer,
) -> (Option<Woken>, (Option<Woken>, bool)) {
    let Answerer {
        mailbox: its,
        answer,
        sender,
        closer,
    } = one;
    join(
        rt,
        || answers(rt, its, answer, ROUNDS),
        || beside(rt, floor, mailbox, (sender, closer), other),
    )
}

/// Two behaviours answer a third, rest in between, and don't find that they are the last while the
/// third is awake. When both rest, the third finds that it is the last, as often as it asks.
#[test]
fn last_where_all_others_rest(rt: HostRuntime) {
    let config = star(&rt);
    let floor = floor_of(&rt, 3);
    let InboxEnds {
        mut mailbox,
        mut senders,
        closer,
    } = ends_of(&rt, &config, CompId(0), &floor);
    let idle = senders.pop();
    let mut other = answerer_of(&rt, &config, 2, &floor, senders.pop());
    let mut one = answerer_of(&rt, &config, 1, &floor, senders.pop());
    drop(config);
    let told = three(&rt, &floor, &mut mailbox, &mut one, &mut other);
    assert!(rt; told == (Some(Woken::Closed), (Some(Woken::Closed), true)));
    drop((mailbox, senders, closer, idle, one, other, floor));
}
