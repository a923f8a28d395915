//! The guests, each in a thread of its own.
ghost use Rattle.std.specs.Prelude.{◌≡◌, IfOk, map};
ghost use Rattle.tp_inbox.specs.Ledgers.{end_of};

use crate::inbox_user::room::order;
use std::alloc::{AllocError, Global};
use std::snapshot::Snapshot;
use std::sync::Wait;
use std::thread;
use std::thread::{Promise, PromisedHandle, Threads};
use tp_inbox::sender::Sender;

/// How many orders each guest sends.
const ORDERS: i64 = 3;

/// A guest's sender as it was when it went into a thread. The one that comes back is the same
/// sender, whatever it has put.
#[derive(Drop)]
pub struct Back(Snapshot<Sender>);

impl Promise<Sender> for Back {
    ghost use Rattle.std.specs.Prelude.{◌≡◌};
    ghost use Rattle.tp_inbox.specs.Ledgers.{end_of};

    ghost kept_by = { λ p r. end_of r ≡ end_of p.0.value };
}

/// A guest who is out in a thread.
pub type Guest = PromisedHandle<Sender, Back>;

/// Sends the orders, and gives the sender back.
fn orders<R: Wait>(rt: &R, mut sender: Sender) -> Sender
    ensures { end_of result ≡ end_of sender }
{
    if sender.ways() == 0 {
        return sender;
    }
    for number in 0..ORDERS {
        if sender.put(rt, 0, order(number)).is_err() {
            return sender;
        }
    }
    sender
}

/// Starts the thread of a guest.
fn send_off<R>(rt: R, sender: Sender) -> Result<Guest, AllocError>
where
    R: Threads + Wait + Copy + Send + 'static,
    ensures { IfOk result (λ h. h.promise.0.value ≡ sender) }
{
    let promise = Back(Snapshot::of(&sender));
    Ok(thread::spawn_with(&rt, promise, move || orders(&rt, sender))?)
}

/// Starts a thread for each sender.
pub fn start<R>(rt: R, alloc: Global, senders: Vec<Sender>) -> Result<Vec<Guest>, AllocError>
where
    R: Threads + Wait + Copy + Send + 'static,
    ensures { IfOk result (λ hs.
        map (λ h. end_of h.promise.0.value) hs.items ≡ map end_of senders.items) }
{
    let mut guests = Vec::new(alloc);
    for sender in senders {
        guests.push(send_off(rt, sender)?)?;
    }
    Ok(guests)
}

/// The senders come back when the guests have ended.
pub fn finish<R: Threads>(
    rt: &R,
    alloc: Global,
    guests: Vec<Guest>,
) -> Result<Vec<Sender>, AllocError>
    ensures { IfOk result (λ ss.
        map end_of ss.items ≡ map (λ h. end_of h.promise.0.value) guests.items) }
{
    let mut senders = Vec::new(alloc);
    for guest in guests {
        senders.push(guest.join(rt))?;
    }
    Ok(senders)
}
