//! The queue of a message port. It keeps no history.
ghost use Rattle.std.specs.Prelude.{◌≡◌, ◌↔◌, ◌≤◌, ◌∷◌, ◌++◌, [], IfErr, IsTrue, OnOk, length, slice_get};
ghost use Rattle.std.specs.Option.{option_copied};
ghost use Rattle.tp_common.specs.declared.event.Event.TheVariants as event;
ghost use Rattle.tp_common.specs.declared.event.Status.TheVariants as status;
ghost use Rattle.tp_queue.specs.History.{gone, limit, queued, status_of, top};
ghost use Rattle.tp_queue.specs.Answers.{Checks, checked, halted_count};
ghost use Rattle.tp_queue.specs.Calls.{Offers, ReceivesFor, TakesOut, TriggersFor};
ghost use Rattle.tp_queue.specs.Queues.{AtHistory, HasHistory, StandsFor};

use std::alloc::Global;
use std::collections::VecDeque;
use std::marker::Model;
use tp_common::event::{Env, Status, TriggerAnswer};
use tp_common::memory::Memory;
use tp_common::payload::Wanted;

/// The queue of one message port (ES 201 873-1, 9.1; ES 201 873-4, port states). Contracts see it
/// as its state: the queued messages, the status, and how many of these messages can be received.
///
/// The contract of a call that changes the queue nevertheless speaks of a whole history, the list
/// of the port's events: if the queue stood for some history before the call, it stands for this
/// history and the event of the call after it. So a caller who keeps the history, or has one in
/// mind, knows the queue; the queue itself keeps none.
#[derive(Drop)]
pub struct Queue<M: Drop> {
    /// The queued messages, the oldest first.
    entries: VecDeque<Env<M>>,
    /// If the port is halted: the number of entries ahead of the mark.
    ahead: usize,
    status: Status,
}

impl<M: Drop> Model for Queue<M> {
    ghost use Rattle.tp_queue.specs.Queues.{HasHistory, QueueState, shown};

    ghost Value = { QueueState M };

    ghost view = { λ q. shown q.entries.items q.status q.ahead };

    ghost invariant = { λ q. HasHistory (shown q.entries.items q.status q.ahead) };
}

impl<M: Drop> Queue<M> {
    /// The empty queue of a started port, as when its component is created (ES 201 873-1, 21.3.1).
    /// It allocates from `alloc` as messages arrive.
    pub fn new(alloc: Global) -> Self
        ensures { StandsFor result [] }
    {
        Queue {
            entries: VecDeque::new(alloc),
            ahead: 0,
            status: Status::Started,
        }
    }

    /// A message arrives at the end of the queue, whatever the status: a halted or stopped port
    /// queues too (9.1: a port is an unbounded first-in first-out queue). 50 `Memory` if an
    /// allocation was refused; it returns the envelope.
    pub fn arrive(&mut self, env: Env<M>) -> Result<(), (Memory, Env<M>)>
        ensures ok { OnOk result (AtHistory self.old (λ h.
            StandsFor self.new (h ++ event.Arrive env ∷ []))) }
        ensures err { IfErr result (λ back. (back.1 ≡ env) × (self.new ≡ self.old)) }
    {
        if let Err(failed) = self.entries.push_back(env) {
            return Err((Memory, failed.value));
        }
        Ok(())
    }

    /// Halts a started port: puts the mark after the last queued message, and returns how many
    /// messages are ahead of it (22.5.4). These are still deliverable; later arrivals aren't. On a
    /// halted or stopped port it has no effect, and returns `None`.
    pub fn halt(&mut self) -> Option<u64>
        ensures count { AtHistory self.old (λ h. result ≡ halted_count (status_of h) h) }
        ensures after { AtHistory self.old (λ h. StandsFor self.new (h ++ event.Halted ∷ [])) }
    {
        match self.status {
            Status::Started => {
                self.ahead = self.entries.len();
                self.status = Status::Halted;
                Some(self.ahead as u64)
            }
            Status::Halted | Status::Stopped => None,
        }
    }

    /// Takes the top message out if it is deliverable, `wanted` admits it and it comes from the
    /// sender `from`, if one is given (22.2.2). Otherwise it returns `None`, and nothing happens: a
    /// message below the top is never looked at.
    pub fn receive<W: Wanted<M>>(&mut self, wanted: &W, from: Option<u32>) -> Option<Env<M>>
        ensures { AtHistory self.old (λ h.
            ReceivesFor (W.admits wanted.now) from h result self.new) }
    {
        if self.offers(wanted, from) {
            self.take_top()
        } else {
            None
        }
    }

    /// Finds the top message as [`receive`](Queue::receive) does, and leaves it in the queue
    /// (22.4).
    pub fn check<W: Wanted<M>>(&self, wanted: &W, from: Option<u32>) -> Option<&Env<M>>
        ensures found { AtHistory self.now (λ h.
            Checks (W.admits wanted.now) from h (option_copied result)) }
        ensures after { AtHistory self.now (λ h.
            StandsFor self.now (checked h (option_copied result))) }
    {
        if !self.offers(wanted, from) {
            return None;
        }
        self.top()
    }

    /// Takes the top message out if it is deliverable, whether it is wanted or not (22.2.3): it is
    /// received by the same test as in [`receive`](Queue::receive), and else discarded. If no
    /// message is deliverable, it returns `Nothing`, and nothing happens.
    pub fn trigger<W: Wanted<M>>(&mut self, wanted: &W, from: Option<u32>) -> TriggerAnswer<M>
        ensures { AtHistory self.old (λ h.
            TriggersFor (W.admits wanted.now) from h result self.new) }
    {
        // Asked first, because the message is out of the queue afterwards.
        let fits = self.offers(wanted, from);
        match self.take_top() {
            None => TriggerAnswer::Nothing,
            Some(env) if fits => TriggerAnswer::Took(env),
            Some(env) => TriggerAnswer::Dropped(env),
        }
    }

    /// Takes the top message out, if there is one: like a `receive` of any message from any sender
    /// (22.2.2), or a `trigger` that discards it (22.2.3).
    pub fn take_top(&mut self) -> Option<Env<M>>
        ensures { AtHistory self.old (λ h. TakesOut h result self.new) }
    {
        if self.ahead() == 0 {
            return None;
        }
        // At a port that isn't halted, `ahead` has no meaning.
        self.ahead = self.ahead.saturating_sub(1);
        self.entries.pop_front()
    }

    /// Discards every queued message, before and after a mark, and returns how many there were
    /// (22.5.1). A halted port stays halted, with the mark at the top; a stopped one stays stopped.
    pub fn clear(&mut self) -> u64
        ensures count { AtHistory self.old (λ h. result ≡ length (queued h)) }
        ensures after { AtHistory self.old (λ h. StandsFor self.new (h ++ event.Cleared ∷ [])) }
    {
        let discarded = self.entries.len() as u64;
        self.entries.clear();
        // Else messages that arrive later would come before the mark.
        self.ahead = 0;
        discarded
    }

    /// Discards every queued message, before and after a mark, removes the mark, starts the port,
    /// even if it was never stopped, and returns how many messages there were (22.5.2).
    pub fn start(&mut self) -> u64
        ensures count { AtHistory self.old (λ h. result ≡ length (queued h)) }
        ensures after { AtHistory self.old (λ h. StandsFor self.new (h ++ event.Started ∷ [])) }
    {
        let discarded = self.entries.len() as u64;
        self.entries.clear();
        // `ahead` stays as it is: only a halted port has a mark.
        self.status = Status::Started;
        discarded
    }

    /// Stops the port (22.5.3). Queued messages stay in the queue, and none of them is deliverable.
    /// On a halted port the mark moves to the top.
    pub fn stop(&mut self)
        ensures { AtHistory self.old (λ h. StandsFor self.new (h ++ event.Stopped ∷ [])) }
    {
        self.status = Status::Stopped;
    }

    /// Returns whether the port may send, that is, whether it is started (22.5.3 and 22.5.4
    /// disallow it otherwise).
    pub fn may_send(&self) -> bool
        ensures { IsTrue result ↔ (self.now.status ≡ status.Started) }
    {
        self.status == Status::Started
    }

    /// The number of deliverable messages: all of a started port, those ahead of the mark of a
    /// halted one, none of a stopped one.
    pub fn ahead(&self) -> u64
        ensures count { result ≡ self.now.ahead }
        ensures within { AtHistory self.now (λ h. gone h ≤ limit h) }
    {
        match self.status {
            Status::Started => self.entries.len() as u64,
            Status::Halted => self.ahead as u64,
            Status::Stopped => 0,
        }
    }

    /// The status: started, halted or stopped.
    ///
    /// Its contract also says that each queue stands for some history, so that no clause on
    /// histories is empty.
    pub fn status(&self) -> Status
        ensures status { result ≡ self.now.status }
        ensures history { HasHistory self.now }
    {
        self.status
    }

    /// The number of queued messages, before and after a mark.
    pub fn queued_len(&self) -> u64
        ensures { result ≡ length self.now.entries }
    {
        self.entries.len() as u64
    }

    /// The queued message at this place, with the oldest at 0. `None` if there are no more.
    pub fn queued_at(&self, place: u64) -> Option<&Env<M>>
        ensures { option_copied result ≡ slice_get self.now.entries place }
    {
        self.entries.get(place as usize)
    }

    /// The message that a receiving operation sees: the oldest one queued, if it is deliverable
    /// (22.2.2: only the top is looked at).
    pub fn top(&self) -> Option<&Env<M>>
        ensures { AtHistory self.now (λ h. option_copied result ≡ top h) }
    {
        if self.ahead() == 0 {
            None
        } else {
            self.entries.front()
        }
    }

    fn offers<W: Wanted<M>>(&self, wanted: &W, from: Option<u32>) -> bool
        ensures { AtHistory self.now (λ h. Offers (W.admits wanted.now) from h result) }
    {
        match self.top() {
            None => false,
            Some(env) => env.satisfies(wanted, from),
        }
    }
}
