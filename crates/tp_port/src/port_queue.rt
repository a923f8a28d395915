//! The queue of a message port, which keeps its history.
ghost use Rattle.std.specs.Prelude.{◌≡◌, ◌∷◌, ◌++◌, ◌≤◌, [], length, IfOk, OnOk, OnErr, IfErr, IsTrue, ◌↔◌, ◌-◌};
ghost use Rattle.std.specs.Prelude.{slice_get};
ghost use Rattle.std.specs.Option.{option_copied};
ghost use Rattle.tp_common.specs.declared.event.Event.TheVariants as event;
ghost use Rattle.tp_common.specs.declared.event.Status.TheVariants as status;
ghost use Rattle.tp_queue.specs.History.{Lawful, gone, limit, queued, status_of, top};
ghost use Rattle.std.specs.Borrow.{sem};
ghost use Rattle.tp_port.specs.Lending.{ends_checked};
ghost use Rattle.tp_queue.specs.Answers.{Checks, Receives, Triggers, halted_count};

use std::alloc::Global;
use std::marker::Model;
use tp_common::event::{Env, Event, Status, TriggerAnswer};
use tp_common::memory::Memory;
use tp_common::payload::{Payload, Wanted};
use tp_queue::queue::Queue;

/// A queue with its history (ES 201 873-1, 9.1; ES 201 873-4, port states). Contracts see it as
/// that history: the list of the port's events. Use it if your program keeps no list of them
/// itself.
///
/// The history alone defines what is queued, whether the port is started, halted or stopped, and
/// what is deliverable. The queue inside decides, and never searches the history.
#[derive(Drop)]
pub struct PortQueue<M: Payload> {
    events: Vec<Event<M>>,
    queue: Queue<M>,
    alloc: Global,
}

impl<M: Payload> Model for PortQueue<M> {
    ghost use Rattle.std.specs.Prelude.{List};
    ghost use Rattle.tp_common.specs.declared.event.Event.{Event};
    ghost use Rattle.tp_queue.specs.Queues.{StandsFor};

    ghost Value = { List (Event M) };

    ghost view = { λ q. q.events.items };

    ghost invariant = { λ q. StandsFor q.queue q.events.items };
}

impl<M: Payload> PortQueue<M> {
    /// The empty queue of a started port, as when its component is created (ES 201 873-1, 21.3.1).
    /// It allocates from `alloc` as messages arrive.
    pub fn new(alloc: Global) -> Self
        ensures { result ≡ [] }
    {
        PortQueue {
            events: Vec::new(alloc),
            queue: Queue::new(alloc),
            alloc,
        }
    }

    /// A message arrives at the end of the queue, whatever the status: a halted or stopped port
    /// queues too (9.1: a port is an unbounded first-in first-out queue).
    pub fn arrive(&mut self, env: Env<M>) -> Result<(), (Memory, Env<M>)>
        ensures ok { OnOk result (self.new ≡ self.old ++ event.Arrive env ∷ []) }
        ensures err { IfErr result (λ back. (back.1 ≡ env) × (self.new ≡ self.old)) }
        ensures lawful { Lawful self.new }
    {
        // Allocations come first: if one is refused, queue and history are unchanged.
        let Ok(twin) = env.copy(self.alloc) else {
            return Err((Memory, env));
        };
        if self.events.reserve(1).is_err() {
            return Err((Memory, env));
        }
        self.queue.arrive(env)?;
        self.events.push_reserved(Event::Arrive(twin));
        Ok(())
    }

    /// Takes the top message out if it is deliverable, `wanted` admits it and it comes from the
    /// sender `from`, if one is given (22.2.2). Otherwise it returns `None`, and nothing happens: a
    /// message below the top is never looked at.
    pub fn receive<W: Wanted<M>>(
        &mut self,
        wanted: &W,
        from: Option<u32>,
    ) -> Result<Option<Env<M>>, Memory>
        ensures ok { IfOk result (λ answer.
            Receives (W.admits wanted.now) from self.old answer self.new) }
        ensures err { OnErr result (self.new ≡ self.old) }
        ensures lawful { Lawful self.new }
    {
        let twin = match self.queue.check(wanted, from) {
            None => return Ok(None),
            Some(env) => env.copy(self.alloc)?,
        };
        // Before the queue changes, so that its event can always be noted.
        self.events.reserve(1)?;
        match self.queue.receive(wanted, from) {
            Some(env) => {
                self.events.push_reserved(Event::Took(twin));
                Ok(Some(env))
            }
            // There is a top that is wanted: it was copied just now.
            None => unreachable!(),
        }
    }

    /// Finds the top message as [`receive`](PortQueue::receive) does, and leaves it in the queue
    /// (22.4). The history notes that it was found.
    pub fn check<W: Wanted<M>>(
        &mut self,
        wanted: &W,
        from: Option<u32>,
    ) -> Result<Option<&Env<M>>, Memory>
        ensures* after { sem 𝓛 (ends_checked M.row self.entry result) }
        ensures found { IfOk result (λ answer.
            Checks (W.admits wanted.now) from self.old (option_copied answer)) }
    {
        let twin = match self.queue.check(wanted, from) {
            None => return Ok(None),
            Some(env) => env.copy(self.alloc)?,
        };
        self.events.push(Event::Found(twin))?;
        Ok(self.queue.top())
    }

    /// Takes the top message out if it is deliverable, whether it is wanted or not (22.2.3): it is
    /// received by the same test as in [`receive`](PortQueue::receive), and else discarded. If no
    /// message is deliverable, it returns `Nothing`, and nothing happens.
    pub fn trigger<W: Wanted<M>>(
        &mut self,
        wanted: &W,
        from: Option<u32>,
    ) -> Result<TriggerAnswer<M>, Memory>
        ensures ok { IfOk result (λ answer.
            Triggers (W.admits wanted.now) from self.old answer self.new) }
        ensures err { OnErr result (self.new ≡ self.old) }
        ensures lawful { Lawful self.new }
    {
        let twin = match self.queue.top() {
            None => return Ok(TriggerAnswer::Nothing),
            Some(env) => env.copy(self.alloc)?,
        };
        // Before the queue changes, so that its event can always be noted.
        self.events.reserve(1)?;
        match self.queue.trigger(wanted, from) {
            TriggerAnswer::Took(env) => {
                self.events.push_reserved(Event::Took(twin));
                Ok(TriggerAnswer::Took(env))
            }
            TriggerAnswer::Dropped(env) => {
                self.events.push_reserved(Event::Dropped(twin));
                Ok(TriggerAnswer::Dropped(env))
            }
            // There is a top: it was copied just now.
            TriggerAnswer::Nothing => unreachable!(),
        }
    }

    /// Discards every queued message, before and after a mark, and returns how many there were
    /// (22.5.1). A halted port stays halted, with the mark at the top; a stopped one stays stopped.
    pub fn clear(&mut self) -> Result<u64, Memory>
        ensures count { IfOk result (λ discarded. discarded ≡ length (queued self.old)) }
        ensures ok { OnOk result (self.new ≡ self.old ++ event.Cleared ∷ []) }
        ensures err { OnErr result (self.new ≡ self.old) }
        ensures lawful { Lawful self.new }
    {
        self.events.push(Event::Cleared)?;
        Ok(self.queue.clear())
    }

    /// Discards every queued message, before and after a mark, removes the mark, starts the port,
    /// even if it was never stopped, and returns how many messages there were (22.5.2).
    pub fn start(&mut self) -> Result<u64, Memory>
        ensures count { IfOk result (λ discarded. discarded ≡ length (queued self.old)) }
        ensures ok { OnOk result (self.new ≡ self.old ++ event.Started ∷ []) }
        ensures err { OnErr result (self.new ≡ self.old) }
        ensures lawful { Lawful self.new }
    {
        self.events.push(Event::Started)?;
        Ok(self.queue.start())
    }

    /// Stops the port (22.5.3). Queued messages stay in the queue, and none of them is deliverable.
    /// On a halted port the mark moves to the top.
    pub fn stop(&mut self) -> Result<(), Memory>
        ensures ok { OnOk result (self.new ≡ self.old ++ event.Stopped ∷ []) }
        ensures err { OnErr result (self.new ≡ self.old) }
        ensures lawful { Lawful self.new }
    {
        self.events.push(Event::Stopped)?;
        self.queue.stop();
        Ok(())
    }

    /// Halts a started port: puts the mark after the last queued message, and returns how many
    /// messages are ahead of it (22.5.4). These are still deliverable; later arrivals aren't. On a
    /// halted or stopped port it returns `None`, and only the history changes.
    pub fn halt(&mut self) -> Result<Option<u64>, Memory>
        ensures count { IfOk result (λ count. count ≡ halted_count (status_of self.old) self.old) }
        ensures ok { OnOk result (self.new ≡ self.old ++ event.Halted ∷ []) }
        ensures err { OnErr result (self.new ≡ self.old) }
        ensures lawful { Lawful self.new }
    {
        self.events.push(Event::Halted)?;
        Ok(self.queue.halt())
    }

    /// Returns whether the port may send, that is, whether it is started (22.5.3 and 22.5.4
    /// disallow it otherwise).
    pub fn may_send(&self) -> bool
        ensures { IsTrue result ↔ (status_of self.now ≡ status.Started) }
    {
        self.queue.may_send()
    }

    /// The number of deliverable messages: all of a started port, those ahead of the mark of a
    /// halted one, none of a stopped one.
    pub fn ahead(&self) -> u64
        ensures count { result ≡ limit self.now - gone self.now }
        ensures within { gone self.now ≤ limit self.now }
    {
        self.queue.ahead()
    }

    /// The status: started, halted or stopped.
    pub fn status(&self) -> Status
        ensures { result ≡ status_of self.now }
    {
        self.queue.status()
    }

    /// The number of queued messages, before and after a mark.
    pub fn queued_len(&self) -> u64
        ensures { result ≡ length (queued self.now) }
    {
        self.queue.queued_len()
    }

    /// The queued message at this place, with the oldest at 0. `None` if there are no more.
    pub fn queued_at(&self, place: u64) -> Option<&Env<M>>
        ensures { option_copied result ≡ slice_get (queued self.now) place }
    {
        self.queue.queued_at(place)
    }

    /// The message that a receiving operation sees: the oldest one queued, if it is deliverable
    /// (22.2.2: only the top is looked at).
    pub fn top(&self) -> Option<&Env<M>>
        ensures { option_copied result ≡ top self.now }
    {
        self.queue.top()
    }

    /// The history, the oldest event first.
    pub fn events(&self) -> &[Event<M>]
        ensures history { result.now ≡ self.now }
        ensures lawful { Lawful self.now }
    {
        self.events.as_slice()
    }
}
