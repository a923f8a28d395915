//! The notifier of an inbox: how many pushes were announced, and whether the owner rests. An owner
//! rests while no branch of its `alt` can be chosen yet (ES 201 873-1, 20.2). The inbox lets it
//! sleep and wakes it; the notifier says when, and why.
ghost use Rattle.std.specs.Prelude.{◌≡◌, ◌<◌, ◌≤◌, ◌↔◌, ◌+◌, ◌%◌, ◌^◌, ℕ, true, false, None, Some};
ghost use Rattle.std.specs.Prelude.{is_some, IfSome, IsSomeAnd, if◌then◌else◌};
ghost use Rattle.crossbeam_utils.specs.Seq.{cell_view};

use crate::floor::{Floor, FloorPlace};
use crate::hook::RaceHook;
use std::alloc::Global;
use std::marker::Model;
use std::sync::{Arc, Wait};

/// The result of a wait.
#[derive(Clone, Copy, Debug, PartialEq, Eq)]
pub enum Woken {
    Arrived,
    /// It holds none, and was closed.
    Closed,
    /// It holds none, it is open, and no other living behaviour is awake.
    Last,
}

/// The notifier of an inbox, kept under the inbox's lock. Contracts see it as how many pushes were
/// announced, whether the inbox was closed, and how many an owner that rests has taken out. It
/// contains no messages. A call that announces a push or closes the inbox ends the owner's rest if
/// there is now something for it, and returns that the owner is to be woken. So no owner rests
/// while there is something for it. The owner's place on the floor counts as at rest while the
/// owner rests, and only then. A call that changes the floor's counts calls the given hook between
/// its load of them and its exchange.
#[derive(Drop)]
pub struct Notifier {
    announced: u64,
    closed: bool,
    /// If the owner rests: how many it has taken out. It is woken after more were announced.
    awaits: Option<u64>,
    place: FloorPlace,
}

impl Model for Notifier {
    ghost use Rattle.tp_floor.specs.NotifierState.{NotifierState};

    ghost Value = { NotifierState };

    ghost use Rattle.tp_floor.specs.Notifiers.{notifier_state, IsNotifier};

    ghost view = { notifier_state };

    ghost invariant = { IsNotifier };
}

impl Notifier {
    /// The notifier of an open inbox without announcements. Its owner is awake, and has a place on
    /// this floor.
    pub fn new(floor: Arc<Floor, Global>) -> Notifier
        ensures announced { result.announced ≡ 0 }
        ensures closed { result.closed ≡ false }
        ensures awaits { result.awaits ≡ None }
    {
        Notifier {
            announced: 0,
            closed: false,
            awaits: None,
            place: FloorPlace::on(floor),
        }
    }

    /// One more push was announced. Returns true if the owner rested and hasn't taken so many out:
    /// then it rests no more, and is to be woken.
    pub fn announce<R: Wait, S: RaceHook>(&mut self, rt: &R, hook: &mut S) -> bool
        ensures announced { self.new.announced ≡ (self.old.announced + 1) % 2 ^ 64 }
        ensures closed { self.new.closed ≡ self.old.closed }
        ensures wakes { result ≡ true
            ↔ IsSomeAnd self.old.awaits (λ taken. taken < self.new.announced) }
        ensures awaits { self.new.awaits ≡ (if result then None else self.old.awaits) }
    {
        // No run reaches 2^64 pushes. With wrapping, this need not be proved.
        let announced = self.announced.wrapping_add(1);
        let wakes = match self.awaits {
            Some(taken) => announced > taken,
            None => false,
        };
        if wakes {
            // It counts as awake before it is woken: in between nobody takes it for resting.
            self.place.rise(rt, hook);
            self.awaits = None;
        }
        self.announced = announced;
        wakes
    }

    /// The inbox is closed from now on. Returns true if the owner rested: then it rests no more,
    /// and is to be woken.
    pub fn close<R: Wait, S: RaceHook>(&mut self, rt: &R, hook: &mut S) -> bool
        ensures announced { self.new.announced ≡ self.old.announced }
        ensures closed { self.new.closed ≡ true }
        ensures wakes { result ≡ is_some self.old.awaits }
        ensures awaits { self.new.awaits ≡ None }
    {
        let wakes = self.awaits.is_some();
        if wakes {
            self.place.rise(rt, hook);
        }
        self.awaits = None;
        self.closed = true;
        wakes
    }

    pub fn look(&self, taken: u64) -> Option<Woken>
        ensures arrived { result ≡ Some Woken.Arrived ↔ taken < self.now.announced }
        ensures closed { result ≡ Some Woken.Closed
            ↔ (self.now.announced ≤ taken) × (self.now.closed ≡ true) }
        ensures nothing { result ≡ None ↔ (self.now.announced ≤ taken) × (self.now.closed ≡ false) }
    {
        // Arrivals take precedence over the closing, because a closed inbox is still emptied.
        if self.announced > taken {
            return Some(Woken::Arrived);
        }
        if self.closed {
            return Some(Woken::Closed);
        }
        None
    }

    /// The owner, which has taken so many out, rests from now on, unless no other living behaviour
    /// is awake: then it returns that. An owner that rests already isn't counted again. There must
    /// be nothing for it: no more were announced than it has taken out, and the inbox is open.
    pub fn begin_rest<R: Wait, S: RaceHook>(
        &mut self,
        rt: &R,
        hook: &mut S,
        taken: u64,
    ) -> Option<Woken>
        requires { (self.old.announced ≤ taken) × (self.old.closed ≡ false) }
        ensures announced { self.new.announced ≡ self.old.announced }
        ensures closed { self.new.closed ≡ self.old.closed }
        ensures told { result ≡ (if is_some self.new.awaits then None else Some Woken.Last) }
        ensures awaits { IfSome self.new.awaits (λ most. most ≡ taken) }
    {
        if self.awaits.is_none() && !self.place.begin_rest(rt, hook) {
            return Some(Woken::Last);
        }
        self.awaits = Some(taken);
        None
    }

    pub fn rests(&self) -> bool
        ensures rests { result ≡ is_some self.now.awaits }
        ensures asleep { IfSome self.now.awaits (λ taken.
            (self.now.announced ≤ taken) × (self.now.closed ≡ false)) }
    {
        self.awaits.is_some()
    }

    pub fn woken(&self, taken: u64) -> Woken
        ensures arrived { result ≡ Woken.Arrived ↔ taken < self.now.announced }
        ensures closed { result ≡ Woken.Closed ↔ self.now.announced ≤ taken }
    {
        if self.announced > taken {
            Woken::Arrived
        } else {
            Woken::Closed
        }
    }
}
