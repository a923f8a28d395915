//! The owner of an inbox.
ghost use Rattle.std.specs.Prelude.{◌≡◌, ◌++◌, ◌<◌, List, None, Some, length, IfOk, OnErr, OnOk, option_map};
ghost use Rattle.crossbeam_queue.specs.SegTies.{IsSegPassOf};
ghost use Rattle.tp_inbox.specs.declared.entry.Entry.{Entry};
ghost use Rattle.tp_inbox.specs.History.{arrivals};
ghost use Rattle.tp_inbox.specs.Desks.{adding, adding_all};
ghost use Rattle.tp_inbox.specs.Rule.{Sound};
ghost use Rattle.tp_inbox.specs.Envelopes.{EndsWith, one_of};
ghost use Rattle.tp_inbox.specs.InboxEndFields.{Fetches, GivesNext, IsTakenCount, KeepsRoutes};
ghost use Rattle.tp_inbox.specs.Routed.{AreArrivals, arrival_of};
ghost use Rattle.tp_inbox.specs.Ledgers.{IsDeskOf, drained_on};
ghost use Rattle.tp_inbox.specs.Places.{AreFiled, route_eq};
ghost use Rattle.indexmap.specs.IndexMap.{get};

use crate::channel::Channel;
use crate::desk::Desk;
use crate::envelope::InboxEnvelope;
use crate::noted_message::NotedMessage;
use crate::rule::{InboxPass, InboxQueue, TakeOut};
use crate::stamped::Stamped;
use indexmap::IndexMap;
use std::alloc::Global;
use std::marker::Model;
use std::sync::{Arc, Wait};
use tp_common::event::Env;
use tp_common::memory::Memory;
use tp_config::port_type::{CompId, RouteId};
use tp_floor::notifier::Woken;
use tp_value::message::Message;

/// The owner of an inbox. Contracts see it as its inbox and the arrivals that it has drained, in
/// order.
#[derive(Drop)]
pub struct Owner {
    pub(crate) channel: Arc<Channel, Global>,
    pub(crate) pass: InboxPass,
    /// An envelope that was taken out of the queue and couldn't be moved.
    pub(crate) hand: Option<InboxEnvelope>,
    pub(crate) taken: u64,
    /// The next stamp of the desk after the last drain, if it has sent nothing since one that found
    /// the inbox empty. At first the first stamp, because a new inbox is empty.
    pub(crate) stamp: Option<u32>,
    pub(crate) counts: Vec<u64>,
    pub(crate) places: IndexMap<RouteId, usize>,
    /// Room for the components whose senders come back.
    pub(crate) sources: Vec<CompId>,
    /// Room for what is left in the inbox at the end.
    pub(crate) rest: Vec<(u32, Env<Message>, u32)>,
}

impl Model for Owner {
    ghost use Rattle.std.specs.Arc.{arc_value};
    ghost use Rattle.tp_value.specs.contracts.value.Value as value_contract;
    ghost use Rattle.std.specs.Coded.{codes};
    ghost use Rattle.tp_inbox.specs.Ledgers.{Draining};

    ghost Value = { Draining };

    ghost coded = { Prim.hlevel (codes, value_contract.the_row.coded) };

    ghost use Rattle.tp_inbox.specs.InboxEndFields.{IsOwner, drained_of, inbox_of};

    ghost view = { λ s. record { inbox = inbox_of (arc_value s.channel); drained = drained_of s } };

    ghost invariant = { IsOwner };
}

pub(crate) fn take_out<R: Wait>(
    rt: &R,
    queue: &InboxQueue,
    pass: &mut InboxPass,
) -> Option<InboxEnvelope>
    requires queue { IsSegPassOf queue.now pass.old }
    requires sound { Sound pass.old.me.view.client }
    ensures queue { IsSegPassOf queue.now pass.new }
    ensures sound { Sound pass.new.me.view.client }
    ensures same { KeepsRoutes pass.old.me.view.client pass.new.me.view.client }
    ensures found { Fetches pass.old.me.view.client result pass.new.me.view.client }
{
    queue.pop_as::<TakeOut, R>(rt, pass)
}

/// The envelope in hand, or else the next of the queue, which is counted as taken out. `None` if
/// there is neither.
fn next_envelope<R: Wait>(
    rt: &R,
    queue: &InboxQueue,
    pass: &mut InboxPass,
    hand: &mut Option<InboxEnvelope>,
    taken: &mut u64,
) -> Option<InboxEnvelope>
    requires queue { IsSegPassOf queue.now pass.old }
    requires sound { Sound pass.old.me.view.client }
    requires ends { EndsWith pass.old.me.view.client.taken (one_of hand.old) }
    requires counted { IsTakenCount taken.old pass.old.me.view.client }
    ensures queue { IsSegPassOf queue.now pass.new }
    ensures sound { Sound pass.new.me.view.client }
    ensures same { KeepsRoutes pass.old.me.view.client pass.new.me.view.client }
    ensures hand { hand.new ≡ None }
    ensures counted { IsTakenCount taken.new pass.new.me.view.client }
    ensures found { GivesNext pass.old.me.view.client hand.old result pass.new.me.view.client }
{
    // Before the queue, so that messages keep their order.
    if hand.is_some() {
        return hand.take();
    }
    let envelope = take_out(rt, queue, pass)?;
    // The notifier counts what was announced in the same way.
    *taken = taken.wrapping_add(1);
    Some(envelope)
}

/// Moves an envelope to its port. After 50 `Memory` the envelope is in hand; none was before.
fn deliver(
    channel: &Channel,
    hand: &mut Option<InboxEnvelope>,
    desk: &mut Desk,
    envelope: InboxEnvelope,
) -> Result<(), Memory>
    requires place { envelope.place < length channel.now.routes.items }
    requires ports { desk.old.ports ≡ channel.now.ports }
    requires hand { hand.old ≡ None }
    ensures ok { OnOk result ((hand.new ≡ None)
        × (desk.new ≡ adding desk.old (arrival_of channel.now.routes.items envelope))) }
    ensures err { OnErr result ((hand.new ≡ Some envelope) × (desk.new ≡ desk.old)) }
{
    let (place, number) = (envelope.place, envelope.number);
    let (port, env, stamp) = channel.addressed(envelope);
    match desk.arrive(port, env, stamp) {
        Ok(()) => Ok(()),
        Err((memory, back)) => {
            let stamped = Stamped {
                stamp,
                message: back.msg,
            };
            // The message came out of a `NotedMessage`, so that its type has room in one.
            let Ok(stamped) = NotedMessage::of(stamped) else {
                unreachable!()
            };
            *hand = Some(InboxEnvelope {
                place,
                number,
                stamped,
            });
            Err(memory)
        }
    }
}

fn in_hand(hand: &Option<InboxEnvelope>) -> Option<Woken>
    ensures { result ≡ option_map (λ _. Woken.Arrived) hand.now }
{
    if hand.is_some() {
        return Some(Woken::Arrived);
    }
    None
}

/// So many routes are looked through, which takes less than a search in a table.
pub const FEW_ROUTES: usize = 4;

fn place_of(routes: &[RouteId], places: &IndexMap<RouteId, usize>, route: RouteId) -> Option<usize>
    requires { AreFiled (length routes.now) routes.now places.now }
    ensures { result ≡ get route_eq places.now route }
{
    if routes.len() > FEW_ROUTES {
        return places.get(&route).copied();
    }
    for place in 0..routes.len() {
        if routes[place] == route {
            return Some(place);
        }
    }
    None
}

impl Owner {
    /// Moves the envelope in hand, or else the next of the queue, to its port. Returns false if
    /// there is neither. After 50 `Memory` the envelope is in hand.
    fn move_next<R: Wait>(&mut self, rt: &R, desk: &mut Desk) -> Result<bool, Memory>
        requires desk { IsDeskOf self.old.inbox desk.old }
        requires arrivals { arrivals desk.old.log ≡ self.old.drained }
        ensures inbox { self.new.inbox ≡ self.old.inbox }
        ensures ok { OnOk result ((more : List Entry)
            × (desk.new ≡ adding_all desk.old more)
            × (self.new.drained ≡ self.old.drained ++ more)
            × (arrivals more ≡ more)) }
        ensures err { OnErr result ((desk.new ≡ desk.old) × (self.new ≡ self.old)) }
        ensures drained { AreArrivals self.new.inbox.routes self.new.drained }
    {
        let queue = &self.channel.queue;
        let found = next_envelope(rt, queue, &mut self.pass, &mut self.hand, &mut self.taken);
        let Some(envelope) = found else {
            return Ok(false);
        };
        let (place, number) = (envelope.place as usize, envelope.number as u64);
        deliver(&self.channel, &mut self.hand, desk, envelope)?;
        self.counts[place] = number + 1;
        Ok(true)
    }

    /// Moves what has arrived in the inbox to the ports of the desk, in the order of the queue, and
    /// returns the number of messages moved. Each move is an `Arrive` in the desk's history.
    ///
    /// After 50 `Memory` the desk has what was moved, and the inbox the rest, in its order; the
    /// next drain goes on with it.
    pub fn drain<R: Wait>(&mut self, rt: &R, desk: &mut Desk) -> Result<u64, Memory>
        requires desk { IsDeskOf self.old.inbox desk.old }
        requires arrivals { arrivals desk.old.log ≡ self.old.drained }
        ensures inbox { self.new.inbox ≡ self.old.inbox }
        ensures moved { (more : List Entry)
            × (desk.new ≡ adding_all desk.old more)
            × (self.new.drained ≡ self.old.drained ++ more)
            × IfOk result (λ count. count ≡ length more) }
        ensures arrivals { arrivals desk.new.log ≡ self.new.drained }
        ensures drained { AreArrivals self.new.inbox.routes self.new.drained }
    {
        self.drain_some(rt, desk, u64::MAX)
    }

    /// [`Owner::drain`] of at most this many messages.
    pub fn drain_some<R: Wait>(&mut self, rt: &R, desk: &mut Desk, most: u64) -> Result<u64, Memory>
        requires desk { IsDeskOf self.old.inbox desk.old }
        requires arrivals { arrivals desk.old.log ≡ self.old.drained }
        ensures inbox { self.new.inbox ≡ self.old.inbox }
        ensures moved { (more : List Entry)
            × (desk.new ≡ adding_all desk.old more)
            × (self.new.drained ≡ self.old.drained ++ more)
            × IfOk result (λ count. count ≡ length more) }
        ensures arrivals { arrivals desk.new.log ≡ self.new.drained }
        ensures drained { AreArrivals self.new.inbox.routes self.new.drained }
    {
        let had = desk.entry_count();
        let was_current = self.is_current(desk);
        for _ in 0..most {
            if !self.move_next(rt, desk)? {
                self.mark(desk);
                return Ok(desk.entry_count() - had);
            }
        }
        if was_current {
            self.mark(desk);
        }
        Ok(desk.entry_count() - had)
    }

    /// Keeps the desk's next stamp, for [`Owner::is_current`].
    fn mark(&mut self, desk: &Desk)
        ensures { self.new ≡ self.old }
    {
        self.stamp = desk.stamp();
    }

    /// Returns whether this desk has sent nothing since a drain found the inbox empty, or at all: a
    /// sending would have moved its next stamp on.
    pub fn is_current(&self, desk: &Desk) -> bool
        ensures { AreArrivals self.now.inbox.routes self.now.drained }
    {
        self.stamp == desk.stamp()
    }

    /// The number of messages of this route that this owner has drained, over all drains: 0 for a
    /// route that leads to another component. It searches no history.
    pub fn drained(&self, route: RouteId) -> u64
        ensures { result ≡ drained_on self.now route }
    {
        match place_of(self.channel.routes.as_slice(), &self.places, route) {
            Some(place) => self.counts[place],
            None => 0,
        }
    }

    /// Waits until the inbox holds a message, or is closed, or no other living behaviour is awake.
    /// A message that a drain couldn't move counts as in the inbox.
    pub fn wait<R: Wait>(&self, rt: &R) -> Woken {
        if let Some(found) = in_hand(&self.hand) {
            return found;
        }
        self.channel.wait_past(rt, self.taken)
    }
}

/// A handle that closes an inbox.
#[derive(Drop)]
pub struct Closer {
    pub(crate) channel: Arc<Channel, Global>,
}

impl Closer {
    /// Closes the inbox: a wait of its owner, now or later, finds only what is there already.
    /// Messages can be put and drained as before.
    pub fn close<R: Wait>(&self, rt: &R) {
        self.channel.close(rt);
    }
}
