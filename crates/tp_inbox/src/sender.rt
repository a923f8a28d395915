//! A component's sender into one inbox, with its ledger.
ghost use Rattle.std.specs.Prelude.{◌≡◌, ◌≢◌, ◌<◌, ◌≤◌, ◌↔◌, [], ◌∷◌, length, All, AllPairs, IfErr, IfOk, OnErr, OnOk};
ghost use Rattle.std.specs.Arc.{arc_value};
ghost use Rattle.crossbeam_queue.specs.SegTies.{IsSegPassOf};
ghost use Rattle.tp_inbox.specs.declared.entry.Entry.TheVariants as entry;
ghost use Rattle.tp_inbox.specs.History.{next_of};
ghost use Rattle.tp_inbox.specs.Desks.{adding};
ghost use Rattle.tp_inbox.specs.Rule.{sender_pass};
ghost use Rattle.tp_inbox.specs.InboxEndFields.{inbox_of};
ghost use Rattle.tp_inbox.specs.Ledgers.{end_of, extended, first_sender, put_on_way, putting};
ghost use Rattle.tp_inbox.specs.Noted.{IsShortType};
ghost use Rattle.tp_inbox.specs.Routed.{route_at};

use crate::channel::Channel;
use crate::desk::Desk;
use crate::envelope::InboxEnvelope;
use crate::noted_message::NotedMessage;
use crate::rule::{InboxPass, Put, Takeover};
use crate::stamped::Stamped;
use std::alloc::Global;
use std::marker::Model;
use std::sync::{Arc, Wait};
use thiserror::Error;
use tp_common::memory::Memory;
use tp_config::port_type::{CompId, RouteId};
use tp_value::message::Message;

/// The maximum number of messages on a route.
pub const ROUTE_LIMIT: u64 = 100_000;

/// Why a message was not put.
#[derive(Clone, Copy, Debug, Error)]
pub enum PutFault {
    /// 15 Limit: the route has taken [`ROUTE_LIMIT`] messages.
    #[error("too many messages on one route")]
    Limit,
    /// 50 Memory: an allocation was refused.
    #[error("out of memory")]
    Memory,
}

/// The sender of one component into one inbox, on all routes from one to the other. Contracts see
/// it as its inbox, the component, the routes and its ledger: the list of the messages that it has
/// put, in order, with their routes, numbers and stamps. The ledger is what its pass knows, in
/// contracts alone: a sender itself keeps only the number of messages on each route.
///
/// It may be moved into a thread of its own. The order of what different senders put is open.
#[derive(Drop)]
pub struct Sender {
    pub(crate) channel: Arc<Channel, Global>,
    pub(crate) pass: InboxPass,
    /// The component that sends with it.
    pub(crate) source: CompId,
    pub(crate) places: Vec<u32>,
    pub(crate) counts: Vec<u64>,
}

impl Model for Sender {
    ghost use Rattle.std.specs.Arc.{arc_value};
    ghost use Rattle.tp_value.specs.contracts.value.Value as value_contract;
    ghost use Rattle.std.specs.Coded.{codes};
    ghost use Rattle.std.specs.Prelude.{map};
    ghost use Rattle.tp_inbox.specs.Ledgers.{SenderLedger};

    ghost Value = { SenderLedger };

    ghost coded = { Prim.hlevel (codes, value_contract.the_row.coded) };

    ghost use Rattle.tp_inbox.specs.Routed.{posted_of, route_at};
    ghost use Rattle.tp_inbox.specs.InboxEndFields.{inbox_of, IsSender};

    ghost view = { λ s. record {
      inbox = inbox_of (arc_value s.channel);
      source = s.source;
      routes = map (route_at (arc_value s.channel).routes.items) s.places.items;
      ledger = map (posted_of (arc_value s.channel).routes.items) s.pass.me.view.client.put;
    } };

    ghost invariant = { IsSender };
}

impl Sender {
    /// A sender with this one route that has put nothing. Its pass has this route. 50 `Memory` also
    /// if the route has a place of 2^32 or more.
    pub(crate) fn begin(
        alloc: Global,
        channel: Arc<Channel, Global>,
        pass: InboxPass,
        place: usize,
    ) -> Result<Sender, Memory>
        requires queue { IsSegPassOf (arc_value channel).queue pass }
        requires view { pass.me.view.client ≡ sender_pass (place ∷ []) [] }
        requires place { place < length (arc_value channel).routes.items }
        ensures { IfOk result (λ s. s ≡ first_sender (inbox_of (arc_value channel))
            (route_at (arc_value channel).routes.items place)) }
    {
        let source = channel.routes[place].source;
        let Ok(place) = u32::try_from(place) else {
            return Err(Memory);
        };
        let mut places = Vec::with_capacity(alloc, 1)?;
        let mut counts = Vec::with_capacity(alloc, 1)?;
        places.push_reserved(place);
        counts.push_reserved(0);
        Ok(Sender {
            channel,
            pass,
            source,
            places,
            counts,
        })
    }

    /// Takes over a route that it doesn't have, from a pass that has put nothing on it. It has put
    /// nothing itself. 50 `Memory` also if the route has a place of 2^32 or more.
    pub(crate) fn extend(&mut self, other: InboxPass, place: usize) -> Result<(), Memory>
        requires queue { IsSegPassOf self.old.inbox.queue other }
        requires view { other.me.view.client ≡ sender_pass (place ∷ []) [] }
        requires place { place < length self.old.inbox.routes }
        requires apart { All (λ r. r ≢ route_at self.old.inbox.routes place) self.old.routes }
        requires fresh { self.old.ledger ≡ [] }
        ensures { OnOk result (self.new
            ≡ extended self.old (route_at self.old.inbox.routes place)) }
    {
        let Ok(place) = u32::try_from(place) else {
            return Err(Memory);
        };
        self.places.reserve(1)?;
        self.counts.reserve(1)?;
        self.channel.queue.absorb::<Takeover>(&mut self.pass, other);
        self.places.push_reserved(place);
        self.counts.push_reserved(0);
        Ok(())
    }

    /// Puts a stamped message into the inbox on one of its routes, and returns its number there,
    /// from 0. The inbox then holds it, after everything that this sender has put before on any of
    /// its routes, until the owner takes it out.
    ///
    /// 15 `Limit` if and only if the route has taken [`ROUTE_LIMIT`] messages; 50 `Memory` also if
    /// the number of the message's type is 65,536 or more. Either returns the message, and leaves
    /// the sender and the inbox as before.
    pub fn put<R: Wait>(
        &mut self,
        rt: &R,
        way: usize,
        stamped: Stamped,
    ) -> Result<u64, (PutFault, Stamped)>
        requires { way < length self.old.routes }
        ensures same { end_of self.new ≡ end_of self.old }
        ensures number { IfOk result (λ number. number ≡ length (put_on_way self.old way)) }
        ensures ok { OnOk result (self.new ≡ putting self.old way stamped) }
        ensures room { OnOk result (length (put_on_way self.old way) < 100000) }
        ensures short { OnOk result (IsShortType stamped.message.ty) }
        ensures err { IfErr result (λ back. (back.1 ≡ stamped) × (self.new ≡ self.old)) }
        ensures limit { IfErr result (λ back.
            back.0 ≡ PutFault.Limit ↔ 100000 ≤ length (put_on_way self.old way)) }
    {
        let number = self.count(way);
        if number >= ROUTE_LIMIT {
            return Err((PutFault::Limit, stamped));
        }
        let stamped = match NotedMessage::of(stamped) {
            Ok(stamped) => stamped,
            Err(back) => return Err((PutFault::Memory, back)),
        };
        let envelope = InboxEnvelope {
            place: self.places[way],
            number: number as u32,
            stamped,
        };
        let queue = &self.channel.queue;
        match queue.push_as::<Put, R>(rt, &mut self.pass, envelope) {
            Ok(()) => {
                self.counts[way] = number + 1;
                // After the push, so that an owner that it wakes finds the message.
                self.channel.announce(rt);
                Ok(number)
            }
            Err(back) => Err((PutFault::Memory, back.stamped.into_stamped())),
        }
    }

    /// Sends a message: notes it at this desk under the next stamp of its history, and puts it on
    /// this one of the routes. Both happen or neither. The desk belongs to one thread, so that no
    /// thread sees the note before the message is put.
    ///
    /// 15 `Limit` only if the route is full; 50 `Memory` also if no stamp is left. Either returns
    /// the message, and nothing is put or noted.
    pub fn send<R: Wait>(
        &mut self,
        rt: &R,
        desk: &mut Desk,
        way: usize,
        message: Message,
    ) -> Result<(), (PutFault, Message)>
        requires { way < length self.old.routes }
        ensures desk { OnOk result (desk.new
            ≡ adding desk.old (entry.Sent (route_at self.old.routes way)
            (length (put_on_way self.old way)) (next_of desk.old.log message))) }
        ensures sender { OnOk result (self.new
            ≡ putting self.old way (next_of desk.old.log message)) }
        ensures err { OnErr result ((desk.new ≡ desk.old) × (self.new ≡ self.old)) }
        ensures back { IfErr result (λ back. back.1 ≡ message) }
        ensures limit { IfErr result (λ back.
            back.0 ≡ PutFault.Limit → 100000 ≤ length (put_on_way self.old way)) }
    {
        let (route, number) = (self.route(way), self.count(way));
        // Noted first: a note can be taken back, and a message that was put can't.
        let stamped = match desk.note_sending(route, number, message) {
            Ok(stamped) => stamped,
            Err((_, back)) => return Err((PutFault::Memory, back)),
        };
        let Err((fault, back)) = self.put(rt, way, stamped) else {
            return Ok(());
        };
        desk.withdraw();
        Err((fault, back.message))
    }

    /// The number of its routes. Each leads to the inbox's component, and no two are equal.
    pub fn ways(&self) -> usize
        ensures count { result ≡ length self.now.routes }
        ensures aimed { All (λ r. r.to.comp ≡ self.now.inbox.comp) self.now.routes }
        ensures apart { AllPairs (λ r q. r ≢ q) self.now.routes }
    {
        self.places.len()
    }

    /// The number of messages that it has put on this one of its routes.
    pub fn count(&self, way: usize) -> u64
        requires { way < length self.now.routes }
        ensures { result ≡ length (put_on_way self.now way) }
    {
        self.counts[way]
    }

    /// This one of its routes.
    pub fn route(&self, way: usize) -> RouteId
        requires { way < length self.now.routes }
        ensures { result ≡ route_at self.now.routes way }
    {
        self.channel.routes[self.places[way] as usize]
    }

    /// The component whose inbox it puts into.
    pub fn receiver(&self) -> CompId
        ensures { result ≡ self.now.inbox.comp }
    {
        self.channel.comp
    }

    /// The component that sends with it.
    pub fn source(&self) -> CompId
        ensures { result ≡ self.now.source }
    {
        self.source
    }
}
