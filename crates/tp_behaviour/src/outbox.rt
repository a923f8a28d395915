//! A component's senders.
ghost use Rattle.std.specs.Prelude.{◌≡◌, ◌≢◌, ◌↔◌, ◌<◌, [], ◌∷◌, ◌++◌, ℕ, All, Contains, IfErr, IsTrue, OnErr, OnOk};
ghost use Rattle.std.specs.Prelude.{IfSome, Some, length, slice_get, vec_capacity, vec_len};
ghost use Rattle.tp_inbox.specs.declared.entry.Entry.TheVariants as entry;
ghost use Rattle.tp_inbox.specs.History.{next_of};
ghost use Rattle.tp_inbox.specs.Desks.{adding};
ghost use Rattle.tp_inbox.specs.Ledgers.{SenderLedger};
ghost use Rattle.tp_inbox.specs.Places.{KeepsOtherRoutes};
ghost use Rattle.tp_behaviour.specs.Outboxes.{AreFiledAt, HasPut, IsAimed, IsRouteFull, IsHome, IsLevel, IsListed};
ghost use Rattle.tp_behaviour.specs.Outboxes.{LeadsBack, routes_of};

use indexmap::IndexMap;
use std::alloc::Global;
use std::marker::Model;
use std::sync::Wait;
use tp_common::memory::Memory;
use tp_config::port_type::RouteId;
use tp_inbox::desk::Desk;
use tp_inbox::owner::{FEW_ROUTES, Owner};
use tp_inbox::sender::{PutFault, Sender};
use tp_value::message::Message;

#[derive(Clone, Copy, Drop)]
pub(crate) struct RoutePlace {
    sender: usize,
    route_index: usize,
}

/// The senders of a component, at most one into each inbox. Contracts see them as a list.
#[derive(Drop)]
pub struct Outbox {
    senders: Vec<Sender>,
    places: IndexMap<RouteId, RoutePlace>,
    /// The places of the senders from the component to itself: at most one.
    loops: Vec<usize>,
}

impl Model for Outbox {
    ghost use Rattle.tp_value.specs.contracts.value.Value as value_contract;
    ghost use Rattle.std.specs.Coded.{codes};
    ghost use Rattle.std.specs.Prelude.{List};
    ghost use Rattle.tp_inbox.specs.Ledgers.{SenderLedger};
    ghost use Rattle.tp_behaviour.specs.Outboxes.{AreSendersFiled};

    ghost Value = { List SenderLedger };

    ghost coded = { Prim.hlevel (codes, value_contract.the_row.coded) };

    ghost view = { λ o. o.senders.items };

    ghost invariant = { λ o. AreSendersFiled o.senders.items o.places o.loops.items };
}

fn has_come(owner: &Owner, sender: &Sender) -> bool
    requires { sender.now.inbox.comp ≡ owner.now.inbox.comp }
    ensures { IsTrue result ↔ IsLevel owner.now.drained sender.now }
{
    for way in 0..sender.ways() {
        if owner.drained(sender.route(way)) != sender.count(way) {
            return false;
        }
    }
    true
}

fn way_of(sender: &Sender, route: RouteId) -> Option<usize>
    ensures { IfSome result (λ way. slice_get sender.now.routes way ≡ Some route) }
{
    for way in 0..sender.ways() {
        if sender.route(way) == route {
            return Some(way);
        }
    }
    None
}

fn place_among(senders: &[Sender], route: RouteId) -> Option<RoutePlace>
    ensures { IfSome result (λ place. (s : SenderLedger)
        × (slice_get senders.now place.sender ≡ Some s)
        × (slice_get s.routes place.route_index ≡ Some route)) }
{
    for sender in 0..senders.len() {
        if let Some(route_index) = way_of(&senders[sender], route) {
            return Some(RoutePlace {
                sender,
                route_index,
            });
        }
    }
    None
}

fn list(loops: &mut Vec<usize>, sender: &Sender, place: usize)
    requires { vec_len loops.old < vec_capacity loops.old }
    ensures { IsListed sender.now place loops.old.items loops.new.items }
{
    if sender.receiver().0 == sender.source().0 {
        loops.push_reserved(place);
    }
}

fn file(
    places: &mut IndexMap<RouteId, RoutePlace>,
    sender: &Sender,
    place: usize,
) -> Result<(), Memory>
    ensures filed { OnOk result
        (AreFiledAt (length sender.now.routes) sender.now.routes place places.new) }
    ensures others { KeepsOtherRoutes sender.now.routes places.old places.new }
    ensures aimed { IsAimed sender.now }
{
    for way in 0..sender.ways() {
        let here = RoutePlace {
            sender: place,
            route_index: way,
        };
        places.insert(sender.route(way), here)?;
    }
    Ok(())
}

impl Outbox {
    pub fn new(alloc: Global) -> Outbox
        ensures { result ≡ [] }
    {
        Outbox {
            senders: Vec::new(alloc),
            places: IndexMap::new(alloc),
            loops: Vec::new(alloc),
        }
    }

    /// Adds a sender into an inbox that none of the others leads to. After 50 `Memory` there is no
    /// further sender.
    pub fn add(&mut self, sender: Sender) -> Result<(), Memory>
        requires { All (λ s. s.inbox.comp ≢ sender.inbox.comp) self.old }
        ensures ok { OnOk result (self.new ≡ self.old ++ sender ∷ []) }
        ensures err { OnErr result (self.new ≡ self.old) }
    {
        let place = self.senders.len();
        // Allocations come first: after `file` none can be refused.
        self.senders.reserve(1)?;
        self.loops.reserve(1)?;
        file(&mut self.places, &sender, place)?;
        list(&mut self.loops, &sender, place);
        self.senders.push_reserved(sender);
        Ok(())
    }

    pub fn into_senders(self) -> Vec<Sender>
        ensures { result.items ≡ self }
    {
        let Outbox {
            senders,
            places: _,
            loops: _,
        } = self;
        senders
    }

    /// Returns whether everything that the component has sent to itself has arrived: on each route
    /// to itself, the owner has drained as much as was put there.
    pub fn is_level(&self, owner: &Owner) -> bool
        requires home { All (IsHome owner.now.inbox) self.now }
        ensures level { IsTrue result ↔ ((s : SenderLedger) → Contains self.now s → LeadsBack s
            → IsLevel owner.now.drained s) }
    {
        for place in &self.loops {
            let sender = &self.senders[*place];
            if !has_come(owner, sender) {
                return false;
            }
        }
        true
    }

    fn route_place(&self, route: RouteId) -> RoutePlace
        requires { Contains (routes_of self.now) route }
        ensures { (s : SenderLedger) × (slice_get self.now result.sender ≡ Some s)
            × (slice_get s.routes result.route_index ≡ Some route) }
    {
        if self.places.len() <= FEW_ROUTES {
            if let Some(place) = place_among(self.senders.as_slice(), route) {
                return place;
            }
        }
        match self.places.get(&route) {
            Some(place) => *place,
            // Each route of each sender is filed, and this is one of them.
            None => unreachable!(),
        }
    }

    /// Sends on this route, by [`Sender::send`] of the sender that has it, whose refusals it
    /// returns.
    pub fn send<R: Wait>(
        &mut self,
        rt: &R,
        desk: &mut Desk,
        route: RouteId,
        message: Message,
    ) -> Result<(), (PutFault, Message)>
        requires { Contains (routes_of self.old) route }
        ensures ok { OnOk result ((n : ℕ)
            × HasPut route (next_of desk.old.log message) n self.old self.new
            × (desk.new ≡ adding desk.old (entry.Sent route n (next_of desk.old.log message)))) }
        ensures err { OnErr result ((self.new ≡ self.old) × (desk.new ≡ desk.old)) }
        ensures back { IfErr result (λ back. back.1 ≡ message) }
        ensures limit { IfErr result (λ back.
            back.0 ≡ PutFault.Limit → IsRouteFull route self.old) }
    {
        let place = self.route_place(route);
        self.senders[place.sender].send(rt, desk, place.route_index, message)
    }
}
