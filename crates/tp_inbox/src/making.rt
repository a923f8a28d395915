//! The making of an inbox.
ghost use Rattle.std.specs.Prelude.{◌≡◌, ◌≢◌, ◌<◌, ◌+◌, [], ◌∷◌, All, AllPairs, IfNone, IfOk, IfSome, OnOk, length};
ghost use Rattle.std.specs.Prelude.{map};
ghost use Rattle.std.specs.List.{HoldsAt};
ghost use Rattle.tp_config.specs.Setup.{IsComponent, ports_at};
ghost use Rattle.tp_config.specs.declared.port_type.RouteId.{RouteId};
ghost use Rattle.tp_config.specs.Routes.{routes_into};
ghost use Rattle.tp_inbox.specs.Rule.{owner_pass, sender_pass};
ghost use Rattle.tp_inbox.specs.Routed.{AreRoutes, sources_of};
ghost use Rattle.tp_inbox.specs.Places.{AreFiled};
ghost use Rattle.tp_inbox.specs.Ledgers.{AreMade, AreSenders, new_sender};
ghost use Rattle.tp_inbox.specs.InboxEndFields.{inbox_of};
ghost use Rattle.crossbeam_queue.specs.SegTies.{IsSegPassOf};
ghost use Rattle.std.specs.Arc.{arc_value};

use crate::channel::Channel;
use crate::owner::{Closer, Owner};
use crate::rule::{InboxPass, InboxQueue, Route};
use crate::sender::Sender;
use indexmap::IndexMap;
use std::alloc::Global;
use std::sync::Arc;
use tp_common::memory::Memory;
use tp_config::config::Config;
use tp_config::port_type::{CompId, RouteId};
use tp_floor::floor::Floor;

fn routes_of(config: &Config, comp: CompId) -> Result<Vec<RouteId>, Memory>
    ensures routes { IfOk result (λ v. v.items ≡ routes_into config.now comp) }
    ensures are { IfOk result (λ v. AreRoutes
        comp
        (length (ports_at config.now.types config.now.components comp))
        v.items) }
{
    let routes = config.routes_into(comp)?;
    Ok(routes)
}

fn places_of(alloc: Global, routes: &[RouteId]) -> Result<IndexMap<RouteId, usize>, Memory>
    requires { AllPairs (λ (r q : RouteId). r ≢ q) routes.now }
    ensures { IfOk result (λ places. AreFiled (length routes.now) routes.now places) }
{
    let count = routes.len();
    let mut places = IndexMap::with_capacity(alloc, count)?;
    for place in 0..count {
        places.insert(routes[place], place)?;
    }
    Ok(places)
}

fn sender_of(senders: &[Sender], source: CompId) -> Option<usize>
    ensures some { IfSome result (λ k. (k < length senders.now)
        × HoldsAt (λ s. s.source ≡ source) senders.now k) }
    ensures none { IfNone result (All (λ s. s.source ≢ source) senders.now) }
{
    // There are 64 components at most, so a list is enough.
    for index in 0..senders.len() {
        if senders[index].source().0 == source.0 {
            return Some(index);
        }
    }
    None
}

/// Gives the next route, with its pass, to the sender of the route's component, or to a new one if
/// there is none.
fn add_route(
    alloc: Global,
    channel: &Arc<Channel, Global>,
    senders: &mut Vec<Sender>,
    pass: InboxPass,
    place: usize,
) -> Result<(), Memory>
    requires queue { IsSegPassOf (arc_value channel.now).queue pass }
    requires view { pass.me.view.client ≡ sender_pass (place ∷ []) [] }
    requires place { place < length (arc_value channel.now).routes.items }
    requires senders { AreMade (inbox_of (arc_value channel.now)) place senders.old.items }
    ensures { OnOk result
        (AreMade (inbox_of (arc_value channel.now)) (place + 1) senders.new.items) }
{
    let route = channel.routes[place];
    match sender_of(senders.as_slice(), route.source) {
        Some(index) => senders[index].extend(pass, place),
        None => {
            let channel = Arc::try_clone(channel)?;
            let sender = Sender::begin(alloc, channel, pass, place)?;
            senders.push(sender)?;
            Ok(())
        }
    }
}

/// A sender for each component that has routes into this inbox, with all of these, in the order of
/// their first routes. Their passes are split off `pass`.
fn split(
    alloc: Global,
    channel: &Arc<Channel, Global>,
    pass: &mut InboxPass,
) -> Result<Vec<Sender>, Memory>
    requires queue { IsSegPassOf (arc_value channel.now).queue pass.old }
    requires fresh { pass.old.me.view.client ≡ owner_pass 0 [] [] }
    ensures queue { IfOk result (λ _. IsSegPassOf (arc_value channel.now).queue pass.new) }
    ensures split_off { IfOk result (λ _. pass.new.me.view.client
        ≡ owner_pass (length (arc_value channel.now).routes.items) [] []) }
    ensures senders { IfOk result (λ senders. senders.items
        ≡ map (new_sender (inbox_of (arc_value channel.now)))
        (sources_of (arc_value channel.now).routes.items)) }
{
    let count = channel.routes.len();
    let mut senders = Vec::new(alloc);
    for place in 0..count {
        let theirs = channel.queue.another::<Route>(pass);
        add_route(alloc, channel, &mut senders, theirs, place)?;
    }
    Ok(senders)
}

/// An owner that has drained nothing. The pass of each route was split off its pass.
fn begin_owner(
    alloc: Global,
    channel: Arc<Channel, Global>,
    pass: InboxPass,
) -> Result<Owner, Memory>
    requires queue { IsSegPassOf (arc_value channel).queue pass }
    requires split_off { pass.me.view.client
        ≡ owner_pass (length (arc_value channel).routes.items) [] [] }
    ensures inbox { IfOk result (λ owner. owner.inbox ≡ inbox_of (arc_value channel)) }
    ensures drained { IfOk result (λ owner. owner.drained ≡ []) }
{
    let count = channel.routes.len();
    let counts = Vec::from_elem(alloc, 0, count)?;
    let places = places_of(alloc, channel.routes.as_slice())?;
    let sources = Vec::with_capacity(alloc, count)?;
    let rest = Vec::with_capacity(alloc, 1)?;
    Ok(Owner {
        channel,
        pass,
        hand: None,
        taken: 0,
        // The first stamp of a desk: the inbox is empty, and the desk has sent nothing.
        stamp: Some(1),
        counts,
        places,
        sources,
        rest,
    })
}

/// The inbox of a component of the configuration: its owner, a sender for each component that has
/// routes into it, in the order of their first routes in [`Config::routes_into`], and its closer.
/// The floor is that of all behaviours of the run.
pub fn inbox(
    alloc: Global,
    config: &Config,
    comp: CompId,
    floor: &Arc<Floor, Global>,
) -> Result<(Owner, Vec<Sender>, Closer), Memory>
    requires { IsComponent config.now comp }
    ensures comp { IfOk result (λ r. r.0.inbox.comp ≡ comp) }
    ensures ports { IfOk result (λ r. r.0.inbox.ports
        ≡ length (ports_at config.now.types config.now.components comp)) }
    ensures routes { IfOk result (λ r. r.0.inbox.routes ≡ routes_into config.now comp) }
    ensures drained { IfOk result (λ r. r.0.drained ≡ []) }
    ensures senders { IfOk result (λ r. r.1.items
        ≡ map (new_sender r.0.inbox) (sources_of r.0.inbox.routes)) }
    ensures joins { IfOk result (λ r. AreSenders r.0.inbox r.1.items) }
{
    let routes = routes_of(config, comp)?;
    let floor = Arc::try_clone(floor)?;
    let (queue, mut pass) = InboxQueue::with_rule(alloc)?;
    let channel = Channel::over(queue, comp, config.port_count(comp), routes, floor);
    let channel = Arc::new(alloc, channel)?;
    let senders = split(alloc, &channel, &mut pass)?;
    let closer = Closer {
        channel: Arc::try_clone(&channel)?,
    };
    let owner = begin_owner(alloc, channel, pass)?;
    Ok((owner, senders, closer))
}
