//! The messages left in the inboxes.
ghost use Rattle.std.specs.Prelude.{◌≡◌, ◌++◌, ◌<◌, All, Contains, IfOk, OnOk, map};
ghost use Rattle.tp_config.specs.declared.port_type.RouteId.{RouteId as Route};
ghost use Rattle.tp_config.specs.Routes.{routes_into};
ghost use Rattle.tp_inbox.specs.Desks.{adding_all};
ghost use Rattle.tp_inbox.specs.History.{arrivals};
ghost use Rattle.tp_inbox.specs.Ledgers.{AreSenders, IsDeskOf, SenderLedger, put_by};
ghost use Rattle.tp_inbox.specs.Routed.{AreDelivered, AreArrivalsNumbered, AreRoutes, IsArrivalOn};
ghost use Rattle.tp_inbox.specs.Routed.{rest_arrivals};
ghost use Rattle.tp_exec.specs.ReturnedSenders.{AllCome, CanTake, Gives, IsCounted, IsEndingOf, IsIdleComponent};
ghost use Rattle.tp_exec.specs.ReturnedSenders.{Leaves};
ghost use Rattle.tp_exec.specs.Rounds.{AreWorkers, workers_of, links_in};
ghost use Rattle.tp_exec.specs.Settlings.{AreSettled};

use crate::counting::count_all;
use crate::ended::EndedComponent;
use crate::idle::Idle;
use crate::played::Played;
use crate::returning::{distinct_sources, part_played, take_back};
use std::alloc::Global;
use std::sync::Wait;
use std::vec::IntoIter;
use tp_common::event::Env;
use tp_common::memory::Memory;
use tp_config::config::Config;
use tp_config::port_type::RouteId;
use tp_inbox::desk::Desk;
use tp_inbox::gathered::{Rest, gather};
use tp_inbox::owner::Owner;
use tp_inbox::sender::Sender;
use tp_value::message::Message;

fn append(desk: &mut Desk, rest: Rest) -> Result<(), Memory>
    requires { All (λ x. x.0 < desk.old.ports) rest.items }
    ensures { OnOk result (desk.new ≡ adding_all desk.old (rest_arrivals rest.items)) }
{
    for (port, env, stamp) in rest {
        if let Err((memory, _)) = desk.arrive(port, env, stamp) {
            return Err(memory);
        }
    }
    Ok(())
}

fn settle<R: Wait>(rt: &R, owner: Owner, desk: &Desk, senders: Vec<Sender>) -> Result<Rest, Memory>
    requires desk { IsDeskOf owner.inbox desk.now }
    requires arrived { arrivals desk.now.log ≡ owner.drained }
    requires senders { AreSenders owner.inbox senders.items }
    ensures are { AreRoutes owner.inbox.comp owner.inbox.ports owner.inbox.routes }
    ensures delivered { IfOk result (λ rest. AreDelivered owner.inbox.comp
        (desk.now.log ++ rest_arrivals rest.items) (map put_by senders.items)) }
    ensures numbered { IfOk result (λ rest. AreArrivalsNumbered owner.inbox.routes
        (desk.now.log ++ rest_arrivals rest.items)) }
    ensures routed { IfOk result (λ rest. All (IsArrivalOn owner.inbox.routes)
        (arrivals (desk.now.log ++ rest_arrivals rest.items))) }
    ensures within { IfOk result (λ rest. All (λ y. y.0 < desk.now.ports) rest.items) }
{
    let gathered = gather(rt, owner, senders);
    match gathered.settle(rt, desk) {
        Ok(rest) => Ok(rest),
        Err((memory, _)) => Err(memory),
    }
}

fn take_senders(
    alloc: Global,
    config: &Config,
    idle: &Idle,
    hands: &mut Vec<IntoIter<Sender>>,
) -> Result<(Vec<Sender>, Vec<(RouteId, u64)>), Memory>
    requires routes { idle.now.owner.inbox.routes
        ≡ routes_into config.now idle.now.desk.comp }
    requires held { CanTake hands.old.items (links_in idle.now.owner.inbox) }
    ensures held { OnOk result
        (Leaves hands.old.items (links_in idle.now.owner.inbox) hands.new.items) }
    ensures back { IfOk result (λ taken.
        Gives hands.old.items (links_in idle.now.owner.inbox) taken.0.items) }
    ensures routes { IfOk result (λ taken.
        map (λ n. n.0) taken.1.items ≡ idle.now.owner.inbox.routes) }
    ensures counted { IfOk result (λ taken. (s : SenderLedger) (r : Route) →
        Contains taken.0.items s → Contains s.routes r → Contains idle.now.owner.inbox.routes r
        → IsCounted taken.1.items s r) }
{
    let routes = config.routes_into(idle.desk.comp())?;
    let sources = distinct_sources(alloc, routes.as_slice())?;
    let senders = take_back(alloc, sources, hands)?;
    let counts = count_all(alloc, routes, senders.as_slice())?;
    Ok((senders, counts))
}

fn settle_one<R: Wait>(
    rt: &R,
    alloc: Global,
    config: &Config,
    idle: Idle,
    hands: &mut Vec<IntoIter<Sender>>,
) -> Result<EndedComponent, Memory>
    requires idle { IsIdleComponent config.now idle }
    requires held { CanTake hands.old.items (links_in idle.owner.inbox) }
    ensures held { OnOk result
        (Leaves hands.old.items (links_in idle.owner.inbox) hands.new.items) }
    ensures end { IfOk result (IsEndingOf idle) }
    ensures come { IfOk result (AllCome hands.old.items idle) }
{
    let (senders, counts) = take_senders(alloc, config, &idle, hands)?;
    let Idle {
        owner,
        mut desk,
        outcome,
    } = idle;
    let rest = settle(rt, owner, &desk, senders)?;
    append(&mut desk, rest)?;
    // For its clause: the history is sound.
    let _log = desk.log();
    Ok(EndedComponent {
        desk,
        outcome,
        counts,
    })
}

/// Gathers the senders of each inbox and settles it: messages left in an inbox are added to its
/// component's history as arrivals.
pub(crate) fn settle_all<R: Wait>(
    rt: &R,
    alloc: Global,
    config: &Config,
    played: Vec<Played>,
) -> Result<Vec<EndedComponent>, Memory>
    requires { AreWorkers config.now (workers_of played.items) }
    ensures { IfOk result (λ ended. AreSettled config.now played.items ended.items) }
{
    let mut all = Vec::with_capacity(alloc, config.len())?;
    let (idles, mut hands) = part_played(alloc, played)?;
    for idle in idles {
        let ended = settle_one(rt, alloc, config, idle, &mut hands)?;
        all.push(ended)?;
    }
    Ok(all)
}
