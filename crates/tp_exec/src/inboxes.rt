//! The workers of a run: an inbox and a desk for each component, and its senders.
ghost use Rattle.std.specs.Prelude.{◌≡◌, ◌+◌, All, IfOk, OnOk, length};
ghost use Rattle.tp_config.specs.Allowed.{IsSetup};
ghost use Rattle.tp_config.specs.Setup.{IsComponent};
ghost use Rattle.tp_exec.specs.OpenedWorkers.{AreApart, AreHandedOut, AreOpened, HasGiven};
ghost use Rattle.tp_exec.specs.OpenedWorkers.{IsBare, IsFirstThere, IsFromOneOf};
ghost use Rattle.tp_exec.specs.Rounds.{AreWorkers, HasNotBegun};

use std::alloc::Global;
use std::sync::Arc;
use tp_behaviour::outbox::Outbox;
use tp_behaviour::worker::Worker;
use tp_common::memory::Memory;
use tp_config::config::Config;
use tp_config::port_type::CompId;
use tp_floor::floor::Floor;
use tp_inbox::desk::Desk;
use tp_inbox::making::inbox;
use tp_inbox::owner::Closer;
use tp_inbox::sender::Sender;

#[derive(Drop)]
struct Opened {
    workers: Vec<Worker>,
    senders: Vec<Sender>,
    closers: Vec<Closer>,
}

fn open_next(
    alloc: Global,
    config: &Config,
    floor: &Arc<Floor, Global>,
    comp: CompId,
    opened: &mut Opened,
) -> Result<(), Memory>
    requires known { IsComponent config.now comp }
    requires before { AreOpened config.now comp.0 opened.old }
    ensures { OnOk result (AreOpened config.now (comp.0 + 1) opened.new) }
{
    let (owner, mut senders, closer) = inbox(alloc, config, comp, floor)?;
    let desk = Desk::new(alloc, config, comp)?;
    let worker = Worker {
        owner,
        desk,
        outbox: Outbox::new(alloc),
    };
    opened.workers.push(worker)?;
    opened.senders.append(&mut senders)?;
    opened.closers.push(closer)?;
    Ok(())
}

fn open_inboxes(
    alloc: Global,
    config: &Config,
    floor: &Arc<Floor, Global>,
) -> Result<Opened, Memory>
    ensures opened { IfOk result (AreOpened config.now (length config.now.components)) }
    ensures lawful { IsSetup config.now }
{
    let mut opened = Opened {
        workers: Vec::new(alloc),
        senders: Vec::new(alloc),
        closers: Vec::new(alloc),
    };
    let count = config.len();
    for place in 0..count {
        open_next(alloc, config, floor, CompId(place as u32), &mut opened)?;
    }
    Ok(opened)
}

fn hand_to(workers: &mut Vec<Worker>, sender: Sender) -> Result<(), Memory>
    requires within { IsFromOneOf workers.old.items sender }
    requires apart { IsFirstThere workers.old.items sender }
    ensures { OnOk result (HasGiven sender workers.old.items workers.new.items) }
{
    let source = sender.source();
    workers[source.0 as usize].outbox.add(sender)
}

fn hand_out(workers: Vec<Worker>, senders: Vec<Sender>) -> Result<Vec<Worker>, Memory>
    requires bare { All IsBare workers.items }
    requires within { All (IsFromOneOf workers.items) senders.items }
    requires apart { AreApart senders.items }
    ensures { IfOk result (λ equipped. AreHandedOut workers.items senders.items equipped.items) }
{
    let mut equipped = workers;
    for sender in senders {
        hand_to(&mut equipped, sender)?;
    }
    Ok(equipped)
}

/// A worker for each component, in order, and what closes their inboxes. Each component has one
/// sender into each inbox to which a route leads from it.
pub(crate) fn make_workers(
    alloc: Global,
    config: &Config,
    floor: &Arc<Floor, Global>,
) -> Result<(Vec<Worker>, Vec<Closer>), Memory>
    ensures workers { IfOk result (λ made. AreWorkers config.now made.0.items) }
    ensures begun { IfOk result (λ made. All HasNotBegun made.0.items) }
    ensures closers { IfOk result (λ made. length made.1.items ≡ length config.now.components) }
{
    let Opened {
        workers,
        senders,
        closers,
    } = open_inboxes(alloc, config, floor)?;
    let equipped = hand_out(workers, senders)?;
    Ok((equipped, closers))
}
