//! Makes inboxes with all their ends, and calls them with refused memory.
ghost use Rattle.std.specs.Prelude.{◌≡◌};

use crate::making::{connect, four_again};
use std::alloc::Global;
use std::marker::Model;
use std::process::Abort;
use std::sync::{Arc, Wait};
use tp_common::memory::Memory;
use tp_config::config::Config;
use tp_config::port_type::{CompId, RouteId};
use tp_floor::floor::Floor;
use tp_inbox::desk::Desk;
use tp_inbox::gathered::{Rest, gather};
use tp_inbox::making::inbox;
use tp_inbox::owner::{Closer, Owner};
use tp_inbox::sender::{PutFault, Sender};
use tp_inbox::stamped::Stamped;
use tp_value::message::Message;
use tp_value::types::Ty;
use tp_value::value::Value;

pub fn integer(n: i64) -> Message {
    Message {
        ty: Ty::Integer,
        value: Value::Int(n),
    }
}

/// The stamp of `integer:n`: n without its sign, if that has 32 bits.
fn stamp_of(n: i64) -> u32 {
    u32::try_from(n.unsigned_abs()).unwrap_or(u32::MAX)
}

/// The message `integer:n` with its stamp.
pub fn stamped(n: i64) -> Stamped {
    Stamped {
        stamp: stamp_of(n),
        message: integer(n),
    }
}

pub fn is_stamped(stamped: &Stamped, n: i64) -> bool {
    match stamped.message.value {
        Value::Int(value) => {
            stamped.message.ty == Ty::Integer && value == n && stamped.stamp == stamp_of(n)
        }
        _ => false,
    }
}

#[derive(Drop)]
pub struct Mailbox {
    pub owner: Owner,
    pub desk: Desk,
}

impl Model for Mailbox {
    ghost use Rattle.std.specs.Prelude.{◌≡◌};
    ghost use Rattle.tp_value.specs.contracts.value.Value as value_contract;
    ghost use Rattle.std.specs.Coded.{codes};
    ghost use Rattle.tp_inbox.specs.History.{arrivals};
    ghost use Rattle.tp_inbox.specs.Desks.{Journal};
    ghost use Rattle.tp_inbox.specs.Ledgers.{Draining, IsDeskOf};

    ghost Value = { Draining × Journal };

    ghost coded = { Prim.hlevel (codes, value_contract.the_row.coded) };

    ghost view = { λ s. (s.owner, s.desk) };

    ghost invariant = { λ s.
        IsDeskOf s.owner.inbox s.desk × (arrivals s.desk.log ≡ s.owner.drained) };
}

impl Mailbox {
    pub fn drain<R: Wait>(&mut self, rt: &R) -> Result<u64, Memory>
        ensures { self.new.0.inbox ≡ self.old.0.inbox }
    {
        self.owner.drain(rt, &mut self.desk)
    }

    pub fn drain_some<R: Wait>(&mut self, rt: &R, most: u64) -> Result<u64, Memory>
        ensures { self.new.0.inbox ≡ self.old.0.inbox }
    {
        self.owner.drain_some(rt, &mut self.desk, most)
    }

    pub fn note_sending(
        &mut self,
        route: RouteId,
        message: Message,
    ) -> Result<Stamped, (Memory, Message)>
        ensures { self.new.0.inbox ≡ self.old.0.inbox }
    {
        self.desk.note_sending(route, 0, message)
    }
}

#[derive(Drop)]
pub struct InboxEnds {
    pub mailbox: Mailbox,
    pub senders: Vec<Sender>,
    pub closer: Closer,
}

impl Model for InboxEnds {
    ghost use Rattle.std.specs.Prelude.{List};
    ghost use Rattle.tp_value.specs.contracts.value.Value as value_contract;
    ghost use Rattle.std.specs.Coded.{codes};
    ghost use Rattle.tp_inbox.specs.Ledgers.{AreSenders, Inbox, SenderLedger};

    ghost Value = { Inbox × List SenderLedger };

    ghost coded = { Prim.hlevel (codes, value_contract.the_row.coded) };

    ghost view = { λ s. (s.mailbox.0.inbox, s.senders.items) };

    ghost invariant = { λ s. AreSenders s.mailbox.0.inbox s.senders.items };
}

fn ends_once(
    alloc: Global,
    config: &Config,
    comp: CompId,
    floor: &Arc<Floor, Global>,
) -> Result<InboxEnds, Memory> {
    if comp.0 as usize >= config.len() {
        return Err(Memory);
    }
    let desk = Desk::new(alloc, config, comp)?;
    match inbox(alloc, config, comp, floor) {
        Ok((owner, senders, closer)) => {
            let mailbox = Mailbox { owner, desk };
            Ok(InboxEnds {
                mailbox,
                senders,
                closer,
            })
        }
        Err(Memory) => {
            drop(desk);
            Err(Memory)
        }
    }
}

pub fn ends_of<R: AllocGlobal + Abort>(
    rt: &R,
    config: &Config,
    comp: CompId,
    floor: &Arc<Floor, Global>,
) -> InboxEnds {
    match ends_once(rt.alloc(), config, comp, floor) {
        Ok(ends) => ends,
        Err(Memory) => ends_once(rt.alloc(), config, comp, floor).expect(rt, "memory"),
    }
}

pub fn floor_of<R: AllocGlobal + Abort>(rt: &R, living: u32) -> Arc<Floor, Global> {
    match Floor::new(rt.alloc(), living) {
        Ok(floor) => floor,
        Err(Memory) => Floor::new(rt.alloc(), living).expect(rt, "memory"),
    }
}

fn connect_each<R: Abort>(rt: &R, config: &mut Config, ports: &[&str]) {
    for name in ports {
        let (p, q) = (("mtc", *name), ("a", *name));
        if connect(config, p, q) != Some(Ok(())) {
            assert!(rt; connect(config, p, q) == Some(Ok(())));
        }
    }
}

/// The ends of a's inbox, on a floor of two. mtc and a are connected by their ports of these names.
pub fn two<R: AllocGlobal + Abort>(rt: &R, ports: &[&str]) -> (InboxEnds, Arc<Floor, Global>) {
    let mut config = four_again(rt);
    connect_each(rt, &mut config, ports);
    let floor = floor_of(rt, 2);
    let ends = ends_of(rt, &config, CompId(1), &floor);
    drop(config);
    (ends, floor)
}

impl InboxEnds {
    pub fn put<R: Wait + Abort>(
        &mut self,
        rt: &R,
        place: usize,
        way: usize,
        n: i64,
    ) -> Option<Result<u64, PutFault>> {
        if place >= self.senders.len() || way >= self.senders[place].ways() {
            return None;
        }
        match self.senders[place].put(rt, way, stamped(n)) {
            Ok(number) => Some(Ok(number)),
            Err((fault, back)) => {
                assert!(rt; is_stamped(&back, n));
                drop(back);
                Some(Err(fault))
            }
        }
    }

    pub fn drain<R: Wait>(&mut self, rt: &R) -> Result<u64, Memory> {
        self.mailbox.drain(rt)
    }

    pub fn count(&self) -> u64 {
        match self.senders.first() {
            Some(sender) if sender.ways() > 0 => sender.count(0),
            _ => 0,
        }
    }

    pub fn route(&self) -> Option<RouteId> {
        match self.senders.first() {
            Some(sender) if sender.ways() > 0 => Some(sender.route(0)),
            _ => None,
        }
    }

    pub fn settle<R: Wait + Abort>(self, rt: &R) -> (Rest, Desk) {
        let InboxEnds {
            mailbox,
            senders,
            closer,
        } = self;
        drop(closer);
        let Mailbox { owner, desk } = mailbox;
        let rest = match gather(rt, owner, senders).settle(rt, &desk) {
            Ok(rest) => rest,
            Err((Memory, again)) => again.settle(rt, &desk).ok().expect(rt, "memory"),
        };
        (rest, desk)
    }
}
