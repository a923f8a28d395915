//! A component's desk: its ports and its history.
ghost use Rattle.std.specs.Prelude.{◌≡◌, [], ℕ, ◌+◌, ◌^◌, ◌<◌};
ghost use Rattle.std.specs.Prelude.{All, SomeIff, length, IfErr, IfOk, OnErr, OnOk, vec_capacity, vec_len};
ghost use Rattle.std.specs.Option.{option_copied};
ghost use Rattle.std.specs.Borrow.{sem};
ghost use Rattle.tp_queue.specs.History.{Lawful, queued, status_of};
ghost use Rattle.tp_queue.specs.Answers.{Checks, halted_count};
ghost use Rattle.tp_queue.specs.Queues.{StandsFor};
ghost use Rattle.tp_config.specs.Setup.{IsComponent, ports_at};
ghost use Rattle.tp_inbox.specs.declared.entry.Entry.TheVariants as entry;
ghost use Rattle.tp_inbox.specs.History.{IsClocked, IsTimely, arrivals, clock_of, last_chosen};
ghost use Rattle.tp_inbox.specs.History.{next_of};
ghost use Rattle.tp_inbox.specs.Desks.{NamesNoPort, IsWithin, Journal, NotesSending, ReceivesAt, TriggersAt};
ghost use Rattle.tp_inbox.specs.Desks.{adding, at_port, new_desk};
ghost use Rattle.tp_inbox.specs.Lending.{ends_checked_at};

use crate::entry::Entry;
use crate::noted::{NotedEnvelope, NotedRoute, check_room};
use crate::noted_message::NotedMessage;
use crate::stamped::Stamped;
use crate::triggered::Triggered;
use std::alloc::Global;
use std::marker::Model;
use tp_common::event::{Env, TriggerAnswer};
use tp_common::memory::Memory;
use tp_common::payload::Wanted;
use tp_config::config::Config;
use tp_config::port_type::{CompId, RouteId};
use tp_queue::queue::Queue;
use tp_value::message::Message;

/// The ports of one component and its history. Contracts see the component, the number of its ports
/// and the history. A port is a place in declared order, from 0, and its queue stands for what the
/// component's history says of it. That is the only history: no port keeps its own. A call works on
/// the port's queue, and searches no history.
#[derive(Drop)]
pub struct Desk {
    comp: CompId,
    ports: Vec<Queue<Message>>,
    log: Vec<Entry>,
    /// The greatest stamp in the history.
    clock: u32,
    alloc: Global,
}

impl Model for Desk {
    ghost use Rattle.std.specs.Prelude.{length};
    ghost use Rattle.tp_inbox.specs.Desks.{Journal, IsKept};
    ghost use Rattle.tp_value.specs.contracts.value.Value as value_contract;
    ghost use Rattle.std.specs.Coded.{codes};

    ghost Value = { Journal };

    ghost coded = { Prim.hlevel (codes, value_contract.the_row.coded) };

    ghost view = { λ d. record { comp = d.comp; ports = length d.ports.items; log = d.log.items } };

    ghost invariant = { λ d. IsKept d.ports.items d.clock d.log.items };
}

/// A history of so many entries gets room for [`MANY_ENTRIES`].
const FEW_ENTRIES: usize = 32;

/// 4 MiB of entries, which cost nothing until they are used.
const MANY_ENTRIES: usize = 131_072;

/// Makes room for another entry. A history is moved once on its way to [`MANY_ENTRIES`], unless so
/// much memory is refused: then it grows as it is used.
fn reserve_entry(log: &mut Vec<Entry>) -> Result<(), Memory>
    ensures items { log.new.items ≡ log.old.items }
    ensures room { OnOk result (vec_len log.new < vec_capacity log.new) }
{
    let count = log.len();
    if count < log.capacity() {
        return Ok(());
    }
    if count >= FEW_ENTRIES && count < MANY_ENTRIES {
        if log.reserve_exact(MANY_ENTRIES - count).is_ok() {
            return Ok(());
        }
    }
    log.reserve(1)?;
    Ok(())
}

/// A port and a branch as an entry keeps them. 50 `Memory` if and only if the port has a number of
/// 256 or more, or the branch one of 2^32 or more: no script within the limits has either.
fn short_place(port: u32, branch: usize) -> Result<(u8, u32), Memory>
    ensures ok { IfOk result (λ place. (place.0 ≡ port) × (place.1 ≡ branch)) }
    ensures err { OnErr result (¬ ((port < 2 ^ 8) × (branch < 2 ^ 32))) }
{
    let (Ok(port), Ok(branch)) = (u8::try_from(port), u32::try_from(branch)) else {
        return Err(Memory);
    };
    Ok((port, branch))
}

impl Desk {
    /// The desk of a component of the configuration: all its ports are started (ES 201 873-1,
    /// 21.3.1), and the history is empty.
    pub fn new(alloc: Global, config: &Config, comp: CompId) -> Result<Desk, Memory>
        requires { IsComponent config.now comp }
        ensures desk { IfOk result (λ desk. desk
            ≡ new_desk comp (length (ports_at config.now.types config.now.components comp))) }
        ensures none { IfOk result (λ desk. arrivals desk.log ≡ []) }
    {
        Desk::with_ports(alloc, comp, config.port_count(comp))
    }

    fn with_ports(alloc: Global, comp: CompId, count: usize) -> Result<Desk, Memory>
        ensures desk { IfOk result (λ desk. desk ≡ new_desk comp count) }
        ensures none { IfOk result (λ desk. arrivals desk.log ≡ []) }
    {
        let mut ports = Vec::with_capacity(alloc, count)?;
        for _ in 0..count {
            ports.push_reserved(Queue::new(alloc));
        }
        Ok(Desk {
            comp,
            ports,
            log: Vec::new(alloc),
            clock: 0,
            alloc,
        })
    }

    /// A message arrives at this port, with the stamp of its sending: [`Queue::arrive`] there, and
    /// an `Arrive` in the history. 50 `Memory` also if a number has no room in the entry.
    // A call would pass the envelope, and room to hand it back, through memory for each message.
    #[inline(always)]
    pub fn arrive(
        &mut self,
        port: u32,
        env: Env<Message>,
        stamp: u32,
    ) -> Result<(), (Memory, Env<Message>)>
        requires { port < self.old.ports }
        ensures ok { OnOk result (self.new ≡ adding self.old (entry.Arrive port stamp env)) }
        ensures err { IfErr result (λ back. (back.1 ≡ env) × (self.new ≡ self.old)) }
    {
        let Ok(place) = u8::try_from(port) else {
            return Err((Memory, env));
        };
        if reserve_entry(&mut self.log).is_err() {
            return Err((Memory, env));
        }
        let Ok(noted) = NotedEnvelope::copy_of(self.alloc, &env) else {
            return Err((Memory, env));
        };
        self.ports[port as usize].arrive(env)?;
        self.log.push_reserved(Entry::Arrive(place, stamp, noted));
        // So that what the component sends from now on has a later stamp.
        self.clock = self.clock.max(stamp);
        Ok(())
    }

    /// [`Queue::receive`] at this port, in this branch. Returns whether it took a message, which it
    /// moves into the history. 50 `Memory` also if a number has no room in the entry, as for
    /// `trigger` and `check`.
    pub fn receive<W: Wanted<Message>>(
        &mut self,
        port: u32,
        wanted: &W,
        from: Option<u32>,
        branch: usize,
    ) -> Result<bool, Memory>
        requires { port < self.old.ports }
        ensures ok { IfOk result (λ took.
            ReceivesAt (W.admits wanted.now) from port branch self.old took self.new) }
        ensures err { OnErr result (self.new ≡ self.old) }
    {
        let (place, branch) = short_place(port, branch)?;
        reserve_entry(&mut self.log)?;
        let queue = &mut self.ports[port as usize];
        match queue.check(wanted, from) {
            None => return Ok(false),
            Some(env) => check_room(env)?,
        }
        let Some(env) = queue.take_top() else {
            // It was found just now.
            unreachable!()
        };
        let noted = NotedEnvelope::of(env);
        self.log.push_reserved(Entry::Took(place, branch, noted));
        Ok(true)
    }

    /// [`Queue::trigger`] at this port, in this branch. It moves what it took or discarded into the
    /// history.
    pub fn trigger<W: Wanted<Message>>(
        &mut self,
        port: u32,
        wanted: &W,
        from: Option<u32>,
        branch: usize,
    ) -> Result<Triggered, Memory>
        requires { port < self.old.ports }
        ensures ok { IfOk result (λ answer.
            TriggersAt (W.admits wanted.now) from port branch self.old answer self.new) }
        ensures err { OnErr result (self.new ≡ self.old) }
    {
        let (place, branch) = short_place(port, branch)?;
        reserve_entry(&mut self.log)?;
        let queue = &mut self.ports[port as usize];
        match queue.top() {
            None => return Ok(Triggered::Nothing),
            Some(env) => check_room(env)?,
        }
        match queue.trigger(wanted, from) {
            TriggerAnswer::Took(env) => {
                let noted = NotedEnvelope::of(env);
                self.log.push_reserved(Entry::Took(place, branch, noted));
                Ok(Triggered::Took)
            }
            TriggerAnswer::Dropped(env) => {
                let noted = NotedEnvelope::of(env);
                self.log.push_reserved(Entry::Dropped(place, branch, noted));
                Ok(Triggered::Dropped)
            }
            // There was a top just now.
            TriggerAnswer::Nothing => unreachable!(),
        }
    }

    /// [`Queue::check`] at this port, in this branch. The history notes what it found. The result
    /// refers into the port's queue.
    pub fn check<W: Wanted<Message>>(
        &mut self,
        port: u32,
        wanted: &W,
        from: Option<u32>,
        branch: usize,
    ) -> Result<Option<&Env<Message>>, Memory>
        requires { port < self.old.ports }
        ensures* after { sem 𝓛 (ends_checked_at port branch self.entry result) }
        ensures found { IfOk result (λ answer.
            Checks (W.admits wanted.now) from (at_port self.old port) (option_copied answer)) }
    {
        let (place, branch) = short_place(port, branch)?;
        reserve_entry(&mut self.log)?;
        let Some(env) = self.ports[port as usize].check(wanted, from) else {
            return Ok(None);
        };
        let noted = NotedEnvelope::copy_of(self.alloc, env)?;
        self.log.push_reserved(Entry::Found(place, branch, noted));
        Ok(Some(env))
    }

    pub fn clear(&mut self, port: u32) -> Result<u64, Memory>
        requires { port < self.old.ports }
        ensures count { IfOk result (λ discarded.
            discarded ≡ length (queued (at_port self.old port))) }
        ensures ok { OnOk result (self.new ≡ adding self.old (entry.Cleared port)) }
        ensures err { OnErr result (self.new ≡ self.old) }
    {
        reserve_entry(&mut self.log)?;
        let discarded = self.ports[port as usize].clear();
        self.log.push_reserved(Entry::Cleared(port));
        Ok(discarded)
    }

    pub fn start(&mut self, port: u32) -> Result<u64, Memory>
        requires { port < self.old.ports }
        ensures count { IfOk result (λ discarded.
            discarded ≡ length (queued (at_port self.old port))) }
        ensures ok { OnOk result (self.new ≡ adding self.old (entry.Started port)) }
        ensures err { OnErr result (self.new ≡ self.old) }
    {
        reserve_entry(&mut self.log)?;
        let discarded = self.ports[port as usize].start();
        self.log.push_reserved(Entry::Started(port));
        Ok(discarded)
    }

    pub fn stop(&mut self, port: u32) -> Result<(), Memory>
        requires { port < self.old.ports }
        ensures ok { OnOk result (self.new ≡ adding self.old (entry.Stopped port)) }
        ensures err { OnErr result (self.new ≡ self.old) }
    {
        reserve_entry(&mut self.log)?;
        self.ports[port as usize].stop();
        self.log.push_reserved(Entry::Stopped(port));
        Ok(())
    }

    /// [`Queue::halt`] at this port, and a `Halted` in the history, even if it has no effect.
    pub fn halt(&mut self, port: u32) -> Result<Option<u64>, Memory>
        requires { port < self.old.ports }
        ensures count { IfOk result (λ count. count
            ≡ halted_count (status_of (at_port self.old port)) (at_port self.old port)) }
        ensures ok { OnOk result (self.new ≡ adding self.old (entry.Halted port)) }
        ensures err { OnErr result (self.new ≡ self.old) }
    {
        reserve_entry(&mut self.log)?;
        let ahead = self.ports[port as usize].halt();
        self.log.push_reserved(Entry::Halted(port));
        Ok(ahead)
    }

    /// Notes an action of the behaviour: an entry `Sent`, `Else`, `Verdict` or `Failed`. The stamp
    /// of a sending is above all stamps before it, like that of [`Desk::stamp`].
    pub fn note(&mut self, entry: Entry) -> Result<(), (Memory, Entry)>
        requires note { NamesNoPort entry }
        requires timely { IsTimely self.old.log entry }
        ensures ok { OnOk result (self.new ≡ adding self.old entry) }
        ensures err { IfErr result (λ back. (back.1 ≡ entry) × (self.new ≡ self.old)) }
    {
        if reserve_entry(&mut self.log).is_err() {
            return Err((Memory, entry));
        }
        self.clock = self.clock.max(entry.stamp());
        self.log.push_reserved(entry);
        Ok(())
    }

    /// Notes the sending of this message on this route, under this number and the next stamp, and
    /// returns it with that stamp, to be put. 50 `Memory` also if no stamp is left, or a number has
    /// no room in the entry.
    pub fn note_sending(
        &mut self,
        route: RouteId,
        number: u64,
        message: Message,
    ) -> Result<Stamped, (Memory, Message)>
        ensures stamped { IfOk result (λ put. put ≡ next_of self.old.log message) }
        ensures ok { OnOk result (self.new
            ≡ adding self.old (entry.Sent route number (next_of self.old.log message))) }
        ensures err { IfErr result (λ back. (back.1 ≡ message) × (self.new ≡ self.old)) }
    {
        let Some(stamp) = self.stamp() else {
            return Err((Memory, message));
        };
        let Some(way) = NotedRoute::of(route) else {
            return Err((Memory, message));
        };
        let Ok(short) = u32::try_from(number) else {
            return Err((Memory, message));
        };
        if reserve_entry(&mut self.log).is_err() {
            return Err((Memory, message));
        }
        let put = Stamped { stamp, message };
        let Ok(noted) = NotedMessage::copy_of(self.alloc, &put) else {
            return Err((Memory, put.message));
        };
        self.log.push_reserved(Entry::Sent(way, short, noted));
        self.clock = stamp;
        Ok(put)
    }

    /// Removes the latest entry from the history, a sending under the stamp that was next: it was
    /// noted, and then couldn't be put. The desk is as before that entry.
    pub fn withdraw(&mut self)
        requires { (before : Journal) × NotesSending before self.old }
        ensures { NotesSending self.new self.old }
    {
        let noted = self.log.len();
        self.log.truncate(noted - 1);
        // The entry's stamp was one above the clock before it.
        self.clock -= 1;
    }

    /// The next stamp, one above the greatest in the history. `None` if the numbers are used up.
    pub fn stamp(&self) -> Option<u32>
        ensures { SomeIff result (clock_of self.now.log + 1 < 2 ^ 32) (clock_of self.now.log + 1) }
    {
        self.clock.checked_add(1)
    }

    pub fn comp(&self) -> CompId
        ensures { result ≡ self.now.comp }
    {
        self.comp
    }

    pub fn port_count(&self) -> usize
        ensures { result ≡ self.now.ports }
    {
        self.ports.len()
    }

    /// The history, the oldest entry first.
    pub fn log(&self) -> &[Entry]
        ensures history { result.now ≡ self.now.log }
        ensures lawful { (port : ℕ) → port < self.now.ports → Lawful (at_port self.now port) }
        ensures within { All (IsWithin self.now.ports) self.now.log }
        ensures clocked { IsClocked self.now.log }
    {
        self.log.as_slice()
    }

    /// The envelope that the last entry of the history took or found. `None` if it did neither.
    pub fn last_chosen(&self) -> Option<&NotedEnvelope>
        ensures { option_copied result ≡ last_chosen self.now.log }
    {
        match self.log.last() {
            Some(Entry::Took(_, _, env)) => Some(env),
            Some(Entry::Found(_, _, env)) => Some(env),
            _ => None,
        }
    }

    pub fn entry_count(&self) -> u64
        ensures { result ≡ length self.now.log }
    {
        self.log.len() as u64
    }

    pub fn queue(&self, port: u32) -> &Queue<Message>
        requires { port < self.now.ports }
        ensures { StandsFor result.now (at_port self.now port) }
    {
        &self.ports[port as usize]
    }
}
