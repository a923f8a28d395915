//! The engine of a queue file: one port, its senders, and the answers so far.
ghost use Rattle.std.specs.Prelude.{◌≡◌, ◌++◌, [], codes, map, IfOk, OnOk, string_bytes};
ghost use Rattle.std.specs.Option.{option_to_list};
ghost use Rattle.tp_common.specs.declared.event.Event.TheVariants as event;
ghost use Rattle.tp_queue.specs.History.{top};
ghost use Rattle.tp_queue.specs.Queues.{AtHistory, StandsFor};
ghost use Rattle.tp_port.specs.QueueLine.{arrive, check, clear, halt, receive, start, stop, trigger};
ghost use Rattle.tp_port.specs.Command.{queue_line, wish_of};
ghost use Rattle.tp_port.specs.Carried.{CarriesLine, HasReached, HasCounted};
ghost use Rattle.tp_port.specs.Replay.{Progress, envelope_or_no, first_progress, found, left_text, meets, triggered};
ghost use Rattle.tp_port.specs.Replay.{triggered_text};

use crate::answers::{write_count, write_envelope_or_no, write_left};
use crate::command::{Command, Criteria};
use crate::pattern::IntegerPattern;
use crate::senders::Senders;
use std::alloc::Global;
use tp_common::event::{Env, TriggerAnswer};
use tp_common::limit::TEXT_LIMIT;
use tp_common::memory::Memory;
use tp_queue::queue::Queue;

/// The execution of a queue file, line by line. It doesn't keep the history of the port: contracts
/// speak of any history that the queue stands for.
#[derive(Drop)]
pub struct Engine<'t> {
    senders: Senders<'t>,
    queue: Queue<i64>,
    arrivals: u64,
    answers: String,
}

fn answer_receive(
    queue: &mut Queue<i64>,
    senders: &Senders<'_>,
    value: IntegerPattern,
    from: Option<u32>,
    out: &mut String,
) -> Result<(), Memory>
    ensures history { OnOk result (AtHistory queue.old (λ h.
        StandsFor queue.new (h ++ map event.Took (option_to_list (found value from h))))) }
    ensures text { OnOk result (AtHistory queue.old (λ h.
        string_bytes out.new ≡ string_bytes out.old
        ++ envelope_or_no senders.now (codes "took ") (found value from h))) }
{
    let env = queue.receive(&value, from);
    write_envelope_or_no(out, senders, "took ", env.as_ref())?;
    Ok(())
}

fn answer_check(
    queue: &Queue<i64>,
    senders: &Senders<'_>,
    value: IntegerPattern,
    from: Option<u32>,
    out: &mut String,
) -> Result<(), Memory>
    ensures history { OnOk result (AtHistory queue.now (λ h.
        StandsFor queue.now (h ++ map event.Found (option_to_list (found value from h))))) }
    ensures text { OnOk result (AtHistory queue.now (λ h.
        string_bytes out.new ≡ string_bytes out.old
        ++ envelope_or_no senders.now (codes "found ") (found value from h))) }
{
    let env = queue.check(&value, from);
    write_envelope_or_no(out, senders, "found ", env)?;
    Ok(())
}

fn answer_trigger(
    queue: &mut Queue<i64>,
    senders: &Senders<'_>,
    value: IntegerPattern,
    from: Option<u32>,
    out: &mut String,
) -> Result<(), Memory>
    ensures history { OnOk result (AtHistory queue.old (λ h. StandsFor queue.new
        (h ++ map (λ e. triggered (meets value from e) e) (option_to_list (top h))))) }
    ensures text { OnOk result (AtHistory queue.old (λ h.
        string_bytes out.new ≡ string_bytes out.old
        ++ triggered_text senders.now value from (top h))) }
{
    match queue.trigger(&value, from) {
        TriggerAnswer::Took(env) => write_envelope_or_no(out, senders, "took ", Some(&env)),
        TriggerAnswer::Dropped(env) => write_envelope_or_no(out, senders, "dropped ", Some(&env)),
        TriggerAnswer::Nothing => write_envelope_or_no(out, senders, "", None),
    }
}

impl<'t> Engine<'t> {
    /// The state before the first line.
    pub fn new(alloc: Global) -> Engine<'t>
        ensures progress { HasReached result first_progress }
        ensures answers { string_bytes result.answers ≡ [] }
        ensures within { HasCounted result 0 }
    {
        Engine {
            senders: Senders::new(alloc),
            queue: Queue::new(alloc),
            arrivals: 0,
            answers: String::new(alloc),
        }
    }

    fn arrive(&mut self, name: &'t str, value: i64) -> Result<(), Memory>
        requires { HasCounted self.old TEXT_LIMIT }
        ensures { OnOk result (CarriesLine self.old self.new (arrive name.now value)) }
    {
        let sender = self.senders.number(name)?;
        let env = Env {
            sender,
            number: self.arrivals,
            msg: value,
        };
        match self.queue.arrive(env) {
            Err((refused, _)) => Err(refused),
            Ok(()) => {
                self.arrivals += 1;
                self.answers.push_str("queued\n")?;
                Ok(())
            }
        }
    }

    fn receive(&mut self, criteria: Criteria<'t>) -> Result<(), Memory>
        requires { HasCounted self.old TEXT_LIMIT }
        ensures { OnOk result (CarriesLine self.old self.new (receive (wish_of criteria.entry))) }
    {
        let from = self.senders.wanted(criteria.from)?;
        let value = criteria.value;
        answer_receive(
            &mut self.queue,
            &self.senders,
            value,
            from,
            &mut self.answers,
        )?;
        Ok(())
    }

    fn check(&mut self, criteria: Criteria<'t>) -> Result<(), Memory>
        requires { HasCounted self.old TEXT_LIMIT }
        ensures { OnOk result (CarriesLine self.old self.new (check (wish_of criteria.entry))) }
    {
        let from = self.senders.wanted(criteria.from)?;
        let value = criteria.value;
        answer_check(&self.queue, &self.senders, value, from, &mut self.answers)?;
        Ok(())
    }

    fn trigger(&mut self, criteria: Criteria<'t>) -> Result<(), Memory>
        requires { HasCounted self.old TEXT_LIMIT }
        ensures { OnOk result (CarriesLine self.old self.new (trigger (wish_of criteria.entry))) }
    {
        let from = self.senders.wanted(criteria.from)?;
        let value = criteria.value;
        answer_trigger(
            &mut self.queue,
            &self.senders,
            value,
            from,
            &mut self.answers,
        )?;
        Ok(())
    }

    fn clear(&mut self) -> Result<(), Memory>
        requires { HasCounted self.old TEXT_LIMIT }
        ensures { OnOk result (CarriesLine self.old self.new clear) }
    {
        let count = self.queue.clear();
        write_count(&mut self.answers, "cleared ", count)?;
        Ok(())
    }

    fn start(&mut self) -> Result<(), Memory>
        requires { HasCounted self.old TEXT_LIMIT }
        ensures { OnOk result (CarriesLine self.old self.new start) }
    {
        let count = self.queue.start();
        write_count(&mut self.answers, "cleared ", count)?;
        Ok(())
    }

    fn stop(&mut self) -> Result<(), Memory>
        requires { HasCounted self.old TEXT_LIMIT }
        ensures { OnOk result (CarriesLine self.old self.new stop) }
    {
        self.queue.stop();
        self.answers.push_str("stopped\n")?;
        Ok(())
    }

    fn halt(&mut self) -> Result<(), Memory>
        requires { HasCounted self.old TEXT_LIMIT }
        ensures { OnOk result (CarriesLine self.old self.new halt) }
    {
        match self.queue.halt() {
            Some(count) => write_count(&mut self.answers, "halted ", count)?,
            None => self.answers.push_str("unchanged\n")?,
        }
        Ok(())
    }

    /// Executes the command, and adds its answer.
    pub fn perform(&mut self, command: Command<'t>) -> Result<(), Memory>
        requires { HasCounted self.old TEXT_LIMIT }
        ensures { OnOk result (CarriesLine self.old self.new (queue_line command.entry)) }
    {
        match command {
            Command::Arrive(name, value) => self.arrive(name, value),
            Command::Receive(criteria) => self.receive(criteria),
            Command::Check(criteria) => self.check(criteria),
            Command::Trigger(criteria) => self.trigger(criteria),
            Command::Clear => self.clear(),
            Command::Start => self.start(),
            Command::Stop => self.stop(),
            Command::Halt => self.halt(),
        }
    }

    /// The answers, and then what is left in the queue.
    pub fn finish(self) -> Result<String, Memory>
        ensures { IfOk result (λ out. (s : Progress) → HasReached self.entry s
            → string_bytes out ≡ string_bytes self.entry.answers ++ left_text s.senders s.history) }
    {
        let Engine {
            senders,
            queue,
            mut answers,
            ..
        } = self;
        write_left(&mut answers, &senders, &queue)?;
        Ok(answers)
    }
}
