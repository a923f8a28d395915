//! The lines of one port, replayed at a queue.
ghost use Rattle.std.specs.Prelude.{◌≡◌, ◌++◌, ◌∷◌, [], ◌↔◌, IfOk, OnOk, IsTrue, Some};
ghost use Rattle.std.specs.Option.{option_to_list};
ghost use Rattle.tp_common.specs.declared.event.Event.TheVariants as event;
ghost use Rattle.tp_queue.specs.History.{top};
ghost use Rattle.tp_queue.specs.Queues.{AtHistory, StandsFor};
ghost use Rattle.tp_judge.specs.LinesByNumber.{lines_at};
ghost use Rattle.tp_judge.specs.Lines.{envelope_of, event_of};
ghost use Rattle.tp_judge.specs.Replayed.{IsReplay};
ghost use Rattle.tp_judge.specs.declared.line.Act.TheVariants as acts;
ghost use Rattle.tp_judge.specs.Rules.{IsBehind, IsOperation, IsReason, Replays};

use crate::line::{Act, IndexedLine, Mention, MessageId};
use crate::place::{Rule, UnlawfulPlace};
use std::alloc::Global;
use tp_common::event::{Env, Status};
use tp_common::memory::Memory;
use tp_queue::queue::Queue;

#[derive(Drop)]
pub(crate) enum Replayed {
    Lawful(Queue<MessageId>),
    Unlawful(UnlawfulPlace),
}

fn wrapped(mention: Mention) -> Env<MessageId>
    ensures { result ≡ envelope_of mention }
{
    Env {
        sender: mention.route,
        number: mention.parcel.number,
        msg: mention.parcel.message,
    }
}

pub(crate) fn is_env(env: &Env<MessageId>, mention: Mention) -> bool
    ensures { IsTrue result ↔ (env.now ≡ envelope_of mention) }
{
    env.sender == mention.route
        && env.number == mention.parcel.number
        && env.msg == mention.parcel.message
}

fn is_top(queue: &Queue<MessageId>, mention: Mention) -> bool
    ensures { AtHistory queue.now (λ h. IsTrue result ↔ (top h ≡ Some (envelope_of mention))) }
{
    match queue.top() {
        None => false,
        Some(env) => is_env(env, mention),
    }
}

fn is_after_mark(queue: &Queue<MessageId>, mention: Mention) -> bool
    ensures { AtHistory queue.now (λ h. IsTrue result ↔ IsBehind h (envelope_of mention)) }
{
    for place in queue.ahead()..queue.queued_len() {
        match queue.queued_at(place) {
            None => return false,
            Some(env) => {
                if is_env(env, mention) {
                    return true;
                }
            }
        }
    }
    false
}

fn reason(queue: &Queue<MessageId>, mention: Mention) -> Rule
    ensures { AtHistory queue.now (λ h. IsReason result h (envelope_of mention)) }
{
    match queue.status() {
        Status::Stopped => Rule::Stopped,
        Status::Halted if is_after_mark(queue, mention) => Rule::Behind,
        _ => Rule::NotTop,
    }
}

fn arrive(queue: &mut Queue<MessageId>, mention: Mention) -> Result<(), Memory>
    ensures { OnOk result (AtHistory queue.old (λ h.
        StandsFor queue.new (h ++ event.Arrive (envelope_of mention) ∷ []))) }
{
    match queue.arrive(wrapped(mention)) {
        Ok(()) => Ok(()),
        Err((refused, _)) => Err(refused),
    }
}

fn take_out(queue: &mut Queue<MessageId>, mention: Mention) -> Option<Rule>
    ensures took { AtHistory queue.old (λ h. Replays h (acts.Took mention) queue.new result) }
    ensures dropped { AtHistory queue.old (λ h. Replays h (acts.Dropped mention) queue.new result) }
{
    // Taken or discarded, it is out of the queue.
    if !is_top(queue, mention) {
        return Some(reason(queue, mention));
    }
    // What it returns was compared just now.
    queue.take_top();
    None
}

fn find(queue: &Queue<MessageId>, mention: Mention) -> Option<Rule>
    ensures { AtHistory queue.now (λ h. Replays h (acts.Found mention) queue.now result) }
{
    if !is_top(queue, mention) {
        return Some(reason(queue, mention));
    }
    None
}

fn operate(queue: &mut Queue<MessageId>, act: Act)
    requires { IsOperation act }
    ensures { AtHistory queue.old (λ h. StandsFor queue.new (h ++ option_to_list (event_of act))) }
{
    match act {
        Act::Cleared(_) => {
            queue.clear();
        }
        Act::Started(_) => {
            queue.start();
        }
        Act::Stopped(_) => queue.stop(),
        Act::Halted(_) => {
            queue.halt();
        }
        // Each act is named, so that the compiler finds a new one.
        Act::Sent(_) | Act::Came(_) | Act::Took(_) | Act::Found(_) | Act::Dropped(_) => {}
        Act::Left(_) | Act::Else | Act::End | Act::Other => {}
    }
}

fn step(queue: &mut Queue<MessageId>, act: Act) -> Result<Option<Rule>, Memory>
    ensures { IfOk result (λ broken. AtHistory queue.old (λ h. Replays h act queue.new broken)) }
{
    match act {
        Act::Came(mention) => arrive(queue, mention)?,
        Act::Took(mention) | Act::Dropped(mention) => return Ok(take_out(queue, mention)),
        Act::Found(mention) => return Ok(find(queue, mention)),
        _ => operate(queue, act),
    }
    Ok(None)
}

pub(crate) fn replay(alloc: Global, events: &[&IndexedLine]) -> Result<Replayed, Memory>
    ensures { IfOk result (IsReplay (lines_at events.now)) }
{
    let mut queue = Queue::new(alloc);
    for line in events {
        match step(&mut queue, line.act)? {
            None => {}
            Some(rule) => {
                return Ok(Replayed::Unlawful(UnlawfulPlace {
                    line: line.number,
                    rule,
                }));
            }
        }
    }
    Ok(Replayed::Lawful(queue))
}
