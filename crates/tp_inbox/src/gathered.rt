//! What remains of an inbox after its senders have ended.
ghost use Rattle.std.specs.Prelude.{◌≡◌, ◌++◌, ◌≤◌, [], All, IfErr, IfOk};
ghost use Rattle.std.specs.Prelude.{length, map, vec_capacity};
ghost use Rattle.tp_inbox.specs.History.{arrivals};
ghost use Rattle.tp_inbox.specs.Envelopes.{one_of};
ghost use Rattle.tp_inbox.specs.Routed.{AreBegun, AreDelivered, AreArrivalsNumbered, IsArrivalOn, AreRoutes};
ghost use Rattle.tp_inbox.specs.Routed.{arrivals_of, rest_arrivals};
ghost use Rattle.tp_inbox.specs.Envelopes.{AreRouted};
ghost use Rattle.tp_inbox.specs.Ledgers.{AreSenders, IsDeskOf, put_by};

use crate::channel::Channel;
use crate::desk::Desk;
use crate::envelope::InboxEnvelope;
use crate::owner::{Owner, take_out};
use crate::rule::{InboxPass, Route, TakeOut};
use crate::sender::Sender;
use std::alloc::Global;
use std::marker::Model;
use std::sync::{Arc, Wait};
use tp_common::event::Env;
use tp_common::memory::Memory;
use tp_config::port_type::CompId;
use tp_value::message::Message;

/// The messages left in an inbox, in order: the port of arrival, the arrival, its stamp.
pub type Rest = Vec<(u32, Env<Message>, u32)>;

/// An owner with its senders, all of which have ended. Contracts see it as its inbox, the arrivals
/// that the owner has drained, those that were taken out after that and are kept here, and what
/// each sender has put.
#[derive(Drop)]
pub struct Gathered {
    channel: Arc<Channel, Global>,
    pass: InboxPass,
    sources: Vec<CompId>,
    rest: Rest,
}

impl Model for Gathered {
    ghost use Rattle.std.specs.Arc.{arc_value};
    ghost use Rattle.tp_value.specs.contracts.value.Value as value_contract;
    ghost use Rattle.std.specs.Coded.{codes};
    ghost use Rattle.tp_inbox.specs.Ledgers.{Gathering};

    ghost Value = { Gathering };

    ghost coded = { Prim.hlevel (codes, value_contract.the_row.coded) };

    ghost use Rattle.tp_inbox.specs.Routed.{rest_arrivals};
    ghost use Rattle.tp_inbox.specs.Gathers.{IsGathered, all_sent, front_of};
    ghost use Rattle.tp_inbox.specs.InboxEndFields.{inbox_of};

    ghost view = { λ s. record {
      inbox = inbox_of (arc_value s.channel);
      drained = front_of s;
      kept = rest_arrivals s.rest.items;
      sent = all_sent s;
    } };

    ghost invariant = { IsGathered };
}

/// Begins the rest with the hand, with room for so many messages more. Without this room the rest
/// grows as it is filled.
fn with_hand(channel: &Channel, mut rest: Rest, hand: Option<InboxEnvelope>, more: usize) -> Rest
    requires empty { rest.items ≡ [] }
    requires room { 1 ≤ vec_capacity rest }
    requires routed { AreRouted (length channel.now.routes.items) (one_of hand) }
    ensures { rest_arrivals result.items ≡ arrivals_of channel.now.routes.items (one_of hand) }
{
    if let Some(envelope) = hand {
        rest.push_reserved(channel.addressed(envelope));
    }
    let _ = rest.reserve(more);
    rest
}

/// Takes the owner and its senders, after all of them have ended: the senders that
/// [`inbox`](crate::making::inbox) returned with this owner, in its order. It keeps what each has
/// put and what was drained.
pub fn gather<R: Wait>(rt: &R, owner: Owner, senders: Vec<Sender>) -> Gathered
    requires { AreSenders owner.inbox senders.items }
    ensures are { AreRoutes owner.inbox.comp owner.inbox.ports owner.inbox.routes }
    ensures routed { All (IsArrivalOn owner.inbox.routes) owner.drained }
    ensures inbox { result.inbox ≡ owner.inbox }
    ensures drained { result.drained ≡ owner.drained }
    ensures sent { result.sent ≡ map put_by senders.items }
    ensures begun { AreBegun owner.inbox.comp (result.drained ++ result.kept) result.sent }
{
    let Owner {
        channel,
        mut pass,
        hand,
        mut sources,
        rest,
        taken: _,
        stamp: _,
        counts: _,
        places: _,
    } = owner;
    for sender in senders {
        let Sender {
            channel: _,
            pass: other,
            source,
            places: _,
            counts: _,
        } = sender;
        channel.queue.absorb::<Route>(&mut pass, other);
        sources.push_reserved(source);
    }
    // Also for its clause: all that was put was taken out, or is in the queue.
    let left = channel.queue.len_as::<TakeOut, R>(rt, &mut pass);
    let rest = with_hand(&channel, rest, hand, left);
    Gathered {
        channel,
        pass,
        sources,
        rest,
    }
}

impl Gathered {
    /// The messages left in the inbox, in order: the port of arrival, the arrival, its stamp. For
    /// each sender, the arrivals from its component in the desk, followed by those in this rest,
    /// are what it has put, in its order over all routes; and on each route they are numbered from
    /// 0. No comparison is made for this, because it follows from the rule of the queue.
    ///
    /// 50 `Memory` returns this object, which may be settled again.
    pub fn settle<R: Wait>(self, rt: &R, desk: &Desk) -> Result<Rest, (Memory, Gathered)>
        requires desk { IsDeskOf self.inbox desk.now }
        requires arrivals { arrivals desk.now.log ≡ self.drained }
        ensures delivered { IfOk result (λ rest. AreDelivered self.inbox.comp
            (desk.now.log ++ rest_arrivals rest.items) self.sent) }
        ensures numbered { IfOk result (λ rest. AreArrivalsNumbered self.inbox.routes
            (desk.now.log ++ rest_arrivals rest.items)) }
        ensures routed { IfOk result (λ rest.
            All (IsArrivalOn self.inbox.routes) (rest_arrivals rest.items)) }
        ensures same { IfErr result (λ back.
            (back.1.inbox ≡ self.inbox)
            × (back.1.drained ≡ self.drained)
            × (back.1.sent ≡ self.sent)) }
        ensures begun { IfErr result (λ back.
            AreBegun self.inbox.comp (back.1.drained ++ back.1.kept) back.1.sent) }
    {
        // Only the clauses mention the desk.
        let _ = desk;
        let Gathered {
            channel,
            mut pass,
            sources,
            mut rest,
        } = self;
        for _ in rt.forever() {
            if rest.reserve(1).is_err() {
                return Err((
                    Memory,
                    Gathered {
                        channel,
                        pass,
                        sources,
                        rest,
                    },
                ));
            }
            match take_out(rt, &channel.queue, &mut pass) {
                None => return Ok(rest),
                Some(envelope) => rest.push_reserved(channel.addressed(envelope)),
            }
        }
        // The loop ends by a return alone.
        unreachable!()
    }
}
