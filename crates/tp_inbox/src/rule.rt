//! The rule of an inbox's queue, and its kinds of step.
//!
//! The rule speaks of whole envelopes, for any number of senders with any number of routes. What
//! the owner has taken out of a sender's, followed by what the queue holds of them, is what the
//! sender has put, in its order over all its routes; and on each route they are numbered from 0.
//! The rule holds between any two steps of any threads.
use crate::envelope::InboxEnvelope;
use crossbeam_queue::protocol::{Join, Lesson, Outcome, Protocol, Split};
use crossbeam_queue::{RuledSegQueue, SegPass};
use std::collections::LinkedList;

/// The knowledge of a pass. It exists in contracts alone.
pub(crate) struct View {
    pub sends: bool,
    pub places: LinkedList<usize>,
    /// What the sender has put, in its order over all its routes.
    pub put: LinkedList<InboxEnvelope>,
    pub owns: bool,
    pub split_off: usize,
    pub taken: LinkedList<InboxEnvelope>,
    /// For each sender that has joined, the places of its routes and what it had put.
    pub known: LinkedList<(LinkedList<usize>, LinkedList<InboxEnvelope>)>,
}

pub(crate) struct DeliveryRule;

impl Protocol<InboxEnvelope, View> for DeliveryRule {
    ghost use Rattle.std.specs.Prelude.{[]};
    ghost use Rattle.tp_inbox.specs.Rule.{owner_pass, Delivers};

    ghost holds = { Delivers };

    ghost first = { owner_pass 0 [] [] };
}

/// A new route, with the pass of a sender that has it alone; and the return of a sender's pass.
pub(crate) struct Route;

impl Split<View> for Route {
    ghost use Rattle.std.specs.Prelude.{[], ◌∷◌, ◌+◌};
    ghost use Rattle.tp_inbox.specs.Rule.{owner_pass, sender_pass};

    ghost left = { λ v. owner_pass (v.split_off + 1) v.taken v.known };

    ghost right = { λ v. sender_pass (v.split_off ∷ []) [] };
}

impl Join<View> for Route {
    ghost use Rattle.std.specs.Prelude.{[], ◌∷◌, ◌++◌};
    ghost use Rattle.tp_inbox.specs.Rule.{owner_pass, spent};

    ghost both = { λ v w. owner_pass v.split_off v.taken (v.known ++ (w.places, w.put) ∷ []) };

    ghost spent = { spent };
}

/// A sender takes over the routes of another, which has put nothing.
pub(crate) struct Takeover;

impl Join<View> for Takeover {
    ghost use Rattle.std.specs.Prelude.{◌++◌};
    ghost use Rattle.tp_inbox.specs.Rule.{sender_pass, spent};

    ghost both = { λ v w. sender_pass (v.places ++ w.places) v.put };

    ghost spent = { spent };
}

/// A sender pushes an envelope.
pub(crate) struct Put;

impl Outcome<InboxEnvelope, View> for Put {
    ghost use Rattle.tp_inbox.specs.Rule.{PutsEnvelope};

    ghost then = { PutsEnvelope };
}

/// The owner takes out an envelope, and learns what it sees in the queue.
pub(crate) struct TakeOut;

impl Outcome<InboxEnvelope, View> for TakeOut {
    ghost use Rattle.tp_inbox.specs.Rule.{Takes};

    ghost then = { Takes };
}

impl Lesson<InboxEnvelope, View> for TakeOut {
    ghost use Rattle.tp_inbox.specs.Rule.{Knows};

    ghost fact = { Knows };
}

pub(crate) type InboxQueue = RuledSegQueue<InboxEnvelope, View, DeliveryRule>;

/// The access of a sender or the owner to the queue.
pub(crate) type InboxPass = SegPass<InboxEnvelope, View>;
