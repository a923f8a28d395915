//! The senders return to their inboxes.
ghost use Rattle.std.specs.Prelude.{◌≡◌, ◌∷◌, [], IfOk, MatchOption, OnOk, map};
ghost use Rattle.std.specs.Vec.Iter.{into_iter_items};
ghost use Rattle.tp_inbox.specs.Ledgers.{Inbox};
ghost use Rattle.tp_inbox.specs.Routed.{sources_of};
ghost use Rattle.tp_exec.specs.ReturnedSenders.{CanTake, Gives, Leaves, idle_of, outbox_of, links_by};
ghost use Rattle.tp_exec.specs.Rounds.{link_by};

use crate::idle::Idle;
use crate::played::Played;
use indexmap::IndexSet;
use std::alloc::Global;
use std::vec::IntoIter;
use tp_behaviour::worker::Worker;
use tp_common::memory::Memory;
use tp_config::port_type::{CompId, RouteId};
use tp_inbox::sender::Sender;

pub(crate) fn part_played(
    alloc: Global,
    played: Vec<Played>,
) -> Result<(Vec<Idle>, Vec<IntoIter<Sender>>), Memory>
    ensures idles { IfOk result (λ made. made.0.items ≡ map idle_of played.items) }
    ensures hands { IfOk result (λ made.
        map into_iter_items made.1.items ≡ map outbox_of played.items) }
{
    let mut idles = Vec::new(alloc);
    let mut hands = Vec::new(alloc);
    for one in played {
        let Played { worker, outcome } = one;
        let Worker {
            owner,
            desk,
            outbox,
        } = worker;
        idles.push(Idle {
            owner,
            desk,
            outcome,
        })?;
        // As an iterator, so that `take_one` can move one sender out after the other.
        hands.push(outbox.into_senders().into_iter())?;
    }
    Ok((idles, hands))
}

pub(crate) fn distinct_sources(alloc: Global, routes: &[RouteId]) -> Result<Vec<CompId>, Memory>
    ensures { IfOk result (λ sources. sources.items ≡ sources_of routes.now) }
{
    let mut seen = IndexSet::new(alloc);
    for place in 0..routes.len() {
        seen.insert(routes[place].source)?;
    }
    let sources = Vec::from_slice(alloc, seen.as_slice())?;
    Ok(sources)
}

fn take_one(source: CompId, hands: &mut Vec<IntoIter<Sender>>) -> Option<Sender>
    requires { (i : Inbox) × CanTake hands.old.items (link_by i source ∷ []) }
    ensures held { (i : Inbox) → Leaves hands.old.items (link_by i source ∷ []) hands.new.items }
    ensures back { (i : Inbox) → MatchOption result
        (¬ CanTake hands.old.items (link_by i source ∷ []))
        (λ s. Gives hands.old.items (link_by i source ∷ []) (s ∷ [])) }
{
    hands[source.0 as usize].next()
}

/// Takes the senders of these components into one inbox. Each is the next one of its component, so
/// that none is searched for.
pub(crate) fn take_back(
    alloc: Global,
    sources: Vec<CompId>,
    hands: &mut Vec<IntoIter<Sender>>,
) -> Result<Vec<Sender>, Memory>
    requires { (i : Inbox) × CanTake hands.old.items (links_by i sources.items) }
    ensures held { OnOk result ((i : Inbox)
        → Leaves hands.old.items (links_by i sources.items) hands.new.items) }
    ensures back { IfOk result (λ back. (i : Inbox)
        → Gives hands.old.items (links_by i sources.items) back.items) }
{
    let mut back = Vec::new(alloc);
    for source in sources {
        let Some(sender) = take_one(source, hands) else {
            // Each of these components has a sender, by the condition.
            unreachable!();
        };
        back.push(sender)?;
    }
    Ok(back)
}
