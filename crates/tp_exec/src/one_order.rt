//! The search for one order of everything that the components did that gives their histories.
ghost use Rattle.std.specs.Prelude.{◌≡◌, ◌↔◌, IfOk, IsTrue};
ghost use Rattle.tp_exec.specs.EntryKinds.{kind_of as kind_of_entry};
ghost use Rattle.tp_exec.specs.OneOrder.{HasOneOrder, logs_of};

use std::alloc::Global;
use tp_common::memory::Memory;
use tp_inbox::entry::Entry;
use tp_judge::histories::Histories;
use tp_judge::kind::EntryKind;
use tp_judge::one_order;
use tp_report::report::CompReport;

/// The histories of a run's components. A message is compared by its sender.
#[derive(Drop)]
struct ReportedHistories<'r> {
    components: &'r [CompReport],
}

fn kind_of(component: usize, entry: &Entry) -> EntryKind<usize>
    ensures { result ≡ kind_of_entry component entry.now }
{
    match entry {
        Entry::Arrive(_, _, env) => EntryKind::Came(env.sender() as usize),
        Entry::Sent(route, _, _) => EntryKind::Sent(route.id().to.comp.0, component),
        Entry::Verdict(_) | Entry::Failed(_) => EntryKind::Quiet,
        Entry::Took(..) | Entry::Found(..) | Entry::Dropped(..) | Entry::Else => EntryKind::Looked,
        Entry::Cleared(_) | Entry::Started(_) => EntryKind::Looked,
        Entry::Stopped(_) | Entry::Halted(_) => EntryKind::Looked,
    }
}

impl<'r> Histories for ReportedHistories<'r> {
    type Message = usize;

    ghost use Rattle.std.specs.Prelude.{length};
    ghost use Rattle.tp_exec.specs.EntryKinds.{kinds_of, no_more};
    ghost use Rattle.tp_exec.specs.OneOrder.{logs_of};

    ghost kinds = { λ h. kinds_of (logs_of h.components.now) };

    ghost size = { λ h. length h.components.now };

    ghost begin = { λ h c. 0 };

    ghost no_more = { λ h c past. no_more h.components.now c past };

    fn size(&self) -> usize {
        self.components.len()
    }

    fn begin(&self, _component: usize) -> usize {
        0
    }

    fn end(&self, component: usize) -> usize {
        self.components[component].desk.log().len()
    }

    fn kind(&self, component: usize, place: usize) -> EntryKind<usize> {
        kind_of(component, &self.components[component].desk.log()[place])
    }

    fn sender(&self, message: usize) -> usize {
        message
    }

    fn is_same(&self, one: usize, other: usize) -> bool {
        one == other
    }
}

/// Returns whether there is one order of everything that the components did that gives their
/// histories, with each message in its queue as soon as it is sent.
pub(crate) fn has_one_order(alloc: Global, components: &[CompReport]) -> Result<bool, Memory>
    ensures { IfOk result (λ is. IsTrue is ↔ HasOneOrder (logs_of components.now)) }
{
    one_order::has_one_order(alloc, &ReportedHistories { components })
}
