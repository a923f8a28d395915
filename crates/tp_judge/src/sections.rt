//! The lines of a trace, as the search for one order sees them.
ghost use Rattle.std.specs.Prelude.{◌≡◌, ◌+◌, ◌<◌, ◌^◌, IfOk, length, slice_index};
ghost use Rattle.tp_judge.specs.Lawful.{AreWithin};
ghost use Rattle.tp_judge.specs.OneRun.{is_joined};
ghost use Rattle.tp_judge.specs.TraceKinds.{AreSections, extended, kind_in, kind_of};

use crate::histories::Histories;
use crate::kind::EntryKind;
use crate::line::{Act, IndexedLine, Mention};
use crate::trace::IndexedTrace;
use std::alloc::Global;
use tp_common::memory::Memory;

/// From the first line of a component on, up to the place after its last line; both are 0 if it has
/// no line.
#[derive(Clone, Copy)]
pub(crate) struct Section {
    begin: usize,
    end: usize,
}

#[derive(Drop)]
pub(crate) struct TraceHistories<'t> {
    pub(crate) trace: &'t IndexedTrace,
    sections: Vec<Section>,
    /// For each route a component that sends on it.
    senders: Vec<u32>,
}

fn is_joined(trace: &IndexedTrace, mention: Mention) -> bool
    ensures { result ≡ is_joined trace.now mention }
{
    match trace.joined.get(mention.route as usize) {
        Some(joined) => *joined,
        None => false,
    }
}

fn owner_of(trace: &IndexedTrace, port: u32) -> u32
    ensures { result ≡ slice_index trace.now.owners.items port }
{
    match trace.owners.get(port as usize) {
        Some(owner) => *owner,
        None => 0,
    }
}

fn kind_of(trace: &IndexedTrace, act: Act) -> EntryKind<Mention>
    ensures { result ≡ kind_of trace.now act }
{
    match act {
        Act::Sent(mention) if is_joined(trace, mention) => {
            EntryKind::Sent(owner_of(trace, mention.port), mention)
        }
        Act::Came(mention) if is_joined(trace, mention) => EntryKind::Came(mention),
        // What came from a component without a section has no sending; what is left is no event.
        Act::Came(_) | Act::Left(_) => EntryKind::Nothing,
        Act::Sent(_) | Act::End | Act::Other => EntryKind::Quiet,
        Act::Took(_) | Act::Found(_) | Act::Dropped(_) | Act::Else => EntryKind::Looked,
        Act::Cleared(_) | Act::Started(_) => EntryKind::Looked,
        Act::Stopped(_) | Act::Halted(_) => EntryKind::Looked,
    }
}

fn kind_in(trace: &IndexedTrace, component: usize, line: &IndexedLine) -> EntryKind<Mention>
    ensures { result ≡ kind_in trace.now component line.now }
{
    if line.component as usize != component {
        return EntryKind::Nothing;
    }
    kind_of(trace, line.act)
}

impl<'t> Histories for TraceHistories<'t> {
    type Message = Mention;

    ghost use Rattle.std.specs.Prelude.{length};
    ghost use Rattle.tp_judge.specs.TraceKinds.{kinds_of, no_more, section_at};

    ghost kinds = { λ h. kinds_of h.trace.now h.sections.items };

    ghost size = { λ h. length h.sections.items };

    ghost begin = { λ h c. (section_at h.sections.items c).begin };

    ghost no_more = { λ h c past. no_more h.trace.now h.sections.items c past };

    fn size(&self) -> usize {
        self.sections.len()
    }

    fn begin(&self, component: usize) -> usize {
        self.sections[component].begin
    }

    fn end(&self, component: usize) -> usize {
        // No section goes beyond the lines; with the minimum the type needs no ghost field.
        self.sections[component].end.min(self.trace.lines.len())
    }

    fn kind(&self, component: usize, place: usize) -> EntryKind<Mention> {
        kind_in(self.trace, component, &self.trace.lines[place])
    }

    fn sender(&self, message: Mention) -> usize {
        match self.senders.get(message.route as usize) {
            Some(sender) => *sender as usize,
            None => 0,
        }
    }

    fn is_same(&self, one: Mention, other: Mention) -> bool {
        one.port == other.port
            && one.route == other.route
            && one.parcel.number == other.parcel.number
            && one.parcel.message == other.parcel.message
    }
}

/// The section with one more line at its end.
fn extended(section: Section, place: usize) -> Section
    requires { place + 1 < 2 ^ 64 }
    ensures { result ≡ extended section place }
{
    // 0 until the section has a line.
    let begin = if section.end == 0 {
        place
    } else {
        section.begin
    };
    Section {
        begin,
        end: place + 1,
    }
}

fn note_sender(senders: &mut Vec<u32>, line: &IndexedLine)
    ensures { length senders.new.items ≡ length senders.old.items }
{
    if let Act::Sent(mention) = line.act {
        let route = mention.route as usize;
        if route < senders.len() {
            senders[route] = line.component;
        }
    }
}

pub(crate) fn trace_histories<'t>(
    alloc: Global,
    trace: &'t IndexedTrace,
) -> Result<TraceHistories<'t>, Memory>
    requires { AreWithin trace.now }
    ensures trace { IfOk result (λ histories. histories.trace.now ≡ trace.now) }
    ensures sections { IfOk result (λ histories.
        AreSections trace.now (length trace.now.lines.items) histories.sections.items) }
{
    let nothing = Section { begin: 0, end: 0 };
    let mut sections = vec![in alloc; nothing; trace.components]?;
    let mut senders = vec![in alloc; 0; trace.joined.len()]?;
    for place in 0..trace.lines.len() {
        let line = &trace.lines[place];
        let component = line.component as usize;
        let section = sections[component];
        sections[component] = extended(section, place);
        note_sender(&mut senders, line);
    }
    Ok(TraceHistories {
        trace,
        sections,
        senders,
    })
}
