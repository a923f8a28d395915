//! The entries of a component's history.
ghost use Rattle.std.specs.Prelude.{◌≡◌, All};
ghost use Rattle.std.specs.List.{flat_map};
ghost use Rattle.tp_common.specs.Watching.{Writes};
ghost use Rattle.tp_config.specs.Setup.{IsComponent, IsPort};
ghost use Rattle.tp_report.specs.Lines.{arrival_text, entry_text, component_port, sender_of};
ghost use Rattle.tp_report.specs.LineOpenings.{HaveTheirTexts};
ghost use Rattle.tp_report.specs.Reports.{IsKnown};

use crate::lines::{write_failure, write_noted, write_port, write_sent, write_verdict};
use crate::opening::{Fate, KeptOpenings};
use crate::telling::Telling;
use std::io::Write;
use tp_common::watched::{Watched, write_bytes};
use tp_config::port_type::{CompId, PortRef};
use tp_inbox::entry::Entry;
use tp_inbox::noted::NotedEnvelope;
use tp_play::test_case::TestCase;

fn port_at(comp: CompId, port: u32) -> PortRef
    ensures { result ≡ component_port comp port }
{
    PortRef { comp, port }
}

/// The port of a message, which an entry keeps in less room.
fn at(comp: CompId, port: u8) -> PortRef
    ensures { result ≡ component_port comp port }
{
    port_at(comp, port as u32)
}

fn write_arrival<W: Write>(
    test_case: &TestCase,
    telling: Telling,
    port: PortRef,
    env: &NotedEnvelope,
    kept: &mut KeptOpenings,
    out: &mut Watched<W>,
)
    requires port { IsPort test_case.now.config port }
    requires sender { IsComponent test_case.now.config (sender_of env.now) }
    requires kept { HaveTheirTexts test_case.now.config kept.old }
    ensures written { Writes W.contents out.old out.new
        (arrival_text telling test_case.now port env.now) }
    ensures kept { HaveTheirTexts test_case.now.config kept.new }
{
    match telling {
        Telling::Report => {}
        Telling::Trace => write_noted(test_case, Fate::Came, port, env, kept, out),
    }
}

/// Writes the line of an entry. An arrival has one only in a trace.
fn write_entry<W: Write>(
    test_case: &TestCase,
    telling: Telling,
    comp: CompId,
    entry: &Entry,
    kept: &mut KeptOpenings,
    out: &mut Watched<W>,
)
    requires known { IsKnown test_case.now.config comp entry.now }
    requires kept { HaveTheirTexts test_case.now.config kept.old }
    ensures written { Writes W.contents out.old out.new
        (entry_text telling test_case.now comp entry.now) }
    ensures kept { HaveTheirTexts test_case.now.config kept.new }
{
    match entry {
        Entry::Sent(route, number, message) => {
            write_sent(test_case, route.id(), *number as u64, message, kept, out)
        }
        Entry::Took(port, _, env) => {
            write_noted(test_case, Fate::Took, at(comp, *port), env, kept, out)
        }
        Entry::Found(port, _, env) => {
            write_noted(test_case, Fate::Found, at(comp, *port), env, kept, out)
        }
        Entry::Dropped(port, _, env) => {
            write_noted(test_case, Fate::Dropped, at(comp, *port), env, kept, out)
        }
        Entry::Cleared(port) => write_port(test_case, b"cleared ", port_at(comp, *port), out),
        Entry::Started(port) => write_port(test_case, b"started ", port_at(comp, *port), out),
        Entry::Stopped(port) => write_port(test_case, b"stopped ", port_at(comp, *port), out),
        Entry::Halted(port) => write_port(test_case, b"halted ", port_at(comp, *port), out),
        Entry::Else => write_bytes(b"else\n", out),
        Entry::Verdict(verdict) => write_verdict(b"set ", *verdict, out),
        Entry::Failed(fault) => write_failure(b"failed ", *fault, out),
        Entry::Arrive(port, _, env) => {
            write_arrival(test_case, telling, at(comp, *port), env, kept, out)
        }
    }
}

pub fn write_entries<W: Write>(
    test_case: &TestCase,
    telling: Telling,
    comp: CompId,
    entries: &[Entry],
    kept: &mut KeptOpenings,
    out: &mut Watched<W>,
)
    requires known { All (IsKnown test_case.now.config comp) entries.now }
    requires kept { HaveTheirTexts test_case.now.config kept.old }
    ensures written { Writes W.contents out.old out.new
        (flat_map (entry_text telling test_case.now comp) entries.now) }
    ensures kept { HaveTheirTexts test_case.now.config kept.new }
{
    for entry in entries {
        write_entry(test_case, telling, comp, entry, kept, out);
    }
}
