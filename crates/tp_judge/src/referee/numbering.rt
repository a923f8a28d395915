//! The lines of a trace, with numbers instead of names and messages.
ghost use Rattle.std.specs.Prelude.{◌≡◌, ◌<◌, ◌≤◌, ◌+◌, IfOk, OnOk, length, slice_get};
ghost use Rattle.std.specs.List.{AllZip};
ghost use Rattle.tp_judge.specs.Tree.{IsTrace, names_of, told_of};
ghost use Rattle.tp_judge.specs.Lawful.{AreLinesRouted, AreWithin};
ghost use Rattle.tp_judge.specs.Kept.{Keeps};
ghost use Rattle.tp_judge.specs.Numbering.{IsComponentNumber, IsLine, IsNumberingOf, stands_of};
ghost use Rattle.tp_judge.specs.OneToOne.{IsOneToOne};
ghost use Rattle.tp_judge.specs.Turns.{KeepsNumbers, HasRoom, IsBegunBy, IsInside, IsTurn, IsWhole, is_beginning};
ghost use Rattle.tp_judge.specs.Turns.{size};

use crate::line::IndexedLine;
use crate::referee::joining::{joined_of, owners_of, sections_of};
use crate::referee::line::Line;
use crate::referee::tables::Tables;
use crate::referee::tree::Trace;
use crate::trace::IndexedTrace;
use std::alloc::Global;
use tp_common::memory::Memory;

fn is_beginning(line: &Line<'_>) -> bool
    ensures { result ≡ is_beginning (told_of line.now) }
{
    matches!(line, Line::Component(_))
}

/// Takes the line `number`, which is in the section of component `here`, after the beginnings of
/// `begun` sections. Returns the component of the next line's section, unless that line begins one.
fn step<'t>(
    tables: &mut Tables<'t>,
    lines: &mut Vec<IndexedLine>,
    here: u32,
    begun: u32,
    number: u32,
    line: &Line<'t>,
) -> Result<u32, Memory>
    requires room { HasRoom 5 tables.old }
    requires whole { IsWhole tables.old }
    requires here { IsInside (told_of line.now) → here < length tables.old.components }
    requires begun { IsBegunBy (told_of line.now) (IsComponentNumber tables.old begun) }
    ensures turn { IfOk result (λ after.
        IsTurn tables.new here number (told_of line.now) after lines.old.items lines.new.items) }
    ensures grows { OnOk result (KeepsNumbers 5 tables.old tables.new) }
    ensures whole { OnOk result (IsWhole tables.new) }
{
    match line {
        // The components that have a section are numbered first, in the order of their sections.
        Line::Component(_) => Ok(begun),
        Line::Result(_) => Ok(here),
        _ => {
            let act = tables.act(here, line)?;
            lines.push(IndexedLine {
                number,
                component: here,
                act,
            })?;
            Ok(here)
        }
    }
}

fn number_lines<'t>(
    alloc: Global,
    trace: &Trace<'t>,
    tables: &mut Tables<'t>,
) -> Result<Vec<IndexedLine>, Memory>
    requires few { length trace.now ≤ 268435456 }
    requires components { tables.old.components ≡ names_of trace.now }
    requires size { size tables.old ≡ length (names_of trace.now) }
    requires whole { IsWhole tables.old }
    ensures lines { IfOk result (λ lines.
        AllZip (IsLine tables.new) (stands_of trace.now) lines.items) }
    ensures whole { OnOk result (IsWhole tables.new) }
    ensures sections { OnOk result (Keeps (names_of trace.now) tables.new.components) }
    ensures room { OnOk result (HasRoom 0 tables.new) }
{
    let mut lines = Vec::with_capacity(alloc, trace.line_count())?;
    let mut here = 0;
    let mut begun = 0;
    for place in 0..trace.line_count() {
        let line = trace.line(place);
        // `begun` counts the sections before this line, so it grows only after the step.
        here = step(tables, &mut lines, here, begun, place as u32 + 1, &line)?;
        if is_beginning(&line) {
            begun += 1;
        }
    }
    Ok(lines)
}

/// A trace in numbers. Each port, name of a port, route and message has the number of its first
/// occurrence; the components with a section come first, in the order of their sections. It takes
/// 40 bytes for each line, and the contents of the tables while it works.
pub fn number_trace(alloc: Global, trace: &Trace<'_>) -> Result<IndexedTrace, Memory>
    requires { length trace.now ≤ 268435456 }
    ensures numbering { IfOk result (IsNumberingOf trace.now) }
    ensures within { IfOk result AreWithin }
    ensures routed { IfOk result AreLinesRouted }
{
    let mut tables = Tables::new(alloc, trace)?;
    let lines = number_lines(alloc, trace, &mut tables)?;
    // For its clause alone: no name has two numbers.
    tables.know_distinct();
    let sections = sections_of(alloc, trace, &tables.components)?;
    let owners = owners_of(alloc, tables.ports.as_slice())?;
    let joined = joined_of(alloc, tables.routes.as_slice(), &owners, &sections)?;
    Ok(IndexedTrace {
        lines,
        owners,
        joined,
        components: tables.components.len(),
        numbers: trace.line_count() + 1,
    })
}

/// Two lines of a trace in numbers have the same number for their component, port, route or message
/// if and only if the lines of the text name the same. This is a law without work.
pub fn numbers_are_names()
    ensures { IsOneToOne }
{}
