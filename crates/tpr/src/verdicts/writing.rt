//! The text of a test case's verdicts.
ghost use Rattle.std.specs.Prelude.{◌∷◌, All, true};
ghost use Rattle.std.specs.List.{flat_map};
ghost use Rattle.tp_common.specs.Watching.{Writes};
ghost use Rattle.tp_config.specs.Setup.{IsComponent};
ghost use Rattle.tpr.specs.Texts.{HasNames, always_line, name_behind, order_line, orders_of, said_of, several_line};
ghost use Rattle.tpr.specs.Texts.{states_line, undecided_lines, verdicts_text, word_behind};

use crate::verdicts::{FoundVerdict, Verdicts};
use std::io::Write;
use tp_common::watched::{Watched, write_bytes, write_number};
use tp_config::config::Config;
use tp_config::port_type::CompId;
use tp_report::words::{verdict_word, write_component_name};
use tp_value::verdict::Verdict;

fn write_words<W: Write>(before: &[u8], found: &[FoundVerdict], out: &mut Watched<W>)
    ensures { Writes W.contents out.old out.new (flat_map (word_behind before.now) found.now) }
{
    for one in found {
        write_bytes(before, out);
        write_bytes(verdict_word(one.verdict), out);
    }
}

fn write_always<W: Write>(verdict: Verdict, out: &mut Watched<W>)
    ensures { Writes W.contents out.old out.new (always_line verdict) }
{
    write_bytes(b"always ", out);
    write_bytes(verdict_word(verdict), out);
    write_bytes(b"\n", out)
}

fn write_several<W: Write>(first: &FoundVerdict, others: &[FoundVerdict], out: &mut Watched<W>)
    ensures { Writes W.contents out.old out.new (several_line first.now others.now) }
{
    write_bytes(verdict_word(first.verdict), out);
    write_words(b" or ", others, out);
    write_bytes(b"\n", out)
}

fn write_decided<W: Write>(first: &FoundVerdict, others: &[FoundVerdict], out: &mut Watched<W>)
    ensures { Writes W.contents out.old out.new (said_of true (first.now ∷ others.now)) }
{
    if others.is_empty() {
        return write_always(first.verdict, out);
    }
    write_several(first, others, out)
}

fn write_undecided<W: Write>(found: &[FoundVerdict], out: &mut Watched<W>)
    ensures { Writes W.contents out.old out.new (undecided_lines found.now) }
{
    write_bytes(b"undecided\n", out);
    if !found.is_empty() {
        write_bytes(b"seen", out);
        write_words(b" ", found, out);
        write_bytes(b"\n", out)
    }
}

fn write_said<W: Write>(is_complete: bool, found: &[FoundVerdict], out: &mut Watched<W>)
    ensures { Writes W.contents out.old out.new (said_of is_complete found.now) }
{
    if !is_complete {
        return write_undecided(found, out);
    }
    match found.split_first() {
        None => write_undecided(found, out),
        Some((first, others)) => write_decided(first, others, out),
    }
}

fn write_states<W: Write>(states: u32, out: &mut Watched<W>)
    ensures { Writes W.contents out.old out.new (states_line states) }
{
    write_bytes(b"states ", out);
    write_number(states as u64, out);
    write_bytes(b"\n", out)
}

fn write_names<W: Write>(config: &Config, order: &[CompId], out: &mut Watched<W>)
    requires { All (IsComponent config.now) order.now }
    ensures { Writes W.contents out.old out.new (flat_map (name_behind config.now) order.now) }
{
    for comp in order {
        write_bytes(b" ", out);
        write_component_name(config, *comp, out);
    }
}

fn write_order<W: Write>(config: &Config, found: &FoundVerdict, out: &mut Watched<W>)
    requires { HasNames config.now found.now }
    ensures { Writes W.contents out.old out.new (order_line config.now found.now) }
{
    write_bytes(verdict_word(found.verdict), out);
    write_bytes(b":", out);
    write_names(config, found.order.as_slice(), out);
    write_bytes(b"\n", out)
}

fn write_orders<W: Write>(config: &Config, found: &[FoundVerdict], out: &mut Watched<W>)
    requires { All (HasNames config.now) found.now }
    ensures { Writes W.contents out.old out.new (flat_map (order_line config.now) found.now) }
{
    for one in found {
        write_order(config, one, out);
    }
}

fn write_needed_orders<W: Write>(
    config: &Config,
    is_complete: bool,
    found: &[FoundVerdict],
    out: &mut Watched<W>,
)
    requires { All (HasNames config.now) found.now }
    ensures { Writes W.contents out.old out.new (orders_of config.now is_complete found.now) }
{
    if !is_complete || found.len() > 1 {
        write_orders(config, found, out)
    }
}

/// Writes the verdicts that a test case with this configuration can have: `always VERDICT` for one
/// and no other; `VERDICT or VERDICT ..` for these and no other; `undecided` if some may be missed,
/// and then `seen VERDICT ..` if some were found. After that `states N`; and unless it is one and
/// no other, for each a line `VERDICT: COMPONENT COMPONENT ..`, the components of its order. If the
/// writer fails, it has written a front of the text. It writes in small pieces: use a writer with a
/// buffer.
pub fn write_verdicts<W: Write>(config: &Config, verdicts: &Verdicts, out: &mut Watched<W>)
    requires { All (HasNames config.now) verdicts.now.found.items }
    ensures { Writes W.contents out.old out.new (verdicts_text config.now verdicts.now) }
{
    write_said(verdicts.is_complete, verdicts.found.as_slice(), out);
    write_states(verdicts.states, out);
    write_needed_orders(config, verdicts.is_complete, verdicts.found.as_slice(), out)
}
