//! The text of a ruling.
ghost use Rattle.std.specs.Prelude.{◌≡◌};
ghost use Rattle.std.specs.List.{flat_map};
ghost use Rattle.tp_common.specs.Watching.{Writes};
ghost use Rattle.tp_judge.specs.RulingTexts.{lawful_text, place_text, rule_text, run_text, ruling_text};

use crate::one_run::OneRun;
use crate::place::{Rule, UnlawfulPlace};
use crate::referee::ruling::Ruling;
use std::io::Write;
use tp_common::watched::{Watched, write_bytes, write_number};

fn rule_word(rule: Rule) -> &'static [u8]
    ensures { result.now ≡ rule_text rule }
{
    match rule {
        Rule::Stopped => b"Stopped",
        Rule::Behind => b"Behind",
        Rule::NotTop => b"NotTop",
        Rule::Left => b"Left",
        Rule::Numbering => b"Numbering",
        Rule::Lost => b"Lost",
        Rule::Doubled => b"Doubled",
        Rule::Invented => b"Invented",
        Rule::Changed => b"Changed",
        Rule::Reordered => b"Reordered",
        Rule::Circle => b"Circle",
    }
}

fn write_place<W: Write>(writer: &mut Watched<W>, place: UnlawfulPlace)
    ensures { Writes W.contents writer.old writer.new (place_text place) }
{
    write_bytes(b"unlawful ", writer);
    write_bytes(rule_word(place.rule), writer);
    write_bytes(b" line ", writer);
    write_number(place.line as u64, writer);
    write_bytes(b"\n", writer);
}

fn write_places<W: Write>(writer: &mut Watched<W>, places: &[UnlawfulPlace])
    ensures { Writes W.contents writer.old writer.new (flat_map place_text places.now) }
{
    for place in places {
        write_place(writer, *place);
    }
}

fn write_run<W: Write>(writer: &mut Watched<W>, run: OneRun)
    ensures { Writes W.contents writer.old writer.new (run_text run) }
{
    match run {
        OneRun::OneRun => write_bytes(b"one run\n", writer),
        OneRun::Delayed(line) => {
            write_bytes(b"delayed line ", writer);
            write_number(line as u64, writer);
            write_bytes(b"\n", writer);
        }
    }
}

fn write_lawful<W: Write>(writer: &mut Watched<W>, run: OneRun)
    ensures { Writes W.contents writer.old writer.new (lawful_text run) }
{
    write_bytes(b"lawful\n", writer);
    write_run(writer, run)
}

/// Writes a ruling: `lawful`, and `one run` or `delayed line L`; or a line `unlawful RULE line L`
/// for each place. If the writer fails, it has written a front of the text. It writes in small
/// pieces: use a writer with a buffer.
pub fn write_ruling<W: Write>(writer: &mut Watched<W>, ruling: &Ruling)
    ensures { Writes W.contents writer.old writer.new (ruling_text ruling.now) }
{
    match ruling {
        Ruling::Lawful(run) => write_lawful(writer, *run),
        Ruling::Unlawful(places) => write_places(writer, places.as_slice()),
    }
}
