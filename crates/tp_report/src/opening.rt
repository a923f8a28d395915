//! The openings of lines on messages. Most are like one before, which is therefore kept.
ghost use Rattle.std.specs.Prelude.{◌≡◌, ◌<◌, ◌≤◌, ◌++◌, ◌↔◌, IfSome, IsTrue, drop, length};
ghost use Rattle.tp_common.specs.Watching.{Writes};
ghost use Rattle.tp_config.specs.Setup.{Setup};
ghost use Rattle.tp_report.specs.LineOpenings.{HasItsText, HaveTheirTexts, NamesKnown, fate_word};
ghost use Rattle.tp_report.specs.LineOpenings.{opening_text, pieces_text};

use crate::backward::put_bytes;
use crate::words::{component_name, port_name};
use std::io::Write;
use tp_common::watched::{Watched, write_bytes};
use tp_config::config::Config;
use tp_config::port_type::{CompId, PortRef};

/// Room for the text of an opening. A longer one is written piece by piece.
const ROOM: usize = 64;

/// Two places for each component, as receiver and as sender: a configuration has 64 components.
const PLACES: usize = 128;

#[derive(Clone, Copy, PartialEq, Eq)]
pub enum Fate {
    Came,
    Took,
    Found,
    Dropped,
    Left,
}

/// The opening of a line on a message.
#[derive(Clone, Copy)]
pub enum Opening {
    Sent(PortRef),
    /// The message's fate, the port, and the sender.
    At(Fate, PortRef, CompId),
}

/// The pieces of an opening, in order: a word, and two names with the text between them.
#[derive(Clone, Copy)]
struct OpeningPieces<'a> {
    word: &'a [u8],
    front: &'a [u8],
    between: &'a [u8],
    back: &'a [u8],
}

impl Fate {
    fn word(self) -> &'static [u8]
        ensures { result.now ≡ fate_word self }
    {
        match self {
            Fate::Came => b"came ",
            Fate::Took => b"took ",
            Fate::Found => b"found ",
            Fate::Dropped => b"dropped ",
            Fate::Left => b"left ",
        }
    }

    fn is(self, other: Fate) -> bool
        ensures { IsTrue result ↔ (self ≡ other) }
    {
        self == other
    }
}

impl Opening {
    fn is(self, other: Opening) -> bool
        ensures { IsTrue result ↔ (self ≡ other) }
    {
        match self {
            Opening::Sent(to) => match other {
                Opening::Sent(other_to) => to.is(other_to),
                Opening::At(_, _, _) => false,
            },
            Opening::At(fate, port, sender) => match other {
                Opening::Sent(_) => false,
                Opening::At(other_fate, other_port, other_sender) => {
                    fate.is(other_fate) && port.is(other_port) && sender.0 == other_sender.0
                }
            },
        }
    }

    /// Where this opening is kept.
    fn place(self) -> usize
        ensures { result < 128 }
    {
        // The remainder is the number itself: no configuration has more than 64 components.
        match self {
            Opening::Sent(to) => to.comp.0 as usize % 64,
            Opening::At(_, _, sender) => 64 + sender.0 as usize % 64,
        }
    }

    fn pieces(self, config: &Config) -> OpeningPieces<'_>
        requires { NamesKnown config.now self }
        ensures { pieces_text result ≡ opening_text config.now self }
    {
        match self {
            Opening::Sent(to) => OpeningPieces {
                word: b"sent ",
                front: component_name(config, to.comp),
                between: b".",
                back: port_name(config, to),
            },
            Opening::At(fate, port, sender) => OpeningPieces {
                word: fate.word(),
                front: port_name(config, port),
                between: b" ",
                back: component_name(config, sender),
            },
        }
    }
}

fn try_put(bytes: &[u8], text: &mut [u8], end: usize) -> Option<usize>
    requires { end ≤ length text.old }
    ensures { IfSome result (λ start. (start ≤ end)
        × (drop start text.new ≡ bytes.now ++ drop end text.old)) }
{
    if bytes.len() > end {
        return None;
    }
    Some(put_bytes(bytes, text, end))
}

fn put_pieces(pieces: OpeningPieces<'_>, text: &mut [u8; ROOM]) -> Option<usize>
    ensures { IfSome result (λ start. (start ≤ 64) × (drop start text.new
        ≡ pieces_text pieces.entry)) }
{
    // From the last piece to the first, so that the text ends at the end of the room.
    let back = try_put(pieces.back, text, ROOM)?;
    let between = try_put(pieces.between, text, back)?;
    let front = try_put(pieces.front, text, between)?;
    try_put(pieces.word, text, front)
}

fn write_opening_pieces<W: Write>(pieces: OpeningPieces<'_>, out: &mut Watched<W>)
    ensures { Writes W.contents out.old out.new (pieces_text pieces.entry) }
{
    write_bytes(pieces.word, out);
    write_bytes(pieces.front, out);
    write_bytes(pieces.between, out);
    write_bytes(pieces.back, out)
}

/// The last opening that was put together, with its text.
#[derive(Clone, Copy)]
struct KeptOpening {
    /// `None` before the first opening, and if the last one had no room.
    of: Option<Opening>,
    /// The text of the opening, at the end of the array.
    text: [u8; ROOM],
    start: usize,
}

impl KeptOpening {
    ghost use Rattle.tp_report.specs.LineOpenings.{HasItsText};

    fn new() -> KeptOpening
        ensures { (setup : Setup) → HasItsText setup result }
    {
        KeptOpening {
            of: None,
            text: [0; ROOM],
            start: ROOM,
        }
    }

    fn is_of(&self, opening: Opening) -> bool
        ensures { IsTrue result → self.now.of ≡ Some opening }
    {
        match self.of {
            Some(kept) => kept.is(opening),
            None => false,
        }
    }

    fn keep(&mut self, config: &Config, opening: Opening) -> bool
        requires { NamesKnown config.now opening }
        ensures kept { HasItsText config.now self.new }
        ensures of { IsTrue result → self.new.of ≡ Some opening }
    {
        // Nothing is kept until the text is complete, or if there is no room for it.
        self.of = None;
        self.start = ROOM;
        match put_pieces(opening.pieces(config), &mut self.text) {
            Some(start) => {
                self.start = start;
                self.of = Some(opening);
                true
            }
            None => false,
        }
    }

    /// Keeps this opening if it isn't kept yet. Returns false if there is no room for its text.
    fn holds(&mut self, config: &Config, opening: Opening) -> bool
        requires named { NamesKnown config.now opening }
        requires kept { HasItsText config.now self.old }
        ensures kept { HasItsText config.now self.new }
        ensures of { IsTrue result → self.new.of ≡ Some opening }
    {
        self.is_of(opening) || self.keep(config, opening)
    }

    /// The text of the opening that is kept.
    fn text(&self) -> &[u8]
        requires { self.now.start ≤ 64 }
        ensures { result.now ≡ drop self.now.start self.now.text }
    {
        &self.text[self.start..]
    }
}

/// The openings kept while a report is written. Lines on messages to or from many components often
/// alternate, so that one place would be used anew for each line.
#[derive(Drop)]
pub struct KeptOpenings {
    all: [KeptOpening; PLACES],
}

impl KeptOpenings {
    ghost use Rattle.tp_report.specs.LineOpenings.{HaveTheirTexts};

    pub fn new() -> KeptOpenings
        ensures { (setup : Setup) → HaveTheirTexts setup result }
    {
        KeptOpenings {
            all: [KeptOpening::new(); PLACES],
        }
    }
}

fn write_kept<W: Write>(
    config: &Config,
    opening: Opening,
    kept: &mut KeptOpening,
    out: &mut Watched<W>,
)
    requires named { NamesKnown config.now opening }
    requires kept { HasItsText config.now kept.old }
    ensures written { Writes W.contents out.old out.new (opening_text config.now opening) }
    ensures kept { HasItsText config.now kept.new }
{
    if kept.holds(config, opening) {
        return write_bytes(kept.text(), out);
    }
    write_opening_pieces(opening.pieces(config), out)
}

/// Writes an opening. If there is room for its text, the text is kept for the next line like it.
pub fn write_opening<W: Write>(
    config: &Config,
    opening: Opening,
    kept: &mut KeptOpenings,
    out: &mut Watched<W>,
)
    requires named { NamesKnown config.now opening }
    requires kept { HaveTheirTexts config.now kept.old }
    ensures written { Writes W.contents out.old out.new (opening_text config.now opening) }
    ensures kept { HaveTheirTexts config.now kept.new }
{
    write_kept(config, opening, &mut kept.all[opening.place()], out)
}
