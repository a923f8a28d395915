//! The places at which the lines of a trace may stand.
ghost use Rattle.std.specs.Prelude.{◌≡◌};
ghost use Rattle.tp_judge.specs.Tree.{may_stand, place_after, told_of};

use crate::referee::line::{Line, MessageVerb};

#[derive(Clone, Copy)]
pub enum TracePosition {
    Front,
    Section,
    /// After a line `left` of a section.
    Left,
    Behind,
}

pub fn place_after(line: &Line<'_>) -> TracePosition
    ensures { result ≡ place_after (told_of line.now) }
{
    match line {
        Line::Message(MessageVerb::Left, _) => TracePosition::Left,
        Line::Result(_) => TracePosition::Behind,
        _ => TracePosition::Section,
    }
}

/// At the front a section begins or the result follows. In a section any line follows. After a
/// `left` another `left` follows, a section begins, or the result follows. After the result nothing
/// does.
pub fn may_stand(place: TracePosition, line: &Line<'_>) -> bool
    ensures { result ≡ may_stand place (told_of line.now) }
{
    match place {
        TracePosition::Front => matches!(line, Line::Component(_) | Line::Result(_)),
        TracePosition::Section => true,
        TracePosition::Left => matches!(
            line,
            Line::Component(_) | Line::Message(MessageVerb::Left, _) | Line::Result(_)
        ),
        TracePosition::Behind => false,
    }
}
