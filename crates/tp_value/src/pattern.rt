//! The match of a charstring with a pattern.
ghost use Rattle.std.specs.Prelude.{◌≡◌, ◌↔◌, ◌<◌, ◌≤◌, IsTrue, length, drop, []};
ghost use Rattle.tp_value.specs.Cuts.{HasCut};
ghost use Rattle.tp_value.specs.Steps.{StepIs};
ghost use Rattle.tp_value.specs.Matches.{is_many_part, AdmitsChar, IsTextPiece};

use crate::scan::ScanMove;
use crate::template::PatternPart;

fn is_many(part: PatternPart) -> bool
    ensures { result ≡ is_many_part part }
{
    match part {
        PatternPart::AnyOrNone => true,
        PatternPart::One | PatternPart::Literal(_) => false,
    }
}

fn admits(part: PatternPart, char: u8) -> bool
    ensures { IsTrue result ↔ AdmitsChar part char }
{
    match part {
        PatternPart::AnyOrNone => false,
        PatternPart::One => true,
        PatternPart::Literal(wanted) => char == wanted,
    }
}

fn next_step(parts: &[PatternPart], part: usize, text: &[u8], at: usize) -> ScanMove
    requires { at < length text.now }
    ensures { StepIs is_many_part AdmitsChar (drop part parts.now) (drop at text.now) result }
{
    if part >= parts.len() {
        ScanMove::Stuck
    } else if is_many(parts[part]) {
        ScanMove::AnyOrNone
    } else if admits(parts[part], text[at]) {
        ScanMove::One
    } else {
        ScanMove::Stuck
    }
}

fn only_many(parts: &[PatternPart], from: usize) -> bool
    requires { from ≤ length parts.now }
    ensures { IsTrue result ↔ HasCut IsTextPiece (drop from parts.now) [] }
{
    for part in from..parts.len() {
        if !is_many(parts[part]) {
            return false;
        }
    }
    true
}

/// Searches for a cut of the text: it goes from part to part, and if it is stuck goes back to the
/// last `*`, which then takes one character more.
pub fn text_matches(parts: &[PatternPart], text: &[u8]) -> bool
    ensures { IsTrue result ↔ HasCut IsTextPiece parts.now text.now }
{
    let mut part = 0;
    let mut at = 0;
    let mut back: Option<(usize, usize)> = None;
    while at < text.len() {
        match next_step(parts, part, text, at) {
            ScanMove::AnyOrNone => {
                part += 1;
                // A last `*` takes all that is left.
                if part >= parts.len() {
                    return true;
                }
                back = Some((part, at));
            }
            ScanMove::One => {
                part += 1;
                at += 1;
            }
            ScanMove::Stuck => {
                let Some((after, from)) = back else {
                    return false;
                };
                part = after;
                at = from + 1;
                back = Some((after, from + 1));
            }
        }
    }
    only_many(parts, part)
}
