//! A trace: a text with the form of one, cut into its lines.
ghost use Rattle.std.specs.Prelude.{◌≡◌, ◌≢◌, ◌<◌, All, AllPairs, Some, length, map, slice_get};
ghost use Rattle.tp_judge.specs.Spans.{IsSpanOf, span_texts};
ghost use Rattle.tp_judge.specs.Tree.{HoldsTrace, IsTrace, names_of, section_named, told_in, told_of};

use crate::referee::line::Line;
use crate::referee::read::trace_line;
use crate::referee::words::NumberedWords;
use std::marker::Model;

#[derive(Clone, Copy)]
pub struct Span {
    pub start: u32,
    pub end: u32,
}

/// A trace. Contracts see the content of its lines, in order: line L of the text is at the place L
/// - 1. Its words are slices of the text; it takes 8 bytes for each line, and a table of the names
/// of its sections.
#[derive(Drop)]
pub struct Trace<'t> {
    text: &'t [u8],
    /// The places of the lines in the text, in half the memory of slices.
    spans: Vec<Span>,
    names: NumberedWords<'t>,
}

impl<'t> Model for Trace<'t> {
    ghost use Rattle.std.specs.Prelude.{List, map};
    ghost use Rattle.tp_judge.specs.LineTexts.{Told};
    ghost use Rattle.tp_judge.specs.Spans.{HoldsSpans, span_texts};
    ghost use Rattle.tp_judge.specs.Tree.{told_in};

    ghost Value = { List Told };

    ghost view = { λ t. map told_in (span_texts t.text.now t.spans.items) };

    ghost invariant = { λ t. HoldsSpans t.text.now t.spans.items t.names };
}

impl<'t> Trace<'t> {
    pub(crate) fn of(text: &'t [u8], spans: Vec<Span>, names: NumberedWords<'t>) -> Trace<'t>
        requires holds { HoldsTrace (span_texts text.now spans.items) names }
        requires within { All (IsSpanOf (length text.now)) spans.items }
        ensures { result ≡ map told_in (span_texts text.now spans.items) }
    {
        Trace { text, spans, names }
    }

    pub fn line_count(&self) -> usize
        ensures count { result ≡ length self.now }
        ensures trace { IsTrace self.now }
    {
        self.spans.len()
    }

    /// The line at this place. Places are numbered from 0, lines from 1.
    pub fn line(&self, place: usize) -> Line<'t>
        requires { place < length self.now }
        ensures { slice_get self.now place ≡ Some (told_of result) }
    {
        let span = self.spans[place];
        match trace_line(&self.text[span.start as usize..span.end as usize]) {
            Some(line) => line,
            // Each span was read as a line before it was kept.
            None => unreachable!(),
        }
    }

    pub fn section_count(&self) -> usize
        ensures count { result ≡ length (names_of self.now) }
        ensures distinct { AllPairs (λ a b. a ≢ b) (names_of self.now) }
    {
        self.names.len()
    }

    /// The number of this component's section, from 0 in their order.
    pub fn section_of(&self, name: &[u8]) -> Option<usize>
        ensures { result ≡ section_named (names_of self.now) name.now }
    {
        self.names.find(name)
    }
}
