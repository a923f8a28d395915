//! The reader of a line.
ghost use Rattle.std.specs.Prelude.{◌≡◌, ◌∷◌, ◌++◌, ◌<◌, ◌^◌, ◌↔◌, ℕ, codes, IsTrue, MatchBool, MatchOption, None};
ghost use Rattle.std.specs.Prelude.{Some, false, length, true};
ghost use Rattle.std.specs.Char.{is_ascii_graphic};
ghost use Rattle.std.specs.List.{list_all};
ghost use Rattle.std.specs.Fmt.{decimal};
ghost use Rattle.std.specs.Option.{option_copied};
ghost use Rattle.tp_common.specs.Cutting.{lacks};
ghost use Rattle.tp_judge.specs.declared.referee.line.MessageVerb.TheVariants as fate;
ghost use Rattle.tp_judge.specs.LineTexts.{IsLetter, IsRemark, IsTraceNumber, IsPortName, IsTold, IsVerdictWord};
ghost use Rattle.tp_judge.specs.LineTexts.{IsComponentName, Spells, Told, fate_text, is_port_byte, letter_text};
ghost use Rattle.tp_judge.specs.LineTexts.{remark_text, operands, operation_text, verb_of, verb_text};
ghost use Rattle.tp_judge.specs.Read.{IsContents, IsRead, contents_text};
ghost use Rattle.tp_judge.specs.Tree.{letter_of, told_of};

use crate::referee::line::{Line, MessageVerb, MessageWords, Remark, Verb};
use itoa::Buffer;
use tp_common::cut::{first_word, utf8_text};
use tp_common::operation::PortOperation;

const GREATEST_NUMBER: u64 = 9_223_372_036_854_775_807;

fn fate_of(word: &[u8]) -> Option<MessageVerb>
    ensures { MatchOption result
        ((fate : _) → word.now ≡ fate_text fate → ⊥)
        (λ fate. word.now ≡ fate_text fate) }
{
    match word {
        b"sent" => Some(MessageVerb::Sent),
        b"came" => Some(MessageVerb::Came),
        b"took" => Some(MessageVerb::Took),
        b"found" => Some(MessageVerb::Found),
        b"dropped" => Some(MessageVerb::Dropped),
        b"left" => Some(MessageVerb::Left),
        _ => None,
    }
}

fn operation_of(word: &[u8]) -> Option<PortOperation>
    ensures { MatchOption result
        ((operation : _) → word.now ≡ operation_text operation → ⊥)
        (λ operation. word.now ≡ operation_text operation) }
{
    match word {
        b"started" => Some(PortOperation::Start),
        b"stopped" => Some(PortOperation::Stop),
        b"halted" => Some(PortOperation::Halt),
        b"cleared" => Some(PortOperation::Clear),
        _ => None,
    }
}

fn remark_of(word: &[u8]) -> Option<Remark>
    ensures { MatchOption result
        ((remark : _) → word.now ≡ remark_text remark → ⊥)
        (λ remark. word.now ≡ remark_text remark) }
{
    match word {
        b"set" => Some(Remark::Set),
        b"failed" => Some(Remark::Failed),
        b"verdict" => Some(Remark::Verdict),
        _ => None,
    }
}

fn verb_of(word: &[u8]) -> Option<Verb>
    ensures { MatchOption result
        ((verb : _) → word.now ≡ verb_text verb → ⊥)
        (λ verb. word.now ≡ verb_text verb) }
{
    if let Some(fate) = fate_of(word) {
        return Some(Verb::Message(fate));
    }
    if let Some(operation) = operation_of(word) {
        return Some(Verb::Operation(operation));
    }
    if let Some(remark) = remark_of(word) {
        return Some(Verb::Remark(remark));
    }
    match word {
        b"component" => Some(Verb::Component),
        b"else" => Some(Verb::Else),
        b"end" => Some(Verb::End),
        b"result" => Some(Verb::Result),
        _ => None,
    }
}

fn is_graphic(bytes: &[u8]) -> bool
    ensures { result ≡ list_all is_ascii_graphic bytes.now }
{
    bytes.iter().all(|byte| byte.is_ascii_graphic())
}

fn is_undotted(bytes: &[u8]) -> bool
    ensures { result ≡ list_all is_port_byte bytes.now }
{
    bytes
        .iter()
        .all(|byte| byte.is_ascii_graphic() && *byte != b'.')
}

fn is_word(word: &[u8]) -> bool
    ensures { IsTrue result ↔ IsComponentName word.now }
{
    !word.is_empty() && is_graphic(word)
}

fn is_port(word: &[u8]) -> bool
    ensures { IsTrue result ↔ IsPortName word.now }
{
    !word.is_empty() && is_undotted(word)
}

fn is_verdict(word: &[u8]) -> bool
    ensures { MatchBool result (IsVerdictWord word.now) (¬ IsVerdictWord word.now) }
{
    match word {
        b"none" | b"pass" | b"inconc" | b"fail" | b"error" => true,
        _ => false,
    }
}

fn parse_number(word: &[u8]) -> Option<u64>
    ensures { (n : ℕ) → n < 2 ^ 63 → word.now ≡ decimal n → result ≡ Some n }
{
    let text = utf8_text(word)?;
    text.parse::<u64>().ok()
}

fn number_of(word: &[u8]) -> Option<u64>
    ensures { MatchOption result
        ((n : ℕ) → n < 2 ^ 63 → word.now ≡ decimal n → ⊥)
        (λ n. (n < 2 ^ 63) × (word.now ≡ decimal n)) }
{
    let number = parse_number(word)?;
    if number > GREATEST_NUMBER {
        return None;
    }
    let mut buffer = Buffer::new();
    // A number has one spelling, while `parse` also accepts a `+` and leading zeros.
    if buffer.format(number).as_bytes() == word {
        Some(number)
    } else {
        None
    }
}

fn is_remark(remark: Remark, word: &[u8]) -> bool
    ensures { MatchBool result (IsRemark remark word.now) (¬ IsRemark remark word.now) }
{
    match remark {
        Remark::Set | Remark::Verdict => is_verdict(word),
        Remark::Failed => number_of(word).is_some(),
    }
}

fn contents_of(rest: Option<&[u8]>) -> Option<(u64, &[u8])>
    ensures { MatchOption result
        ((n : ℕ) (text : _) → IsContents n text
        → option_copied rest.entry ≡ Some (contents_text n text) → ⊥)
        (λ c. IsContents c.0 c.1.now
        × (option_copied rest.entry ≡ Some (contents_text c.0 c.1.now))) }
{
    let (word, text) = first_word(rest?);
    let number = number_of(word)?;
    let text = text?;
    if text.is_empty() {
        return None;
    }
    Some((number, text))
}

fn around_last_dot(word: &[u8]) -> Option<(&[u8], &[u8])>
    ensures { MatchOption result
        (lacks 46 word.now ≡ true)
        (λ parts. (word.now ≡ parts.0.now ++ 46 ∷ parts.1.now) × (lacks 46 parts.1.now ≡ true)) }
{
    // From the end: a component's name may contain dots, and a port's may not.
    let mut place = word.len();
    while place > 0 {
        place -= 1;
        if word[place] == b'.' {
            return Some((&word[..place], &word[place + 1..]));
        }
    }
    None
}

fn sent_of(rest: &[u8]) -> Option<MessageWords<'_>>
    ensures { MatchOption result
        ((letter : _) → IsLetter letter → rest.now ≡ letter_text fate.Sent letter → ⊥)
        (λ m. IsLetter (letter_of m) × (rest.now ≡ letter_text fate.Sent (letter_of m))) }
{
    let (place, more) = first_word(rest);
    let (component, port) = around_last_dot(place)?;
    if !is_word(component) || !is_port(port) {
        return None;
    }
    let (number, text) = contents_of(more)?;
    Some(MessageWords {
        component,
        port,
        number,
        text,
    })
}

fn passed_of(rest: &[u8]) -> Option<MessageWords<'_>>
    ensures { MatchOption result
        ((letter : _) → IsLetter letter → rest.now ≡ letter_text fate.Came letter → ⊥)
        (λ m. IsLetter (letter_of m) × (rest.now ≡ letter_text fate.Came (letter_of m))) }
{
    let (port, more) = first_word(rest);
    let (component, last) = first_word(more?);
    if !is_port(port) || !is_word(component) {
        return None;
    }
    let (number, text) = contents_of(last)?;
    Some(MessageWords {
        component,
        port,
        number,
        text,
    })
}

fn message_of(fate: MessageVerb, rest: &[u8]) -> Option<MessageWords<'_>>
    ensures { MatchOption result
        ((letter : _) → IsLetter letter → rest.now ≡ letter_text fate letter → ⊥)
        (λ m. IsLetter (letter_of m) × (rest.now ≡ letter_text fate (letter_of m))) }
{
    match fate {
        MessageVerb::Sent => sent_of(rest),
        MessageVerb::Came
        | MessageVerb::Took
        | MessageVerb::Found
        | MessageVerb::Dropped
        | MessageVerb::Left => passed_of(rest),
    }
}

fn line_where(holds: bool, line: Line<'_>) -> Option<Line<'_>>
    ensures { MatchOption result (holds ≡ false) (λ l. (holds ≡ true) × (l ≡ line.entry)) }
{
    if holds { Some(line) } else { None }
}

fn line_behind(verb: Verb, rest: &[u8]) -> Option<Line<'_>>
    ensures { IsRead verb (Some rest.now) result }
{
    match verb {
        Verb::Message(fate) => {
            let message = message_of(fate, rest)?;
            Some(Line::Message(fate, message))
        }
        Verb::Component => line_where(is_word(rest), Line::Component(rest)),
        Verb::Operation(operation) => line_where(is_port(rest), Line::Operation(operation, rest)),
        Verb::Remark(remark) => line_where(is_remark(remark, rest), Line::Remark(remark, rest)),
        Verb::End => line_where(!rest.is_empty(), Line::End(rest)),
        Verb::Result => line_where(is_verdict(rest), Line::Result(rest)),
        Verb::Else => None,
    }
}

fn line_alone(verb: Verb) -> Option<Line<'static>>
    ensures { IsRead verb None result }
{
    match verb {
        Verb::Else => Some(Line::Else),
        _ => None,
    }
}

fn line_with(verb: Verb, rest: Option<&[u8]>) -> Option<Line<'_>>
    ensures { IsRead verb (option_copied rest.entry) result }
{
    match rest {
        Some(rest) => line_behind(verb, rest),
        None => line_alone(verb),
    }
}

/// Reads a line without its end. There is one space between words and none elsewhere. `None` if no
/// line of a trace is spelled so.
pub fn trace_line(bytes: &[u8]) -> Option<Line<'_>>
    ensures { MatchOption result
        ((told : Told) → Spells bytes.now told → ⊥)
        (λ line. Spells bytes.now (told_of line)) }
{
    let (word, rest) = first_word(bytes);
    let verb = verb_of(word)?;
    line_with(verb, rest)
}
