//! The lines of a queue file, as they are read.
ghost use Rattle.std.specs.Prelude.{◌≡◌, ◌∷◌, [], codes, Some, ◌↔◌, ℤ, IfSome, IsTrue, MatchOption, FitsSigned};
ghost use Rattle.std.specs.Int.{w64};
ghost use Rattle.std.specs.List.{list_all};
ghost use Rattle.std.specs.Char.{is_ascii_alphanumeric};
ghost use Rattle.std.specs.Fmt.{signed_decimal};
ghost use Rattle.tp_common.specs.Cutting.{words_of};
ghost use Rattle.tp_port.specs.QueueLine.{BeginsAsInteger, IsArriveLine, IsGood, SaysOneAtMost, IsName, IsWish};
ghost use Rattle.tp_port.specs.QueueLine.{PatternFits, Spells, arrival_words, operands, pattern_text, verb_of};
ghost use Rattle.tp_port.specs.QueueLine.{verb_text, wish_words};
ghost use Rattle.tp_port.specs.Command.{IsRead, queue_line, wish_of, words_left};

use crate::pattern::IntegerPattern;
use tp_common::cut::{first_word, utf8_text};

/// The maximum number of letters and digits of a name.
pub const NAME_LIMIT: usize = 20;

/// The first word of a line: its name in lower-case letters.
#[derive(Clone, Copy)]
pub enum CommandVerb {
    Arrive,
    Receive,
    Check,
    Trigger,
    Clear,
    Start,
    Stop,
    Halt,
}

/// The matching criteria of a receiving operation (ES 201 873-1, 22.2.2).
#[derive(Clone, Copy)]
pub struct Criteria<'t> {
    pub value: IntegerPattern,
    pub from: Option<&'t str>,
}

/// A line of a queue file. Its names are slices of the text.
#[derive(Clone, Copy)]
pub enum Command<'t> {
    /// `arrive NAME INT`: a message from this sender arrives.
    Arrive(&'t str, i64),
    /// `receive PAT [from NAME]`.
    Receive(Criteria<'t>),
    /// `check PAT [from NAME]`.
    Check(Criteria<'t>),
    /// `trigger PAT [from NAME]`.
    Trigger(Criteria<'t>),
    Clear,
    Start,
    Stop,
    Halt,
}

#[inline(always)]
fn verb_in(word: &[u8]) -> Option<CommandVerb>
    ensures { MatchOption result
        ((verb : _) → word.now ≡ verb_text verb → ⊥)
        (λ verb. word.now ≡ verb_text verb) }
{
    match word {
        b"arrive" => Some(CommandVerb::Arrive),
        b"receive" => Some(CommandVerb::Receive),
        b"check" => Some(CommandVerb::Check),
        b"trigger" => Some(CommandVerb::Trigger),
        b"clear" => Some(CommandVerb::Clear),
        b"start" => Some(CommandVerb::Start),
        b"stop" => Some(CommandVerb::Stop),
        b"halt" => Some(CommandVerb::Halt),
        _ => None,
    }
}

fn is_alphanumeric(bytes: &[u8]) -> bool
    ensures { result ≡ list_all is_ascii_alphanumeric bytes.now }
{
    bytes.iter().all(|byte| byte.is_ascii_alphanumeric())
}

fn is_name(word: &[u8]) -> bool
    ensures { IsTrue result ↔ IsName word.now }
{
    match word {
        [] => false,
        [first, ..] => {
            first.is_ascii_alphabetic() && is_alphanumeric(word) && word.len() <= NAME_LIMIT
        }
    }
}

fn name_of(word: &[u8]) -> Option<&str>
    ensures { MatchOption result
        (¬ IsName word.now)
        (λ name. (name.now ≡ word.now) × IsName word.now) }
{
    if is_name(word) { utf8_text(word) } else { None }
}

fn begins_as_integer(word: &[u8]) -> bool
    ensures { IsTrue result ↔ BeginsAsInteger word.now }
{
    match word {
        b"0" | [b'1'..=b'9', ..] | [b'-', b'1'..=b'9', ..] => true,
        _ => false,
    }
}

fn parse_integer(word: &[u8]) -> Option<i64>
    ensures every { (n : ℤ) → FitsSigned w64 n → word.now ≡ signed_decimal n → result ≡ Some n }
    ensures decimal { IfSome result (λ n. BeginsAsInteger word.now → word.now ≡ signed_decimal n) }
{
    let text = utf8_text(word)?;
    text.parse::<i64>().ok()
}

fn integer_of(word: &[u8]) -> Option<i64>
    ensures { MatchOption result
        ((n : ℤ) → FitsSigned w64 n → word.now ≡ signed_decimal n → ⊥)
        (λ n. word.now ≡ signed_decimal n) }
{
    if begins_as_integer(word) {
        parse_integer(word)
    } else {
        None
    }
}

fn pattern_of(word: &[u8]) -> Option<IntegerPattern>
    ensures { MatchOption result
        ((p : _) → PatternFits p → word.now ≡ pattern_text p → ⊥)
        (λ p. (word.now ≡ pattern_text p) × PatternFits p) }
{
    if word == b"?".as_slice() {
        return Some(IntegerPattern::Any);
    }
    let value = integer_of(word)?;
    Some(IntegerPattern::Number(value))
}

fn only_word(words: Option<&[u8]>) -> Option<&[u8]>
    ensures { MatchOption result
        ((word : _) → words_left words.entry ≡ word ∷ [] → ⊥)
        (λ word. words_left words.entry ≡ word.now ∷ []) }
{
    let (word, rest) = first_word(words?);
    match rest {
        None => Some(word),
        Some(_) => None,
    }
}

fn sender_named(words: &[u8]) -> Option<&str>
    ensures { MatchOption result
        ((name : _) → IsName name → words_of words.now ≡ codes "from" ∷ name ∷ [] → ⊥)
        (λ name. IsName name.now × (words_of words.now ≡ codes "from" ∷ name.now ∷ [])) }
{
    let (word, rest) = first_word(words);
    if word != b"from".as_slice() {
        return None;
    }
    let name = only_word(rest)?;
    name_of(name)
}

fn criteria_of(words: Option<&[u8]>) -> Option<Criteria<'_>>
    ensures { MatchOption result
        ((wish : _) → IsWish wish → words_left words.entry ≡ wish_words wish → ⊥)
        (λ c. IsWish (wish_of c) × (words_left words.entry ≡ wish_words (wish_of c))) }
{
    let (word, rest) = first_word(words?);
    let value = pattern_of(word)?;
    match rest {
        None => Some(Criteria { value, from: None }),
        Some(rest) => {
            let name = sender_named(rest)?;
            Some(Criteria {
                value,
                from: Some(name),
            })
        }
    }
}

fn arrival_of(words: Option<&[u8]>) -> Option<(&str, i64)>
    ensures { MatchOption result
        ((name : _) (n : ℤ) → IsArriveLine name n
        → words_left words.entry ≡ arrival_words name n → ⊥)
        (λ a. IsArriveLine a.0.now a.1 × (words_left words.entry ≡ arrival_words a.0.now a.1)) }
{
    let (word, rest) = first_word(words?);
    let sender = name_of(word)?;
    let number = only_word(rest)?;
    let value = integer_of(number)?;
    Some((sender, value))
}

fn alone<'t>(command: Command<'t>, words: Option<&[u8]>) -> Option<Command<'t>>
    requires { operands (queue_line command) ≡ [] }
    ensures { IsRead (verb_of (queue_line command.entry)) (words_left words.entry) result }
{
    // The command has no operands.
    match words {
        None => Some(command),
        Some(_) => None,
    }
}

#[inline(always)]
fn command_with(verb: CommandVerb, words: Option<&[u8]>) -> Option<Command<'_>>
    ensures { IsRead verb (words_left words.entry) result }
{
    match verb {
        CommandVerb::Arrive => {
            let (sender, value) = arrival_of(words)?;
            Some(Command::Arrive(sender, value))
        }
        CommandVerb::Receive => criteria_of(words).map(Command::Receive),
        CommandVerb::Check => criteria_of(words).map(Command::Check),
        CommandVerb::Trigger => criteria_of(words).map(Command::Trigger),
        CommandVerb::Clear => alone(Command::Clear, words),
        CommandVerb::Start => alone(Command::Start, words),
        CommandVerb::Stop => alone(Command::Stop, words),
        CommandVerb::Halt => alone(Command::Halt, words),
    }
}

/// Reads a line without its end. There is one space between words and none elsewhere. Names have 1
/// to 20 letters and digits, with a letter first. Integers have 64 signed bits, in decimal without
/// a leading zero or a `+`. `None` for any other line, including an empty one.
// Inlined, as what tells the verb is: a call hands a command's seven words back through memory.
#[inline(always)]
pub fn command_of(line: &[u8]) -> Option<Command<'_>>
    ensures { MatchOption result
        (¬ IsGood line.now)
        (λ command. Spells line.now (queue_line command)) }
{
    // A line that is a verb has no space, so none is looked for.
    if let Some(verb) = verb_in(line) {
        return command_with(verb, None);
    }
    let (word, rest) = first_word(line);
    let verb = verb_in(word)?;
    command_with(verb, rest)
}

/// A law, which does nothing in a run: a text says at most one list of lines.
pub fn says_one_at_most()
    ensures { SaysOneAtMost }
{}
