//! The reserved words. The others of ES 201 873-1, Annex A, may be names here.
ghost use Rattle.std.specs.Prelude.{◌≡◌, ◌↔◌, IsTrue, map};
ghost use Rattle.tp_syntax.specs.Word.{first_spelled, word_of, words_of_length};

/// A word that can't be a name. `SelfWord` is `self` and `NoneWord` is `none`; each of the others
/// is the word of its own name, in lower-case letters.
#[derive(Clone, Copy, PartialEq, Eq, Debug)]
pub enum Word {
    Module,
    Type,
    Record,
    Of,
    Port,
    Message,
    Component,
    In,
    Out,
    Inout,
    Function,
    Testcase,
    Runs,
    On,
    System,
    Var,
    Create,
    Connect,
    Map,
    Mtc,
    SelfWord,
    Start,
    Stop,
    Halt,
    Clear,
    Send,
    Receive,
    Trigger,
    Check,
    To,
    From,
    Alt,
    Else,
    For,
    Setverdict,
    NoneWord,
    Pass,
    Inconc,
    Fail,
    Error,
    All,
    Done,
    True,
    False,
    Integer,
    Boolean,
    Charstring,
    Complement,
    Pattern,
    Infinity,
    Value,
    Sender,
}

impl Word {
    pub fn is(self, other: Word) -> bool
        ensures { IsTrue result ↔ (self ≡ other) }
    {
        self == other
    }
}

// The spelling of each reserved word, by the number of its letters. There is no other one.
const OF_TWO: &[(&str, Word)] = &[
    ("of", Word::Of),
    ("in", Word::In),
    ("on", Word::On),
    ("to", Word::To),
];

const OF_THREE: &[(&str, Word)] = &[
    ("out", Word::Out),
    ("var", Word::Var),
    ("map", Word::Map),
    ("mtc", Word::Mtc),
    ("alt", Word::Alt),
    ("for", Word::For),
    ("all", Word::All),
];

const OF_FOUR: &[(&str, Word)] = &[
    ("type", Word::Type),
    ("port", Word::Port),
    ("runs", Word::Runs),
    ("self", Word::SelfWord),
    ("stop", Word::Stop),
    ("halt", Word::Halt),
    ("send", Word::Send),
    ("from", Word::From),
    ("else", Word::Else),
    ("none", Word::NoneWord),
    ("pass", Word::Pass),
    ("fail", Word::Fail),
    ("done", Word::Done),
    ("true", Word::True),
];

const OF_FIVE: &[(&str, Word)] = &[
    ("inout", Word::Inout),
    ("start", Word::Start),
    ("clear", Word::Clear),
    ("check", Word::Check),
    ("error", Word::Error),
    ("false", Word::False),
    ("value", Word::Value),
];

const OF_SIX: &[(&str, Word)] = &[
    ("module", Word::Module),
    ("record", Word::Record),
    ("system", Word::System),
    ("create", Word::Create),
    ("inconc", Word::Inconc),
    ("sender", Word::Sender),
];

const OF_SEVEN: &[(&str, Word)] = &[
    ("message", Word::Message),
    ("connect", Word::Connect),
    ("receive", Word::Receive),
    ("trigger", Word::Trigger),
    ("integer", Word::Integer),
    ("boolean", Word::Boolean),
    ("pattern", Word::Pattern),
];

const OF_EIGHT: &[(&str, Word)] = &[
    ("function", Word::Function),
    ("testcase", Word::Testcase),
    ("infinity", Word::Infinity),
];

const OF_NINE: &[(&str, Word)] = &[("component", Word::Component)];

const OF_TEN: &[(&str, Word)] = &[
    ("setverdict", Word::Setverdict),
    ("charstring", Word::Charstring),
    ("complement", Word::Complement),
];

/// The reserved word with this spelling. `None` if the text is none: then it may be a name.
pub fn word_of(text: &str) -> Option<Word>
    ensures { result ≡ word_of text.now }
{
    word_spelled(text.as_bytes())
}

/// As [`word_of`], of bytes that needn't be a text.
#[tactic(auto, using(crate::proofs::ReservedWordsByLength::by_length))]
pub(crate) fn word_spelled(bytes: &[u8]) -> Option<Word>
    ensures { result ≡ word_of bytes.now }
{
    first_spelled(bytes, words_of_length(bytes.len()))
}

#[tactic(auto, unfolding(crate::specs::Word::reserved, crate::specs::Word::words_of_length))]
fn words_of_length(size: usize) -> &'static [(&'static str, Word)]
    ensures { map (λ entry. (entry.0.now, entry.1)) result.now ≡ words_of_length size }
{
    match size {
        2 => OF_TWO,
        3 => OF_THREE,
        4 => OF_FOUR,
        5 => OF_FIVE,
        6 => OF_SIX,
        7 => OF_SEVEN,
        8 => OF_EIGHT,
        9 => OF_NINE,
        10 => OF_TEN,
        _ => &[],
    }
}

fn first_spelled(bytes: &[u8], table: &[(&str, Word)]) -> Option<Word>
    ensures { result
        ≡ first_spelled bytes.now (map (λ entry. (entry.0.now, entry.1)) table.now) }
{
    for (spelling, word) in table {
        if bytes == spelling.as_bytes() {
            return Some(*word);
        }
    }
    None
}
