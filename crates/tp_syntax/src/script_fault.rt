//! Reasons why a text is refused as a script.
ghost use Rattle.std.specs.Prelude.{◌≡◌};
ghost use Rattle.tp_syntax.specs.Told.{text_refusal};
ghost use Rattle.tp_syntax.specs.declared.script_fault.ScriptFault.TheVariants as script_fault;

use std::alloc::{AllocError, AllocFailed};
use std::fmt;
use thiserror::Error;
use tp_common::memory::Memory;
use tp_common::refusal::Refusal;

/// A rule that a text breaks as it is read, by the name of its [`Refusal`]. There is no other.
#[derive(Clone, Copy, Debug, PartialEq, Eq)]
pub enum TextRule {
    /// 10: no token, or not this one, can stand there.
    Syntax,
    /// 15: there is more of something than the profile allows.
    Limit,
}

impl TextRule {
    /// The refusal of the rule: 10 or 15.
    pub fn refusal(self) -> Refusal
        ensures { result ≡ text_refusal self }
    {
        match self {
            TextRule::Syntax => Refusal::Syntax,
            TextRule::Limit => Refusal::Limit,
        }
    }
}

impl fmt::Display for TextRule {
    fn fmt<W: fmt::Write>(&self, f: &mut fmt::Formatter<W>) -> fmt::Result {
        let refusal = self.refusal();
        write!(f, "{refusal}")
    }
}

#[derive(Clone, Copy, Debug, PartialEq, Eq, Error)]
pub enum ScriptFault {
    #[error("refused {rule} line {line}")]
    Refused {
        rule: TextRule,
        /// One more than the number of bytes 10 before the place, or 0 for a text that is too long.
        line: u32,
    },
    /// 50: an allocation was refused, which says nothing about the text.
    #[error("fault {}", Refusal::Memory)]
    Memory(Memory),
}

impl ScriptFault {
    pub fn syntax(line: u32) -> ScriptFault
        ensures { result ≡ ScriptFault.Refused TextRule.Syntax line }
    {
        ScriptFault::Refused {
            rule: TextRule::Syntax,
            line,
        }
    }

    pub fn limit(line: u32) -> ScriptFault
        ensures { result ≡ ScriptFault.Refused TextRule.Limit line }
    {
        ScriptFault::Refused {
            rule: TextRule::Limit,
            line,
        }
    }
}

impl From<Memory> for ScriptFault {
    ghost from_gives = { λ memory made. made ≡ script_fault.Memory memory };

    fn from(memory: Memory) -> ScriptFault {
        ScriptFault::Memory(memory)
    }
}

impl From<AllocError> for ScriptFault {
    ghost from_gives = { λ _ made. made ≡ script_fault.Memory (record {}) };

    fn from(_refused: AllocError) -> ScriptFault {
        ScriptFault::Memory(Memory)
    }
}

impl<T: Drop> From<AllocFailed<T>> for ScriptFault {
    ghost from_gives = { λ _ made. made ≡ script_fault.Memory (record {}) };

    fn from(_refused: AllocFailed<T>) -> ScriptFault {
        ScriptFault::Memory(Memory)
    }
}
