//! Reasons why a text has no test case.
ghost use Rattle.std.specs.Prelude.{◌≡◌};
ghost use Rattle.tp_script.specs.Told.{of_module, of_text, script_refusal};

use std::fmt;
use thiserror::Error;
use tp_checks::fault::{ModuleFault, ModuleRule};
use tp_common::memory::Memory;
use tp_common::refusal::Refusal;
use tp_syntax::script_fault::{ScriptFault, TextRule};

/// A rule that a script breaks. There is no other.
#[derive(Clone, Copy, Debug, PartialEq, Eq)]
pub enum ScriptRule {
    Text(TextRule),
    Module(ModuleRule),
}

impl ScriptRule {
    /// The refusal of the rule: 10, 11 to 18, or 20 to 28.
    pub fn refusal(self) -> Refusal
        ensures { result ≡ script_refusal self }
    {
        match self {
            ScriptRule::Text(rule) => rule.refusal(),
            ScriptRule::Module(rule) => rule.refusal(),
        }
    }
}

impl fmt::Display for ScriptRule {
    fn fmt<W: fmt::Write>(&self, f: &mut fmt::Formatter<W>) -> fmt::Result {
        let refusal = self.refusal();
        write!(f, "{refusal}")
    }
}

/// Why a text has no test case.
#[derive(Clone, Copy, Debug, PartialEq, Eq, Error)]
pub enum TestCaseFault {
    #[error("refused {rule} line {line}")]
    Refused {
        rule: ScriptRule,
        /// The line, as in [`ScriptFault`] and [`ModuleFault`].
        line: u32,
    },
    /// 50: an allocation was refused, which says nothing about the text.
    #[error("fault {}", Refusal::Memory)]
    Memory(Memory),
}

impl From<ScriptFault> for TestCaseFault {
    ghost from_gives = { λ fault made. made ≡ of_text fault };

    fn from(fault: ScriptFault) -> TestCaseFault {
        match fault {
            ScriptFault::Refused { rule, line } => TestCaseFault::Refused {
                rule: ScriptRule::Text(rule),
                line,
            },
            ScriptFault::Memory(memory) => TestCaseFault::Memory(memory),
        }
    }
}

impl From<ModuleFault> for TestCaseFault {
    ghost from_gives = { λ fault made. made ≡ of_module fault };

    fn from(fault: ModuleFault) -> TestCaseFault {
        match fault {
            ModuleFault::Refused { rule, line } => TestCaseFault::Refused {
                rule: ScriptRule::Module(rule),
                line,
            },
            ModuleFault::Memory(memory) => TestCaseFault::Memory(memory),
        }
    }
}
