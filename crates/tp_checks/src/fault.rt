//! The rules of a module, and its refusals.
ghost use Rattle.std.specs.Prelude.{◌≡◌};
ghost use Rattle.tp_checks.specs.Told.{rule_refusal};
ghost use Rattle.tp_checks.specs.declared.fault.ModuleFault.TheVariants as module_fault;

use std::alloc::{AllocError, AllocFailed};
use std::fmt;
use thiserror::Error;
use tp_common::memory::Memory;
use tp_common::refusal::Refusal;

/// A rule that a module breaks, by the name of its [`Refusal`]: those of 11 to 18 and of 20 to 28.
/// There is no other.
#[derive(Clone, Copy, Debug, PartialEq, Eq)]
pub enum ModuleRule {
    Unknown,
    Duplicate,
    WrongType,
    Direction,
    Limit,
    NotInSut,
    NoDone,
    NotStarted,
    Directions,
    TwoPortsOfOne,
    Mixed,
    NotOneToOne,
    MapDirections,
    SystemPort,
    SamePort,
    Already,
    NotSystem,
}

impl ModuleRule {
    /// The refusal of the rule: 11 to 18, or 20 to 28.
    pub fn refusal(self) -> Refusal
        ensures { result ≡ rule_refusal self }
    {
        match self {
            ModuleRule::Unknown => Refusal::Unknown,
            ModuleRule::Duplicate => Refusal::Duplicate,
            ModuleRule::WrongType => Refusal::WrongType,
            ModuleRule::Direction => Refusal::Direction,
            ModuleRule::Limit => Refusal::Limit,
            ModuleRule::NotInSut => Refusal::NotInSut,
            ModuleRule::NoDone => Refusal::NoDone,
            ModuleRule::NotStarted => Refusal::NotStarted,
            ModuleRule::Directions => Refusal::Directions,
            ModuleRule::TwoPortsOfOne => Refusal::TwoPortsOfOne,
            ModuleRule::Mixed => Refusal::Mixed,
            ModuleRule::NotOneToOne => Refusal::NotOneToOne,
            ModuleRule::MapDirections => Refusal::MapDirections,
            ModuleRule::SystemPort => Refusal::SystemPort,
            ModuleRule::SamePort => Refusal::SamePort,
            ModuleRule::Already => Refusal::Already,
            ModuleRule::NotSystem => Refusal::NotSystem,
        }
    }
}

impl fmt::Display for ModuleRule {
    fn fmt<W: fmt::Write>(&self, f: &mut fmt::Formatter<W>) -> fmt::Result {
        let refusal = self.refusal();
        write!(f, "{refusal}")
    }
}

/// Why a module is not accepted.
#[derive(Clone, Copy, Debug, PartialEq, Eq, Error)]
pub enum ModuleFault {
    #[error("refused {rule} line {line}")]
    Refused {
        rule: ModuleRule,
        /// The line at which the fault begins.
        line: u32,
    },
    /// 50: an allocation was refused, which says nothing about the module.
    #[error("fault {}", Refusal::Memory)]
    Memory(Memory),
}

pub fn refused(rule: ModuleRule, line: u32) -> ModuleFault
    ensures { result ≡ ModuleFault.Refused rule line }
{
    ModuleFault::Refused { rule, line }
}

impl From<Memory> for ModuleFault {
    ghost from_gives = { λ memory made. made ≡ module_fault.Memory memory };

    fn from(memory: Memory) -> ModuleFault {
        ModuleFault::Memory(memory)
    }
}

impl From<AllocError> for ModuleFault {
    ghost from_gives = { λ _ made. made ≡ module_fault.Memory (record {}) };

    fn from(_refused: AllocError) -> ModuleFault {
        ModuleFault::Memory(Memory)
    }
}

impl<T: Drop> From<AllocFailed<T>> for ModuleFault {
    ghost from_gives = { λ _ made. made ≡ module_fault.Memory (record {}) };

    fn from(_refused: AllocFailed<T>) -> ModuleFault {
        ModuleFault::Memory(Memory)
    }
}
