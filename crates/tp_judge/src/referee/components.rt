//! The components of a trace, each with a number.
ghost use Rattle.std.specs.Prelude.{◌≡◌, ◌≢◌, ◌+◌, ◌<◌, ◌≤◌, ◌^◌, AllPairs, IfOk, OnOk, Some, length, slice_get};
ghost use Rattle.tp_judge.specs.Tree.{names_of};
ghost use Rattle.tp_judge.specs.Kept.{Keeps};

use crate::referee::tree::Trace;
use crate::referee::words::NumberedWords;
use std::alloc::Global;
use std::marker::Model;
use tp_common::memory::Memory;

/// The names of components, no two of them equal: first those of the sections, in their order, then
/// the others, by first occurrence. The trace has a table of the first already, so that none of
/// them is kept or looked up twice.
pub struct Components<'t> {
    trace: &'t Trace<'t>,
    others: NumberedWords<'t>,
}

impl Drop for Components<'_> {
    // Written out, so that the drop of an owner calls this one and proves no drop of the parts.
    fn drop(self) {
        let Components { trace: _, others } = self;
        drop(others);
    }
}

impl<'t> Model for Components<'t> {
    ghost use Rattle.std.specs.Prelude.{ℕ, List, ◌++◌};
    ghost use Rattle.tp_judge.specs.Tree.{names_of};
    ghost use Rattle.tp_judge.specs.Kept.{AreOthers};

    ghost Value = { List (List ℕ) };

    ghost view = { λ c. names_of c.trace.now ++ c.others };

    ghost invariant = { λ c. AreOthers (names_of c.trace.now) c.others };
}

impl<'t> Components<'t> {
    pub fn new(alloc: Global, trace: &'t Trace<'t>) -> Components<'t>
        ensures { result ≡ names_of trace.now }
    {
        Components {
            trace,
            others: NumberedWords::new(alloc),
        }
    }

    pub fn len(&self) -> usize
        requires { length self.now < 2 ^ 64 }
        ensures count { result ≡ length self.now }
        ensures distinct { AllPairs (λ a b. a ≢ b) self.now }
    {
        self.trace.section_count() + self.others.len()
    }

    pub fn number(&mut self, name: &'t [u8]) -> Result<u32, Memory>
        requires { length self.old < 4294967296 }
        ensures there { IfOk result (λ number. slice_get self.new number ≡ Some name.now) }
        ensures kept { OnOk result (Keeps self.old self.new) }
        ensures few { OnOk result (length self.new ≤ length self.old + 1) }
    {
        if let Some(section) = self.trace.section_of(name) {
            return Ok(section as u32);
        }
        let number = self.others.number(name)?;
        Ok(self.trace.section_count() as u32 + number)
    }
}
