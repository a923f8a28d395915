//! A script, read and checked.
ghost use Rattle.std.specs.Prelude.{IfErr, IfOk};
ghost use Rattle.tp_script.specs.Scripts.{IsScriptFaultOf, IsScriptOf};

use crate::checking::check;
use crate::fault::TestCaseFault;
use std::alloc::Global;
use tp_play::test_case::TestCase;
use tp_syntax::parser::parse;

/// Reads a text as a module, checks it, and returns its test case.
///
/// It returns the first fault: those of [`parse`] come before those of [`check`].
pub fn read_script(alloc: Global, text: &[u8]) -> Result<TestCase, TestCaseFault>
    ensures script { IfOk result (IsScriptOf text.now) }
    ensures fault { IfErr result (IsScriptFaultOf text.now) }
{
    let parsed = parse(alloc, text)?;
    let test_case = check(alloc, &parsed)?;
    Ok(test_case)
}
