//! Mode `verdicts`.
ghost use Rattle.std.specs.Prelude.{◌≡◌};
ghost use Rattle.tp_common.specs.Watching.{reader_left};
ghost use Rattle.tpr.specs.Found.{IsVerdictsOf};
ghost use Rattle.tpr.specs.Texts.{verdicts_status};
ghost use Rattle.tpr.specs.Decided.{IsDecided, IsDecidedOf, IsAlwaysKept, IsVerdictsAnswer};
ghost use Rattle.tpr.specs.Handed.{IsAnswered, IsJust};
ghost use Rattle.tpr.specs.FaultLines.{memory_text};

use crate::checking::{answer_check_fault, check_script};
use crate::modes::{ANSWERED, FAULTED, status_if_written, write_memory};
use crate::verdicts::Verdicts;
use crate::verdicts::finding::find_verdicts;
use crate::verdicts::writing::write_verdicts;
use std::alloc::Global;
use std::io::{Read, Write};
use tp_common::watched::Watched;
use tp_play::test_case::TestCase;

/// The status if a test case can have several verdicts.
const SEVERAL: u8 = 2;
/// The status if nothing is promised about a test case's verdicts.
const UNDECIDED: u8 = 3;

fn verdicts_status(verdicts: &Verdicts) -> u8
    ensures { result ≡ verdicts_status verdicts.now }
{
    if !verdicts.is_complete {
        return UNDECIDED;
    }
    match verdicts.found.as_slice() {
        [] => UNDECIDED,
        [_] => ANSWERED,
        [_, _, ..] => SEVERAL,
    }
}

fn answer_found<W: Write>(
    test_case: &TestCase,
    verdicts: &Verdicts,
    writer: &mut Watched<W>,
) -> Option<u8>
    requires { IsVerdictsOf test_case.now verdicts.now }
    ensures { IsAnswered W.contents (IsDecided test_case.now) writer.old writer.new result }
{
    write_verdicts(test_case.config(), verdicts, writer);
    status_if_written(writer, verdicts_status(verdicts))
}

fn answer_want_of_memory<W: Write>(writer: &mut Watched<W>) -> Option<u8>
    ensures { IsAnswered W.contents (IsJust memory_text 3) writer.old writer.new result }
{
    write_memory(writer);
    status_if_written(writer, FAULTED)
}

fn decide<W: Write>(alloc: Global, test_case: &TestCase, writer: &mut Watched<W>) -> Option<u8>
    ensures { IsAnswered W.contents (IsDecidedOf test_case.now) writer.old writer.new result }
{
    match find_verdicts(alloc, test_case) {
        Ok(verdicts) => answer_found(test_case, &verdicts, writer),
        Err(_) => answer_want_of_memory(writer),
    }
}

/// Reads and checks a script, and prints the verdicts that the machine of its test case reaches, as
/// [`write_verdicts`] writes them, or the line of its first fault. It looks at no more than
/// 4,194,304 states.
///
/// The status is 0 for `always`, 2 for several verdicts, and 3 for `undecided`; if the script isn't
/// accepted, it is that of [`answer_check`](crate::checking::answer_check). It never waits.
pub fn answer_verdicts<R: Read, W: Write>(
    alloc: Global,
    reader: &mut Watched<R>,
    writer: &mut Watched<W>,
) -> Option<u8>
    ensures answer { IsAnswered W.contents (IsVerdictsAnswer R.remaining reader.old reader.new)
        writer.old writer.new result }
    ensures always { IsAnswered W.contents (IsAlwaysKept (reader_left R.remaining reader.old))
        writer.old writer.new result }
{
    match check_script(alloc, reader) {
        Err(fault) => answer_check_fault(writer, fault),
        Ok(test_case) => decide(alloc, &test_case, writer),
    }
}
