//! `tpr_ordered`: runs a test case once in each of some orders of its steps. It is for tests, and
//! no part of what `tpr` offers. Start with `answer_files`. 50 is reported only if an allocation
//! was refused; the status is 3 then.
#![tactic(auto)]

mod fault;
mod order_gate;
mod ordering;
mod orders;

use fault::FileFault;
use order_gate::PATIENCE;
use ordering::{Trial, write_orders};
use orders::{StepOrder, read_orders};
use std::env::Env;
use std::fs::File;
use std::io::{BufWriter, ErrorKind};
use std::process::ExitCode;
use std::rt::Files;
use std::sync::Wait;
use std::thread::Threads;
use std::{env, io, mem};
use tp_common::memory::Memory;
use tp_common::text::read_text;
use tp_common::watched::Watched;
use tp_play::test_case::TestCase;
use tp_script::fault::TestCaseFault;
use tp_script::reading::read_script;

/// The status if all orders were run.
const ANSWERED: u8 = 0;
/// The status if a file was refused.
const REFUSED: u8 = 2;
/// The status if an allocation was refused, or the writer failed.
const FAULTED: u8 = 3;
/// The status if the words aren't a command line of the program.
const USAGE: u8 = 4;

fn usage<R: Eprint>(rt: &R) -> u8 {
    // If standard error can't be written either, only the status reports this.
    let _ = eprintln!(rt; "usage: tpr_ordered SCRIPT ORDERS");
    USAGE
}

fn file_fault_status(fault: FileFault) -> u8 {
    match fault {
        FileFault::Read | FileFault::Limit | FileFault::Unknown { .. } => REFUSED,
        FileFault::Script(TestCaseFault::Refused { .. }) => REFUSED,
        FileFault::Script(TestCaseFault::Memory(_)) | FileFault::Memory(_) => FAULTED,
    }
}

fn read_file<T: AllocGlobal + Files>(rt: &T, path: &str) -> Result<Vec<u8>, FileFault> {
    let Ok(reader) = File::open(rt, path) else {
        return Err(FileFault::Read);
    };
    let text = read_text(rt.alloc(), &mut Watched::new(reader))?;
    Ok(text)
}

fn read_test_case<T: AllocGlobal + Files>(rt: &T, path: &str) -> Result<TestCase, FileFault> {
    let text = read_file(rt, path)?;
    let test_case = read_script(rt.alloc(), text.as_slice())?;
    Ok(test_case)
}

fn read_order_file<T: AllocGlobal + Files>(
    rt: &T,
    test_case: &TestCase,
    path: &str,
) -> Result<Vec<StepOrder>, FileFault> {
    let text = read_file(rt, path)?;
    let orders = read_orders(rt.alloc(), test_case.config(), text.as_slice())?;
    Ok(orders)
}

fn tell_script<R: Print>(rt: &R, fault: FileFault) -> u8 {
    match println!(rt; "{fault}") {
        Ok(()) => file_fault_status(fault),
        Err(_) => FAULTED,
    }
}

fn tell_orders<R: Eprint>(rt: &R, fault: FileFault) -> u8 {
    // If standard error can't be written either, only the status reports the fault.
    let _ = eprintln!(rt; "orders: {fault}");
    file_fault_status(fault)
}

fn answer_orders<T>(rt: &T, test_case: &TestCase, orders: &[StepOrder]) -> u8
where
    T: AllocGlobal + Print + Threads + Wait + Sync,
{
    let Ok(buffer) = BufWriter::new(rt.alloc(), io::writer(rt)) else {
        return tell_script(rt, FileFault::from(Memory));
    };
    let mut writer = Watched::new(buffer);
    let trial = Trial {
        rt,
        alloc: rt.alloc(),
        test_case,
        patience: PATIENCE,
    };
    write_orders(&trial, orders, &mut writer);
    if writer.has_failed() {
        // A writer that is dropped tries once more to write what it holds.
        mem::forget(writer);
        return FAULTED;
    }
    ANSWERED
}

/// Reads both files, and runs the test case of the first in each of the orders of the second. If
/// one of them is refused, nothing is run.
fn answer_files<T>(rt: &T, script: &str, orders: &str) -> u8
where
    T: AllocGlobal + Files + Print + Eprint + Threads + Wait + Sync,
{
    match read_test_case(rt, script) {
        Err(fault) => tell_script(rt, fault),
        Ok(test_case) => match read_order_file(rt, &test_case, orders) {
            Err(fault) => tell_orders(rt, fault),
            Ok(orders) => answer_orders(rt, &test_case, orders.as_slice()),
        },
    }
}

fn words_of<R: Env + AllocGlobal>(rt: &R) -> io::Result<Vec<String>> {
    let words = env::args(rt)?.skip(1).collect(rt.alloc())?;
    Ok(words)
}

fn answer_words<T>(rt: &T, words: &[String]) -> u8
where
    T: AllocGlobal + Files + Print + Eprint + Threads + Wait + Sync,
{
    match words {
        [script, orders] => answer_files(rt, script.as_str(), orders.as_str()),
        _ => usage(rt),
    }
}

fn main(rt: HostRuntime) -> ExitCode {
    let status = match words_of(&rt) {
        Ok(words) => answer_words(&rt, words.as_slice()),
        Err(error) if error.kind() == ErrorKind::OutOfMemory => {
            tell_script(&rt, FileFault::from(Memory))
        }
        Err(_) => usage(&rt),
    };
    ExitCode::from(status)
}
