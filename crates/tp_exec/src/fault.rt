//! Reasons why a run has no report, and their lines.
ghost use Rattle.std.specs.Prelude.{◌≡◌};
ghost use Rattle.tp_common.specs.Watching.{Writes};
ghost use Rattle.tp_exec.specs.Faults.{run_fault_text, run_refusal};

use std::io::Write;
use thiserror::Error;
use tp_common::refusal::Refusal;
use tp_common::watched::{Watched, write_bytes, write_number};

/// Why a run has no report. If several reasons hold, the first in this order is returned. But a
/// restless run whose report alone lacks memory returns `Restless`.
#[derive(Clone, Copy, Debug, Error)]
pub enum RunFault {
    /// 51 NoThread: a thread was refused.
    #[error("no thread")]
    NoThread,
    /// 50 Memory: an allocation was refused.
    #[error("out of memory")]
    Memory,
    /// 61 Restless: a behaviour ended as waiting although one of its branches is open in the final
    /// queues.
    #[error("a behaviour waits for what has come")]
    Restless,
    /// 62 NoOrder: no one order of everything that the components did gives what each did and saw.
    #[error("no one order gives the histories")]
    NoOrder,
}

impl RunFault {
    pub fn refusal(self) -> Refusal
        ensures { result ≡ run_refusal self }
    {
        match self {
            RunFault::NoThread => Refusal::NoThread,
            RunFault::Memory => Refusal::Memory,
            RunFault::Restless => Refusal::Restless,
            RunFault::NoOrder => Refusal::NoOrder,
        }
    }
}

/// Writes the line of a fault: `fault`, its number and its name.
pub fn write_run_fault<W: Write>(writer: &mut Watched<W>, fault: RunFault)
    ensures { Writes W.contents writer.old writer.new (run_fault_text fault) }
{
    let (number, name) = fault.refusal().label();
    write_bytes(b"fault ", writer);
    write_number(number as u64, writer);
    write_bytes(b" ", writer);
    write_bytes(name.as_bytes(), writer);
    write_bytes(b"\n", writer);
}
