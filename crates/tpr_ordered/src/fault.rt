//! Reasons why no order was run.
use std::alloc::{AllocError, AllocFailed};
use thiserror::Error;
use tp_common::memory::Memory;
use tp_common::refusal::Refusal;
use tp_common::text::ReadFault;
use tp_script::fault::TestCaseFault;

#[derive(Clone, Copy, Debug, PartialEq, Eq, Error)]
pub enum FileFault {
    /// 2 Read: the file couldn't be read, or isn't a text.
    #[error("refused {}", Refusal::Read)]
    Read,
    /// 15 Limit: the file is too long.
    #[error("refused {} line 0", Refusal::Limit)]
    Limit,
    /// 11 Unknown: no component has a name in an order.
    #[error("refused {} line {line}", Refusal::Unknown)]
    Unknown {
        /// The line of the order.
        line: u32,
    },
    #[error("{0}")]
    Script(TestCaseFault),
    /// 50: an allocation was refused.
    #[error("fault {}", Refusal::Memory)]
    Memory(Memory),
}

impl From<ReadFault> for FileFault {
    fn from(fault: ReadFault) -> FileFault {
        match fault {
            ReadFault::Read => FileFault::Read,
            ReadFault::Limit => FileFault::Limit,
            ReadFault::Memory => FileFault::from(Memory),
        }
    }
}

impl From<TestCaseFault> for FileFault {
    fn from(fault: TestCaseFault) -> FileFault {
        FileFault::Script(fault)
    }
}

impl From<Memory> for FileFault {
    fn from(refused: Memory) -> FileFault {
        FileFault::Memory(refused)
    }
}

impl From<AllocError> for FileFault {
    fn from(_refused: AllocError) -> FileFault {
        FileFault::from(Memory)
    }
}

impl<T: Drop> From<AllocFailed<T>> for FileFault {
    fn from(_refused: AllocFailed<T>) -> FileFault {
        FileFault::from(Memory)
    }
}
