//! Reasons why an envelope isn't noted.

use tp_common::memory::Memory;

/// Why an envelope wasn't noted.
#[derive(Clone, Copy, Debug)]
pub enum NoteFault {
    /// An entry has no room for its sender, its number or the number of its type.
    NoRoom,
    /// An allocation was refused.
    Memory,
}

/// No script within the limits reaches a number without room, which is tested and not proved.
impl From<NoteFault> for Memory {
    fn from(_fault: NoteFault) -> Memory {
        Memory
    }
}
