//! How a behaviour ends.
use crate::send_fault::SendFault;

/// How a behaviour ends (ES 201 873-1, 21.3, 24.1).
#[derive(Clone, Copy)]
pub enum End {
    Done,
    /// At a send that failed with this fault.
    Error(SendFault),
    /// At a receiving operation or an `alt` none of whose branches can be chosen any more.
    Waiting,
}
