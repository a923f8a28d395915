//! The end of executing statements.
use crate::choice::Guard;
use tp_inbox::send_fault::SendFault;

/// Why the execution of statements ended.
#[derive(Drop)]
pub enum Outcome {
    Done,
    Error(SendFault),
    /// It waits at a receiving operation or an `alt` with these branches, none of which can be
    /// chosen any more.
    Waiting(Vec<Guard>),
}
