//! The operations at a port.

/// The kind of a receiving operation (ES 201 873-1, 22.2.2 to 22.2.4).
#[derive(Clone, Copy)]
pub enum ReceiveKind {
    /// `receive`: takes the message that matches.
    Receive,
    /// `trigger`: takes each message, up to one that matches.
    Trigger,
    /// `check`: leaves the message that matches.
    Check,
}

/// An operation on a port (ES 201 873-1, 22.5).
#[derive(Clone, Copy)]
pub enum PortOperation {
    Start,
    Stop,
    Halt,
    Clear,
}
