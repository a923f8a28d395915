//! Messages at a port, and the events there.

/// A message on its way: what a connection carries, and what a port's queue contains.
///
/// The standard calls its parts the sender of a message and the message itself (ES 201 873-1,
/// 22.2.1); the number is this project's own, and distinguishes equal messages for a reader.
#[derive(Debug, Drop)]
pub struct Env<M> {
    /// The component that sent it, numbered by the user of the queue. `from` compares this number.
    pub sender: u32,
    /// Its number on its way, from 0. A queue only keeps it.
    pub number: u64,
    pub msg: M,
}

/// The status of a port (ES 201 873-1, 22.5).
#[derive(Clone, Copy, Debug)]
pub enum Status {
    /// It sends, and every queued message can be received.
    Started,
    /// It doesn't send, and only what was queued ahead of the mark can be received.
    Halted,
    /// It doesn't send, and nothing can be received.
    Stopped,
}

/// One event at a port. The history of a port is the list of its events, the oldest first.
#[derive(Debug, Drop)]
pub enum Event<M> {
    /// A message arrived at the end of the queue, whatever the port's status.
    Arrive(Env<M>),
    /// `receive`, or a `trigger` that matched, took the top message out (22.2.2, 22.2.3).
    Took(Env<M>),
    /// `check` found the top message, and left it (22.4).
    Found(Env<M>),
    /// A `trigger` that didn't match discarded the top message (22.2.3).
    Dropped(Env<M>),
    /// `clear` emptied the queue (22.5.1).
    Cleared,
    /// `start` emptied the queue and started the port (22.5.2).
    Started,
    /// `stop` stopped the port (22.5.3).
    Stopped,
    /// `halt` was executed, with or without an effect (22.5.4).
    Halted,
}

/// The result of a `trigger` (ES 201 873-1, 22.2.3).
#[derive(Debug, Drop)]
pub enum TriggerAnswer<M> {
    /// The top message matched, and was taken out.
    Took(Env<M>),
    /// The top message didn't match, and was discarded.
    Dropped(Env<M>),
    /// No message is deliverable.
    Nothing,
}
