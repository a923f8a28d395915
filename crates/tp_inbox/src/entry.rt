//! The entries of a component's history.
ghost use Rattle.std.specs.Prelude.{◌≡◌};
ghost use Rattle.tp_inbox.specs.History.{stamp_of};

use crate::noted::{NotedEnvelope, NotedRoute};
use crate::noted_message::NotedMessage;
use crate::send_fault::SendFault;
use tp_value::verdict::Verdict;

/// One event at a component. The history of a component is the list of its entries, the oldest
/// first. A port is a place among the component's ports, in declared order, from 0. A branch is a
/// place in its `alt`, from 0, and 0 for a stand-alone operation. An entry has 32 bytes: 24 for a
/// message, and a word for all else. So a port beside a message has 8 bits, and a branch or a stamp
/// has 32.
#[derive(Debug, Drop)]
pub enum Entry {
    /// At this port a message arrived, with the stamp of its sending.
    Arrive(u8, u32, NotedEnvelope),
    /// At this port, in this branch, `receive`, or a `trigger` that matched, took the top message
    /// out (ES 201 873-1, 22.2.2, 22.2.3).
    Took(u8, u32, NotedEnvelope),
    /// At this port, in this branch, `check` found the top message, and left it (22.4).
    Found(u8, u32, NotedEnvelope),
    /// At this port, in this branch, a `trigger` that didn't match discarded the top message
    /// (22.2.3).
    Dropped(u8, u32, NotedEnvelope),
    /// `clear` emptied the queue of this port (22.5.1).
    Cleared(u32),
    /// `start` emptied the queue of this port and started the port (22.5.2).
    Started(u32),
    /// `stop` stopped this port (22.5.3).
    Stopped(u32),
    /// `halt` was executed at this port, with or without an effect (22.5.4).
    Halted(u32),
    /// On this route the message of this number, from 0, was sent, with this stamp (22.2.1).
    Sent(NotedRoute, u32, NotedMessage),
    Else,
    /// `setverdict` with this verdict (24.2).
    Verdict(Verdict),
    /// The behaviour ended at a send that failed with this fault (22.2.1).
    Failed(SendFault),
}

impl Entry {
    /// The stamp of the message that was sent or arrived, else 0.
    pub fn stamp(&self) -> u32
        ensures { result ≡ stamp_of self.now }
    {
        match self {
            Entry::Arrive(_, stamp, _) => *stamp,
            Entry::Sent(_, _, message) => message.stamp(),
            _ => 0,
        }
    }
}
