//! The lines of a trace.

use tp_common::operation::PortOperation;

/// What a line says of a message.
#[derive(Clone, Copy)]
pub enum MessageVerb {
    /// `sent`: the component sent it.
    Sent,
    /// `came`: it arrived in the queue of its port.
    Came,
    /// `took`: a `receive`, or a `trigger` that matched, took it.
    Took,
    /// `found`: a `check` found it.
    Found,
    /// `dropped`: a `trigger` that didn't match discarded it.
    Dropped,
    /// `left`: it was still queued when the component ended.
    Left,
}

/// The first word of a line of a report that no rule of ports concerns.
#[derive(Clone, Copy)]
pub enum Remark {
    Set,
    Failed,
    Verdict,
}

/// A message in a line. Its parts are slices of the text.
#[derive(Clone, Copy)]
pub struct MessageWords<'t> {
    /// The component at the other end: the receiver in a line `sent`, the sender in any other.
    pub component: &'t [u8],
    /// The port of the receiving component, in every line.
    pub port: &'t [u8],
    /// Its number on its route, below 2^63.
    pub number: u64,
    /// The message itself: at least one byte.
    pub text: &'t [u8],
}

/// A line. Its words are slices of the text.
#[derive(Clone, Copy)]
pub enum Line<'t> {
    /// `component NAME`: the section of this component begins.
    Component(&'t [u8]),
    /// A message was sent, arrived, was taken, found or discarded, or was left.
    Message(MessageVerb, MessageWords<'t>),
    /// `cleared PORT`, `started PORT`, `stopped PORT`, `halted PORT`: the port operation.
    Operation(PortOperation, &'t [u8]),
    /// `else`: a look at the ports that found nothing.
    Else,
    /// `set VERDICT`, `failed CODE`, `verdict VERDICT`.
    Remark(Remark, &'t [u8]),
    /// `end ..`: how the component ended, in any words.
    End(&'t [u8]),
    /// `result VERDICT`, the last line of all: it belongs to no section.
    Result(&'t [u8]),
}

#[derive(Clone, Copy)]
pub enum Verb {
    Component,
    Message(MessageVerb),
    Operation(PortOperation),
    Else,
    Remark(Remark),
    End,
    Result,
}
