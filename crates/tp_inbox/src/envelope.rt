//! The envelopes of an inbox.
use crate::noted_message::NotedMessage;

/// A message on its way into a component, in 32 bytes.
#[derive(Drop)]
pub(crate) struct InboxEnvelope {
    /// The place of its route among the routes into the component, from 0.
    pub place: u32,
    /// Its number on its route, from 0.
    pub number: u32,
    pub stamped: NotedMessage,
}
