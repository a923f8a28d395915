//! Messages with the stamps of their sendings.

use tp_value::message::Message;

/// A message with the stamp of its sending: a number above all stamps that its sender had sent or
/// got before. So a message has a greater stamp than each message that it depends on.
#[derive(Debug, Drop)]
pub struct Stamped {
    pub stamp: u32,
    pub message: Message,
}
