//! The contents of variables.
use tp_config::port_type::CompId;
use tp_value::message::Message;

/// The content of a variable that is set (ES 201 873-1, 11.1).
#[derive(Drop)]
pub enum Held {
    Value(Message),
    Component(CompId),
}
