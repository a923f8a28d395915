//! The state of a behaviour that executes.
use crate::held::Held;
use crate::outbox::Outbox;
use tp_inbox::desk::Desk;
use tp_inbox::owner::Owner;

#[derive(Drop)]
pub struct Worker {
    pub owner: Owner,
    pub desk: Desk,
    pub outbox: Outbox,
}

#[derive(Drop)]
pub struct Frame {
    /// The values of the loop variables around the statement, the outermost first.
    pub turns: Vec<i64>,
    pub variables: Vec<Option<Held>>,
    pub steps: u64,
}
