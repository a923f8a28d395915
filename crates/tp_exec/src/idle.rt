//! A component whose behaviour has ended, without its senders.
use tp_behaviour::outcome::Outcome;
use tp_inbox::desk::Desk;
use tp_inbox::owner::Owner;

#[derive(Drop)]
pub(crate) struct Idle {
    pub(crate) owner: Owner,
    pub(crate) desk: Desk,
    pub(crate) outcome: Outcome,
}
