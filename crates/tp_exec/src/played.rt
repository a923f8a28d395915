//! The result of a component's thread.
use tp_behaviour::outcome::Outcome;
use tp_behaviour::worker::Worker;

#[derive(Drop)]
pub(crate) struct Played {
    pub(crate) worker: Worker,
    pub(crate) outcome: Outcome,
}
