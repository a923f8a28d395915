//! The floor counts how many behaviours of a run live and how many rest, and a notifier says when
//! to wake one. The inboxes (`tp_inbox`) and the executor (`tp_exec`) use them. Start with
//! [`floor::Floor`] and [`notifier::Notifier`]. Only `Floor::new` allocates: it returns 50 `Memory`
//! if an allocation was refused.
#![tactic(auto)]

pub mod floor;
pub mod hook;
pub mod notifier;
#[cfg(test)]
mod races;
