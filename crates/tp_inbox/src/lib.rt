//! A component's desk and its inbox. The desk has the ports, and the one history of everything that
//! the component did and got. Several threads put messages into the inbox, and the component's own
//! thread moves them to the desk. Start with [`desk::Desk`], [`entry::Entry`] and
//! [`making::inbox`], which returns the inbox's owner, its senders and a closer. 50 `Memory` means
//! that an allocation was refused, or that an entry has no room for a number ([`noted`]), which no
//! script reaches: a desk is as before, and the call returns what it was given; only calls that can
//! return it allocate.
#![tactic(auto)]

mod channel;
pub mod desk;
pub mod ending;
pub mod entry;
mod envelope;
pub mod gathered;
pub mod making;
pub mod note_fault;
pub mod noted;
pub mod noted_message;
pub mod owner;
pub mod posted;
mod rule;
pub mod send_fault;
pub mod sender;
pub mod settled;
pub mod stamped;
pub mod triggered;
pub mod type_kind;

pub use tp_floor::floor::Floor;
pub use tp_floor::notifier::Woken;
