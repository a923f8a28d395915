//! Mode `queue`: a queue file replays what happens at one message port. Also a queue with its
//! history, for programs. Start with [`replay::replay`] or [`port_queue::PortQueue`]; `tpr` calls
//! the first, and runs use neither. 50 `Memory` means that an allocation was refused. A `PortQueue`
//! is then as before, and the message that was to arrive is returned; only calls that can return it
//! allocate.
#![tactic(auto)]

mod answers;
pub mod command;
mod engine;
pub mod pattern;
pub mod port_queue;
pub mod replay;
mod senders;

pub use port_queue::PortQueue;
pub use tp_common::event::{Env, Event, Status, TriggerAnswer};
pub use tp_common::payload::{Payload, Wanted};
pub use tp_common::text::{ReadFault, read_text};
pub use tp_common::watched::Watched;
