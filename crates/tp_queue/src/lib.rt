//! The queue of one message port, for any type of message: what is queued, what can be received,
//! and the rules of a port's history. Mode `queue` (`tp_port`), the ports of a run (`tp_inbox`)
//! and the judge of traces (`tp_judge`) use [`queue::Queue`]; start there. Only `Queue::arrive`
//! allocates.
#![tactic(auto)]

pub mod queue;
