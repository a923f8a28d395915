//! Traces: whether one is lawful, that is, obeys the rules of ports and of delivery, and has no
//! line that happens before itself; and whether it is one run. Names are numbers here, but in
//! [`referee`], mode `judge`, which reads a trace and writes the ruling. Start with
//! [`judging::judge`] and [`one_run::one_run`]. 50 `Memory` means that an allocation was refused;
//! only calls that can return it allocate.
#![tactic(auto)]

pub mod answer;
mod chains;
mod circle;
mod circles;
mod delivery;
pub mod demand;
mod demands;
mod gathering;
pub mod histories;
pub mod judging;
pub mod kind;
pub mod line;
pub mod one_order;
pub mod one_run;
pub mod order;
pub mod place;
mod ports;
mod progress;
pub mod referee;
mod replaying;
mod routes;
mod sections;
mod sendings;
mod stuck;
mod text_order;
pub mod trace;
mod waits;
