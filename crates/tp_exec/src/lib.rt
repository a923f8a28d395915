//! The executor, modes `run` and `trace`: each component's behaviour in a thread of its own, one
//! order of everything that they did, and the report. `tpr` calls [`run::run`] with the test case
//! that `tp_script` makes; start there. 50 `Memory` means that an allocation was refused in some
//! thread, so that the run has no report; only calls that can return it allocate.
#![tactic(auto)]

mod counting;
mod ended;
pub mod fault;
mod idle;
mod inboxes;
pub mod laws;
mod one_order;
mod played;
mod reporting;
mod returning;
pub mod run;
mod settling;
mod threads;
mod waiting;

pub use fault::RunFault;
pub use tp_behaviour::gate;
pub use tp_inbox::ending::End;
pub use tp_report::report::{CompReport, Report};
pub use tp_report::telling::Telling;
pub use tp_report::writing::write_report;
pub use tp_value::verdict::Verdict;
