//! One component's behaviour: executes its body with its desk, its inbox and its senders. `tp_exec`
//! calls [`behaving::behave`] in a thread for each component; start there. 50 `Memory` means that
//! an allocation was refused; the behaviour has then ended. A send also returns it if its route is
//! full or no stamp is left, which no test case of at most 100,000 statements reaches; only calls
//! that can return it allocate.
#![tactic(auto)]

mod acting;
pub mod behaving;
pub mod choice;
pub mod choosing;
mod deciding;
mod execution;
mod fixed;
pub mod gate;
pub mod held;
mod lasting;
mod looking;
pub mod outbox;
pub mod outcome;
mod receiving;
mod sending;
mod statements;
pub mod task;
mod values;
pub mod worker;
