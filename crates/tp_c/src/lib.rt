//! The queue of one message port for programs in C and C++: a static library over `tp_queue`. Start
//! with [`export`], whose functions the header declares.
//!
//! A port is in memory of the caller, who doesn't look into it. A message is a number of 64 bits:
//! an index, a handle or an address of the caller, which no call follows.
#![tactic(auto)]

mod export;
mod port;
