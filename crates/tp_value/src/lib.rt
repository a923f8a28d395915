//! The data of messages: types, values, templates, and whether a value matches a template; and
//! verdicts. The checks, a run and the search for verdicts use it. Start with [`value::Value`],
//! [`types::Types`] and [`template::Template`]. 50 `Memory` means that an allocation was refused:
//! what the call borrows is as before, and what it was given is dropped; only calls that can return
//! it allocate.
#![tactic(auto)]

pub mod equal;
pub mod fitting;
pub mod items;
pub mod matching;
pub mod message;
mod pattern;
mod scan;
pub mod shared;
pub mod template;
pub mod types;
pub mod typing;
pub mod value;
pub mod verdict;
pub mod writing;
