//! The checks of a module, and what its parts stand for: names, each with its number; definitions,
//! setup and starts, which become a configuration; bodies, which become those of `tp_play`.
//! `tp_script` calls [`preparing::prepare`], and then [`statements::resolve_body`] for each body;
//! start there. 50 `Memory` means that an allocation was refused, and says nothing about the
//! script; only calls that can return it allocate.
#![tactic(auto)]

mod components;
mod config_faults;
mod context;
pub mod definitions;
pub mod fault;
mod lookup;
mod messages;
pub mod name;
pub mod name_set;
mod operations;
mod placing;
mod plain;
mod ports;
pub mod prepared;
pub mod preparing;
mod resolving;
pub mod scope;
mod setup;
pub mod size;
pub mod sorted;
mod starting;
pub mod starts;
pub mod statements;
mod templates;
pub mod unique_names;
mod variables;
