//! The components of a test case, their ports, and which ports are connected and mapped: which
//! pairs are allowed, and which routes messages can take. The checks (`tp_checks`) make a
//! [`config::Config`], and a run asks it for routes; start there. 50 `Memory` means that an
//! allocation was refused, and the configuration is as before; only calls that can return it
//! allocate.
#![tactic(auto)]

mod component;
pub mod config;
pub mod connecting;
pub mod creating;
mod directions;
mod links;
pub mod mapping;
mod partners;
pub mod port_type;
pub mod routes;
pub mod type_list;
