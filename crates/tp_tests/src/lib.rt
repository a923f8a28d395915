//! Tests of public calls of the other crates. They are here, and not in the crates that they test,
//! so that those are proved once. `queue_user` and `inbox_user` are the examples of
//! docs/EMBEDDING.md. They and `writers` are also proved without the tests, because wrong bodies
//! are tried without them.
#![tactic(auto)]

#[cfg(test)]
mod asking;
#[cfg(test)]
mod configurations;
#[cfg(test)]
mod desk_calls;
#[cfg(test)]
mod ends;
pub mod inbox_user;
#[cfg(test)]
mod inboxes;
#[cfg(test)]
mod lists;
#[cfg(test)]
mod making;
#[cfg(test)]
mod modules;
#[cfg(test)]
mod orders;
#[cfg(test)]
mod partners;
#[cfg(test)]
mod ports;
#[cfg(test)]
mod programs;
pub mod queue_user;
#[cfg(test)]
mod searches;
#[cfg(test)]
mod showing;
#[cfg(test)]
mod surface;
#[cfg(test)]
mod templates;
#[cfg(test)]
mod threads;
#[cfg(test)]
mod tokens;
#[cfg(test)]
mod users;
#[cfg(test)]
mod values;
#[cfg(test)]
mod wakings;
pub mod writers;
