//! What all crates share. Refusals: the number and name of each, the error for out of memory, the
//! maximum length of a text. Texts: read whole from any reader, cut into lines and words, and
//! written by a writer that remembers a failure. A port: envelopes, events, operations, and the
//! traits of a message and of what a receiver wants. Start with [`refusal::Refusal`],
//! [`text::read_text`], [`watched::Watched`] and [`event::Event`]. 50 `Memory` means that an
//! allocation was refused; only calls that can return it allocate.
#![tactic(auto)]

pub mod cut;
pub mod event;
pub mod limit;
pub mod memory;
pub mod operation;
pub mod payload;
pub mod refusal;
pub mod text;
pub mod watched;
