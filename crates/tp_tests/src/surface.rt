//! Each public call of the surface's libraries, once, under the name of its own crate: `tp_port`,
//! `tp_value`, `tp_config`, `tp_script`, `tp_inbox` and `tp_exec`. If one of them loses a name,
//! this module doesn't compile. Of the crates below the surface it names only the error of
//! `tp_common`, and in one proof a definition of `tp_play`.
mod configurations;
mod inboxes;
mod ports;
mod scripts;
mod values;
