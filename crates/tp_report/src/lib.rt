//! The report of a run: the components' histories, their ends and verdicts; and its text, as a
//! report or a trace. `tp_exec` makes a [`report::Report`], and the programs write it by
//! [`writing::write_report`]; start there. Nothing here allocates. Texts are written in small
//! pieces: use a writer with a buffer.
#![tactic(auto)]

mod backward;
mod entry_texts;
mod left;
mod line_room;
mod lines;
mod opening;
pub mod report;
mod rest;
pub mod telling;
pub mod verdicts;
pub mod words;
pub mod writing;
