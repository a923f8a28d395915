//! Mode `judge`: reads a trace, numbers its names, lets the judge decide, and writes the ruling.
//! `tpr` calls [`ruling::referee`]; start there.

mod components;
pub mod form;
mod joining;
pub mod line;
pub mod numbering;
mod numbers;
mod read;
pub mod reading;
pub mod ruling;
mod tables;
pub mod tree;
mod words;
pub mod writing;
