//! A trace with numbers instead of names.
use crate::line::IndexedLine;

/// The lines of all sections, in the order of the text, and what their numbers mean.
#[derive(Drop)]
pub struct IndexedTrace {
    pub lines: Vec<IndexedLine>,
    /// For each port the component that it belongs to.
    pub owners: Vec<u32>,
    /// For each route, whether both ends have a section.
    pub joined: Vec<bool>,
    pub components: usize,
    /// Greater than the number of any line.
    pub numbers: usize,
}
