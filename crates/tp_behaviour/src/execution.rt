//! The arguments that all functions here share.
use crate::task::Task;

#[derive(Drop)]
pub(crate) struct Execution<'a, R, G> {
    pub rt: &'a R,
    /// A test may hold it there.
    pub gate: &'a G,
    pub task: &'a Task<'a>,
}
