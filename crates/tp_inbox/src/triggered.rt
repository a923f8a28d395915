//! The result of a `trigger` at a desk.

/// The result of a `trigger` (ES 201 873-1, 22.2.3). The message that was taken out or discarded is
/// in the last entry of the history.
#[derive(Clone, Copy, Debug)]
pub enum Triggered {
    /// The top message matched, and was taken out.
    Took,
    /// The top message didn't match, and was discarded.
    Dropped,
    /// No message is deliverable.
    Nothing,
}
