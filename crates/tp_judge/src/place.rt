//! Places at which a trace breaks a rule.

#[derive(Clone, Copy)]
pub enum Rule {
    /// A message was taken, found or discarded at a stopped port.
    Stopped,
    /// A message after the mark of a halted port was taken, found or discarded.
    Behind,
    /// A message that isn't the top of the queue was taken, found or discarded.
    NotTop,
    /// The messages reported as left aren't those in the queue.
    Left,
    /// A sending doesn't have the next number of its route.
    Numbering,
    /// A message that was sent never arrived.
    Lost,
    /// A message arrived twice.
    Doubled,
    /// A message arrived that was never sent.
    Invented,
    /// Another message was sent under the number of one that arrived.
    Changed,
    /// A message arrived after one that was sent later.
    Reordered,
    /// The line happens before itself.
    Circle,
}

#[derive(Clone, Copy)]
pub struct UnlawfulPlace {
    pub line: u32,
    pub rule: Rule,
}
