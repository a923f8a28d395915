//! The kinds of what stands in a history.

/// What an entry of a history is for the order of all entries, with messages as they are compared.
#[derive(Clone, Copy)]
pub enum EntryKind<M> {
    /// The component sent the message to the component of this number.
    Sent(u32, M),
    /// The message came to the component.
    Came(M),
    /// The component looked at its ports.
    Looked,
    /// The component did something that concerns no other.
    Quiet,
    /// The component did nothing, and nothing came.
    Nothing,
}
