//! The progress of the search through the histories of components.

/// The progress on the way to one order: three numbers for each component.
#[derive(Drop)]
pub(crate) struct OrderProgress {
    pub(crate) places: Vec<usize>,
    /// The number of messages that arrived before that place.
    pub(crate) came: Vec<usize>,
    /// The number of messages sent to the component so far.
    pub(crate) sent: Vec<usize>,
}

/// A place in the history of a component that goes ahead to the next message to be sent there.
#[derive(Clone, Copy)]
pub(crate) struct ArrivalCursor {
    pub(crate) place: usize,
    /// The number of messages that arrived before that place.
    pub(crate) came: usize,
    /// The place after the last look before it, or 0 if there is none.
    pub(crate) after: usize,
}

/// A search that is stuck: no component can advance.
#[derive(Drop)]
pub(crate) struct Search {
    pub(crate) progress: OrderProgress,
    pub(crate) cursors: Vec<ArrivalCursor>,
}
