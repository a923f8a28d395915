//! The answer to demands.

/// An order that meets all demands, or a circle of demands.
#[derive(Drop)]
pub enum Answer {
    Ordered(Vec<usize>),
    /// Numbers without an order: by one demand each must come before the next, and the last before
    /// the first.
    Circle(Vec<usize>),
}
