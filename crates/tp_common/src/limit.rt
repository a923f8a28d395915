//! The limit on the text of a script or a queue file.

/// The maximum number of bytes of a text: 1 MiB.
pub const TEXT_LIMIT: usize = 1_048_576;
