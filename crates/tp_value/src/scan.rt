//! The steps of a search for a cut.

/// The next step of a scan: past a `*`, past one part with one element, or back.
#[derive(Clone, Copy, Drop)]
pub enum ScanMove {
    AnyOrNone,
    One,
    Stuck,
}
