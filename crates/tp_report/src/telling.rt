//! The two forms of a report.

#[derive(Clone, Copy)]
pub enum Telling {
    /// A report, without lines for arrivals.
    Report,
    /// A trace: a report with a line for each arrival at its place in its component's history.
    Trace,
}
