//! Every verdict that a test case can have, by a search through all orders of its steps; and the law
//! that the search misses none that a run reports. [`crate::deciding`] calls
//! [`finding::find_verdicts`] and [`writing::write_verdicts`].
pub mod finding;
pub mod laws;
pub mod writing;

use tp_config::port_type::CompId;
use tp_value::verdict::Verdict;

/// A verdict, and the components whose steps, one after another, lead the machine of the test case
/// to an end with it.
#[derive(Drop)]
pub struct FoundVerdict {
    pub verdict: Verdict,
    pub order: Vec<CompId>,
}

#[derive(Drop)]
pub struct Verdicts {
    /// Each once, in the order none, pass, inconc, fail, error.
    pub found: Vec<FoundVerdict>,
    pub states: u32,
    /// True if none was missed. False if there are more states than the limit, or if the program of
    /// the test case would be too large.
    pub is_complete: bool,
}
