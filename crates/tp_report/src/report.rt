//! The report of a run.
use tp_config::port_type::RouteId;
use tp_inbox::desk::Desk;
use tp_inbox::ending::End;
use tp_value::verdict::Verdict;

#[derive(Drop)]
pub struct CompReport {
    pub name: String,
    /// Its ports and its history. Messages left in its inbox are arrivals in it.
    pub desk: Desk,
    pub ending: End,
    pub verdict: Verdict,
    /// For each route into the component, in order, the number of messages that its sender has put
    /// on it.
    pub counts: Vec<(RouteId, u64)>,
}

/// The report of a run: its components in the test case's order, and the overall verdict.
pub struct Report {
    pub components: Vec<CompReport>,
    pub result: Verdict,
}

impl Drop for Report {
    // Written out, so that an owner's drop calls this one, and needs no proof about the fields.
    fn drop(self) {
        let Report {
            components,
            result: _,
        } = self;
        drop(components);
    }
}
