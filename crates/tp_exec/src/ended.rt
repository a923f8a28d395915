//! A component after everything sent to it has arrived.
use tp_behaviour::outcome::Outcome;
use tp_config::port_type::RouteId;
use tp_inbox::desk::Desk;

#[derive(Drop)]
pub(crate) struct EndedComponent {
    pub(crate) desk: Desk,
    pub(crate) outcome: Outcome,
    pub(crate) counts: Vec<(RouteId, u64)>,
}
