//! The messages that a sender has put.
use crate::stamped::Stamped;
use tp_config::port_type::RouteId;

#[derive(Drop)]
pub struct Posted {
    pub route: RouteId,
    /// Its number on its route, from 0.
    pub number: u64,
    pub stamped: Stamped,
}
