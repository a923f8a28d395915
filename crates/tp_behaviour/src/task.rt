//! A behaviour to execute.
use std::alloc::Global;
use tp_config::config::Config;
use tp_config::port_type::CompId;
use tp_inbox::owner::Closer;
use tp_play::test_case::Behaviour;
use tp_value::types::Types;

#[derive(Clone, Copy)]
pub struct Task<'t> {
    pub alloc: Global,
    pub config: &'t Config,
    /// The types of its messages. Only contracts use them, in what they say of the body.
    pub types: &'t Types,
    pub comp: CompId,
    /// Its body, and the components that the references of the body name.
    pub behaviour: Behaviour<'t>,
    /// They close the inboxes of all components.
    pub closers: &'t [Closer],
}
