//! Hooks at which a test may hold a behaviour.
use tp_config::port_type::CompId;

/// Hooks before each statement and inside each operation on ports, by which a test can force an
/// order. Each call returns.
pub trait Gate: Sync {
    /// Called before each executed statement of the component. Statements are counted from 0.
    fn before(&self, who: CompId, step: u64);

    /// Called in each receiving and each port control operation at this port of the component,
    /// after its drain; in an `alt`, as each branch is tested.
    fn inside(&self, who: CompId, port: u32);

    /// Whether each look begins with a drain, even if the drain can't change its outcome.
    fn always_drains(&self) -> bool;
}

#[derive(Clone, Copy)]
pub struct OpenGate;

impl Gate for OpenGate {
    fn before(&self, _who: CompId, _step: u64) {}

    fn inside(&self, _who: CompId, _port: u32) {}

    fn always_drains(&self) -> bool {
        false
    }
}
