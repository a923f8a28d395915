//! The starts of components.
use tp_config::port_type::CompId;

#[derive(Drop)]
pub struct StartedComponent {
    pub function: u32,
    pub arguments: Vec<CompId>,
}

#[derive(Drop)]
pub struct Starts {
    /// The starts, in the order of the text.
    pub starts: Vec<StartedComponent>,
    /// For each component variable, in the order of the text, the place of its start.
    pub places: Vec<u32>,
}
