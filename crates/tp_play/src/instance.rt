//! The body of one component.
use tp_config::port_type::CompId;

#[derive(Clone, Copy)]
pub enum WhichBody {
    TestCase,
    /// The body of the function at this place among the functions of the module.
    Function(u32),
}

/// A body as one component has it: which body, and the components that its references name. The
/// test case makes a `Behaviour` of it.
#[derive(Drop)]
pub struct Instance {
    pub which_body: WhichBody,
    /// `mtc`, the component itself, the arguments of its start, and the components of the component
    /// variables of the test case.
    pub references: Vec<CompId>,
}
