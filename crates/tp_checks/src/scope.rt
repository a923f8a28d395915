//! The names that a body may use.
use crate::name_set::NameSet;
use tp_config::port_type::CompType;
use tp_play::body::VariableType;
use tp_value::items::Items;
use tp_value::types::Types;

#[derive(Clone, Copy)]
pub enum BehaviourKind {
    /// `mtc`. No name in the body of the test case may be that of a component variable.
    TestCase,
    /// A function. Its names hide the component variables of the test case.
    Function,
    /// The system under test. It sends what its ports receive, and receives what they send. It has
    /// no verdicts and no operations on ports.
    SystemUnderTest,
}

#[derive(Clone, Copy)]
pub struct Scope<'m> {
    pub types: &'m Types,
    pub component_types: &'m NameSet<'m>,
    /// The component type after `runs on`.
    pub component_type: &'m CompType,
    pub behaviour: BehaviourKind,
    pub parameters: &'m NameSet<'m>,
    pub component_variables: &'m NameSet<'m>,
}

#[derive(Drop)]
pub struct Variables<'m> {
    pub names: NameSet<'m>,
    pub types: Items<VariableType>,
}
