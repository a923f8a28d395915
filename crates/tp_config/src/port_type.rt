//! Port types, component types, and the names of components, ports and routes.
ghost use Rattle.std.specs.Prelude.{◌≡◌};
ghost use Rattle.tp_config.specs.Pairs.{same_port};
ghost use Rattle.tp_config.specs.Setup.{is_system_role};

use crate::type_list::TypeList;
use indexmap::IndexMap;

/// The maximum number of components of a configuration.
pub const COMPONENT_LIMIT: usize = 64;

/// The maximum number of ports of a component type.
pub const PORT_LIMIT: usize = 64;

/// A type of message ports (ES 201 873-1, 6.2.9). A message type listed as `inout` is in both
/// lists.
#[derive(Drop)]
pub struct PortType {
    /// The message types that a port of this type receives.
    pub ins: TypeList,
    /// The message types that a port of this type sends.
    pub outs: TypeList,
}

/// A type of components (ES 201 873-1, 6.2.10): the ports of each component of this type, by their
/// names, in declared order. Names are compared by their bytes.
pub struct CompType {
    /// The ports, numbered from 0 in this order.
    pub ports: IndexMap<String, PortType>,
}

impl Drop for CompType {
    // Written out, so that an owner's drop calls this one, and needs no proof about the fields.
    fn drop(self) {
        let CompType { ports } = self;
        drop(ports);
    }
}

/// A component, by its number: from 0, in the order of creation.
#[derive(Clone, Copy, Debug, PartialEq, Eq, Hash)]
pub struct CompId(pub u32);

/// A port of a component.
#[derive(Clone, Copy, Debug, PartialEq, Eq, Hash)]
pub struct PortRef {
    pub comp: CompId,
    /// The port's number, from 0, in the declared order of the component type.
    pub port: u32,
}

/// The route of messages from a component to a port. It determines the port that sends, because no
/// port is connected with two ports of one component.
#[derive(Clone, Copy, Debug, PartialEq, Eq, Hash)]
pub struct RouteId {
    /// The component that sends.
    pub source: CompId,
    /// The port that receives.
    pub to: PortRef,
}

/// The role of a component.
#[derive(Clone, Copy, Debug)]
pub enum Role {
    /// The main test component, or one that it created.
    Test,
    /// The test system interface (ES 201 873-1, 9.2). A configuration has at most one.
    System,
}

impl PortRef {
    /// Returns whether the two are the same port.
    pub fn is(self, other: PortRef) -> bool
        ensures { result ≡ same_port self other }
    {
        self.comp.0 == other.comp.0 && self.port == other.port
    }
}

impl Role {
    /// Returns whether it is the role of the test system interface.
    pub fn is_system(self) -> bool
        ensures { result ≡ is_system_role self }
    {
        match self {
            Role::Test => false,
            Role::System => true,
        }
    }
}
