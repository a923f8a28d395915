//! The refusals and faults of the whole product, with their numbers and names.
ghost use Rattle.std.specs.Prelude.{◌≡◌};
ghost use Rattle.tp_common.specs.Label.{label};

use std::fmt;

/// Why something was refused, or what failed: each number and name, once.
#[derive(Clone, Copy, Debug, PartialEq, Eq)]
pub enum Refusal {
    /// A line that isn't valid in a queue file, or in a trace.
    BadLine,
    /// The text could not be read.
    Read,
    /// The answer could not be written.
    Write,
    /// An unexpected token, or an unexpected end of the text.
    Syntax,
    /// An unknown name.
    Unknown,
    /// A name that is taken.
    Duplicate,
    /// A value, template or component of a type that isn't expected there.
    WrongType,
    /// A message type that the port doesn't send, or doesn't receive.
    Direction,
    /// More of something than the profile allows.
    Limit,
    /// A statement, signature or start that the system under test can't have.
    NotInSut,
    /// `all component.done` is missing.
    NoDone,
    /// A component that isn't started, or is started twice.
    NotStarted,
    /// A connection whose message types don't fit together.
    Directions,
    /// A connection of a port with two ports of one component.
    TwoPortsOfOne,
    /// A port both connected and mapped.
    Mixed,
    /// A second mapping of a port.
    NotOneToOne,
    /// A mapping whose message types don't fit together.
    MapDirections,
    /// A connection to a port of the test system interface.
    SystemPort,
    /// A connection of a port with itself.
    SamePort,
    /// A connection that exists.
    Already,
    /// A mapping without a port of the test system interface, or with two.
    NotSystem,
    /// A send at a port that isn't started.
    NotSending,
    /// A send on no connection or mapping.
    NoRoute,
    /// A send that must name one of several receivers.
    NeedsTo,
    /// A send of, or to, a variable without a value.
    UnsetVariable,
    /// An allocation was refused.
    Memory,
    /// A thread couldn't be started.
    NoThread,
    /// A behaviour ended as waiting although one of its branches was open.
    Restless,
    /// No one order of everything that the components did gives what each sent and received.
    NoOrder,
}

impl Refusal {
    /// The number, from 1 to 62, and the name, in ASCII letters, as every printed text has them.
    pub const fn label(self) -> (u8, &'static str)
        ensures number { result.0 ≡ (label self).0 }
        ensures name { result.1.now ≡ (label self).1 }
    {
        match self {
            Refusal::BadLine => (1, "BadLine"),
            Refusal::Read => (2, "Read"),
            Refusal::Write => (3, "Write"),
            Refusal::Syntax => (10, "Syntax"),
            Refusal::Unknown => (11, "Unknown"),
            Refusal::Duplicate => (12, "Duplicate"),
            Refusal::WrongType => (13, "WrongType"),
            Refusal::Direction => (14, "Direction"),
            Refusal::Limit => (15, "Limit"),
            Refusal::NotInSut => (16, "NotInSut"),
            Refusal::NoDone => (17, "NoDone"),
            Refusal::NotStarted => (18, "NotStarted"),
            Refusal::Directions => (20, "Directions"),
            Refusal::TwoPortsOfOne => (21, "TwoPortsOfOne"),
            Refusal::Mixed => (22, "Mixed"),
            Refusal::NotOneToOne => (23, "NotOneToOne"),
            Refusal::MapDirections => (24, "MapDirections"),
            Refusal::SystemPort => (25, "SystemPort"),
            Refusal::SamePort => (26, "SamePort"),
            Refusal::Already => (27, "Already"),
            Refusal::NotSystem => (28, "NotSystem"),
            Refusal::NotSending => (40, "NotSending"),
            Refusal::NoRoute => (41, "NoRoute"),
            Refusal::NeedsTo => (42, "NeedsTo"),
            Refusal::UnsetVariable => (43, "UnsetVariable"),
            Refusal::Memory => (50, "Memory"),
            Refusal::NoThread => (51, "NoThread"),
            Refusal::Restless => (61, "Restless"),
            Refusal::NoOrder => (62, "NoOrder"),
        }
    }
}

/// The number, a space and the name, as `15 Limit`.
impl fmt::Display for Refusal {
    fn fmt<W: fmt::Write>(&self, f: &mut fmt::Formatter<W>) -> fmt::Result {
        let (number, name) = self.label();
        write!(f, "{number} {name}")
    }
}
