//! Reasons why a component can't be created, and look-ups of names.
ghost use Rattle.std.specs.Prelude.{◌≡◌, find, map, position};
ghost use Rattle.std.specs.List.{list_any};
ghost use Rattle.std.specs.String.{string_bytes};
ghost use Rattle.std.specs.Str.{bytes_eq};
ghost use Rattle.tp_config.specs.Setup.{is_system_role};
ghost use Rattle.tp_config.specs.Shape.{member_of};
ghost use Rattle.tp_config.specs.Tests.{create_test, has_name, has_system};
ghost use Rattle.tp_config.specs.Causes.{create_order};
ghost use Rattle.tp_config.specs.Faults.{create_refusal};

use crate::component::Component;
use crate::port_type::{COMPONENT_LIMIT, Role};
use thiserror::Error;
use tp_common::refusal::Refusal;

/// Why a component was not created.
#[derive(Clone, Copy, Debug, PartialEq, Eq, Error)]
pub enum CreateFault {
    /// 12 Duplicate: a component has the name, or it would be a second test system interface.
    #[error("the component is there")]
    Duplicate,
    /// 15 Limit: there are 64 components.
    #[error("there are {COMPONENT_LIMIT} components")]
    Limit,
    /// 50 Memory: an allocation was refused.
    #[error("out of memory")]
    Memory,
}

impl CreateFault {
    pub fn refusal(self) -> Refusal
        ensures { result ≡ create_refusal self }
    {
        match self {
            CreateFault::Duplicate => Refusal::Duplicate,
            CreateFault::Limit => Refusal::Limit,
            CreateFault::Memory => Refusal::Memory,
        }
    }
}

// Two functions for one test, here and below: the clause of the first is close to the code, that of
// the second is the definition of `specs/`.
fn any_named(components: &[Component], name: &str) -> bool
    ensures { result ≡ list_any (λ c. bytes_eq (string_bytes c.name) name.now) components.now }
{
    components.iter().any(|c| c.name.as_str() == name)
}

fn has_name(components: &[Component], name: &str) -> bool
    ensures { result ≡ has_name (map member_of components.now) name.now }
{
    any_named(components, name)
}

fn any_system(components: &[Component]) -> bool
    ensures { result ≡ list_any (λ c. is_system_role c.role) components.now }
{
    components.iter().any(|c| c.role.is_system())
}

fn has_system(components: &[Component]) -> bool
    ensures { result ≡ has_system (map member_of components.now) }
{
    any_system(components)
}

pub(crate) fn component_place(components: &[Component], name: &str) -> Option<usize>
    ensures { result ≡ position (λ c. bytes_eq (string_bytes c.name) name.now) components.now }
{
    components.iter().position(|c| c.name.as_str() == name)
}

/// The first cause that holds, apart from memory.
pub(crate) fn create_fault(components: &[Component], name: &str, role: Role) -> Option<CreateFault>
    ensures { result
        ≡ find (create_test (map member_of components.now) name.now role) create_order }
{
    if has_name(components, name) || role.is_system() && has_system(components) {
        return Some(CreateFault::Duplicate);
    }
    if components.len() >= COMPONENT_LIMIT {
        return Some(CreateFault::Limit);
    }
    None
}
