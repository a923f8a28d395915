//! The definitions of a module, sorted by kind.
ghost use Rattle.std.specs.Prelude.{◌≡◌, ℕ, List, Option, IfErr, IfOk, map, slice_get};
ghost use Rattle.std.specs.Option.{option_copied};
ghost use Rattle.tp_tree.specs.declared.tree.Defined.{Defined};
ghost use Rattle.tp_checks.specs.{Refused.IsRefusedBy, Tables.IsNumbered, Rules.HasUniqueNames};
ghost use Rattle.tp_checks.specs.Definitions.{of_kind, component_type_of, function_of, name_of, port_type_of, type_of};
ghost use Rattle.tp_checks.specs.Sorted.{AreOfKind, AreSorted};

use crate::fault::ModuleFault;
use crate::name_set::NameSet;
use crate::unique_names::defined_name;
use std::alloc::Global;
use tp_tree::tree::{ComponentType, Defined, Definition, Function, Module, PortType};

/// The definitions of a module, each kind in the order of the text with its names. The number of a
/// name is the place of its definition.
#[derive(Drop)]
pub struct Sorted<'m> {
    pub type_names: NameSet<'m>,
    pub types: Vec<&'m Defined>,
    pub port_names: NameSet<'m>,
    pub port_types: Vec<&'m PortType>,
    pub component_names: NameSet<'m>,
    pub component_types: Vec<&'m ComponentType>,
    pub function_names: NameSet<'m>,
    pub functions: Vec<&'m Function>,
}

pub(crate) fn definition_at<'m, K>(definitions: &[&'m K], place: u32) -> Option<&'m K>
    ensures { option_copied result ≡ slice_get (map (λ d. d.now) definitions.now) place }
{
    match definitions.get(place as usize) {
        Some(definition) => Some(*definition),
        None => None,
    }
}

/// A kind of definition: record and record-of types, port types, component types, or functions.
trait DefinitionKind {
    ghost as_kind: { Defined → Option Self };
    /// The bytes of its name.
    ghost name: { Self → List ℕ };

    fn as_kind(definition: &Definition) -> Option<&Self>
        ensures { option_copied result ≡ as_kind definition.now.defined };

    fn name(&self) -> &str
        ensures { result.now ≡ name self.now };
}

impl DefinitionKind for Defined {
    ghost as_kind = { type_of };

    ghost name = { name_of };

    fn as_kind(definition: &Definition) -> Option<&Defined> {
        match &definition.defined {
            Defined::Record(_) | Defined::List(_) => Some(&definition.defined),
            _ => None,
        }
    }

    fn name(&self) -> &str {
        defined_name(self)
    }
}

impl DefinitionKind for PortType {
    ghost as_kind = { port_type_of };

    ghost name = { λ p. p.name };

    fn as_kind(definition: &Definition) -> Option<&PortType> {
        match &definition.defined {
            Defined::Port(port) => Some(port),
            _ => None,
        }
    }

    fn name(&self) -> &str {
        self.name.as_str()
    }
}

impl DefinitionKind for ComponentType {
    ghost as_kind = { component_type_of };

    ghost name = { λ c. c.name };

    fn as_kind(definition: &Definition) -> Option<&ComponentType> {
        match &definition.defined {
            Defined::Component(component) => Some(component),
            _ => None,
        }
    }

    fn name(&self) -> &str {
        self.name.as_str()
    }
}

pub fn as_function(definition: &Definition) -> Option<&Function>
    ensures { option_copied result ≡ function_of definition.now.defined }
{
    match &definition.defined {
        Defined::Function(function) => Some(function),
        _ => None,
    }
}

impl DefinitionKind for Function {
    ghost as_kind = { function_of };

    ghost name = { λ f. f.name };

    fn as_kind(definition: &Definition) -> Option<&Function> {
        as_function(definition)
    }

    fn name(&self) -> &str {
        self.name.as_str()
    }
}

fn sort_kind<'m, K: DefinitionKind>(
    alloc: Global,
    definitions: &'m [Definition],
) -> Result<(NameSet<'m>, Vec<&'m K>), ModuleFault>
    ensures sorted { IfOk result (λ r.
        AreOfKind K.as_kind K.name definitions.now r.0 (map (λ x. x.now) r.1.items)) }
    ensures refused { IfErr result (IsRefusedBy (
        IsNumbered (map K.name (of_kind K.as_kind definitions.now)))) }
{
    let mut names = NameSet::new(alloc);
    let mut sorted = Vec::new(alloc);
    for definition in definitions {
        let Some(one) = K::as_kind(definition) else {
            continue;
        };
        if let Err(fault) = names.add(one.name()) {
            return Err(fault.at(definition.line));
        }
        sorted.push(one)?;
    }
    Ok((names, sorted))
}

/// Sorts the definitions of a module. If two of one kind have the same name: 12 `Duplicate` at the
/// line of the second. 15 `Limit` at the line of a definition after 4,294,967,295 others of its
/// kind.
pub fn sort(alloc: Global, parsed: &Module) -> Result<Sorted<'_>, ModuleFault>
    ensures sorted { IfOk result (AreSorted parsed.now) }
    ensures refused { IfErr result (IsRefusedBy (HasUniqueNames parsed.now)) }
{
    let definitions = parsed.definitions.as_slice();
    // The kind that each call looks for follows from the type of its field below.
    let (type_names, types) = sort_kind(alloc, definitions)?;
    let (port_names, port_types) = sort_kind(alloc, definitions)?;
    let (component_names, component_types) = sort_kind(alloc, definitions)?;
    let (function_names, functions) = sort_kind(alloc, definitions)?;
    Ok(Sorted {
        type_names,
        types,
        port_names,
        port_types,
        component_names,
        component_types,
        function_names,
        functions,
    })
}
