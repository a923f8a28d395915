//! The names that the bodies of a module may use.
ghost use Rattle.std.specs.Prelude.{◌≡◌, IfErr, IfOk, map, slice_get};
ghost use Rattle.std.specs.Option.{option_copied};
ghost use Rattle.tp_checks.specs.{Scoping.visible_in, Refused.IsRefusedBy, Tables.IsNumbered, Definitions.declared};
ghost use Rattle.tp_script.specs.{Instances.known_in, Scopes.CanRun, Scopes.IsScope};

use std::alloc::Global;
use tp_checks::fault::{ModuleFault, ModuleRule, refused};
use tp_checks::name_set::NameSet;
use tp_checks::prepared::Prepared;
use tp_checks::scope::{BehaviourKind, Scope};
use tp_checks::unique_names::declare_all;
use tp_config::port_type::CompType;
use tp_tree::tree::Parameter;

fn kind_at(kinds: &[CompType], place: u32) -> Option<&CompType>
    ensures { option_copied result ≡ slice_get kinds.now place }
{
    kinds.get(place as usize)
}

/// 12 `Duplicate` at the line of the second of two equal parameters, 15 `Limit` at the line of one
/// after 4,294,967,295 others.
pub fn parameter_names(alloc: Global, parameters: &[Parameter]) -> Result<NameSet<'_>, ModuleFault>
    ensures names { IfOk result (λ names. names ≡ map (λ p. declared p.name) parameters.now) }
    ensures refused { IfErr result (IsRefusedBy (IsNumbered
        (map (λ p. declared p.name) parameters.now))) }
{
    let mut names = NameSet::new(alloc);
    declare_all(&mut names, parameters)?;
    Ok(names)
}

/// The names that a behaviour may use. It runs on the component type of this name, and has these
/// parameters. 11 `Unknown` at the line if there is no such type. It doesn't allocate.
pub fn scope_of<'m>(
    prepared: &'m Prepared<'m>,
    runs_on: &str,
    behaviour: BehaviourKind,
    parameters: &'m NameSet<'m>,
    line: u32,
) -> Result<Scope<'m>, ModuleFault>
    ensures scope { IfOk result (λ scope. IsScope
        (known_in prepared.now) behaviour runs_on.now parameters.now (visible_in scope)) }
    ensures unknown { IfErr result (λ _. CanRun (known_in prepared.now) runs_on.now → ⊥) }
{
    let Some(place) = prepared.sorted.component_names.find(runs_on) else {
        return Err(refused(ModuleRule::Unknown, line));
    };
    // Each name has its type, so this one is there.
    let Some(component_type) = kind_at(prepared.config.types(), place) else {
        return Err(refused(ModuleRule::Unknown, line));
    };
    Ok(Scope {
        types: &prepared.types,
        component_types: &prepared.sorted.component_names,
        component_type,
        behaviour,
        parameters,
        component_variables: &prepared.variables,
    })
}
