//! Look-ups of names.
ghost use Rattle.std.specs.Prelude.{◌≡◌, ◌++◌, ◌↔◌, ◌≤◌, ◌<◌, ◌^◌, ℕ, Contains, IsTrue, IfNone, IfSome, length};
ghost use Rattle.tp_checks.specs.Named.{IsAbsent, IsPlace};
ghost use Rattle.tp_checks.specs.Scoping.{AreTyped, IsPortNamed, IsReference, IsType, IsVariable, here, ports_in, receivable_types, sendable_types, visible_in};

use crate::context::Context;
use crate::name::find;
use crate::scope::{BehaviourKind, Scope, Variables};
use tp_config::port_type::{CompType, PortType};
use tp_config::type_list::TypeList;
use tp_play::body::VariableType;
use tp_tree::message::TypeName;
use tp_tree::tree::ComponentName;
use tp_value::types::{Ty, Types};

pub fn place_of_port(ports: &CompType, name: &str) -> Option<usize>
    ensures there { IfSome result (λ place. IsPlace (ports_in ports.now).names name.now place) }
    ensures absent { IfNone result (IsAbsent (ports_in ports.now).names name.now) }
{
    match ports.ports.get_index_of(name) {
        Some(place) => Some(place),
        None => None,
    }
}

pub fn find_port<'p>(scope: &Scope<'p>, name: &str) -> Option<(u32, &'p PortType)>
    ensures there { IfSome result
        (λ found. IsPortNamed (visible_in scope.now) name.now found.0 found.1.now) }
    ensures absent { length (visible_in scope.now).ports.names ≤ 64
        → IfNone result (IsAbsent (visible_in scope.now).ports.names name.now) }
{
    let ports = scope.component_type;
    let place = place_of_port(ports, name)?;
    // It is there: the place was found just now.
    let Some((_, port)) = ports.ports.get_index(place) else {
        return None;
    };
    // A component type has 64 ports at most, which only the clause `absent` assumes.
    if place > 0xffff_ffff {
        return None;
    }
    Some((place as u32, port))
}

pub fn sendable(behaviour: BehaviourKind, port: &PortType) -> &TypeList
    ensures { result.now ≡ sendable_types behaviour port.now }
{
    match behaviour {
        BehaviourKind::TestCase | BehaviourKind::Function => &port.outs,
        BehaviourKind::SystemUnderTest => &port.ins,
    }
}

pub fn receivable(behaviour: BehaviourKind, port: &PortType) -> &TypeList
    ensures { result.now ≡ receivable_types behaviour port.now }
{
    match behaviour {
        BehaviourKind::TestCase | BehaviourKind::Function => &port.ins,
        BehaviourKind::SystemUnderTest => &port.outs,
    }
}

/// Returns whether the type is listed, without comparing it with each.
pub fn lists(types: &TypeList, ty: Ty) -> bool
    ensures { IsTrue result ↔ Contains types.now ty }
{
    types.has(ty)
}

#[tactic(auto, using(crate::proofs::DefinitionLines::names))]
pub fn find_type(types: &Types, name: &TypeName) -> Option<Ty>
    ensures there { IfSome result (IsType types.now name.now) }
    ensures absent { IfNone result ((u : Ty) → IsType types.now name.now u → ⊥) }
{
    match name {
        TypeName::Integer => Some(Ty::Integer),
        TypeName::Boolean => Some(Ty::Boolean),
        TypeName::Charstring => Some(Ty::Charstring),
        TypeName::Named(name) => {
            let number = types.find(name.as_str())?;
            Some(Ty::Named(number))
        }
    }
}

pub fn find_variable(variables: &Variables, name: &str) -> Option<(usize, VariableType)>
    ensures there { IfSome result (λ found. IsVariable variables.now name.now found.0 found.1) }
    ensures absent { AreTyped variables.now
        → IfNone result (IsAbsent variables.now.names name.now) }
{
    let place = variables.names.find(name)? as usize;
    let held = variables.types.get(place)?;
    Some((place, *held))
}

fn find_component(scope: &Scope, name: &str) -> Option<usize>
    ensures there { IfSome result
        (IsPlace (scope.now.parameters.now ++ scope.now.component_variables.now) name.now) }
    ensures absent { IfNone result
        (IsAbsent (scope.now.parameters.now ++ scope.now.component_variables.now) name.now) }
    ensures few { IfSome result (λ place. place < 2 ^ 33) }
{
    if let Some(place) = scope.parameters.find(name) {
        return Some(place as usize);
    }
    let place = scope.component_variables.find(name)?;
    scope.parameters.len().checked_add(place as usize)
}

#[tactic(auto, using(crate::proofs::DefinitionLines::names))]
pub fn find_reference(context: &Context, component: &ComponentName) -> Option<usize>
    ensures there { IfSome result (here IsReference context.now component.now) }
    ensures absent { IfNone result ((k : ℕ) → here IsReference context.now component.now k → ⊥) }
{
    match component {
        ComponentName::Mtc => Some(0),
        ComponentName::SelfComponent => Some(1),
        ComponentName::Named(name) => {
            let name = name.as_str();
            let None = find(context.turns, name) else {
                return None;
            };
            let None = context.variables.names.find(name) else {
                return None;
            };
            let place = find_component(context.scope, name)?;
            // This never happens: the place is below 2^33, by the clause `few`.
            if place > usize::MAX - 2 {
                return None;
            }
            Some(2 + place)
        }
    }
}
