//! The variables of a body, and the rule for new names.
ghost use Rattle.std.specs.Prelude.{◌≡◌, ◌≤◌, ◌∷◌, ◌++◌, ◌↔◌, [], ℕ, List, Contains, IfErr, IfNone, IfOk, IfSome};
ghost use Rattle.std.specs.{Prelude.IsTrue, Prelude.OnOk, Prelude.Some, Prelude.length, Bool.OnFalse};
ghost use Rattle.tp_checks.specs.{Refused.Tells, Refused.TellsAt, Tables.IsNumbered, BrokenBodies.VariablesBreak};
ghost use Rattle.tp_checks.specs.Scoping.{AreNoPorts, IsNew, here, ports_in, visible_in};
ghost use Rattle.tp_checks.specs.Bodies.{AreVariables, IsVariableType};

use crate::context::Context;
use crate::fault::{ModuleFault, ModuleRule};
use crate::lookup::{find_type, place_of_port};
use crate::name::find;
use crate::name_set::NameSet;
use crate::scope::{BehaviourKind, Scope, Variables};
use std::alloc::Global;
use tp_play::body::VariableType;
use tp_tree::message::TypeName;
use tp_tree::tree::Variable;
use tp_value::items::Items;

/// No port, parameter, variable or loop variable has a new name, and in the test case no component
/// variable.
pub fn is_new(context: &Context, name: &str) -> bool
    ensures { IsTrue result ↔ here IsNew context.now name.now }
{
    let scope = context.scope;
    let None = place_of_port(scope.component_type, name) else {
        return false;
    };
    let None = scope.parameters.find(name) else {
        return false;
    };
    let None = context.variables.names.find(name) else {
        return false;
    };
    let None = find(context.turns, name) else {
        return false;
    };
    if scope.behaviour != BehaviourKind::TestCase {
        return true;
    }
    let None = scope.component_variables.find(name) else {
        return false;
    };
    true
}

#[tactic(auto, using(crate::proofs::DefinitionLines::variables))]
fn find_held(scope: &Scope, name: &TypeName) -> Option<VariableType>
    ensures there { IfSome result (IsVariableType (visible_in scope.now) name.now) }
    ensures absent { IfNone result ((held : VariableType)
        → IsVariableType (visible_in scope.now) name.now held → ⊥) }
{
    if let Some(ty) = find_type(scope.types, name) {
        return Some(VariableType::Message(ty));
    }
    match name {
        TypeName::Named(name) => {
            scope.component_types.find(name.as_str())?;
            Some(VariableType::Component)
        }
        TypeName::Integer | TypeName::Boolean | TypeName::Charstring => None,
    }
}

fn add_variable<'m>(
    variables: &mut Variables<'m>,
    name: &'m str,
    held: VariableType,
    line: u32,
) -> Result<(), ModuleFault>
    ensures names { OnOk result (variables.new.names ≡ variables.old.names ++ name.now ∷ []) }
    ensures types { OnOk result (variables.new.types ≡ variables.old.types ++ held ∷ []) }
    ensures numbered { IsNumbered variables.new.names }
    ensures told { (Contains variables.old.names name.now → ⊥) → IfErr result (TellsAt line
        (λ rule. (rule ≡ ModuleRule.Limit) × (4294967295 ≤ length variables.old.names))) }
{
    if let Err(fault) = variables.names.add(name) {
        return Err(fault.at(line));
    }
    variables.types.push(held)?;
    Ok(())
}

/// Resolves the variables of a body (ES 201 873-1, 11.1). For each of them in the order of the
/// text, at its line: 11 `Unknown` for its type, then 12 `Duplicate` for a name that isn't new, and
/// 15 `Limit` for more than 4,294,967,295 variables.
pub fn resolve_variables<'m>(
    alloc: Global,
    scope: &Scope,
    declared: &'m [Variable],
) -> Result<Variables<'m>, ModuleFault>
    ensures declared { IfOk result (AreVariables (visible_in scope.now) declared.now) }
    ensures told { IfErr result (Tells (VariablesBreak (visible_in scope.now) declared.now)) }
{
    let mut variables = Variables {
        names: NameSet::new(alloc),
        types: Items::new(alloc),
    };
    for variable in declared {
        let context = Context {
            // Lent again, since the variables are lent for one round of the loop only.
            scope: &*scope,
            variables: &variables,
            turns: &[],
            line: variable.line,
        };
        let Some(held) = find_held(scope, &variable.type_name) else {
            return Err(context.unknown());
        };
        let name = variable.name.as_str();
        if !is_new(&context, name) {
            return Err(context.duplicate());
        }
        add_variable(&mut variables, name, held, variable.line)?;
    }
    Ok(variables)
}

pub fn are_no_ports(scope: &Scope) -> bool
    ensures apart { IsTrue result ↔ AreNoPorts (visible_in scope.now) }
    ensures twice { OnFalse result ((name : List ℕ)
        × Contains (ports_in scope.now.component_type.now).names name
        × Contains scope.now.parameters.now name) }
{
    for place in 0..scope.component_type.ports.len() {
        // The place is below the length, so there is one.
        let Some((name, _)) = scope.component_type.ports.get_index(place) else {
            return false;
        };
        let None = scope.parameters.find(name.as_str()) else {
            return false;
        };
    }
    true
}
