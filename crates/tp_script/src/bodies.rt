//! The fourth pass of the checks: the bodies.
ghost use Rattle.std.specs.{Prelude.◌≡◌, Prelude.IfErr, Prelude.IfOk, Prelude.map, List.AllZip};
ghost use Rattle.tp_checks.specs.{Refused.Tells, Tables.IsNumbered};
ghost use Rattle.tp_checks.specs.Definitions.{of_kind, declared, function_of, functions};
ghost use Rattle.tp_play.specs.declared.body.Body.{Body};
ghost use Rattle.tp_script.specs.{Instances.known_in, Scopes.IsSoundKnown, Scopes.plays_of};
ghost use Rattle.tp_script.specs.BrokenModules.{BodiesBreak, FunctionBreaks, FunctionsBreak, MainBreaks};
ghost use Rattle.tp_script.specs.Scopes.{CanAllRun, CanRun, HaveOwnNames, IsFunctionBody, IsMainBody};

use crate::scopes::{parameter_names, scope_of};
use std::alloc::Global;
use tp_checks::definitions::is_sut;
use tp_checks::fault::ModuleFault;
use tp_checks::name_set::NameSet;
use tp_checks::prepared::Prepared;
use tp_checks::scope::BehaviourKind;
use tp_checks::sorted::as_function;
use tp_checks::statements::resolve_body;
use tp_play::bodies::Bodies;
use tp_play::body::Body;
use tp_tree::tree::{Definition, Function, Module};

fn plays(function: &Function) -> BehaviourKind
    ensures { result ≡ plays_of function.now }
{
    if is_sut(function.name.as_str()) {
        BehaviourKind::SystemUnderTest
    } else {
        BehaviourKind::Function
    }
}

fn resolve_main(alloc: Global, prepared: &Prepared) -> Result<Body, ModuleFault>
    ensures body { IfOk result (IsMainBody (known_in prepared.now) prepared.now.case.case.now) }
    ensures told { IsSoundKnown (known_in prepared.now)
        → CanRun (known_in prepared.now) prepared.now.case.case.now.runs_on
        → IfErr result (Tells (MainBreaks (known_in prepared.now) prepared.now.case.case.now
        prepared.now.case.line)) }
{
    let case = prepared.case.case;
    let line = prepared.case.line;
    let parameters = NameSet::new(alloc);
    let runs_on = case.runs_on.as_str();
    let scope = scope_of(
        &*prepared,
        runs_on,
        BehaviourKind::TestCase,
        &parameters,
        line,
    )?;
    resolve_body(
        alloc,
        &scope,
        line,
        case.variables.as_slice(),
        case.statements.as_slice(),
    )
}

fn resolve_function<'m>(
    alloc: Global,
    prepared: &Prepared<'m>,
    function: &'m Function,
    line: u32,
) -> Result<Body, ModuleFault>
    ensures body { IfOk result (IsFunctionBody (known_in prepared.now) function.now) }
    ensures told { IsSoundKnown (known_in prepared.now)
        → IsNumbered (map (λ p. declared p.name) function.now.parameters)
        → CanRun (known_in prepared.now) function.now.runs_on
        → IfErr result (Tells (FunctionBreaks (known_in prepared.now) function.now line)) }
{
    let parameters = parameter_names(alloc, function.parameters.as_slice())?;
    let runs_on = function.runs_on.as_str();
    let scope = scope_of(&*prepared, runs_on, plays(function), &parameters, line)?;
    resolve_body(
        alloc,
        &scope,
        line,
        function.variables.as_slice(),
        function.statements.as_slice(),
    )
}

fn resolve_functions<'m>(
    alloc: Global,
    definitions: &'m [Definition],
    prepared: &Prepared<'m>,
) -> Result<Vec<Body>, ModuleFault>
    ensures bodies { IfOk result (λ bodies. AllZip (IsFunctionBody (known_in prepared.now))
        (of_kind function_of definitions.now) bodies.items) }
    ensures told { IsSoundKnown (known_in prepared.now)
        → HaveOwnNames definitions.now
        → CanAllRun (known_in prepared.now) definitions.now
        → IfErr result (Tells (FunctionsBreak (known_in prepared.now) definitions.now)) }
{
    let mut bodies = Vec::new(alloc);
    for definition in definitions {
        let Some(function) = as_function(definition) else {
            continue;
        };
        let body = resolve_function(alloc, prepared, function, definition.line)?;
        bodies.push(body)?;
    }
    Ok(bodies)
}

/// The bodies of a module: the test case's own, and those of its functions, started or not.
///
/// It returns the first fault: those of the test case's own body come first, then those of the
/// functions in the order of the text. For each: 12 `Duplicate` and 15 `Limit` for its parameters;
/// 11 `Unknown` at the line of its definition for the component type after its `runs on`; then
/// those of [`resolve_body`].
pub fn resolve_bodies<'m>(
    alloc: Global,
    parsed: &'m Module,
    prepared: &Prepared<'m>,
) -> Result<Bodies, ModuleFault>
    ensures main { IfOk result (λ b.
        IsMainBody (known_in prepared.now) prepared.now.case.case.now b.main) }
    ensures functions { IfOk result (λ b. AllZip (IsFunctionBody (known_in prepared.now))
        (functions parsed.now) b.functions.items) }
    ensures told { IsSoundKnown (known_in prepared.now)
        → HaveOwnNames parsed.now.definitions
        → CanRun (known_in prepared.now) prepared.now.case.case.now.runs_on
        → CanAllRun (known_in prepared.now) parsed.now.definitions
        → IfErr result (Tells (BodiesBreak (known_in prepared.now) prepared.now.case.case.now
        prepared.now.case.line parsed.now.definitions)) }
{
    let main = resolve_main(alloc, prepared)?;
    let functions = resolve_functions(alloc, parsed.definitions.as_slice(), prepared)?;
    Ok(Bodies { main, functions })
}
