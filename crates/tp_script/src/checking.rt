//! The checks of a module, pass by pass.
ghost use Rattle.std.specs.Prelude.{◌≡◌, ◌≤◌, IfErr, IfOk, OnOk, length, map, sum};
ghost use Rattle.std.specs.List.{AllZip};
ghost use Rattle.tp_checks.specs.{Refused.IsRefusedBy, Refused.Tells, Definitions.functions};
ghost use Rattle.tp_checks.specs.Prepared.{IsPreparedOf, IsWellDeclared};
ghost use Rattle.tp_script.specs.{BrokenModules.ModuleBreaks, Scopes.IsFunctionBody, Scopes.IsMainBody};
ghost use Rattle.tp_script.specs.Instances.{AreInstances, known_in, instance_count};
ghost use Rattle.tp_script.specs.TestCases.{IsTestCaseOf, WellFormed};
ghost use Rattle.tp_play.specs.{Behaviours.size_of_behaviour, Instances.behaviour_of, Ready.IsReady};

use crate::bodies::resolve_bodies;
use crate::instances::make_instances;
use crate::total::check_size;
use std::alloc::Global;
use tp_checks::fault::ModuleFault;
use tp_checks::prepared::Prepared;
use tp_checks::preparing::prepare;
use tp_play::bodies::Behaviours;
use tp_play::test_case::TestCase;
use tp_tree::tree::Module;

fn resolve_behaviours<'m>(
    alloc: Global,
    parsed: &'m Module,
    prepared: &Prepared<'m>,
) -> Result<Behaviours, ModuleFault>
    ensures main { IfOk result (λ b.
        IsMainBody (known_in prepared.now) prepared.now.case.case.now b.bodies.main) }
    ensures functions { IfOk result (λ b. AllZip (IsFunctionBody (known_in prepared.now))
        (functions parsed.now) b.bodies.functions.items) }
    ensures instances { IfOk result (λ b. AreInstances prepared.now b.instances.items) }
    ensures count { IfOk result (λ b. length b.instances.items ≡ instance_count prepared.now) }
    ensures few { IfOk result (λ b.
        sum (map size_of_behaviour (map (behaviour_of b.bodies) b.instances.items)) ≤ 100000) }
    ensures refused { IsPreparedOf parsed.now prepared.now → IsWellDeclared parsed.now
        → IfErr result (IsRefusedBy (WellFormed parsed.now)) }
    ensures told { IsPreparedOf parsed.now prepared.now → IsWellDeclared parsed.now
        → IfErr result (Tells (ModuleBreaks parsed.now)) }
{
    let bodies = resolve_bodies(alloc, parsed, prepared)?;
    let instances = make_instances(alloc, prepared)?;
    check_size(alloc, &bodies, &instances, prepared.case.line)?;
    Ok(Behaviours { bodies, instances })
}

fn assemble(prepared: Prepared<'_>, behaviours: Behaviours) -> TestCase
    requires { IsReady (record {
      config = prepared.config;
      types = prepared.types;
      behaviours = map (behaviour_of behaviours.bodies) behaviours.instances.items;
    }) }
    ensures { result ≡ record {
      config = prepared.entry.config;
      types = prepared.entry.types;
      behaviours = map (behaviour_of behaviours.bodies) behaviours.instances.items;
    } }
{
    let Prepared { types, config, .. } = prepared;
    TestCase::new(config, types, behaviours)
}

/// Checks a module, and makes its test case.
///
/// It returns the first fault of the first pass that finds one: a
/// [`ModuleRule`](tp_checks::fault::ModuleRule), at its line. The passes are the three of
/// [`prepare`]; the bodies, [`resolve_bodies`]; and the size, 15 `Limit`, [`check_size`].
pub fn check(alloc: Global, parsed: &Module) -> Result<TestCase, ModuleFault>
    ensures well_formed { OnOk result (WellFormed parsed.now) }
    ensures made { IfOk result (IsTestCaseOf parsed.now) }
    ensures refused { IfErr result (IsRefusedBy (WellFormed parsed.now)) }
    ensures told { IfErr result (Tells (ModuleBreaks parsed.now)) }
{
    // Bodies come last, because their rules rely on what the earlier passes have accepted.
    let prepared = prepare(alloc, parsed)?;
    let behaviours = resolve_behaviours(alloc, parsed, &prepared)?;
    Ok(assemble(prepared, behaviours))
}
