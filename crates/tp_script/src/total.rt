//! The fifth pass of the checks: the number of statements.
ghost use Rattle.std.specs.Prelude.{◌≡◌, ◌<◌, ◌≤◌, IfErr, IfOk, OnOk, map, sum};
ghost use Rattle.std.specs.List.{slice_index_or};
ghost use Rattle.tp_checks.specs.Refused.{IsRefusedBy, TellsAt};
ghost use Rattle.tp_play.specs.{Sizes.capped, Sizes.size_of_body, Behaviours.size_of_behaviour, Instances.behaviour_of};
ghost use Rattle.tp_script.specs.Instances.{size_of_instance};

use std::alloc::Global;
use tp_checks::fault::{ModuleFault, ModuleRule, refused};
use tp_checks::size::{SIZE_CEILING, cap, count_body};
use tp_play::bodies::Bodies;
use tp_play::body::Body;
use tp_play::instance::{Instance, WhichBody};

fn count_bodies(alloc: Global, bodies: &[Body]) -> Result<Vec<u64>, ModuleFault>
    ensures sizes { IfOk result (λ sizes.
        sizes.items ≡ map (λ b. capped (size_of_body b)) bodies.now) }
    ensures refused { IfErr result (λ fault. fault ≡ ModuleFault.Memory (record {})) }
{
    let mut sizes = Vec::new(alloc);
    for body in bodies {
        sizes.push(count_body(body))?;
    }
    Ok(sizes)
}

fn size_at(sizes: &[u64], place: u32) -> u64
    ensures { result ≡ slice_index_or sizes.now place 0 }
{
    match sizes.get(place as usize) {
        Some(size) => *size,
        // Each instance has a body; the 0 spares a condition.
        None => 0,
    }
}

fn instance_size(main: u64, functions: &[u64], instance: &Option<Instance>) -> u64
    ensures { result ≡ size_of_instance main functions.now instance.now }
{
    let Some(instance) = instance else {
        return 0;
    };
    match instance.which_body {
        WhichBody::TestCase => main,
        WhichBody::Function(place) => size_at(functions, place),
    }
}

fn count_instances(main: u64, functions: &[u64], instances: &[Option<Instance>]) -> u64
    ensures { result ≡ capped (sum (map (size_of_instance main functions.now) instances.now)) }
{
    let mut sum = 0;
    for instance in instances {
        sum = cap(sum + cap(instance_size(main, functions, instance)));
    }
    sum
}

/// 15 `Limit` at the line if all components together have more than 100,000 statements to execute.
/// A `for` counts as a copy of its block for each turn. The size of each body is worked out once,
/// however many components have it.
pub fn check_size(
    alloc: Global,
    bodies: &Bodies,
    instances: &[Option<Instance>],
    line: u32,
) -> Result<(), ModuleFault>
    ensures few { OnOk result (
        sum (map size_of_behaviour (map (behaviour_of bodies.now) instances.now)) ≤ 100000) }
    ensures refused { IfErr result (IsRefusedBy (
        sum (map size_of_behaviour (map (behaviour_of bodies.now) instances.now)) ≤ 100000)) }
    ensures told { IfErr result (TellsAt line (λ rule. (rule ≡ ModuleRule.Limit) × (100000
        < sum (map size_of_behaviour (map (behaviour_of bodies.now) instances.now))))) }
{
    let main = count_body(&bodies.main);
    let functions = count_bodies(alloc, &bodies.functions)?;
    if count_instances(main, &functions, instances) >= SIZE_CEILING {
        return Err(refused(ModuleRule::Limit, line));
    }
    Ok(())
}
