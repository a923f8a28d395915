//! The behaviours of a test case's components.
ghost use Rattle.std.specs.Prelude.{◌≡◌, ◌<◌, ◌≤◌, ◌+◌, [], Some, IfErr, IfNone, IfOk, IfSome, IsSome, OnOk, length};
ghost use Rattle.std.specs.{Prelude.map, Prelude.slice_get, Option.option_copied};
ghost use Rattle.tp_play.specs.declared.instance.WhichBody.TheVariants as which_body;
ghost use Rattle.tp_script.specs.Behaviours.{AreReferences, Numbers};
ghost use Rattle.tp_script.specs.Instances.{AreFew, AreInstances, IsInstance, instance_count};

use std::alloc::Global;
use tp_checks::fault::{ModuleFault, ModuleRule, refused};
use tp_checks::prepared::Prepared;
use tp_checks::starts::{StartedComponent, Starts};
use tp_config::port_type::CompId;
use tp_play::instance::{Instance, WhichBody};

fn add_variables(references: &mut Vec<CompId>, count: u32) -> Result<(), ModuleFault>
    ensures numbers { OnOk result (Numbers count
        (map (λ c. c.0) references.old.items) (map (λ c. c.0) references.new.items)) }
    ensures refused { IfErr result (λ fault. fault ≡ ModuleFault.Memory (record {})) }
{
    for place in 0..count {
        references.push(CompId(place + 1))?;
    }
    Ok(())
}

fn references(
    alloc: Global,
    itself: CompId,
    arguments: &[CompId],
    count: u32,
) -> Result<Vec<CompId>, ModuleFault>
    ensures references { IfOk result (λ made. AreReferences
        itself.0 (map (λ c. c.0) arguments.now) count (map (λ c. c.0) made.items)) }
    ensures refused { IfErr result (λ fault. fault ≡ ModuleFault.Memory (record {})) }
{
    let mut made = Vec::new(alloc);
    // In the order of `find_reference`: `mtc`, `self`, the parameters, the variables.
    made.push(CompId(0))?;
    made.push(itself)?;
    made.extend_from_slice(arguments)?;
    add_variables(&mut made, count)?;
    Ok(made)
}

fn variable_count(prepared: &Prepared) -> Result<u32, ModuleFault>
    ensures count { IfOk result (λ count. count ≡ length prepared.now.variables) }
    ensures refused { IfErr result (λ _. 4294967295 < length prepared.now.variables) }
{
    let count = prepared.variables.len();
    if count > u32::MAX as usize {
        // This never happens: a test case has at most 64 components.
        return Err(refused(ModuleRule::Limit, prepared.case.line));
    }
    Ok(count as u32)
}

fn component_behind(others: usize) -> Option<CompId>
    ensures number { IfSome result (λ comp. comp.0 ≡ others + 1) }
    ensures many { IfNone result (4294967295 ≤ others) }
{
    if others >= u32::MAX as usize {
        return None;
    }
    Some(CompId(others as u32 + 1))
}

fn started_count(starts: &Starts) -> usize
    ensures { result ≡ length starts.now.places.items }
{
    starts.places.as_slice().len()
}

fn start_at(starts: &Starts, place: u32) -> Option<&StartedComponent>
    ensures { option_copied result ≡ slice_get starts.now.starts.items place }
{
    starts.starts.get(place as usize)
}

fn main_instance(alloc: Global, count: u32) -> Result<Instance, ModuleFault>
    ensures which_body { IfOk result (λ instance. instance.which_body ≡ which_body.TestCase) }
    ensures references { IfOk result (λ instance.
        AreReferences 0 [] count (map (λ c. c.0) instance.references.items)) }
    ensures refused { IfErr result (λ fault. fault ≡ ModuleFault.Memory (record {})) }
{
    let references = references(alloc, CompId(0), &[], count)?;
    Ok(Instance {
        which_body: WhichBody::TestCase,
        references,
    })
}

fn started_instance(
    alloc: Global,
    prepared: &Prepared,
    place: usize,
    start: u32,
    count: u32,
) -> Result<Instance, ModuleFault>
    requires count { count ≡ length prepared.now.variables }
    requires start { slice_get prepared.now.starts.places.items place ≡ Some start }
    ensures instance { IfOk result (λ instance.
        IsInstance prepared.now (place + 1) (Some instance)) }
    ensures refused { AreFew prepared.now
        → IfErr result (λ fault. fault ≡ ModuleFault.Memory (record {})) }
{
    let Some(itself) = component_behind(place) else {
        return Err(refused(ModuleRule::Limit, prepared.case.line));
    };
    let Some(started) = start_at(&prepared.starts, start) else {
        // This never happens: each place is that of a start.
        return Err(refused(ModuleRule::NotStarted, prepared.case.line));
    };
    let references = references(alloc, itself, &started.arguments, count)?;
    Ok(Instance {
        which_body: WhichBody::Function(started.function),
        references,
    })
}

fn system_instance(
    alloc: Global,
    prepared: &Prepared,
    count: u32,
) -> Result<Option<Instance>, ModuleFault>
    requires count { count ≡ length prepared.now.variables }
    requires system { IsSome prepared.now.case.case.now.system }
    ensures instance { IfOk result (IsInstance
        prepared.now (length prepared.now.starts.places.items + 1)) }
    ensures refused { AreFew prepared.now
        → IfErr result (λ fault. fault ≡ ModuleFault.Memory (record {})) }
{
    let Some(place) = prepared.sorted.function_names.find("sut") else {
        return Ok(None);
    };
    let Some(itself) = component_behind(started_count(&prepared.starts)) else {
        return Err(refused(ModuleRule::Limit, prepared.case.line));
    };
    let references = references(alloc, itself, &[], count)?;
    Ok(Some(Instance {
        which_body: WhichBody::Function(place),
        references,
    }))
}

fn test_instances(
    alloc: Global,
    prepared: &Prepared,
    count: u32,
) -> Result<Vec<Option<Instance>>, ModuleFault>
    requires { count ≡ length prepared.now.variables }
    ensures instances { IfOk result (λ instances. AreInstances prepared.now instances.items) }
    ensures count { IfOk result (λ instances.
        length instances.items ≡ length prepared.now.starts.places.items + 1) }
    ensures refused { AreFew prepared.now
        → IfErr result (λ fault. fault ≡ ModuleFault.Memory (record {})) }
{
    let mut instances = Vec::new(alloc);
    let main = main_instance(alloc, count)?;
    instances.push(Some(main))?;
    for (place, start) in prepared.starts.places.iter().enumerate() {
        let instance = started_instance(alloc, prepared, place, *start, count)?;
        instances.push(Some(instance))?;
    }
    Ok(instances)
}

/// What each component of a test case does, by its number: `mtc`, the components of the component
/// variables, and the test system interface if there is a `system` clause.
///
/// At the line of the test case: 15 `Limit` if there are more than 4,294,967,295 component
/// variables, or components, and 18 `NotStarted` if a component variable has the place of no start.
pub fn make_instances(
    alloc: Global,
    prepared: &Prepared,
) -> Result<Vec<Option<Instance>>, ModuleFault>
    ensures instances { IfOk result (λ instances. AreInstances prepared.now instances.items) }
    ensures count { IfOk result (λ instances.
        length instances.items ≡ instance_count prepared.now) }
    ensures refused { AreFew prepared.now
        → IfErr result (λ fault. fault ≡ ModuleFault.Memory (record {})) }
{
    let count = variable_count(prepared)?;
    let mut instances = test_instances(alloc, prepared, count)?;
    if prepared.case.case.system.is_some() {
        let instance = system_instance(alloc, prepared, count)?;
        instances.push(instance)?;
    }
    Ok(instances)
}
