//! Refusals of a configuration, reported at a line of the script.
ghost use Rattle.std.specs.Prelude.{◌≡◌};
ghost use Rattle.tp_checks.specs.Told.{IsAtLine, fault_refusal};
ghost use Rattle.tp_config.specs.Faults.{connect_refusal, create_refusal, map_refusal};

use crate::fault::{ModuleFault, ModuleRule, refused};
use tp_common::memory::Memory;
use tp_config::connecting::ConnectFault;
use tp_config::creating::CreateFault;
use tp_config::mapping::MapFault;

pub(crate) fn create_fault_at(fault: CreateFault, line: u32) -> ModuleFault
    ensures told { fault_refusal result ≡ create_refusal fault }
    ensures duplicate { fault ≡ CreateFault.Duplicate
        → result ≡ ModuleFault.Refused ModuleRule.Duplicate line }
    ensures limit { fault ≡ CreateFault.Limit → result ≡ ModuleFault.Refused ModuleRule.Limit line }
    ensures memory { fault ≡ CreateFault.Memory → result ≡ ModuleFault.Memory (record {}) }
    ensures line { IsAtLine line result }
{
    match fault {
        CreateFault::Duplicate => refused(ModuleRule::Duplicate, line),
        CreateFault::Limit => refused(ModuleRule::Limit, line),
        CreateFault::Memory => ModuleFault::Memory(Memory),
    }
}

pub(crate) fn connect_fault_at(fault: ConnectFault, line: u32) -> ModuleFault
    ensures told { fault_refusal result ≡ connect_refusal fault }
    ensures line { IsAtLine line result }
{
    match fault {
        ConnectFault::SystemPort => refused(ModuleRule::SystemPort, line),
        ConnectFault::SamePort => refused(ModuleRule::SamePort, line),
        ConnectFault::Already => refused(ModuleRule::Already, line),
        ConnectFault::Mixed => refused(ModuleRule::Mixed, line),
        ConnectFault::TwoPortsOfOne => refused(ModuleRule::TwoPortsOfOne, line),
        ConnectFault::Directions => refused(ModuleRule::Directions, line),
        ConnectFault::Memory => ModuleFault::Memory(Memory),
    }
}

pub(crate) fn map_fault_at(fault: MapFault, line: u32) -> ModuleFault
    ensures told { fault_refusal result ≡ map_refusal fault }
    ensures line { IsAtLine line result }
{
    match fault {
        MapFault::NotSystem => refused(ModuleRule::NotSystem, line),
        MapFault::Mixed => refused(ModuleRule::Mixed, line),
        MapFault::NotOneToOne => refused(ModuleRule::NotOneToOne, line),
        MapFault::MapDirections => refused(ModuleRule::MapDirections, line),
        MapFault::Memory => ModuleFault::Memory(Memory),
    }
}
