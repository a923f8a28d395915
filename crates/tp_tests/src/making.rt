//! Makes configurations, and connects and maps their ports by names.
ghost use Rattle.std.specs.Prelude.{◌≤◌, IfOk, IfSome, length};
ghost use Rattle.tp_config.specs.Setup.{IsPort};

use indexmap::IndexMap;
use std::alloc::Global;
use std::process::Abort;
use tp_common::memory::Memory;
use tp_config::config::Config;
use tp_config::connecting::ConnectFault;
use tp_config::creating::CreateFault;
use tp_config::mapping::MapFault;
use tp_config::port_type::{CompId, CompType, PORT_LIMIT, PortRef, PortType, Role, RouteId};
use tp_config::type_list::TypeList;
use tp_value::items::Items;
use tp_value::types::Ty;

pub fn port_type(alloc: Global, ins: &[Ty], outs: &[Ty]) -> Result<PortType, Memory> {
    let ins = TypeList::from_items(alloc, Items::from_slice(alloc, ins)?)?;
    let outs = TypeList::from_items(alloc, Items::from_slice(alloc, outs)?)?;
    Ok(PortType { ins, outs })
}

fn add_ports(
    alloc: Global,
    ports: &mut IndexMap<String, PortType>,
    names: &[&str],
    ins: &[Ty],
    outs: &[Ty],
) -> Result<(), Memory> {
    for name in names {
        let name = String::from_str(alloc, *name)?;
        ports.insert(name, port_type(alloc, ins, outs)?)?;
    }
    Ok(())
}

fn comp_type(alloc: Global, names: &[&str], ins: &[Ty], outs: &[Ty]) -> Result<CompType, Memory>
    ensures { IfOk result (λ t. length t.ports.entries ≤ PORT_LIMIT) }
{
    let mut ports = IndexMap::new(alloc);
    let added = add_ports(alloc, &mut ports, names, ins, outs);
    if added.is_ok() && ports.len() <= PORT_LIMIT {
        return Ok(CompType { ports });
    }
    drop(ports);
    Err(Memory)
}

/// No component. Type 0 has the ports p and q, which receive and send integers. Type 1 has the port
/// s, which receives and sends these types.
pub fn empty(alloc: Global, ins: &[Ty], outs: &[Ty]) -> Result<Config, Memory> {
    let both = [Ty::Integer];
    let both = both.as_slice();
    let first = comp_type(alloc, ["p", "q"].as_slice(), both, both)?;
    let second = match comp_type(alloc, ["s"].as_slice(), ins, outs) {
        Ok(second) => second,
        Err(Memory) => {
            drop(first);
            return Err(Memory);
        }
    };
    let types = Vec::from_array(alloc, [first, second])?;
    Ok(Config::new(alloc, types))
}

pub fn add(
    alloc: Global,
    config: &mut Config,
    name: &str,
    kind: u32,
    role: Role,
) -> Result<CompId, CreateFault> {
    let Ok(name) = String::from_str(alloc, name) else {
        return Err(CreateFault::Memory);
    };
    if kind as usize >= config.types().len() {
        return Err(CreateFault::Memory);
    }
    config.create(name, kind, role)
}

pub fn port(config: &Config, comp: &str, port: &str) -> Option<PortRef>
    ensures { IfSome result (λ p. IsPort config.now p) }
{
    let comp = config.comp_of(comp)?;
    config.port_of(comp, port)
}

pub fn connect(
    config: &mut Config,
    p: (&str, &str),
    q: (&str, &str),
) -> Option<Result<(), ConnectFault>> {
    let p = port(config, p.0, p.1)?;
    let q = port(config, q.0, q.1)?;
    Some(config.connect(p, q))
}

pub fn map(config: &mut Config, p: (&str, &str), q: (&str, &str)) -> Option<Result<(), MapFault>> {
    let p = port(config, p.0, p.1)?;
    let q = port(config, q.0, q.1)?;
    Some(config.map(p, q))
}

fn add_each(alloc: Global, config: &mut Config, names: &[&str]) -> Result<(), CreateFault> {
    for name in names {
        add(alloc, config, *name, 0, Role::Test)?;
    }
    Ok(())
}

/// The components mtc, a, b and c of type 0, without connections.
pub fn four(alloc: Global) -> Result<Config, CreateFault> {
    let both = [Ty::Integer];
    let Ok(mut config) = empty(alloc, both.as_slice(), both.as_slice()) else {
        return Err(CreateFault::Memory);
    };
    match add_each(alloc, &mut config, ["mtc", "a", "b", "c"].as_slice()) {
        Ok(()) => Ok(config),
        Err(fault) => {
            drop(config);
            Err(fault)
        }
    }
}

pub fn four_again<R: AllocGlobal + Abort>(rt: &R) -> Config {
    match four(rt.alloc()) {
        Ok(config) => config,
        Err(_) => four(rt.alloc()).expect(rt, "memory"),
    }
}

pub fn at(comp: u32, port: u32) -> PortRef {
    PortRef {
        comp: CompId(comp),
        port,
    }
}

pub fn route(source: u32, comp: u32, port: u32) -> RouteId {
    RouteId {
        source: CompId(source),
        to: at(comp, port),
    }
}
