//! The components of the evening, and the orders that they exchange.
ghost use Rattle.std.specs.Prelude.{◌≤◌, IfOk, length};

use indexmap::IndexMap;
use std::alloc::Global;
use tp_common::memory::Memory;
use tp_config::config::Config;
use tp_config::port_type::{CompType, PORT_LIMIT, PortType, Role};
use tp_config::type_list::TypeList;
use tp_inbox::stamped::Stamped;
use tp_value::items::Items;
use tp_value::message::Message;
use tp_value::types::Ty;
use tp_value::value::Value;

/// The order of this number. Its stamp is the number without its sign, if that has 32 bits.
pub fn order(number: i64) -> Stamped {
    Stamped {
        stamp: u32::try_from(number.unsigned_abs()).unwrap_or(u32::MAX),
        message: Message {
            ty: Ty::Integer,
            value: Value::Int(number),
        },
    }
}

/// A port that sends and receives integers, by its name.
fn add_port(
    alloc: Global,
    ports: &mut IndexMap<String, PortType>,
    name: &str,
) -> Result<(), Memory> {
    let integer = [Ty::Integer];
    let ins = TypeList::from_items(alloc, Items::from_slice(alloc, integer.as_slice())?)?;
    let outs = ins.share()?;
    ports.insert(String::from_str(alloc, name)?, PortType { ins, outs })?;
    Ok(())
}

/// A component type with the port `p`.
fn with_port(alloc: Global) -> Result<CompType, Memory>
    ensures { IfOk result (λ t. length t.ports.entries ≤ PORT_LIMIT) }
{
    let mut ports = IndexMap::new(alloc);
    if add_port(alloc, &mut ports, "p").is_ok() && ports.len() <= PORT_LIMIT {
        return Ok(CompType { ports });
    }
    Err(Memory)
}

/// Adds a guest, whose port is connected to that of the counter.
fn add_guest(alloc: Global, config: &mut Config, name: &str) -> Option<()> {
    if config.types().is_empty() {
        return None;
    }
    let guest = config
        .create(String::from_str(alloc, name).ok()?, 0, Role::Test)
        .ok()?;
    let p = config.port_of(guest, "p")?;
    let q = config.port_of(config.comp_of("counter")?, "p")?;
    config.connect(p, q).ok()
}

/// The counter and two guests. Nothing if memory runs out.
pub fn room(alloc: Global) -> Option<Config> {
    let types = Vec::from_array(alloc, [with_port(alloc).ok()?]).ok()?;
    let mut config = Config::new(alloc, types);
    if config.types().is_empty() {
        return None;
    }
    config
        .create(String::from_str(alloc, "counter").ok()?, 0, Role::Test)
        .ok()?;
    add_guest(alloc, &mut config, "anna")?;
    add_guest(alloc, &mut config, "ben")?;
    Some(config)
}
