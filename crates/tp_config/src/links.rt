//! The partners of each port of one component.
ghost use Rattle.std.specs.Prelude.{◌≡◌, ◌<◌, [], length, replicate, IfOk};
ghost use Rattle.std.specs.List.{slice_index_or, slice_set};

use crate::port_type::PortRef;
use std::alloc::Global;
use std::marker::Model;
use tp_common::memory::Memory;
use tp_value::items::Items;

/// For each port of a component, in declared order, the ports that it is connected or mapped with,
/// in the order of the statements. So the calls that look for a route, or for a reason against a
/// pair, don't search the pairs of other ports.
#[derive(Drop)]
pub(crate) struct Links {
    ports: Vec<Items<PortRef>>,
}

impl Model for Links {
    ghost use Rattle.std.specs.Prelude.{List};
    ghost use Rattle.tp_config.specs.declared.port_type.PortRef.{PortRef};

    ghost Value = { List (List PortRef) };

    ghost view = { λ l. l.ports.items };
}

impl Links {
    pub(crate) fn new(alloc: Global, count: usize) -> Result<Links, Memory>
        ensures { IfOk result (λ links. links ≡ replicate count []) }
    {
        let mut ports = Vec::new(alloc);
        for _ in 0..count {
            ports.push(Items::new(alloc))?;
        }
        Ok(Links { ports })
    }

    pub(crate) fn at(&self, port: u32) -> &[PortRef]
        ensures { result.now ≡ slice_index_or self.now port [] }
    {
        match self.ports.get(port as usize) {
            Some(beside) => beside.as_slice(),
            None => &[],
        }
    }

    pub(crate) fn set_partners(&mut self, port: u32, beside: Items<PortRef>)
        requires { port < length self.old }
        ensures { self.new ≡ slice_set self.old port beside }
    {
        self.ports[port as usize] = beside;
    }
}
