//! The configuration of a test.
ghost use Rattle.std.specs.Prelude.{◌≡◌, ◌<◌, ◌≤◌, ◌↔◌, All, Contains, IfErr, IfOk, IfSome, IsSome, MatchResult, OnOk};
ghost use Rattle.std.specs.Prelude.{Some, length, map, option_map, slice_get, string_bytes};
ghost use Rattle.tp_config.specs.Setup.{IsComponent, IsPort, connecting, creating, empty_setup, mapping};
ghost use Rattle.tp_config.specs.Setup.{names_of_components, port_names, ports_at};
ghost use Rattle.tp_config.specs.Shape.{member, ports_of};
ghost use Rattle.tp_config.specs.Allowed.{CanConnect, CanMap, IsSetup};
ghost use Rattle.tp_config.specs.Causes.{CanCreate, ConnectRefused, CreateRefused, MapRefused};
ghost use Rattle.tp_config.specs.Routes.{AreDistinctRoutes, AreRoutesInto, IsRoute, RouteCause, SendersAreDetermined};
ghost use Rattle.tp_config.specs.Routes.{routes_from, routes_into};

use crate::component::{Component, beside, join_ports, port_count, type_in};
use crate::connecting::{ConnectFault, connect_fault};
use crate::creating::{CreateFault, component_place, create_fault};
use crate::links::Links;
use crate::mapping::{MapFault, map_fault};
use crate::port_type::{CompId, CompType, PortRef, Role, RouteId};
use crate::routes::{RouteFault, choose_route, routes_in, routes_out};
use std::alloc::Global;
use std::marker::Model;
use tp_common::memory::Memory;

/// The components of a test, and which of their ports are connected and mapped (ES 201 873-1, 9.1,
/// 21.1, 21.3.1). Contracts see the component types, the components, and the pairs in the order of
/// their statements; a pair itself has no order.
///
/// The configuration is always allowed: no port is connected with two ports of one component, a
/// port has at most one mapping, no mapped port is connected, a connected port receives what its
/// partner sends, and mapped ports fit together. No pair occurs twice, no two components have the
/// same name, and at most one is the test system interface.
pub struct Config {
    types: Vec<CompType>,
    components: Vec<Component>,
    /// The connected pairs, in the order of their statements, for contracts. No call searches them:
    /// it finds the partners of a port in the port's component.
    connected: Vec<(PortRef, PortRef)>,
    mapped: Vec<(PortRef, PortRef)>,
    alloc: Global,
}

impl Drop for Config {
    // Written out, so that an owner's drop calls this one, and needs no proof about the fields.
    fn drop(self) {
        let Config {
            types: component_types,
            components,
            connected,
            mapped,
            alloc: _,
        } = self;
        drop((component_types, components, connected, mapped));
    }
}

impl Model for Config {
    ghost use Rattle.std.specs.Prelude.{map};
    ghost use Rattle.tp_config.specs.Setup.{Setup};

    ghost Value = { Setup };

    ghost use Rattle.tp_config.specs.Shape.{links_of, setup_of};
    ghost use Rattle.tp_config.specs.Kept.{KeepsPairs};

    ghost view = { λ c.
        setup_of c.types.items c.components.items c.connected.items c.mapped.items };

    ghost invariant = { λ c. KeepsPairs
        (setup_of c.types.items c.components.items c.connected.items c.mapped.items)
        (map links_of c.components.items) };
}

impl Config {
    /// A configuration with these component types, numbered from 0, without components and pairs.
    /// Later calls allocate from `alloc`. Each type has at most 64 ports.
    pub fn new(alloc: Global, types: Vec<CompType>) -> Config
        requires { All (λ t. length t.ports.entries ≤ 64) types.items }
        ensures empty { result ≡ empty_setup (map ports_of types.items) }
        ensures lawful { IsSetup result }
    {
        Config {
            types,
            components: Vec::new(alloc),
            connected: Vec::new(alloc),
            mapped: Vec::new(alloc),
            alloc,
        }
    }

    /// The component types given to [`Config::new`].
    pub fn types(&self) -> &[CompType]
        ensures { map ports_of result.now ≡ self.now.types }
    {
        self.types.as_slice()
    }

    /// The number of components, at most 64.
    pub fn len(&self) -> usize
        ensures count { result ≡ length self.now.components }
        ensures lawful { IsSetup self.now }
    {
        self.components.len()
    }

    /// The name of a component of this configuration.
    pub fn name(&self, comp: CompId) -> &str
        requires { IsComponent self.now comp }
        ensures { slice_get (names_of_components self.now) comp.0 ≡ Some result.now }
    {
        self.components[comp.0 as usize].name.as_str()
    }

    /// The role of a component of this configuration.
    pub fn role(&self, comp: CompId) -> Role
        requires { IsComponent self.now comp }
        ensures { option_map (λ m. m.role) (slice_get self.now.components comp.0) ≡ Some result }
    {
        self.components[comp.0 as usize].role
    }

    /// The number, from 0, of the type of a component of this configuration.
    pub fn kind(&self, comp: CompId) -> u32
        requires { IsComponent self.now comp }
        ensures { option_map (λ m. m.kind) (slice_get self.now.components comp.0) ≡ Some result }
    {
        self.components[comp.0 as usize].kind
    }

    /// The type of a component of this configuration: its ports in declared order.
    pub fn comp_type(&self, comp: CompId) -> &CompType
        requires { IsComponent self.now comp }
        ensures { ports_of result.now ≡ ports_at self.now.types self.now.components comp }
    {
        let kind = self.components[comp.0 as usize].kind;
        &self.types[kind as usize]
    }

    /// The number of ports of a component, or 0 if there is no such component.
    pub fn port_count(&self, comp: CompId) -> usize
        ensures { result ≡ length (ports_at self.now.types self.now.components comp) }
    {
        port_count(self.types.as_slice(), self.components.as_slice(), comp)
    }

    /// Creates a component with this name and the component type of this number, from 0 (21.3.1).
    /// Returns the component's number, which is the number of components before.
    ///
    /// 12 `Duplicate` if and only if a component has the name, or if it would be a second test
    /// system interface; else 15 `Limit` if and only if there are 64 components. The configuration
    /// is then as before.
    pub fn create(&mut self, name: String, kind: u32, role: Role) -> Result<CompId, CreateFault>
        requires { kind < length self.old.types }
        ensures number { IfOk result (λ comp. comp.0 ≡ length self.old.components) }
        ensures ok { let m = member (string_bytes name) kind role in
            OnOk result (CanCreate self.old m × (self.new ≡ creating self.old m)) }
        ensures err { let m = member (string_bytes name) kind role in
            IfErr result (λ fault. (self.new ≡ self.old) × CreateRefused self.old m fault) }
        ensures lawful { IsSetup self.new }
    {
        // The causes are checked before any allocation, so that 50 never takes precedence over one.
        if let Some(fault) = create_fault(self.components.as_slice(), name.as_str(), role) {
            return Err(fault);
        }
        let count = self.types[kind as usize].ports.len();
        let Ok(links) = Links::new(self.alloc, count) else {
            return Err(CreateFault::Memory);
        };
        let comp = CompId(self.components.len() as u32);
        let component = Component {
            name,
            kind,
            role,
            links,
        };
        let Ok(()) = self.components.push(component) else {
            return Err(CreateFault::Memory);
        };
        Ok(comp)
    }

    /// The component with this name, or `None` if there is none.
    pub fn comp_of(&self, name: &str) -> Option<CompId>
        ensures there { IfSome result (λ comp.
            slice_get (names_of_components self.now) comp.0 ≡ Some name.now) }
        ensures known { IsSome result ↔ Contains (names_of_components self.now) name.now }
    {
        match component_place(self.components.as_slice(), name) {
            Some(place) => Some(CompId(place as u32)),
            None => None,
        }
    }

    /// The component's port with this name, or `None` if there is no such port or component.
    pub fn port_of(&self, comp: CompId, name: &str) -> Option<PortRef>
        ensures there { IfSome result (λ p. (p.comp ≡ comp)
            × (slice_get (port_names self.now comp) p.port ≡ Some name.now)) }
        ensures port { IfSome result (λ p. IsPort self.now p) }
        ensures known { IsSome result ↔ Contains (port_names self.now comp) name.now }
    {
        let comp_type = type_in(self.types.as_slice(), self.components.as_slice(), comp)?;
        match comp_type.ports.get_index_of(name) {
            Some(place) => Some(PortRef {
                comp,
                port: place as u32,
            }),
            None => None,
        }
    }

    /// Connects two ports of this configuration, in either order (21.1.1).
    ///
    /// It returns the first of these causes that holds: 25 `SystemPort`, 26 `SamePort`, 27
    /// `Already`, 22 `Mixed`, 21 `TwoPortsOfOne`, 20 `Directions`. The configuration is then as
    /// before. It looks only at the partners of the two ports.
    pub fn connect(&mut self, p: PortRef, q: PortRef) -> Result<(), ConnectFault>
        requires p_in { IsPort self.old p }
        requires q_in { IsPort self.old q }
        ensures ok { OnOk result (CanConnect self.old p q × (self.new ≡ connecting self.old p q)) }
        ensures err { IfErr result (λ fault.
            (self.new ≡ self.old) × ConnectRefused self.old p q fault) }
        ensures lawful { IsSetup self.new }
    {
        let types = self.types.as_slice();
        let components = self.components.as_slice();
        // Before any allocation, as in `create`.
        if let Some(fault) = connect_fault(types, components, p, q) {
            return Err(fault);
        }
        let Ok(()) = join_ports(self.alloc, &mut self.components, &mut self.connected, p, q) else {
            return Err(ConnectFault::Memory);
        };
        Ok(())
    }

    /// Maps two ports of this configuration, in either order (21.1.1). One of them is a port of the
    /// test system interface.
    ///
    /// It returns the first of these causes that holds: 28 `NotSystem`, 22 `Mixed`, 23
    /// `NotOneToOne`, 24 `MapDirections`. The configuration is then as before. It looks only at the
    /// partners of the two ports.
    pub fn map(&mut self, p: PortRef, q: PortRef) -> Result<(), MapFault>
        requires p_in { IsPort self.old p }
        requires q_in { IsPort self.old q }
        ensures ok { OnOk result (CanMap self.old p q × (self.new ≡ mapping self.old p q)) }
        ensures err { IfErr result (λ fault.
            (self.new ≡ self.old) × MapRefused self.old p q fault) }
        ensures lawful { IsSetup self.new }
    {
        let types = self.types.as_slice();
        let components = self.components.as_slice();
        // Before any allocation, as in `create`.
        if let Some(fault) = map_fault(types, components, p, q) {
            return Err(fault);
        }
        let Ok(()) = join_ports(self.alloc, &mut self.components, &mut self.mapped, p, q) else {
            return Err(MapFault::Memory);
        };
        Ok(())
    }

    /// The routes from a port, in the order of the connecting statements. No two of them are equal,
    /// and none of them is a route from another port. A port that doesn't exist has none.
    pub fn routes_from(&self, p: PortRef) -> Result<Vec<RouteId>, Memory>
        ensures routes { IfOk result (λ v. v.items ≡ routes_from self.now p) }
        ensures distinct { AreDistinctRoutes (routes_from self.now p) }
        ensures senders { SendersAreDetermined self.now }
    {
        routes_out(self.alloc, p, beside(self.components.as_slice(), p))
    }

    /// The routes into a component, sorted by receiving port, and then in the order of the
    /// connecting statements. No two of them are equal. They are all routes from any port to a port
    /// of the component. A component that doesn't exist has none.
    pub fn routes_into(&self, comp: CompId) -> Result<Vec<RouteId>, Memory>
        ensures routes { IfOk result (λ v. v.items ≡ routes_into self.now comp) }
        ensures distinct { AreDistinctRoutes (routes_into self.now comp) }
        ensures both_ways { AreRoutesInto self.now comp (routes_into self.now comp) }
    {
        routes_in(
            self.alloc,
            self.components.as_slice(),
            comp,
            self.port_count(comp),
        )
    }

    /// The route of a send at the port (22.2.1): the only route from it, or the one to the
    /// component `to`, if that is named. It looks only at the routes of this port.
    ///
    /// 41 `NoRoute` if and only if there is no route, or none to the component named; 42 `NeedsTo`
    /// if and only if there are several and no component is named.
    pub fn route(&self, p: PortRef, to: Option<CompId>) -> Result<RouteId, RouteFault>
        ensures route { MatchResult result
            (λ r. IsRoute self.now p to r)
            (λ fault. RouteCause self.now p to fault) }
        ensures source { IfOk result (λ r. r.source ≡ p.comp) }
        ensures among { IfOk result (Contains (routes_from self.now p)) }
    {
        choose_route(p, beside(self.components.as_slice(), p), to)
    }
}
