//! Small configurations, each refusal by the calls themselves, and refused memory.
use crate::asking::{ConfigCall, Question, answers, carries_out};
use crate::making::{add, at, connect, empty, four, four_again, map, port, port_type, route};
use crate::showing::{display, says};
use indexmap::IndexMap;
use std::process::Abort;
use tp_common::memory::Memory;
use tp_config::config::Config;
use tp_config::connecting::ConnectFault;
use tp_config::creating::CreateFault;
use tp_config::mapping::MapFault;
use tp_config::port_type::{COMPONENT_LIMIT, CompId, CompType, PORT_LIMIT, Role};
use tp_config::routes::RouteFault;
use tp_value::types::Ty;

const STAR: &[(Question, &str)] = &[
    (Question::From(0, 0), "0>1.0 0>2.0 0>3.0 "),
    (Question::Into(0), "1>0.0 2>0.0 3>0.0 "),
    (Question::Into(1), "0>1.0 "),
    (Question::RouteTo(0, 0, 2), "0>2.0 "),
    (Question::Route(1, 0), "1>0.0 "),
    (Question::Count, "4"),
];

/// The components of `four`, with mtc:p connected to a:p, b:p and c:p in this order.
pub fn star<R: AllocGlobal + Abort>(rt: &R) -> Config {
    let mut config = four(rt.alloc()).expect(rt, "memory");
    for name in ["a", "b", "c"] {
        assert_eq!(rt;
            connect(&mut config, ("mtc", "p"), (name, "p")),
            Some(Ok(()))
        );
    }
    config
}

#[test]
fn finds_the_routes_of_a_star(rt: HostRuntime) {
    const MORE: &[(Question, &str)] = &[
        (Question::Route(0, 0), "42"),
        (Question::RouteTo(0, 0, 0), "41"),
        (Question::Route(0, 1), "41"),
        (Question::From(0, 1), ""),
    ];
    let config = star(&rt);
    answers(&rt, &config, STAR);
    answers(&rt, &config, MORE);
    answers(&rt, &config, STAR);
    drop(config);
}

#[test]
fn refusals_leave_a_star_as_it_was(rt: HostRuntime) {
    const CALLS: &[(ConfigCall, u8)] = &[
        (ConfigCall::Connect(("b", "p"), ("mtc", "p")), 27),
        (ConfigCall::Connect(("mtc", "p"), ("c", "q")), 21),
        (ConfigCall::Connect(("c", "q"), ("mtc", "p")), 21),
        (ConfigCall::Create("mtc", 0, Role::Test), 12),
        (ConfigCall::Create("c", 0, Role::Test), 12),
    ];
    let mut config = star(&rt);
    carries_out(&rt, &mut config, CALLS, STAR);
    drop(config);
}

const CONNECTED: &[(Question, &str)] = &[
    (Question::From(0, 0), "0>1.0 "),
    (Question::Route(0, 1), "41"),
    (Question::Into(2), ""),
    (Question::Into(1), "0>1.0 "),
    (Question::Into(3), ""),
];

const MAPPED: &[(Question, &str)] = &[
    (Question::From(0, 0), "0>1.0 "),
    (Question::Route(0, 1), "0>2.0 "),
    (Question::Into(2), "0>2.0 "),
    (Question::Into(1), "0>1.0 "),
    (Question::Into(3), ""),
];

/// The components mtc and a, the test system interface, and b. The last two have type 1, whose port
/// receives and sends these types. mtc:p is connected to a:p.
fn mapped<R: AllocGlobal + Abort>(rt: &R, ins: &[Ty], outs: &[Ty]) -> Config {
    const CALLS: &[(ConfigCall, u8)] = &[
        (ConfigCall::Create("mtc", 0, Role::Test), 0),
        (ConfigCall::Create("a", 0, Role::Test), 0),
        (ConfigCall::Create("system", 1, Role::System), 0),
        (ConfigCall::Create("b", 1, Role::Test), 0),
        (ConfigCall::Connect(("mtc", "p"), ("a", "p")), 0),
    ];
    let mut config = empty(rt.alloc(), ins, outs).expect(rt, "memory");
    carries_out(rt, &mut config, CALLS, &[]);
    config
}

#[test]
fn connects_what_is_allowed(rt: HostRuntime) {
    const REFUSED: &[(ConfigCall, u8)] = &[
        (ConfigCall::Connect(("mtc", "p"), ("a", "q")), 21),
        (ConfigCall::Connect(("mtc", "q"), ("system", "s")), 25),
        (ConfigCall::Connect(("mtc", "q"), ("mtc", "q")), 26),
        (ConfigCall::Connect(("a", "p"), ("mtc", "p")), 27),
    ];
    const CONNECTS: &[(ConfigCall, u8)] = &[
        (ConfigCall::Connect(("mtc", "q"), ("a", "q")), 0),
        (ConfigCall::Connect(("b", "s"), ("b", "s")), 26),
    ];
    const BEHIND: &[(Question, &str)] = &[
        (Question::Route(0, 1), "0>1.1 "),
        (Question::Into(1), "0>1.0 0>1.1 "),
    ];
    let both = [Ty::Integer];
    let mut config = mapped(&rt, both.as_slice(), both.as_slice());
    carries_out(&rt, &mut config, REFUSED, CONNECTED);
    carries_out(&rt, &mut config, CONNECTS, BEHIND);
    drop(config);
}

#[test]
fn maps_what_is_allowed(rt: HostRuntime) {
    const REFUSED: &[(ConfigCall, u8)] = &[
        (ConfigCall::Map(("mtc", "p"), ("system", "s")), 22),
        (ConfigCall::Map(("mtc", "q"), ("a", "q")), 28),
        (ConfigCall::Map(("system", "s"), ("system", "s")), 28),
    ];
    const MAPS: &[(ConfigCall, u8)] = &[
        (ConfigCall::Map(("mtc", "q"), ("system", "s")), 0),
        (ConfigCall::Connect(("mtc", "q"), ("a", "q")), 22),
        (ConfigCall::Map(("system", "s"), ("a", "q")), 23),
        (ConfigCall::Map(("a", "q"), ("system", "s")), 23),
        (ConfigCall::Create("other", 1, Role::System), 12),
    ];
    let both = [Ty::Integer];
    let mut config = mapped(&rt, both.as_slice(), both.as_slice());
    carries_out(&rt, &mut config, REFUSED, CONNECTED);
    carries_out(&rt, &mut config, MAPS, MAPPED);
    drop(config);
}

#[test]
fn connects_and_maps_what_the_other_receives(rt: HostRuntime) {
    const REFUSED: &[(ConfigCall, u8)] = &[
        (ConfigCall::Connect(("mtc", "q"), ("b", "s")), 20),
        (ConfigCall::Connect(("b", "s"), ("mtc", "q")), 20),
    ];
    const MAPS: &[(ConfigCall, u8)] = &[(ConfigCall::Map(("system", "s"), ("mtc", "q")), 0)];
    let mut config = mapped(&rt, &[], &[Ty::Integer]);
    carries_out(&rt, &mut config, REFUSED, CONNECTED);
    carries_out(&rt, &mut config, MAPS, MAPPED);
    drop(config);
}

#[test]
fn maps_nothing_against_the_directions(rt: HostRuntime) {
    const REFUSED: &[(ConfigCall, u8)] = &[
        (ConfigCall::Map(("mtc", "q"), ("system", "s")), 24),
        (ConfigCall::Map(("system", "s"), ("mtc", "q")), 24),
    ];
    let mut config = mapped(&rt, &[Ty::Integer], &[]);
    carries_out(&rt, &mut config, REFUSED, CONNECTED);
    drop(config);
}

#[test]
fn prints_faults(rt: HostRuntime) {
    says(
        &rt,
        0,
        display(&rt, CreateFault::Limit),
        "there are 64 components",
    );
    says(
        &rt,
        1,
        display(&rt, ConnectFault::Already),
        "they are connected",
    );
    says(&rt, 2, display(&rt, MapFault::NotOneToOne), "one is mapped");
    says(
        &rt,
        3,
        display(&rt, RouteFault::NoRoute),
        "there is no route",
    );
    assert_eq!(rt; RouteFault::NoRoute.refusal().label().0, 41);
    assert_eq!(rt; RouteFault::NeedsTo.refusal().label().0, 42);
}

#[test]
fn looks_up_names(rt: HostRuntime) {
    let both = [Ty::Integer];
    let config = mapped(&rt, both.as_slice(), both.as_slice());
    assert_eq!(rt; config.comp_of("system"), Some(CompId(2)));
    assert_eq!(rt; config.comp_of("sys"), None);
    assert_eq!(rt; port(&config, "a", "q"), Some(at(1, 1)));
    assert_eq!(rt; port(&config, "b", "q"), None);
    assert_eq!(rt; config.port_of(CompId(4), "p"), None);
    drop(config);
}

fn is_component<R: Abort>(
    rt: &R,
    config: &Config,
    index: usize,
    wanted: (&str, u32, Role),
    ports: usize,
) {
    assert!(rt; index < config.len());
    let comp = CompId(index as u32);
    assert!(rt; config.name(comp) == wanted.0);
    assert_eq!(rt; config.kind(comp), wanted.1);
    assert_eq!(rt; config.role(comp), wanted.2);
    assert_eq!(rt; config.comp_type(comp).ports.len(), ports);
}

#[test]
fn looks_up_components(rt: HostRuntime) {
    let both = [Ty::Integer];
    let config = mapped(&rt, both.as_slice(), both.as_slice());
    is_component(&rt, &config, 0, ("mtc", 0, Role::Test), 2);
    is_component(&rt, &config, 1, ("a", 0, Role::Test), 2);
    is_component(&rt, &config, 2, ("system", 1, Role::System), 1);
    drop(config);
}

fn full<R: AllocGlobal + Abort>(rt: &R) -> Config {
    let both = [Ty::Integer];
    let mut config = empty(rt.alloc(), both.as_slice(), both.as_slice()).expect(rt, "memory");
    for number in 0..COMPONENT_LIMIT {
        let name = format!(in rt.alloc(); "c{number}").expect(rt, "memory");
        let added = add(rt.alloc(), &mut config, name.as_str(), 0, Role::Test);
        assert!(rt; added == Ok(CompId(number as u32)));
    }
    config
}

#[test]
fn has_64_components_at_most(rt: HostRuntime) {
    let mut config = full(&rt);
    for (name, fault) in [
        ("c64", CreateFault::Limit),
        ("c0", CreateFault::Duplicate),
        ("c63", CreateFault::Duplicate),
    ] {
        assert!(rt; add(rt.alloc(), &mut config, name, 0, Role::Test) == Err(fault));
        assert_eq!(rt; config.len(), COMPONENT_LIMIT);
        assert_eq!(rt; config.comp_of("c64"), None);
    }
    drop(config);
    assert_eq!(rt; CreateFault::Limit.refusal().label().0, 15);
    assert_eq!(rt; CreateFault::Duplicate.refusal().label().0, 12);
}

fn many_ports<R: AllocGlobal + Abort>(rt: &R) -> Config {
    let alloc = rt.alloc();
    let mut ports = IndexMap::new(alloc);
    for number in 0..PORT_LIMIT {
        let name = format!(in alloc; "p{number}").expect(rt, "memory");
        let made = port_type(alloc, &[], &[]).expect(rt, "memory");
        assert!(rt; ports.insert(name, made).is_ok());
    }
    assert!(rt; ports.len() <= PORT_LIMIT);
    let types = Vec::from_array(alloc, [CompType { ports }]).expect(rt, "memory");
    let mut config = Config::new(alloc, types);
    assert!(rt; add(alloc, &mut config, "mtc", 0, Role::Test).is_ok());
    config
}

#[test]
fn has_64_ports_of_a_type(rt: HostRuntime) {
    const CALLS: &[(ConfigCall, u8)] = &[(ConfigCall::Connect(("mtc", "p0"), ("mtc", "p63")), 0)];
    const BEHIND: &[(Question, &str)] = &[(Question::Into(0), "0>0.0 0>0.63 ")];
    let mut config = many_ports(&rt);
    assert_eq!(rt; port(&config, "mtc", "p63"), Some(at(0, 63)));
    assert_eq!(rt; port(&config, "mtc", "p64"), None);
    carries_out(&rt, &mut config, CALLS, BEHIND);
    drop(config);
}

/// Asserts that a refusal to connect mtc:p to the port p of this component is for memory and leaves
/// the routes as before, and that the same call then connects them.
fn connects_in_the_end<R: Abort>(rt: &R, config: &mut Config, name: &str, comp: u32) {
    let before = config.route(at(0, 0), None);
    match connect(config, ("mtc", "p"), (name, "p")) {
        Some(Ok(())) => {}
        answer => {
            assert_eq!(rt; answer, Some(Err(ConnectFault::Memory)));
            assert_eq!(rt; config.route(at(0, 0), None), before);
            assert_eq!(rt; config.route(at(comp, 0), None), Err(RouteFault::NoRoute));
            assert_eq!(rt; connect(config, ("mtc", "p"), (name, "p")), Some(Ok(())));
        }
    }
}

fn leaves_by_three_routes<R: Abort>(rt: &R, config: &Config) {
    let routes = match config.routes_from(at(0, 0)) {
        Ok(routes) => routes,
        Err(Memory) => config.routes_from(at(0, 0)).expect(rt, "memory"),
    };
    assert_eq!(rt;
        routes.as_slice(),
        [route(0, 1, 0), route(0, 2, 0), route(0, 3, 0)].as_slice()
    );
}

fn comes_by_three_routes<R: Abort>(rt: &R, config: &Config) {
    let routes = match config.routes_into(CompId(0)) {
        Ok(routes) => routes,
        Err(Memory) => config.routes_into(CompId(0)).expect(rt, "memory"),
    };
    assert_eq!(rt;
        routes.as_slice(),
        [route(1, 0, 0), route(2, 0, 0), route(3, 0, 0)].as_slice()
    );
}

fn connects_each_in_the_end<R: Abort>(rt: &R, config: &mut Config) {
    for (name, comp) in [("a", 1), ("b", 2), ("c", 3)] {
        connects_in_the_end(rt, config, name, comp);
    }
}

#[test]
fn refused_memory_leaves_connections_as_they_were(rt: HostRuntime) {
    let mut config = four_again(&rt);
    connects_each_in_the_end(&rt, &mut config);
    for _ in 0..2 {
        leaves_by_three_routes(&rt, &config);
        comes_by_three_routes(&rt, &config);
    }
    drop(config);
}

fn empty_again<R: AllocGlobal + Abort>(rt: &R) -> Config {
    let both = [Ty::Integer];
    match empty(rt.alloc(), both.as_slice(), both.as_slice()) {
        Ok(config) => config,
        Err(Memory) => empty(rt.alloc(), both.as_slice(), both.as_slice()).expect(rt, "memory"),
    }
}

/// Asserts that a refusal to create this component is for memory and leaves it out, and that the
/// same call then creates it with this number.
fn creates_in_the_end<R: AllocGlobal + Abort>(
    rt: &R,
    config: &mut Config,
    name: &str,
    number: usize,
) {
    match add(rt.alloc(), config, name, 0, Role::Test) {
        Ok(comp) => assert_eq!(rt; comp.0 as usize, number),
        Err(fault) => {
            assert!(rt; fault == CreateFault::Memory);
            assert_eq!(rt; config.len(), number);
            assert!(rt; config.comp_of(name).is_none());
            assert!(rt; add(rt.alloc(), config, name, 0, Role::Test).is_ok());
        }
    }
    assert_eq!(rt; config.len(), number + 1);
    assert!(rt; config.comp_of("mtc") == Some(CompId(0)));
    assert!(rt; config.comp_of(name) == Some(CompId(number as u32)));
}

#[test]
fn refused_memory_leaves_components_as_they_were(rt: HostRuntime) {
    let mut config = empty_again(&rt);
    for (number, name) in ["mtc", "a", "b", "c", "d"].into_iter().enumerate() {
        creates_in_the_end(&rt, &mut config, name, number);
    }
    drop(config);
}

/// Maps mtc:q to system:s. If an allocation is refused, nothing is mapped, and the same call then
/// maps them.
fn maps_in_the_end<R: Abort>(rt: &R, config: &mut Config) {
    let answer = map(config, ("mtc", "q"), ("system", "s"));
    if answer != Some(Ok(())) {
        assert!(rt; answer == Some(Err(MapFault::Memory)));
        assert!(rt; config.route(at(0, 1), None) == Err(RouteFault::NoRoute));
        assert!(rt; config.route(at(1, 0), None) == Err(RouteFault::NoRoute));
        assert!(rt; map(config, ("mtc", "q"), ("system", "s")) == Some(Ok(())));
    }
    assert!(rt; config.route(at(0, 1), None) == Ok(route(0, 1, 0)));
    assert!(rt; config.route(at(1, 0), None) == Ok(route(1, 0, 1)));
}

#[test]
fn refused_memory_leaves_mappings_as_they_were(rt: HostRuntime) {
    let mut config = empty_again(&rt);
    for (name, kind, role) in [("mtc", 0, Role::Test), ("system", 1, Role::System)] {
        if add(rt.alloc(), &mut config, name, kind, role).is_err() {
            assert!(rt; add(rt.alloc(), &mut config, name, kind, role).is_ok());
        }
    }
    maps_in_the_end(&rt, &mut config);
    drop(config);
}
