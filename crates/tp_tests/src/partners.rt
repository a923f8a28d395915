//! A port that is connected with the maximum number of others, and its routes.
use crate::asking::{ConfigCall, Question, answers, carries_out};
use crate::making::{add, at, connect, empty, route};
use std::process::Abort;
use tp_config::config::Config;
use tp_config::port_type::{COMPONENT_LIMIT, CompId, Role, RouteId};
use tp_value::types::Ty;

fn add_partner<R: AllocGlobal + Abort>(rt: &R, config: &mut Config, number: usize) {
    let name = format!(in rt.alloc(); "c{number}").expect(rt, "memory");
    assert!(rt; add(rt.alloc(), config, name.as_str(), 0, Role::Test).is_ok());
    assert!(rt; connect(config, ("mtc", "p"), (name.as_str(), "p")) == Some(Ok(())));
}

/// The components mtc and c1 to c63 of type 0, with mtc:p connected to the port p of each of the
/// others.
fn large_star<R: AllocGlobal + Abort>(rt: &R) -> Config {
    let both = [Ty::Integer];
    let mut config = empty(rt.alloc(), both.as_slice(), both.as_slice()).expect(rt, "memory");
    assert!(rt; add(rt.alloc(), &mut config, "mtc", 0, Role::Test).is_ok());
    for number in 1..COMPONENT_LIMIT {
        add_partner(rt, &mut config, number);
    }
    config
}

fn has_partner<R: AllocGlobal + Abort>(rt: &R, config: &Config, comp: u32) {
    assert!(rt; config.route(at(0, 0), Some(CompId(comp))) == Ok(route(0, comp, 0)));
    assert!(rt; config.route(at(comp, 0), None) == Ok(route(comp, 0, 0)));
    let into = config.routes_into(CompId(comp)).expect(rt, "memory");
    assert_eq!(rt; into.as_slice(), [route(0, comp, 0)].as_slice());
}

fn are_routes_of_each<R: Abort>(rt: &R, routes: &[RouteId], to_mtc: bool) {
    assert_eq!(rt; routes.len(), 63);
    for (found, comp) in routes.iter().zip(1..64u32) {
        let wanted = if to_mtc {
            route(comp, 0, 0)
        } else {
            route(0, comp, 0)
        };
        assert_eq!(rt; *found, wanted);
    }
}

#[test]
fn finds_the_routes_of_63_partners(rt: HostRuntime) {
    let config = large_star(&rt);
    for comp in 1..64u32 {
        has_partner(&rt, &config, comp);
    }
    let from = config.routes_from(at(0, 0)).expect(&rt, "memory");
    are_routes_of_each(&rt, from.as_slice(), false);
    let into = config.routes_into(CompId(0)).expect(&rt, "memory");
    are_routes_of_each(&rt, into.as_slice(), true);
    answers(&rt, &config, &[(Question::Route(0, 0), "42")]);
    drop(config);
}

fn has_routes<R: Abort>(rt: &R, config: &Config, count: usize) {
    let routes = config.routes_from(at(0, 0)).expect(rt, "memory");
    assert_eq!(rt; routes.len(), count);
}

#[test]
fn refuses_beside_63_partners(rt: HostRuntime) {
    const REFUSED: &[(ConfigCall, u8)] = &[
        (ConfigCall::Connect(("c1", "p"), ("mtc", "p")), 27),
        (ConfigCall::Connect(("mtc", "p"), ("c1", "q")), 21),
        (ConfigCall::Connect(("c32", "p"), ("mtc", "p")), 27),
        (ConfigCall::Connect(("mtc", "p"), ("c32", "q")), 21),
        (ConfigCall::Connect(("c63", "p"), ("mtc", "p")), 27),
        (ConfigCall::Connect(("mtc", "p"), ("c63", "q")), 21),
    ];
    const ALLOWED: &[(ConfigCall, u8)] = &[(ConfigCall::Connect(("mtc", "q"), ("mtc", "p")), 0)];
    const BEHIND: &[(Question, &str)] = &[(Question::RouteTo(0, 0, 0), "0>0.1 ")];
    let mut config = large_star(&rt);
    carries_out(&rt, &mut config, REFUSED, &[]);
    has_routes(&rt, &config, 63);
    carries_out(&rt, &mut config, ALLOWED, BEHIND);
    has_routes(&rt, &config, 64);
    drop(config);
}
