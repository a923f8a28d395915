//! The calls of `tp_config`, some of them in `making`, and a configuration for the inboxes.
use crate::making::{add, at, connect, empty, map, port, route};
use std::process::Abort;
use tp_config::config::Config;
use tp_config::port_type::{CompId, Role};
use tp_value::types::Ty;

fn add_one<R: AllocGlobal + Abort>(rt: &R, config: &mut Config, name: &str, role: Role) {
    assert!(rt; add(rt.alloc(), config, name, 1, role).is_ok());
}

/// The components mtc, a, b and system, each with the port s alone, which receives and sends
/// integers. mtc:s is connected to a:s, and b:s is mapped to system:s.
pub fn made<R: AllocGlobal + Abort>(rt: &R) -> Config {
    let integer = [Ty::Integer];
    let types = integer.as_slice();
    let mut config = empty(rt.alloc(), types, types).expect(rt, "memory");
    add_one(rt, &mut config, "mtc", Role::Test);
    add_one(rt, &mut config, "a", Role::Test);
    add_one(rt, &mut config, "b", Role::Test);
    add_one(rt, &mut config, "system", Role::System);
    assert!(rt; matches!(connect(&mut config, ("mtc", "s"), ("a", "s")), Some(Ok(()))));
    assert!(rt; matches!(map(&mut config, ("b", "s"), ("system", "s")), Some(Ok(()))));
    config
}

#[test]
fn routes(rt: HostRuntime) {
    let config = made(&rt);
    let (mtc, a) = (CompId(0), CompId(1));
    let s = at(0, 0);
    assert!(rt; config.comp_of("mtc") == Some(mtc) && port(&config, "mtc", "s") == Some(s));
    assert!(rt; config.route(s, Some(a)) == Ok(route(0, 1, 0)));
    let from = config.routes_from(s).ok().expect(&rt, "memory");
    let into = config.routes_into(a).ok().expect(&rt, "memory");
    assert!(rt; from.len() == 1 && into.len() == 1);
    drop((config, from, into));
}
