//! Questions to a configuration and calls of it, in tables. A test is a table, and one function
//! goes through it, so that little of it has to be proved.
use crate::making::{add, at, connect, map};
use crate::showing::{display, says};
use std::process::Abort;
use tp_config::config::Config;
use tp_config::port_type::{CompId, Role, RouteId};

pub enum Question {
    /// The routes from a port, by the numbers of its component and its own.
    From(u32, u32),
    Into(u32),
    Count,
    Route(u32, u32),
    RouteTo(u32, u32, u32),
}

fn shown<R: AllocGlobal + Abort>(rt: &R, routes: &[RouteId]) -> String {
    let mut out = String::new(rt.alloc());
    for RouteId { source, to } in routes {
        write!(out, "{}>{}.{} ", source.0, to.comp.0, to.port).expect(rt, "memory");
    }
    out
}

fn shown_route<R: AllocGlobal + Abort>(
    rt: &R,
    config: &Config,
    port: (u32, u32),
    to: Option<CompId>,
) -> String {
    match config.route(at(port.0, port.1), to) {
        Ok(route) => shown(rt, [route].as_slice()),
        Err(fault) => display(rt, fault.refusal().label().0),
    }
}

fn answer<R: AllocGlobal + Abort>(rt: &R, config: &Config, question: &Question) -> String {
    match *question {
        Question::From(comp, port) => {
            let routes = config.routes_from(at(comp, port)).expect(rt, "memory");
            shown(rt, routes.as_slice())
        }
        Question::Into(comp) => {
            let routes = config.routes_into(CompId(comp)).expect(rt, "memory");
            shown(rt, routes.as_slice())
        }
        Question::Count => display(rt, config.len()),
        Question::Route(comp, port) => shown_route(rt, config, (comp, port), None),
        Question::RouteTo(comp, port, to) => {
            shown_route(rt, config, (comp, port), Some(CompId(to)))
        }
    }
}

pub fn answers<R: AllocGlobal + Abort>(rt: &R, config: &Config, table: &[(Question, &str)]) {
    for (place, (question, wanted)) in table.iter().enumerate() {
        says(rt, place, answer(rt, config, question), *wanted);
    }
}

pub type NamedPort = (&'static str, &'static str);

pub enum ConfigCall {
    Connect(NamedPort, NamedPort),
    Map(NamedPort, NamedPort),
    Create(&'static str, u32, Role),
}

fn carry_out<R: AllocGlobal + Abort>(rt: &R, config: &mut Config, call: &ConfigCall) -> u8 {
    match *call {
        ConfigCall::Connect(p, q) => match connect(config, p, q).expect(rt, "two ports") {
            Ok(()) => 0,
            Err(fault) => fault.refusal().label().0,
        },
        ConfigCall::Map(p, q) => match map(config, p, q).expect(rt, "two ports") {
            Ok(()) => 0,
            Err(fault) => fault.refusal().label().0,
        },
        ConfigCall::Create(name, kind, role) => match add(rt.alloc(), config, name, kind, role) {
            Ok(_) => 0,
            Err(fault) => fault.refusal().label().0,
        },
    }
}

pub fn carries_out<R: AllocGlobal + Abort>(
    rt: &R,
    config: &mut Config,
    calls: &[(ConfigCall, u8)],
    behind: &[(Question, &str)],
) {
    for (place, (call, number)) in calls.iter().enumerate() {
        assert_eq!(rt; carry_out(rt, config, call), *number, "call {place}");
        answers(rt, config, behind);
    }
}
