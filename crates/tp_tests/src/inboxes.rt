//! The calls of one inbox's ends, waits without another behaviour, and refused memory.
use crate::ends::{InboxEnds, floor_of, two};
use crate::making::route;
use crate::showing::{debug, says};
use std::process::Abort;
use std::sync::Wait;
use tp_common::memory::Memory;
use tp_config::port_type::{CompId, PortRef, RouteId};
use tp_floor::floor::Floor;
use tp_floor::notifier::Woken;
use tp_inbox::sender::{PutFault, ROUTE_LIMIT};
use tp_inbox::settled::put_on_route;

enum InboxCall {
    Put(usize, i64),
    Count,
    Route,
    Drain,
    DrainSome(u64),
    Drained(u32, u32, u32),
    Wait,
    Close,
    Leave,
}

fn answer<R: AllocGlobal + Abort + Wait>(
    rt: &R,
    ends: &mut InboxEnds,
    floor: &Floor,
    call: &InboxCall,
) -> String {
    match *call {
        InboxCall::Put(way, n) => debug(rt, ends.put(rt, 0, way, n)),
        InboxCall::Count => debug(rt, ends.count()),
        InboxCall::Route => debug(rt, ends.route()),
        InboxCall::Drain => debug(rt, ends.drain(rt)),
        InboxCall::DrainSome(most) => debug(rt, ends.mailbox.drain_some(rt, most)),
        InboxCall::Drained(source, comp, port) => {
            debug(rt, ends.mailbox.owner.drained(route(source, comp, port)))
        }
        InboxCall::Wait => debug(rt, ends.mailbox.owner.wait(rt)),
        InboxCall::Close => debug(rt, ends.closer.close(rt)),
        InboxCall::Leave => debug(rt, floor.leave(rt)),
    }
}

fn carries_out<R: AllocGlobal + Abort + Wait>(
    rt: &R,
    ends: &mut InboxEnds,
    floor: &Floor,
    calls: &[(InboxCall, &str)],
) {
    for (place, (call, wanted)) in calls.iter().enumerate() {
        says(rt, place, answer(rt, ends, floor, call), *wanted);
    }
}

fn settles<R: AllocGlobal + Abort + Wait>(rt: &R, ends: InboxEnds, log: &str, rest: &str) {
    let (left, desk) = ends.settle(rt);
    says(rt, 0, debug(rt, desk.log()), log);
    drop(desk);
    says(rt, 1, debug(rt, left), rest);
}

#[test]
fn two_routes(rt: HostRuntime) {
    const CALLS: &[(InboxCall, &str)] = &[
        (InboxCall::Put(0, 4), "Some(Ok(0))"),
        (InboxCall::Put(1, 5), "Some(Ok(0))"),
        (InboxCall::Put(0, 6), "Some(Ok(1))"),
        (InboxCall::Put(2, 9), "None"),
        (InboxCall::DrainSome(0), "Ok(0)"),
        (InboxCall::DrainSome(2), "Ok(2)"),
        (InboxCall::Drain, "Ok(1)"),
        (InboxCall::Put(0, 7), "Some(Ok(2))"),
    ];
    const LOG: &str = "[\
        Arrive(0, 4, NotedEnvelope { sender: 0, kind: Integer, named: 0, \
            number: 0, value: Int(4) }), \
        Arrive(1, 5, NotedEnvelope { sender: 0, kind: Integer, named: 0, \
            number: 0, value: Int(5) }), \
        Arrive(0, 6, NotedEnvelope { sender: 0, kind: Integer, named: 0, \
            number: 1, value: Int(6) })]";
    const REST: &str =
        "[(0, Env { sender: 0, number: 2, msg: Message { ty: Integer, value: Int(7) } }, 7)]";
    let (mut ends, floor) = two(&rt, ["p", "q"].as_slice());
    carries_out(&rt, &mut ends, &floor, CALLS);
    drop(floor);
    settles(&rt, ends, LOG, REST);
}

/// Asserts which messages were put from component 0 on the route to port 0, and what is left.
fn tells_what_was_put<R: AllocGlobal + Abort + Wait>(
    rt: &R,
    ends: InboxEnds,
    wanted: &str,
    rest: &str,
) {
    let (left, desk) = ends.settle(rt);
    let to = PortRef {
        comp: desk.comp(),
        port: 0,
    };
    let source = CompId(0);
    let put = put_on_route(rt.alloc(), &desk, left.as_slice(), RouteId { source, to });
    says(rt, 0, debug(rt, put.ok().expect(rt, "memory")), wanted);
    drop(desk);
    says(rt, 1, debug(rt, left), rest);
}

#[test]
fn what_was_put_is_told(rt: HostRuntime) {
    const CALLS: &[(InboxCall, &str)] = &[
        (InboxCall::Put(0, 4), "Some(Ok(0))"),
        (InboxCall::Put(0, 5), "Some(Ok(1))"),
        (InboxCall::Count, "2"),
        (InboxCall::Drain, "Ok(2)"),
        (InboxCall::Put(0, 6), "Some(Ok(2))"),
    ];
    const PUT: &str = "[\
        Message { ty: Integer, value: Int(4) }, \
        Message { ty: Integer, value: Int(5) }, \
        Message { ty: Integer, value: Int(6) }]";
    const REST: &str =
        "[(0, Env { sender: 0, number: 2, msg: Message { ty: Integer, value: Int(6) } }, 6)]";
    let (mut ends, floor) = two(&rt, ["p"].as_slice());
    carries_out(&rt, &mut ends, &floor, CALLS);
    drop(floor);
    tells_what_was_put(&rt, ends, PUT, REST);
}

#[test]
fn routes_are_told(rt: HostRuntime) {
    const CALLS: &[(InboxCall, &str)] = &[
        (InboxCall::Put(0, 4), "Some(Ok(0))"),
        (InboxCall::Drain, "Ok(1)"),
        (
            InboxCall::Route,
            "Some(RouteId { source: CompId(0), to: PortRef { comp: CompId(1), port: 0 } })",
        ),
        (InboxCall::Drained(0, 1, 0), "1"),
        (InboxCall::Drained(0, 2, 0), "0"),
        (InboxCall::Drained(1, 1, 0), "0"),
    ];
    let (mut ends, floor) = two(&rt, ["p"].as_slice());
    carries_out(&rt, &mut ends, &floor, CALLS);
    drop((ends, floor));
}

#[test]
fn alone_on_the_floor(rt: HostRuntime) {
    const CALLS: &[(InboxCall, &str)] = &[
        (InboxCall::Leave, "false"),
        (InboxCall::Wait, "Last"),
        (InboxCall::Close, "()"),
        (InboxCall::Wait, "Closed"),
        (InboxCall::Put(0, 1), "Some(Ok(0))"),
        (InboxCall::Wait, "Arrived"),
        (InboxCall::Drain, "Ok(1)"),
        (InboxCall::Wait, "Closed"),
    ];
    let (mut ends, floor) = two(&rt, ["p"].as_slice());
    carries_out(&rt, &mut ends, &floor, CALLS);
    let nobody = floor_of(&rt, 0);
    assert!(rt; !nobody.leave(&rt));
    drop((ends, floor, nobody));
}

fn fills<R: Wait + Abort>(rt: &R, ends: &mut InboxEnds) {
    for n in 0..ROUTE_LIMIT {
        let put = ends.put(rt, 0, 0, n as i64);
        assert!(rt; matches!(put, Some(Ok(number)) if number == n));
    }
}

#[test]
fn a_route_has_a_limit(rt: HostRuntime) {
    const CALLS: &[(InboxCall, &str)] = &[
        (InboxCall::Put(0, 7), "Some(Err(Limit))"),
        (InboxCall::Count, "100000"),
        (InboxCall::Drain, "Ok(100000)"),
    ];
    let (mut ends, floor) = two(&rt, ["p"].as_slice());
    fills(&rt, &mut ends);
    carries_out(&rt, &mut ends, &floor, CALLS);
    drop((ends, floor));
}

fn put_again<R: Wait + Abort>(rt: &R, ends: &mut InboxEnds, n: i64, number: u64) {
    match ends.put(rt, 0, 0, n) {
        Some(Err(PutFault::Memory)) => {
            assert!(rt; ends.count() == number);
            let put = ends.put(rt, 0, 0, n);
            assert!(rt; matches!(put, Some(Ok(given)) if given == number));
        }
        put => assert!(rt; matches!(put, Some(Ok(given)) if given == number)),
    }
}

fn drain_again<R: Wait + Abort>(rt: &R, ends: &mut InboxEnds, count: u64) {
    match ends.drain(rt) {
        Ok(moved) => assert!(rt; moved == count),
        Err(Memory) => {
            assert!(rt; ends.mailbox.owner.wait(rt) == Woken::Arrived);
            assert!(rt; ends.drain(rt).is_ok());
        }
    }
}

#[test]
fn refused_memory_loses_nothing(rt: HostRuntime) {
    const LOG: &str = "[\
        Arrive(0, 4, NotedEnvelope { sender: 0, kind: Integer, named: 0, \
            number: 0, value: Int(4) }), \
        Arrive(0, 5, NotedEnvelope { sender: 0, kind: Integer, named: 0, \
            number: 1, value: Int(5) })]";
    const REST: &str =
        "[(0, Env { sender: 0, number: 2, msg: Message { ty: Integer, value: Int(6) } }, 6)]";
    let (mut ends, floor) = two(&rt, ["p"].as_slice());
    drop(floor);
    put_again(&rt, &mut ends, 4, 0);
    put_again(&rt, &mut ends, 5, 1);
    assert!(rt; ends.count() == 2);
    drain_again(&rt, &mut ends, 2);
    put_again(&rt, &mut ends, 6, 2);
    settles(&rt, ends, LOG, REST);
}
