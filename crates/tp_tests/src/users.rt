//! What the two examples of docs/EMBEDDING.md write.
use crate::{inbox_user, queue_user};
use std::process::Abort;

#[test]
fn what_was_ordered_before_the_halt_is_served(rt: HostRuntime) {
    let bill = queue_user::served(rt.alloc()).ok().expect(&rt, "memory");
    assert!(rt; bill.as_str() == "table 7: soup of the day\nleft: 2\ntable 8: bread\nleft: 1\n");
}

#[test]
fn guests_order_in_threads(rt: HostRuntime) {
    let orders = inbox_user::ordered(rt, rt.alloc())
        .ok()
        .expect(&rt, "memory");
    assert!(rt; orders.as_str() == "guest 1: 0 1 2\nguest 2: 0 1 2\n");
}
