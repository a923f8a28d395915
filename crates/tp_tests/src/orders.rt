//! Orders of numbers that meet demands, and circles where there is none.
use std::process::Abort;
use tp_judge::answer::Answer;
use tp_judge::demand::{Demand, are_below};
use tp_judge::order::{order_of, order_or_circle};

fn is_the_order<R: AllocGlobal + Abort>(
    rt: &R,
    count: usize,
    demands: &[Demand],
    wanted: &[usize],
) {
    assert!(rt; are_below(count, demands));
    match order_of(rt.alloc(), count, demands).expect(rt, "memory") {
        Some(order) => assert_eq!(rt; order.as_slice(), wanted),
        None => assert!(rt; false),
    }
}

fn is_a_circle_of_two<R: AllocGlobal + Abort>(
    rt: &R,
    count: usize,
    demands: &[Demand],
    wanted: [usize; 2],
) {
    assert!(rt; are_below(count, demands));
    assert!(rt;
        order_of(rt.alloc(), count, demands)
            .expect(rt, "memory")
            .is_none()
    );
    match order_or_circle(rt.alloc(), count, demands).expect(rt, "memory") {
        Answer::Ordered(_) => assert!(rt; false),
        Answer::Circle(circle) => {
            assert_eq!(rt; circle.len(), 2);
            assert!(rt; circle.contains(&wanted[0]) && circle.contains(&wanted[1]));
        }
    }
}

fn demand(before: usize, after: usize) -> Demand {
    Demand { before, after }
}

#[test]
fn a_chain_is_put_in_order(rt: HostRuntime) {
    let demands = [demand(2, 0), demand(3, 1), demand(0, 3), demand(2, 0)];
    is_the_order(&rt, 4, &demands, &[2, 0, 3, 1]);
}

#[test]
fn a_circle_has_no_order(rt: HostRuntime) {
    let demands = [demand(1, 0), demand(1, 2), demand(2, 1)];
    is_a_circle_of_two(&rt, 3, &demands, [1, 2]);
}

#[test]
fn nothing_is_put_in_order(rt: HostRuntime) {
    is_the_order(&rt, 0, &[], &[]);
}
