//! A circle among the numbers that are left when no more can be put in order.
ghost use Rattle.std.specs.Prelude.{◌≡◌, ◌<◌, ◌≤◌, All, IfOk, drop, length, reverse};
ghost use Rattle.tp_judge.specs.Circle.{IsCircle};
ghost use Rattle.tp_judge.specs.AfterOrdering.{AreHeldUp, AreStuck, IsWaiting};
ghost use Rattle.tp_judge.specs.Order.{IsBelow};

use crate::demand::Demand;
use std::alloc::{AllocError, Global};

fn held_up(alloc: Global, demands: &[Demand], waits: &[usize]) -> Result<Vec<usize>, AllocError>
    requires below { All (IsBelow (length waits.now)) demands.now }
    requires stuck { AreStuck demands.now (IsWaiting waits.now) }
    ensures size { IfOk result (λ from. length from.items ≡ length waits.now) }
    ensures from { IfOk result (λ from. AreHeldUp demands.now waits.now from.items) }
{
    let mut from = vec![in alloc; 0; waits.len()]?;
    for demand in demands {
        if waits[demand.before] > 0 {
            // Any such demand will do; the last one stays.
            from[demand.after] = demand.before;
        }
    }
    Ok(from)
}

pub(crate) fn back_from(
    alloc: Global,
    path: &[usize],
    place: usize,
) -> Result<Vec<usize>, AllocError>
    requires { place ≤ length path.now }
    ensures { IfOk result (λ v. v.items ≡ reverse (drop place path.now)) }
{
    // Backwards: on the path each number waits for the next one.
    path[place..].iter().rev().copied().collect(alloc)
}

/// A circle of demands among the numbers that wait, found from `start`, which is one of them.
pub(crate) fn find_circle(
    alloc: Global,
    demands: &[Demand],
    waits: &[usize],
    start: usize,
) -> Result<Vec<usize>, AllocError>
    requires below { All (IsBelow (length waits.now)) demands.now }
    requires stuck { AreStuck demands.now (IsWaiting waits.now) }
    requires start { IsWaiting waits.now start }
    ensures below { IfOk result (λ circle. All (λ x. x < length waits.now) circle.items) }
    ensures circle { IfOk result (λ circle. IsCircle demands.now circle.items) }
{
    let from = held_up(alloc, demands, waits)?;
    // For each number one more than its place in the path, and 0 for one that isn't there.
    let mut places = vec![in alloc; 0; waits.len()]?;
    let mut path = Vec::new(alloc);
    let mut x = start;
    // Each number here waits for one that waits too, so the way back meets itself.
    while places[x] == 0 {
        path.push(x)?;
        places[x] = path.len();
        x = from[x];
    }
    back_from(alloc, &path, places[x] - 1)
}
