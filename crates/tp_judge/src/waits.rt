//! The number of demands that each number waits for.
ghost use Rattle.std.specs.Prelude.{◌≡◌, All, IfOk, MatchOption, length, true};
ghost use Rattle.tp_judge.specs.Counts.{AreWaits};
ghost use Rattle.tp_judge.specs.AfterOrdering.{IsWaiting};
ghost use Rattle.tp_judge.specs.Order.{IsBelow};
ghost use Rattle.tp_judge.specs.Progress.{AreFree};

use crate::demand::Demand;
use std::alloc::{AllocError, Global};

pub(crate) fn count_waits(
    alloc: Global,
    count: usize,
    demands: &[Demand],
) -> Result<Vec<usize>, AllocError>
    requires { All (IsBelow count) demands.now }
    ensures size { IfOk result (λ w. length w.items ≡ count) }
    ensures waits { IfOk result (λ w. AreWaits demands.now (λ _. true) w.items) }
{
    let mut waits = vec![in alloc; 0; count]?;
    for demand in demands {
        waits[demand.after] += 1;
    }
    Ok(waits)
}

pub(crate) fn free_numbers(alloc: Global, waits: &[usize]) -> Result<Vec<usize>, AllocError>
    ensures { IfOk result (λ order. AreFree waits.now order.items) }
{
    let mut order = Vec::with_capacity(alloc, waits.len())?;
    for (x, wait) in waits.iter().enumerate() {
        if *wait == 0 {
            order.push(x)?;
        }
    }
    Ok(order)
}

pub(crate) fn first_waiting(waits: &[usize]) -> Option<usize>
    ensures { MatchOption result (All (λ w. w ≡ 0) waits.now) (IsWaiting waits.now) }
{
    waits.iter().position(|wait| *wait > 0)
}
