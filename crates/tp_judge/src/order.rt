//! One order of all numbers below a count, in which each demand is met.
ghost use Rattle.std.specs.Prelude.{◌≡◌, ◌+◌, ◌<◌, ◌≤◌, All, IfNone, IfOk, IfSome, OnOk, length, sum};
ghost use Rattle.tp_judge.specs.Answer.{IsAnswer};
ghost use Rattle.tp_judge.specs.Chains.{AreChains};
ghost use Rattle.tp_judge.specs.AfterOrdering.{IsEnded};
ghost use Rattle.tp_judge.specs.Order.{CanBeOrdered, IsBelow, IsOrder};
ghost use Rattle.tp_judge.specs.Progress.{IsOrderedUpTo};

use crate::answer::Answer;
use crate::chains::{Chains, chain};
use crate::circle::find_circle;
use crate::demand::Demand;
use crate::waits::{count_waits, first_waiting, free_numbers};
use std::alloc::{AllocError, Global};

/// Takes off the demands with the number at place `done` first, and appends each number that then
/// waits for nothing.
fn take_off(
    demands: &[Demand],
    chains: &Chains,
    done: usize,
    waits: &mut [usize],
    order: &mut Vec<usize>,
) -> Result<(), AllocError>
    requires below { All (IsBelow (length waits.old)) demands.now }
    requires chains { AreChains demands.now chains.now.last.items chains.now.previous.items }
    requires size { length chains.now.last.items ≡ length waits.old }
    requires done { IsOrderedUpTo demands.now waits.old order.old.items done }
    requires here { done < length order.old.items }
    ensures done { OnOk result (IsOrderedUpTo demands.now waits.new order.new.items (done + 1)) }
    ensures falls { OnOk result (sum waits.new + length order.new.items
        ≤ sum waits.old + length order.old.items) }
{
    let mut at = chains.last[order[done]];
    while at > 0 {
        let after = demands[at - 1].after;
        waits[after] -= 1;
        // Only its last demand brings a number here, so each is appended once.
        if waits[after] == 0 {
            order.push(after)?;
        }
        at = chains.previous[at - 1];
    }
    Ok(())
}

/// The numbers in order, as far as that goes, and how many demands each one still waits for.
#[derive(Drop)]
struct OrderedNumbers {
    order: Vec<usize>,
    waits: Vec<usize>,
}

fn put_in_order(
    alloc: Global,
    count: usize,
    demands: &[Demand],
) -> Result<OrderedNumbers, AllocError>
    requires { All (IsBelow count) demands.now }
    ensures { IfOk result (λ e. IsEnded count demands.now e.waits.items e.order.items) }
{
    let chains = chain(alloc, count, demands)?;
    let mut waits = count_waits(alloc, count, demands)?;
    let mut order = free_numbers(alloc, &waits)?;
    let mut done = 0;
    // The order grows while it is gone through.
    while done < order.len() {
        take_off(demands, &chains, done, &mut waits, &mut order)?;
        done += 1;
    }
    Ok(OrderedNumbers { order, waits })
}

/// An order of the numbers below the count that meets each demand, in time linear in the count and
/// the number of demands. `None` only if there is no such order.
pub fn order_of(
    alloc: Global,
    count: usize,
    demands: &[Demand],
) -> Result<Option<Vec<usize>>, AllocError>
    requires { All (IsBelow count) demands.now }
    ensures ordered { IfOk result (λ answer.
        IfSome answer (λ order. IsOrder count demands.now order.items)) }
    ensures none { IfOk result (λ answer.
        IfNone answer (CanBeOrdered count demands.now → ⊥)) }
{
    let OrderedNumbers { order, waits } = put_in_order(alloc, count, demands)?;
    match first_waiting(&waits) {
        None => Ok(Some(order)),
        Some(_) => Ok(None),
    }
}

/// An order of the numbers below the count that meets each demand; or, only if there is no such
/// order, a circle of demands.
pub fn order_or_circle(
    alloc: Global,
    count: usize,
    demands: &[Demand],
) -> Result<Answer, AllocError>
    requires { All (IsBelow count) demands.now }
    ensures { IfOk result (IsAnswer count demands.now) }
{
    let OrderedNumbers { order, waits } = put_in_order(alloc, count, demands)?;
    match first_waiting(&waits) {
        None => Ok(Answer::Ordered(order)),
        Some(start) => Ok(Answer::Circle(find_circle(alloc, demands, &waits, start)?)),
    }
}
