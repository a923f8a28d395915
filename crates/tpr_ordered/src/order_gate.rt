//! A gate that forces an order of steps.
use crate::orders::{Hold, Step};
use std::alloc::{AllocError, Global};
use std::sync::atomic::{AtomicBool, AtomicU64, Ordering};
use std::thread;
use tp_config::port_type::CompId;
use tp_exec::gate::Gate;

/// After so many turns that yield, a gate gives up.
pub const PATIENCE: u32 = 10_000_000;

#[derive(Clone, Copy)]
struct OrderedStep {
    /// The number of steps before it.
    number: u64,
    hold: Hold,
}

#[derive(Drop)]
struct OrderTurn {
    places: Vec<OrderedStep>,
    /// The number of its steps that it has reached. After the last it goes on counting its
    /// statements.
    met: AtomicU64,
}

impl OrderTurn {
    fn last(&self) -> Option<OrderedStep> {
        let before = self.met.load(Ordering::SeqCst).checked_sub(1)?;
        self.places.get(before as usize).copied()
    }

    fn next(&self) -> Option<OrderedStep> {
        let met = self.met.load(Ordering::SeqCst);
        self.places.get(met as usize).copied()
    }

    fn is_next_inside(&self) -> bool {
        matches!(self.next(), Some(place) if place.hold == Hold::Inside)
    }
}

/// Holds each component before its next step until two things have happened: the order has reached
/// this step, and the component that the order names before it has reached its own next step,
/// because that is all that a gate learns of the end of a step. So one step is executed after the
/// other, and steps that the order doesn't name come after all that it names. A component that is
/// held inside its statement has moved to its ports what arrived before, and not what arrives
/// meanwhile: it sees that in its next look. It is held there as often as the order says, and no
/// more. If a component is held for too many turns, or is to be held inside a statement that it has
/// ended, the gate gives up, and all components pass from then on.
#[derive(Drop)]
pub struct OrderGate {
    parts: Vec<OrderTurn>,
    length: u64,
    /// The maximum number of turns for which a component is held.
    patience: u32,
    ended: AtomicU64,
    gave_up: AtomicBool,
}

fn parts_of(
    alloc: Global,
    components: usize,
    steps: &[Step],
) -> Result<Vec<OrderTurn>, AllocError> {
    let mut parts = Vec::new(alloc);
    for _ in 0..components {
        parts.push(OrderTurn {
            places: Vec::new(alloc),
            met: AtomicU64::new(0),
        })?;
    }
    note_places(&mut parts, steps)?;
    Ok(parts)
}

fn note_places(parts: &mut Vec<OrderTurn>, steps: &[Step]) -> Result<(), AllocError> {
    for (number, step) in steps.iter().enumerate() {
        if let Some(part) = parts.get_mut(step.who.0 as usize) {
            part.places.push(OrderedStep {
                number: number as u64,
                hold: step.hold,
            })?;
        }
    }
    Ok(())
}

impl OrderGate {
    /// A gate for one run of a test case with so many components, in the order of these steps. It
    /// gives up if a component is held for more than `patience` turns.
    pub fn new(
        alloc: Global,
        components: usize,
        steps: &[Step],
        patience: u32,
    ) -> Result<OrderGate, AllocError> {
        let parts = parts_of(alloc, components, steps)?;
        Ok(OrderGate {
            parts,
            length: steps.len() as u64,
            patience,
            ended: AtomicU64::new(0),
            gave_up: AtomicBool::new(false),
        })
    }

    /// Returns whether the order was kept: the gate didn't give up.
    pub fn is_held(&self) -> bool {
        !self.gave_up.load(Ordering::SeqCst)
    }

    /// The component reaches its next step, and is held until the order has reached it. If it has
    /// none, it is held until the order has ended.
    fn come_to_next(&self, part: &OrderTurn) {
        // Its last step has ended: the others may go on before this one is held.
        if let Some(place) = part.last() {
            self.ended
                .store(place.number.wrapping_add(1), Ordering::SeqCst);
        }
        // Before `met` counts this step, because `next` depends on it.
        let number = part.next().map_or(self.length, |place| place.number);
        part.met.fetch_add(1, Ordering::SeqCst);
        self.hold_until(number);
    }

    fn hold_until(&self, ended: u64) {
        for _ in 0..self.patience {
            if self.ended.load(Ordering::SeqCst) == ended || !self.is_held() {
                return;
            }
            thread::yield_now();
        }
        self.give_up();
    }

    fn give_up(&self) {
        self.gave_up.store(true, Ordering::SeqCst);
    }
}

impl Gate for OrderGate {
    fn before(&self, who: CompId, _step: u64) {
        if let Some(part) = self.parts.get(who.0 as usize) {
            if part.is_next_inside() {
                // The order holds it inside a step that has ended.
                self.give_up();
            }
            self.come_to_next(part);
        }
    }

    fn inside(&self, who: CompId, _port: u32) {
        if let Some(part) = self.parts.get(who.0 as usize) {
            if part.is_next_inside() {
                self.come_to_next(part);
            }
        }
    }

    fn always_drains(&self) -> bool {
        // In the model that makes the orders, each look moves what has arrived.
        true
    }
}
