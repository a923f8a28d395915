//! The floor of a run: how many behaviours live, and how many of them rest.
ghost use Rattle.std.specs.Prelude.{◌≡◌, ◌<◌, ◌≤◌, ◌↔◌, ◌+◌, ◌-◌, [], ◌∷◌, false, true, if◌then◌else◌};
ghost use Rattle.std.specs.Arc.{arc_value};
ghost use Rattle.crossbeam_utils.specs.Seq.{IsSamePass, cell_view};

use crate::hook::{NoHook, RaceHook};
use crossbeam_utils::atomic::seq_cell::{Pass, RuledSeqCell, Words};
use crossbeam_utils::rule::{Outcome, Protocol};
use std::alloc::Global;
use std::sync::{Arc, Wait};
use tp_common::memory::Memory;

#[derive(Clone, Copy, PartialEq, Eq)]
pub(crate) struct Counts {
    living: u64,
    resting: u64,
    ghost few: { resting ≤ living },
}

impl Words<2> for Counts {
    ghost words = { λ c. c.living ∷ c.resting ∷ [] };

    fn to_words(self) -> [u64; 2] {
        [self.living, self.resting]
    }

    fn from_words(bits: &[u64; 2]) -> Counts {
        Counts {
            living: bits[0],
            resting: bits[1],
        }
    }
}

impl Counts {
    /// One behaviour, which is awake, has ended. Returns true if others live and all of them rest.
    /// If none is awake, nothing changes.
    fn leave(&mut self) -> bool
        ensures living { self.old.resting < self.old.living
            → self.new.living + 1 ≡ self.old.living }
        ensures nobody { self.old.resting ≡ self.old.living → self.new.living ≡ self.old.living }
        ensures resting { self.new.resting ≡ self.old.resting }
        ensures all_rest { result ≡ true
            ↔ (self.old.resting < self.old.living)
            × (0 < self.new.living)
            × (self.new.resting ≡ self.new.living) }
    {
        if self.resting >= self.living {
            return false;
        }
        self.living -= 1;
        self.living > 0 && self.resting == self.living
    }

    fn begin_rest(&mut self) -> bool
        ensures living { self.new.living ≡ self.old.living }
        ensures rests { result ≡ true ↔ self.old.resting + 1 < self.old.living }
        ensures resting { self.new.resting
            ≡ (if result then self.old.resting + 1 else self.old.resting) }
    {
        if self.living == 0 || self.resting >= self.living - 1 {
            return false;
        }
        self.resting += 1;
        true
    }

    fn rise(&mut self)
        ensures living { self.new.living ≡ self.old.living }
        ensures resting { self.new.resting ≡ self.old.resting - 1 }
    {
        // The caller is counted, so this holds; the test spares `Counts` a condition.
        if self.resting > 0 {
            self.resting -= 1;
        }
    }
}

/// The rule of a floor: the number at rest is the sum of its places. It holds between any two steps
/// of any threads.
pub(crate) struct Standing;

impl Protocol<Counts, u64> for Standing {
    ghost use Rattle.tp_floor.specs.Standing.{AreCounted};

    ghost holds = { AreCounted };

    ghost first = { 0 };
}

/// A step that changes the number that rests together with the place, or neither of them.
struct Together;

impl Outcome<Counts, u64> for Together {
    ghost use Rattle.tp_floor.specs.Standing.{ChangeTogether};

    ghost then = { ChangeTogether };
}

type Cell = RuledSeqCell<Counts, u64, Standing, 2>;

/// The counts of the behaviours that live and rest, so that a run in which all wait can be noticed.
/// A behaviour lives until it has left. It rests from the moment that it finds nothing at its
/// notifier until a push is announced there or the inbox is closed. The number that rests is the
/// number of notifiers whose owner rests. No lock on the counts lasts longer than one call here, so
/// that they may be changed under an inbox's lock.
#[derive(Drop)]
pub struct Floor {
    counts: Cell,
}

impl Floor {
    /// A floor with so many living behaviours, all of them awake.
    pub fn new(alloc: Global, living: u32) -> Result<Arc<Floor, Global>, Memory> {
        let living = u64::from(living);
        let (counts, _) = Cell::ruled(alloc, Counts { living, resting: 0 })?;
        Ok(Arc::new(alloc, Floor { counts })?)
    }

    fn look<R: Wait>(&self, rt: &R, pass: &mut Pass<Counts, u64>) -> Counts
        requires { pass.old.table_id ≡ self.now.counts.table.shared.table_id }
        ensures same { IsSamePass pass.old pass.new }
        ensures place { cell_view pass.new ≡ cell_view pass.old }
        ensures counted { cell_view pass.old ≤ result.resting }
    {
        self.counts.load_as::<Together, R>(rt, pass)
    }

    /// Replaces the counts by the next ones and returns true, unless they have changed since they
    /// were seen. The place of this pass changes with the number that rests.
    fn exchange<R: Wait>(
        &self,
        rt: &R,
        pass: &mut Pass<Counts, u64>,
        seen: Counts,
        next: Counts,
    ) -> bool
        requires here { pass.old.table_id ≡ self.now.counts.table.shared.table_id }
        requires counted { seen.resting ≤ next.resting + cell_view pass.old }
        ensures same { IsSamePass pass.old pass.new }
        ensures done { result ≡ true
            → cell_view pass.new + seen.resting ≡ cell_view pass.old + next.resting }
        ensures stays { result ≡ false → cell_view pass.new ≡ cell_view pass.old }
    {
        let done = self
            .counts
            .compare_exchange_as::<Together, R>(rt, pass, seen, next);
        done.is_ok()
    }

    /// One behaviour has ended. Returns true if others live and all of them rest: then only closing
    /// their inboxes wakes them. If none lives, it changes nothing and returns false.
    pub fn leave<R: Wait>(&self, rt: &R) -> bool {
        self.leave_by(rt, &mut NoHook)
    }

    pub(crate) fn leave_by<R: Wait, S: RaceHook>(&self, rt: &R, hook: &mut S) -> bool {
        let mut pass = self.counts.pass();
        for _ in rt.forever() {
            let seen = self.look(rt, &mut pass);
            // A copy: the exchange compares the counts with what was seen.
            let mut left = seen;
            let all_rest = left.leave();
            // If another call changes the counts here, the exchange fails: it looks again.
            hook.between();
            if self.exchange(rt, &mut pass, seen, left) {
                return all_rest;
            }
        }
        // The loop ends by a return alone.
        unreachable!()
    }

    /// The number that rests, at one moment of the call.
    pub fn resting<R: Wait>(&self, rt: &R) -> u64 {
        self.look(rt, &mut self.counts.pass()).resting
    }

    #[cfg(test)]
    pub(crate) fn living<R: Wait>(&self, rt: &R) -> u64 {
        self.look(rt, &mut self.counts.pass()).living
    }
}

/// The place of one behaviour on a floor. Its pass knows 1 if the behaviour rests, and else 0. By
/// the floor's rule the number that rests is the sum of this over all places. So each behaviour
/// that begins or ends its rest is counted, and none is counted twice.
#[derive(Drop)]
pub(crate) struct FloorPlace {
    floor: Arc<Floor, Global>,
    pub(crate) pass: Pass<Counts, u64>,
    ghost here: { pass.table_id ≡ (arc_value floor).counts.table.shared.table_id },
}

impl FloorPlace {
    pub(crate) fn on(floor: Arc<Floor, Global>) -> FloorPlace
        ensures { cell_view result.pass ≡ 0 }
    {
        let pass = floor.counts.pass();
        FloorPlace { floor, pass }
    }

    /// The behaviour rests from now on. Returns false if no other living one is awake: then it
    /// doesn't rest.
    pub(crate) fn begin_rest<R: Wait, S: RaceHook>(&mut self, rt: &R, hook: &mut S) -> bool
        requires { cell_view self.old.pass ≡ 0 }
        ensures { cell_view self.new.pass ≡ (if result then 1 else 0) }
    {
        for _ in rt.forever() {
            let seen = self.floor.look(rt, &mut self.pass);
            let mut rested = seen;
            if !rested.begin_rest() {
                return false;
            }
            hook.between();
            if self.floor.exchange(rt, &mut self.pass, seen, rested) {
                return true;
            }
        }
        // The loop ends by a return alone.
        unreachable!()
    }

    pub(crate) fn rise<R: Wait, S: RaceHook>(&mut self, rt: &R, hook: &mut S)
        requires { cell_view self.old.pass ≡ 1 }
        ensures { cell_view self.new.pass ≡ 0 }
    {
        for _ in rt.forever() {
            let seen = self.floor.look(rt, &mut self.pass);
            let mut risen = seen;
            risen.rise();
            hook.between();
            if self.floor.exchange(rt, &mut self.pass, seen, risen) {
                return;
            }
        }
        // The loop ends by a return alone.
        unreachable!()
    }
}
