//! A caller of the table, and one call on it.
ghost use Rattle.slots.specs.Promise.{IsSeatOf};

use entry::MateLore;
use slots::{Probe, Seat, Slots, Store};
use std::alloc::Allocator;

/// The table, and the seat of one of its callers.
#[derive(Drop)]
pub(crate) struct Caller<'a, A: Allocator> {
    pub slots: &'a Slots<MateLore, A>,
    pub seat: &'a mut Seat,
    ghost belongs: { IsSeatOf slots.now seat.now },
}

impl<A: Allocator> Caller<'_, A> {
    ghost use Rattle.std.specs.Prelude.{◌<◌};
    ghost use Rattle.slots.specs.Promise.{slots_of};
    ghost use Rattle.slots.specs.declared.calls.Act.TheVariants.{Asked, Offered};
    ghost use Rattle.entry.specs.Truth.{IsTruePacking};
    ghost use Rattle.decision.specs.Callers.{MakesCall};

    /// Asks a slot for the key.
    pub(crate) fn probe(&mut self, slot: usize, key: [u64; 3]) -> Probe
        requires slot { slot < slots_of self.old.slots.now }
        ensures { MakesCall slot (Asked key result) self.old self.new }
    {
        self.slots.probe(self.seat, slot, key)
    }

    /// Offers the words to a slot.
    pub(crate) fn store(&mut self, slot: usize, words: [u64; 3]) -> Store
        requires slot { slot < slots_of self.old.slots.now }
        requires holds { IsTruePacking words }
        ensures { MakesCall slot (Offered words result) self.old self.new }
    {
        self.slots.store(self.seat, slot, words)
    }
}
