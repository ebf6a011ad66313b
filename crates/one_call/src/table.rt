//! A table of slots: `make` alone requests memory, so the calls after it answer whatever is refused.
ghost use Rattle.std.specs.Prelude.{◌<◌};
ghost use Rattle.slots.specs.Promise.{slots_of, IsSeatOf};

use slots::{Lore, MakeFault, Pause, Probe, Seat, Slots, Store};
use std::alloc::Global;

/// Words whose first is above 0. The first is the key, and none are preferred.
struct Keyed;

impl Lore for Keyed {
    ghost use Rattle.std.specs.Prelude.{◌<◌, [], ◌∷◌, false, slice_index};
    ghost use Rattle.std.proofs.Common.{refl, rules};

    ghost meets = { λ w. 0 < slice_index w 0 };

    ghost key = { λ w. slice_index w 0 ∷ 0 ∷ 0 ∷ [] };

    fn key_of(words: [u64; 3]) -> [u64; 3] {
        [words[0], 0, 0]
    }

    ghost prefers = { λ _ _. false };

    fn prefers(_old: [u64; 3], _new: [u64; 3]) -> bool {
        false
    }

    ghost no_zeros_preferred = { λ _. refl };

    ghost no_zeros = { Prim.search rules };
}

/// It counts how often it is called.
#[derive(Drop)]
struct Count {
    calls: u8,
}

impl Pause for Count {
    fn at(&mut self, _done: u8) {
        self.calls = self.calls.saturating_add(1);
    }
}

/// Each call of a table once, and whether it answered as it should.
fn calls(slots: &Slots<Keyed>, mut one: Seat, mut two: Seat) -> bool
    requires seats { IsSeatOf slots.now one × IsSeatOf slots.now two }
    requires room { 1 < slots_of slots.now }
{
    let mut count = Count { calls: 0 };
    let stored = slots.store(&mut one, 0, [1, 2, 3]);
    let over = slots.store_with(&mut one, 1, [4, 5, 6], &mut count);
    slots.tell(&mut two, one);
    let hit = slots.probe(&mut two, 0, [1, 0, 0]);
    let other = slots.probe_with(&mut two, 1, [1, 0, 0], &mut count);
    let replies = stored == Store::Stored && over == Store::Stored && other == Probe::Other;
    replies && hit == Probe::Hit([1, 2, 3]) && slots.len() == 2 && count.calls == 9
}

/// A table is made alone.
pub(crate) fn make(alloc: Global) -> &'static str {
    match Slots::<Keyed>::make(alloc, 2, 3) {
        Ok(_) => "made",
        Err(MakeFault::Size) => "size",
        Err(MakeFault::NoMemory) => "no memory",
    }
}

/// A table is made, and each of its calls is made once.
pub(crate) fn answer(alloc: Global) -> &'static str {
    let (slots, mut seats) = match Slots::<Keyed>::make(alloc, 2, 3) {
        Ok(made) => made,
        Err(MakeFault::Size) => return "size",
        Err(MakeFault::NoMemory) => return "no memory",
    };
    let Some(one) = seats.pop() else {
        return "no seat";
    };
    let Some(two) = seats.pop() else {
        return "one seat";
    };
    if calls(&slots, one, two) {
        "made"
    } else {
        "wrong"
    }
}
