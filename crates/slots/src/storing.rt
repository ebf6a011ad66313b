//! Offering an entry to a slot.
ghost use Rattle.std.specs.Prelude.{◌≡◌, ℕ, ◌+◌, ◌*◌, ◌/◌, ◌^◌, ◌<◌, ◌≤◌, ◌%◌, List};
ghost use Rattle.slots.specs.declared.calls.Act.TheVariants.{Offered};
ghost use Rattle.slots.specs.declared.views.Half.TheVariants.{Reading};
ghost use Rattle.slots.specs.Machine.{stores};
ghost use Rattle.slots.specs.Rule.{way_at};
ghost use Rattle.slots.specs.Steps.{Yields, Done};
ghost use Rattle.slots.specs.Promise.{way_of, seen, slots_of, known, steps, IsTaken, IsSeatOf, Called, HasCause};

use crate::calls::Store;
use crate::lore::Lore;
use crate::pause::{NoPause, Pause};
use crate::table::{Seat, Slots};
use std::alloc::Allocator;
use std::marker::Brand;

impl<L: Lore, A: Allocator> Slots<L, A> {
    /// Offers the words to the slot. A slot of odd number takes them; one of even number keeps what
    /// it has where that is preferred. It takes no lock, and tries once.
    pub fn store(&self, seat: &mut Seat, slot: usize, words: [u64; 3]) -> Store
        requires seat { IsSeatOf self.now seat.old }
        requires slot { slot < slots_of self.now }
        requires lore { L.meets words }
        ensures seat { IsSeatOf self.now seat.new × (seat.new.id ≡ seat.old.id) }
        ensures call { Called (way_of L.key L.prefers) slot (Offered words result) seat.old seat.new }
        ensures busy { result ≡ Store.Busy → HasCause (way_of L.key L.prefers) L.meets self.now slot seat.old seat.new }
        ensures steps { steps seat.new ≤ steps seat.old + 9 }
        ensures odd_steps { slot % 2 ≡ 1 → steps seat.new ≤ steps seat.old + 6 }
    {
        self.store_with(seat, slot, words, &mut NoPause)
    }

    // The claim, the words and the end of a store, after so many steps.
    fn put<P: Pause>(
        &self,
        seat: &mut Seat,
        slot: usize,
        words: [u64; 3],
        gate: u64,
        done: u8,
        pause: &mut P,
    ) -> Store
        requires seat { IsTaken self.now seat.old × (slot < slots_of self.now) × (gate + 2 < 2 ^ 64) × (done ≤ 4) }
        requires half { (got : List ℕ) × (seat.old.me.0.half ≡ Reading gate got) × (seat.old.me.0.slot ≡ slot)
            × Yields L.meets (way_at slot (way_of L.key L.prefers)) got words }
        requires lore { L.meets words }
        ensures seat { IsSeatOf self.now seat.new × (seat.new.id ≡ seat.old.id) }
        ensures call { Done (way_of L.key L.prefers) slot (Offered words result) 5 seat.old.me.0 seat.new.me.0 }
        ensures busy { result ≡ Store.Busy → ((known slot seat.new).low ≡ gate) × (gate < (known slot seat.new).high)
            × (stores (seen slot seat.new) ≡ (known slot seat.new).high / 2) }
    {
        let found = self.claim::<Brand>(seat, slot, words, gate);
        if found != gate {
            return Store::Busy;
        }
        pause.at(done + 1);
        self.scatter(seat, slot, words[0], words[1], words[2], done + 1, pause);
        self.publish::<Brand>(seat, slot, words, gate);
        Store::Stored
    }

    /// `store`, with a pause after each atomic step but the last.
    pub fn store_with<P: Pause>(
        &self,
        seat: &mut Seat,
        slot: usize,
        words: [u64; 3],
        pause: &mut P,
    ) -> Store
        requires seat { IsSeatOf self.now seat.old }
        requires slot { slot < slots_of self.now }
        requires lore { L.meets words }
        ensures seat { IsSeatOf self.now seat.new × (seat.new.id ≡ seat.old.id) }
        ensures call { Called (way_of L.key L.prefers) slot (Offered words result) seat.old seat.new }
        ensures busy { result ≡ Store.Busy → HasCause (way_of L.key L.prefers) L.meets self.now slot seat.old seat.new }
        ensures steps { steps seat.new ≤ steps seat.old + 9 }
        ensures odd_steps { slot % 2 ≡ 1 → steps seat.new ≤ steps seat.old + 6 }
    {
        let gate = self.offer::<Brand>(seat, slot, words);
        if gate % 2 == 1 {
            return Store::Busy;
        }
        if gate > u64::MAX - 3 {
            return Store::Worn;
        }
        pause.at(1);
        if slot % 2 == 1 {
            return self.put(seat, slot, words, gate, 1, pause);
        }
        let got = self.gather(seat, slot, pause);
        if L::stays(got, words) {
            let last = self.keep::<Brand>(seat, slot, words, got);
            return if last == gate {
                Store::Kept(got)
            } else {
                Store::Busy
            };
        }
        self.put(seat, slot, words, gate, 4, pause)
    }
}
