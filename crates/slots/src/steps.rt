//! One function for each kind of atomic step, and the reads and writes of three words.
ghost use Rattle.std.specs.Prelude.{◌≡◌, ℕ, ◌+◌, ◌^◌, ◌<◌, ◌≤◌, ◌%◌, [], ◌∷◌, length, true, List};
ghost use Rattle.slots.specs.declared.calls.Act.TheVariants.{Asked, Offered};
ghost use Rattle.slots.specs.declared.views.Half.TheVariants.{Reading, Writing};
ghost use Rattle.slots.specs.Steps.{begun, offered, read, looked, claimed, written, published, confirmed, Along, IsProbeReply, IsWhole, Yields};
ghost use Rattle.slots.specs.Rule.{way_at, after_telling};
ghost use Rattle.slots.specs.Promise.{way_of, slots_of, IsTaken, IsSeatOf};

use crate::calls::{Probe, Store};
use crate::lore::Lore;
use crate::pause::Pause;
use crate::plays::{Begin, Claim, Confirm, Look, Offer, Publish, Read, Tell, Told, Write};
use crate::table::{Seat, Slots};
use std::alloc::Allocator;

impl<L: Lore, A: Allocator> Slots<L, A> {
    // Reads the gate, to begin a probe.
    pub(crate) fn begin<K: Told>(&self, seat: &mut Seat, slot: usize, key: [u64; 3]) -> u64
        requires told { (K.slot ≡ slot) × (K.busy ≡ Asked key Probe.Busy) }
        requires seat { IsSeatOf self.now seat.old × (slot < slots_of self.now) }
        ensures seat { IsTaken self.now seat.new × (seat.new.id ≡ seat.old.id) }
        ensures step { begun (way_of L.key L.prefers) slot (Asked key Probe.Busy) seat.old.me result seat.new.me }
    {
        self.table.shared.load::<Begin<K, L>>(seat, 4 * slot)
    }

    // Reads the gate, to begin a store.
    pub(crate) fn offer<K: Told>(&self, seat: &mut Seat, slot: usize, words: [u64; 3]) -> u64
        requires told { (K.slot ≡ slot) × (K.busy ≡ Offered words Store.Busy) × (K.done ≡ Offered words Store.Worn) }
        requires seat { IsSeatOf self.now seat.old × (slot < slots_of self.now) }
        ensures seat { IsTaken self.now seat.new × (seat.new.id ≡ seat.old.id) }
        ensures step { offered (way_of L.key L.prefers) slot (Offered words Store.Busy)
            (Offered words Store.Worn) seat.old.me result seat.new.me }
    {
        self.table.shared.load::<Offer<K, L>>(seat, 4 * slot)
    }

    // Reads one word.
    pub(crate) fn read(&self, seat: &mut Seat, slot: usize, i: usize) -> u64
        requires seat { IsTaken self.now seat.old × (slot < slots_of self.now) × (i < 3) }
        requires half { (at : ℕ) × (got : List ℕ) × (seat.old.me.0.half ≡ Reading at got)
            × (seat.old.me.0.slot ≡ slot) × (length got ≡ i) }
        ensures seat { IsTaken self.now seat.new × (seat.new.id ≡ seat.old.id) }
        ensures step { read seat.old.me result seat.new.me }
    {
        self.table.shared.load::<Read>(seat, 4 * slot + 1 + i)
    }

    // Reads the gate again, to end a probe with the reply.
    pub(crate) fn look<K: Told>(
        &self,
        seat: &mut Seat,
        slot: usize,
        key: [u64; 3],
        reply: Probe,
    ) -> u64
        requires told { (K.busy ≡ Asked key Probe.Busy) × (K.done ≡ Asked key reply) }
        requires seat { IsTaken self.now seat.old × (slot < slots_of self.now) }
        requires half { (at : ℕ) × (got : List ℕ) × (seat.old.me.0.half ≡ Reading at got)
            × (seat.old.me.0.slot ≡ slot) × (length got ≡ 3) × IsProbeReply L.key got (Asked key reply) }
        ensures seat { (seat.new.table_id ≡ seat.old.table_id) × (seat.new.id ≡ seat.old.id) }
        ensures step { looked (way_of L.key L.prefers) L.meets (Asked key Probe.Busy)
            (Asked key reply) seat.old.me result seat.new.me }
    {
        self.table.shared.load::<Look<K, L>>(seat, 4 * slot)
    }

    // Reads the gate again, to end a store where the words that stand are preferred.
    pub(crate) fn keep<K: Told>(
        &self,
        seat: &mut Seat,
        slot: usize,
        words: [u64; 3],
        got: [u64; 3],
    ) -> u64
        requires told { (K.busy ≡ Offered words Store.Busy) × (K.done ≡ Offered words (Store.Kept got)) }
        requires seat { IsTaken self.now seat.old × (slot < slots_of self.now) × (slot % 2 ≡ 0)
            × (IsWhole L.meets got → L.prefers got words ≡ true) }
        requires half { (at : ℕ) × (seat.old.me.0.half ≡ Reading at got) × (seat.old.me.0.slot ≡ slot)
            × (length got ≡ 3) }
        ensures seat { (seat.new.table_id ≡ seat.old.table_id) × (seat.new.id ≡ seat.old.id) }
        ensures step { looked (way_of L.key L.prefers) L.meets (Offered words Store.Busy)
            (Offered words (Store.Kept got)) seat.old.me result seat.new.me }
    {
        self.table.shared.load::<Look<K, L>>(seat, 4 * slot)
    }

    // Tries once to exchange the gate for the next number, which is odd.
    pub(crate) fn claim<K: Told>(
        &self,
        seat: &mut Seat,
        slot: usize,
        words: [u64; 3],
        gate: u64,
    ) -> u64
        requires told { K.busy ≡ Offered words Store.Busy }
        requires seat { IsTaken self.now seat.old × (slot < slots_of self.now) × (gate + 1 < 2 ^ 64) }
        requires half { (got : List ℕ) × (seat.old.me.0.half ≡ Reading gate got) × (seat.old.me.0.slot ≡ slot) }
        ensures seat { (seat.new.table_id ≡ seat.old.table_id) × (seat.new.id ≡ seat.old.id) }
        ensures step { claimed (way_of L.key L.prefers) (Offered words Store.Busy)
            gate (gate + 1) seat.old.me result seat.new.me }
    {
        self.table
            .shared
            .compare_exchange::<Claim<K, L>>(seat, 4 * slot, gate, gate + 1)
    }

    // Writes one word, under the claim.
    pub(crate) fn write(&self, seat: &mut Seat, slot: usize, i: usize, word: u64)
        requires seat { IsTaken self.now seat.old × (slot < slots_of self.now) × (i < 3) }
        requires half { (at : ℕ) × (stood : List ℕ) × (put : List ℕ) × (seat.old.me.0.half ≡ Writing at stood put)
            × (seat.old.me.0.slot ≡ slot) × (length put ≡ i) }
        ensures seat { IsTaken self.now seat.new × (seat.new.id ≡ seat.old.id) }
        ensures step { written word seat.old.me seat.new.me }
    {
        self.table
            .shared
            .store::<Write>(seat, 4 * slot + 1 + i, word);
    }

    // Writes the gate, two above its number before the claim, and so ends a store.
    pub(crate) fn publish<K: Told>(&self, seat: &mut Seat, slot: usize, words: [u64; 3], gate: u64)
        requires told { K.done ≡ Offered words Store.Stored }
        requires seat { IsTaken self.now seat.old × (slot < slots_of self.now) × (gate + 2 < 2 ^ 64) }
        requires half { (stood : List ℕ) × (seat.old.me.0.half ≡ Writing (gate + 1) stood words)
            × (seat.old.me.0.slot ≡ slot) × Yields L.meets (way_at slot (way_of L.key L.prefers)) stood words × L.meets words
            × (length words ≡ 3) }
        ensures seat { (seat.new.table_id ≡ seat.old.table_id) × (seat.new.id ≡ seat.old.id) }
        ensures step { published (way_of L.key L.prefers) (Offered words Store.Stored) seat.old.me seat.new.me }
    {
        self.table
            .shared
            .store::<Publish<K, L>>(seat, 4 * slot, gate + 2);
    }

    // The first seat takes in what the second one has seen, and the second is spent.
    pub(crate) fn join(&self, seat: &mut Seat, other: Seat)
        requires { IsSeatOf self.now seat.old × IsSeatOf self.now other }
        ensures seat { IsSeatOf self.now seat.new × (seat.new.id ≡ seat.old.id) }
        ensures step { seat.new.me.0 ≡ after_telling seat.old.me.0 other.me.0 }
    {
        self.table.shared.join_seat::<Tell>(seat, other);
    }

    // Reads a word, for what the rule then says to the seat.
    pub(crate) fn confirm(&self, seat: &mut Seat)
        requires { IsSeatOf self.now seat.old }
        ensures seat { IsSeatOf self.now seat.new × (seat.new.id ≡ seat.old.id) }
        ensures step { confirmed (way_of L.key L.prefers) seat.old.me seat.new.me }
    {
        self.table.shared.load::<Confirm<L>>(seat, 0);
    }

    // The three words, with a pause after each.
    pub(crate) fn gather<P: Pause>(&self, seat: &mut Seat, slot: usize, pause: &mut P) -> [u64; 3]
        requires seat { IsTaken self.now seat.old × (slot < slots_of self.now) }
        requires half { (at : ℕ) × (seat.old.me.0.half ≡ Reading at []) × (seat.old.me.0.slot ≡ slot) }
        ensures seat { IsTaken self.now seat.new × (seat.new.id ≡ seat.old.id) × (length result ≡ 3) }
        ensures half { (at : ℕ) → seat.old.me.0.half ≡ Reading at []
            → Along slot 3 (Reading at result) seat.old.me.0 seat.new.me.0 }
    {
        let first = self.read(seat, slot, 0);
        pause.at(2);
        let second = self.read(seat, slot, 1);
        pause.at(3);
        let third = self.read(seat, slot, 2);
        pause.at(4);
        [first, second, third]
    }

    // Writes three words, with a pause after each.
    pub(crate) fn scatter<P: Pause>(
        &self,
        seat: &mut Seat,
        slot: usize,
        first: u64,
        second: u64,
        third: u64,
        done: u8,
        pause: &mut P,
    )
        requires seat { IsTaken self.now seat.old × (slot < slots_of self.now) × (done ≤ 5) }
        requires half { (at : ℕ) × (stood : List ℕ) × (seat.old.me.0.half ≡ Writing at stood [])
            × (seat.old.me.0.slot ≡ slot) }
        ensures seat { IsTaken self.now seat.new × (seat.new.id ≡ seat.old.id) }
        ensures half { (at : ℕ) (stood : List ℕ) → seat.old.me.0.half ≡ Writing at stood []
            → Along slot 3 (Writing at stood (first ∷ second ∷ third ∷ [])) seat.old.me.0 seat.new.me.0 }
    {
        self.write(seat, slot, 0, first);
        pause.at(done + 1);
        self.write(seat, slot, 1, second);
        pause.at(done + 2);
        self.write(seat, slot, 2, third);
        pause.at(done + 3);
    }
}
