//! Asking a slot for an entry.
ghost use Rattle.std.specs.Prelude.{◌≡◌, ◌+◌, ◌<◌, ◌≤◌};
ghost use Rattle.slots.specs.declared.calls.Act.TheVariants.{Asked};
ghost use Rattle.slots.specs.Steps.{IsProbeReply, HitFits};
ghost use Rattle.slots.specs.Promise.{way_of, slots_of, steps, IsSeatOf, Called, HasCause};

use crate::calls::Probe;
use crate::lore::Lore;
use crate::pause::{NoPause, Pause};
use crate::table::{Seat, Slots};
use std::alloc::Allocator;
use std::marker::Brand;

// The answer that three whole words give.
fn reply_to<L: Lore>(key: [u64; 3], got: [u64; 3]) -> Probe
    ensures { IsProbeReply L.key got (Asked key result) }
{
    if got == [0, 0, 0] {
        Probe::Vacant
    } else if L::key_of(got) == key {
        Probe::Hit(got)
    } else {
        Probe::Other
    }
}

impl<L: Lore, A: Allocator> Slots<L, A> {
    /// Whether an entry with the key stands in the slot. It takes no lock, and tries once.
    pub fn probe(&self, seat: &mut Seat, slot: usize, key: [u64; 3]) -> Probe
        requires seat { IsSeatOf self.now seat.old }
        requires slot { slot < slots_of self.now }
        ensures seat { IsSeatOf self.now seat.new × (seat.new.id ≡ seat.old.id) }
        ensures call { Called (way_of L.key L.prefers) slot (Asked key result) seat.old seat.new }
        ensures hit { HitFits L.key L.meets (Asked key result) }
        ensures busy { result ≡ Probe.Busy → HasCause (way_of L.key L.prefers) L.meets self.now slot seat.old seat.new }
        ensures steps { steps seat.new ≤ steps seat.old + 5 }
    {
        self.probe_with(seat, slot, key, &mut NoPause)
    }

    /// `probe`, with a pause after each atomic step but the last.
    pub fn probe_with<P: Pause>(
        &self,
        seat: &mut Seat,
        slot: usize,
        key: [u64; 3],
        pause: &mut P,
    ) -> Probe
        requires seat { IsSeatOf self.now seat.old }
        requires slot { slot < slots_of self.now }
        ensures seat { IsSeatOf self.now seat.new × (seat.new.id ≡ seat.old.id) }
        ensures call { Called (way_of L.key L.prefers) slot (Asked key result) seat.old seat.new }
        ensures hit { HitFits L.key L.meets (Asked key result) }
        ensures busy { result ≡ Probe.Busy → HasCause (way_of L.key L.prefers) L.meets self.now slot seat.old seat.new }
        ensures steps { steps seat.new ≤ steps seat.old + 5 }
    {
        let gate = self.begin::<Brand>(seat, slot, key);
        if gate % 2 == 1 {
            return Probe::Busy;
        }
        pause.at(1);
        let got = self.gather(seat, slot, pause);
        let reply = reply_to::<L>(key, got);
        let last = self.look::<Brand>(seat, slot, key, reply);
        if last == gate { reply } else { Probe::Busy }
    }
}
