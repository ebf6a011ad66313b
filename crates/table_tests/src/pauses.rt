//! How often a pause is called.
ghost use Rattle.std.specs.Prelude.{◌<◌};
ghost use Rattle.slots.specs.Promise.{slots_of, IsSeatOf};

use crate::triples::Triples;
use slots::{Pause, Probe, Seat, Slots, Store};
use std::process::Abort;

// How often it was told a number, and whether each was the next one from 1 on.
#[derive(Drop)]
struct Count {
    calls: u8,
    in_order: bool,
}

impl Pause for Count {
    fn at(&mut self, done: u8) {
        self.calls = self.calls.saturating_add(1);
        self.in_order = self.in_order && done == self.calls;
    }
}

fn none_yet() -> Count {
    Count {
        calls: 0,
        in_order: true,
    }
}

fn counted_store(rt: &impl Abort, slots: &Slots<Triples>, seat: &mut Seat, slot: usize, most: u8)
    requires seat { IsSeatOf slots.now seat.old }
    requires room { slot < slots_of slots.now }
    ensures { IsSeatOf slots.now seat.new }
{
    let mut count = none_yet();
    assert!(rt; slots.store_with(seat, slot, [5, 6, 7], &mut count) == Store::Stored);
    assert!(rt; count.in_order && count.calls == most);
}

fn counted(rt: &impl Abort, slots: &Slots<Triples>, mut seat: Seat)
    requires seat { IsSeatOf slots.now seat }
    requires room { 1 < slots_of slots.now }
{
    counted_store(rt, slots, &mut seat, 0, 8);
    counted_store(rt, slots, &mut seat, 1, 5);
    let mut probe = none_yet();
    assert!(rt; slots.probe_with(&mut seat, 0, [1, 0, 0], &mut probe) == Probe::Hit([5, 6, 7]));
    assert!(rt; probe.in_order && probe.calls == 4);
    let mut kept = none_yet();
    assert!(rt; slots.store_with(&mut seat, 0, [4, 5, 6], &mut kept) == Store::Kept([5, 6, 7]));
    assert!(rt; kept.in_order && kept.calls == 4);
}

#[test]
fn a_pause_comes_after_each_step_but_the_last(rt: HostRuntime) {
    let Ok((slots, mut seats)) = Slots::<Triples>::make(rt.alloc(), 2, 1) else {
        panic!(rt; "not made")
    };
    let Some(seat) = seats.pop() else {
        panic!(rt; "no seat")
    };
    counted(&rt, &slots, seat);
}
