//! How many slots and callers a table takes, and what it is when it is given up.
ghost use Rattle.std.specs.Prelude.{◌<◌};
ghost use Rattle.slots.specs.Promise.{slots_of, IsSeatOf};

use crate::triples::Triples;
use slots::{MakeFault, Probe, Seat, Slots, Store};
use std::process::Abort;

#[test]
fn sizes_out_of_range(rt: HostRuntime) {
    for (slots, callers) in [(0, 1), (1_048_577, 1), (1, 0), (1, 18)] {
        let Err(fault) = Slots::<Triples>::make(rt.alloc(), slots, callers) else {
            panic!(rt; "made")
        };
        assert!(rt; fault == MakeFault::Size);
    }
}

fn last_slot(rt: &impl Abort, slots: &Slots<Triples>, mut seat: Seat)
    requires seat { IsSeatOf slots.now seat }
    requires room { 0 < slots_of slots.now }
{
    let last = slots.len() - 1;
    assert!(rt; slots.probe(&mut seat, last, [1, 0, 0]) == Probe::Vacant);
    assert!(rt; slots.store(&mut seat, last, [5, 6, 7]) == Store::Stored);
    assert!(rt; slots.probe(&mut seat, last, [1, 0, 0]) == Probe::Hit([5, 6, 7]));
}

#[test]
fn the_least_and_the_greatest_size(rt: HostRuntime) {
    for (slots, callers) in [(1, 1), (1_048_576, 17)] {
        let Ok(made) = Slots::<Triples>::make(rt.alloc(), slots, callers) else {
            panic!(rt; "not made")
        };
        let (table, mut seats) = made;
        assert!(rt; table.len() == slots && seats.len() == callers);
        let Some(seat) = seats.pop() else {
            panic!(rt; "no seat")
        };
        last_slot(&rt, &table, seat);
    }
}

// A store, and the four words of its slot at the end.
fn given_up(slots: Slots<Triples>, mut seat: Seat) -> [u64; 4]
    requires seat { IsSeatOf slots seat }
    requires room { 1 < slots_of slots }
{
    slots.store(&mut seat, 1, [5, 6, 7]);
    slots.store(&mut seat, 1, [6, 7, 8]);
    slots.close(seat, 1)
}

#[test]
fn a_table_is_given_up(rt: HostRuntime) {
    let Ok(made) = Slots::<Triples>::make(rt.alloc(), 2, 1) else {
        panic!(rt; "not made")
    };
    let (slots, mut seats) = made;
    let Some(seat) = seats.pop() else {
        panic!(rt; "no seat")
    };
    assert!(rt; given_up(slots, seat) == [4, 6, 7, 8]);
}
