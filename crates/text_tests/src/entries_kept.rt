//! Entries in a table of one slot.
ghost use Rattle.std.specs.Prelude.{◌≡◌, ◌<◌, ◌^◌, IfSome, None};
ghost use Rattle.slots.specs.Promise.{slots_of, IsSeatOf, AllNew};
ghost use Rattle.entry.specs.Bounds.{bounds_of};

use board::{Position, Side, read_fen};
use entry::{Entry, Interval, MateLore, key_of, pack};
use moves::Goal;
use slots::{Probe, Seat, Slots, Store};
use std::process::Abort;

/// Stores an entry that says nothing, so a true one.
fn store(slots: &Slots<MateLore>, seat: &mut Seat, entry: &Entry) -> Store
    requires seat { IsSeatOf slots.now seat.old }
    requires room { 0 < slots_of slots.now }
    requires nothing { entry.now.interval ≡ bounds_of 0 None }
    ensures { IsSeatOf slots.now seat.new }
{
    slots.store(seat, 0, pack(entry))
}

fn entry_of(position: Position) -> Entry
    ensures { result.interval ≡ bounds_of 0 None }
{
    Entry {
        position,
        attacker: Side::White,
        goal: Goal::Mate,
        interval: Interval {
            below: 0,
            upto: None,
        },
    }
}

fn calls_in_turn(
    rt: &impl Abort,
    slots: &Slots<MateLore>,
    mut seat: Seat,
    here: Position,
    there: Position,
)
    requires seat { IsSeatOf slots.now seat }
    requires room { 0 < slots_of slots.now }
{
    let first = entry_of(here);
    let second = entry_of(there);
    let key = key_of(pack(&first));
    let other = key_of(pack(&second));
    assert!(rt; slots.probe(&mut seat, 0, key) == Probe::Vacant);
    assert!(rt; store(slots, &mut seat, &first) == Store::Stored);
    assert!(rt;
        slots.probe(&mut seat, 0, key) == Probe::Hit([0x8000000000100000, 0, 0x00FF000007000000])
    );
    assert!(rt; slots.probe(&mut seat, 0, other) == Probe::Other);
    assert!(rt; store(slots, &mut seat, &second) == Store::Stored);
    assert!(rt; slots.probe(&mut seat, 0, key) == Probe::Other);
    assert!(rt;
        slots.probe(&mut seat, 0, other) == Probe::Hit([0x8000000000100000, 0, 0x00FF000070000000])
    );
    assert!(rt;
        store(slots, &mut seat, &second) == Store::Kept([0x8000000000100000, 0, 0x00FF000070000000])
    );
}

// The last seat, taken out.
fn last_seat(slots: &Slots<MateLore>, seats: &mut Vec<Seat>) -> Option<Seat>
    requires { AllNew slots.now seats.old.items }
    ensures { IfSome result (λ s. IsSeatOf slots.now s) }
{
    seats.pop()
}

#[test]
fn one_slot(rt: HostRuntime) {
    let Ok(here) = read_fen(b"k5/6/6/6/6/5K w") else {
        panic!(rt; "no position")
    };
    let Ok(there) = read_fen(b"1k4/6/6/6/6/5K w") else {
        panic!(rt; "no position")
    };
    let Ok(made) = Slots::<MateLore>::make(rt.alloc(), 1, 1) else {
        panic!(rt; "no memory")
    };
    let (slots, mut seats) = made;
    let Some(seat) = last_seat(&slots, &mut seats) else {
        panic!(rt; "no seat")
    };
    calls_in_turn(&rt, &slots, seat, here, there);
}
