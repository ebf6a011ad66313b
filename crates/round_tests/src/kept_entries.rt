//! That all threads and all rounds of a solve use one table.
ghost use Rattle.std.specs.Prelude.{◌≡◌, ◌<◌, None};
ghost use Rattle.slots.specs.Promise.{slots_of, IsSeatOf};
ghost use Rattle.entry.specs.Bounds.{bounds_of};

use crate::beginnings::comes_above;
use crate::solves::{expected, solved};
use board::{Position, Side, read_fen};
use entry::{Entry, Interval, MateLore, key_of, pack};
use moves::Goal;
use searcher::Gate;
use slots::{Probe, Seat, Slots};
use std::process::Abort;
use std::sync::atomic::{AtomicBool, AtomicU64, Ordering};
use std::test::*;

// An entry that says nothing of a position, so a true one.
pub(crate) fn entry_of(position: Position) -> Entry
    ensures { result.interval ≡ bounds_of 0 None }
{
    Entry {
        position,
        attacker: Side::White,
        goal: Goal::Mate,
        interval: Interval {
            below: 0,
            upto: None,
        },
    }
}

fn store(slots: &Slots<MateLore>, seat: &mut Seat, entry: &Entry)
    requires seat { IsSeatOf slots.now seat.old }
    requires nothing { entry.now.interval ≡ bounds_of 0 None }
    ensures { IsSeatOf slots.now seat.new }
{
    let _count = slots.len();
    slots.store(seat, 0, pack(entry));
}

// Whether the first slot is vacant.
fn is_vacant(slots: &Slots<MateLore>, seat: &mut Seat, entry: &Entry) -> bool
    requires { IsSeatOf slots.now seat.old }
    ensures { IsSeatOf slots.now seat.new }
{
    let _count = slots.len();
    slots.probe(seat, 0, key_of(pack(entry))) == Probe::Vacant
}

// A position that isn't reached, of two kings.
fn two_kings(rt: &impl Abort) -> Position {
    let Ok(position) = read_fen(b"k5/6/6/6/6/5K w") else {
        panic!(rt; "no position")
    };
    position
}

// The first job begun in round 1 stores an entry and is held until a second one of that round has begun,
// which waits for the entry.
#[derive(Drop)]
struct Stores {
    position: Position,
    begun: AtomicU64,
    stored: AtomicU64,
    gave_up: AtomicBool,
    vacant: AtomicBool,
}

impl Gate for Stores {
    fn begin(&self, round: u8, _job: u16, slots: &Slots<MateLore>, seat: &mut Seat) {
        if round != 1 {
            return;
        }
        let entry = entry_of(self.position);
        if self.begun.fetch_add(1, Ordering::SeqCst) == 0 {
            store(slots, seat, &entry);
            self.stored.store(1, Ordering::SeqCst);
            if !comes_above(&self.begun, 1) {
                self.gave_up.store(true, Ordering::SeqCst);
            }
            return;
        }
        if !comes_above(&self.stored, 0) {
            self.gave_up.store(true, Ordering::SeqCst);
        }
        if is_vacant(slots, seat, &entry) {
            self.vacant.store(true, Ordering::SeqCst);
        }
    }
}

#[test]
fn all_threads_use_one_table(rt: HostRuntime) {
    let gate = Stores {
        position: two_kings(&rt),
        begun: AtomicU64::new(0),
        stored: AtomicU64::new(0),
        gave_up: AtomicBool::new(false),
        vacant: AtomicBool::new(false),
    };
    assert!(rt; solved(&rt, rt.alloc(), 2, 1, &gate) == expected());
    assert!(rt; gate.begun.load(Ordering::SeqCst) == 17);
    assert!(rt; !gate.gave_up.load(Ordering::SeqCst));
    assert!(rt; !gate.vacant.load(Ordering::SeqCst));
}

// Each job begun in round 3 looks whether round 1 has left nothing in the slot.
#[derive(Drop)]
struct Probes {
    position: Position,
    probed: AtomicU64,
    vacant: AtomicBool,
}

impl Gate for Probes {
    fn begin(&self, round: u8, _job: u16, slots: &Slots<MateLore>, seat: &mut Seat) {
        if round != 3 {
            return;
        }
        self.probed.fetch_add(1, Ordering::SeqCst);
        if is_vacant(slots, seat, &entry_of(self.position)) {
            self.vacant.store(true, Ordering::SeqCst);
        }
    }
}

#[test]
fn all_rounds_use_one_table(rt: HostRuntime) {
    let gate = Probes {
        position: two_kings(&rt),
        probed: AtomicU64::new(0),
        vacant: AtomicBool::new(false),
    };
    assert!(rt; solved(&rt, rt.alloc(), 2, 1, &gate) == expected());
    assert!(rt; gate.probed.load(Ordering::SeqCst) >= 16);
    assert!(rt; !gate.vacant.load(Ordering::SeqCst));
}

// Whether nothing stands in any slot.
fn are_all_vacant(slots: &Slots<MateLore>, seat: &mut Seat, entry: &Entry) -> bool
    requires { IsSeatOf slots.now seat.old }
    ensures { IsSeatOf slots.now seat.new }
{
    let mut vacant = true;
    for slot in 0..slots.len() {
        let found = slots.probe(seat, slot, key_of(pack(entry)));
        vacant = vacant && found == Probe::Vacant;
    }
    vacant
}

// The first job begun looks into each slot. All others are held until it has looked.
#[derive(Drop)]
struct Looks {
    position: Position,
    begun: AtomicU64,
    looked: AtomicU64,
    gave_up: AtomicBool,
    vacant: AtomicBool,
}

impl Gate for Looks {
    fn begin(&self, _round: u8, _job: u16, slots: &Slots<MateLore>, seat: &mut Seat) {
        if self.begun.fetch_add(1, Ordering::SeqCst) == 0 {
            let vacant = are_all_vacant(slots, seat, &entry_of(self.position));
            self.vacant.store(vacant, Ordering::SeqCst);
            self.looked.store(1, Ordering::SeqCst);
        } else if !comes_above(&self.looked, 0) {
            self.gave_up.store(true, Ordering::SeqCst);
        }
    }
}

// A decision stores, so a gate that is told of a job after it would find something there.
#[test]
fn a_job_is_begun_before_it_is_decided(rt: HostRuntime) {
    for workers in [1, 4] {
        let gate = Looks {
            position: two_kings(&rt),
            begun: AtomicU64::new(0),
            looked: AtomicU64::new(0),
            gave_up: AtomicBool::new(false),
            vacant: AtomicBool::new(false),
        };
        assert!(rt; solved(&rt, rt.alloc(), workers, 64, &gate) == expected());
        assert!(rt; !gate.gave_up.load(Ordering::SeqCst));
        assert!(rt; gate.vacant.load(Ordering::SeqCst));
    }
}
