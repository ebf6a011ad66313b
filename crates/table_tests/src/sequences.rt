//! Calls of callers who take turns.
ghost use Rattle.std.specs.Prelude.{◌≡◌, ◌<◌, ◌++◌, [], ◌∷◌};
ghost use Rattle.slots.specs.declared.calls.Act.TheVariants.{Offered};
ghost use Rattle.slots.specs.Machine.{call};
ghost use Rattle.slots.specs.Promise.{slots_of, number, all_mine, IsSeatOf};

use crate::bounded::{Bounded, EXACT, LOOSE, OTHER, PLAIN};
use slots::{Lore, Probe, Seat, Slots, Store};
use std::process::Abort;

fn one_entry(rt: &impl Abort, slots: &Slots<Bounded>, mut seat: Seat)
    requires seat { IsSeatOf slots.now seat }
    requires room { 0 < slots_of slots.now }
{
    assert!(rt; slots.probe(&mut seat, 0, Bounded::key_of(PLAIN)) == Probe::Vacant);
    assert!(rt; slots.store(&mut seat, 0, PLAIN) == Store::Stored);
    assert!(rt; slots.probe(&mut seat, 0, Bounded::key_of(PLAIN)) == Probe::Hit(PLAIN));
    assert!(rt; slots.probe(&mut seat, 0, Bounded::key_of(OTHER)) == Probe::Other);
}

fn entry_after_entry(rt: &impl Abort, slots: &Slots<Bounded>, mut seat: Seat)
    requires seat { IsSeatOf slots.now seat }
    requires room { 0 < slots_of slots.now }
{
    assert!(rt; slots.store(&mut seat, 0, PLAIN) == Store::Stored);
    assert!(rt; slots.store(&mut seat, 0, OTHER) == Store::Stored);
    assert!(rt; slots.probe(&mut seat, 0, Bounded::key_of(PLAIN)) == Probe::Other);
    assert!(rt; slots.probe(&mut seat, 0, Bounded::key_of(OTHER)) == Probe::Hit(OTHER));
}

#[test]
fn a_slot_holds_the_last_entry(rt: HostRuntime) {
    let Ok((slots, mut seats)) = Slots::<Bounded>::make(rt.alloc(), 1, 1) else {
        panic!(rt; "not made")
    };
    let Some(seat) = seats.pop() else {
        panic!(rt; "no seat")
    };
    one_entry(&rt, &slots, seat);
    let Ok((slots, mut seats)) = Slots::<Bounded>::make(rt.alloc(), 1, 1) else {
        panic!(rt; "not made")
    };
    let Some(seat) = seats.pop() else {
        panic!(rt; "no seat")
    };
    entry_after_entry(&rt, &slots, seat);
}

fn stores_in_turn(rt: &impl Abort, slots: &Slots<Bounded>, mut seat: Seat)
    requires seat { IsSeatOf slots.now seat }
    requires room { 1 < slots_of slots.now }
{
    assert!(rt; slots.store(&mut seat, 0, PLAIN) == Store::Stored);
    assert!(rt; slots.store(&mut seat, 0, EXACT) == Store::Stored);
    assert!(rt; slots.store(&mut seat, 0, PLAIN) == Store::Kept(EXACT));
    assert!(rt; slots.store(&mut seat, 0, EXACT) == Store::Kept(EXACT));
    assert!(rt; slots.store(&mut seat, 0, LOOSE) == Store::Kept(EXACT));
    assert!(rt; slots.store(&mut seat, 1, EXACT) == Store::Stored);
    assert!(rt; slots.store(&mut seat, 1, PLAIN) == Store::Stored);
}

#[test]
fn preferred_words_stay_in_even_slots(rt: HostRuntime) {
    let Ok((slots, mut seats)) = Slots::<Bounded>::make(rt.alloc(), 2, 1) else {
        panic!(rt; "not made")
    };
    let Some(seat) = seats.pop() else {
        panic!(rt; "no seat")
    };
    stores_in_turn(&rt, &slots, seat);
}

// Two stores at two slots. The seat's own calls then stand in the order in which they were made.
fn two_stores(slots: &Slots<Bounded>, seat: &mut Seat) -> (Store, Store)
    requires seat { IsSeatOf slots.now seat.old }
    requires room { 1 < slots_of slots.now }
    ensures seat { IsSeatOf slots.now seat.new }
    ensures order { all_mine seat.new ≡ (all_mine seat.old ++ call 1 (number seat.old) (Offered PLAIN result.0) ∷ [])
        ++ call 0 (number seat.old) (Offered EXACT result.1) ∷ [] }
{
    let first = slots.store(seat, 1, PLAIN);
    let second = slots.store(seat, 0, EXACT);
    (first, second)
}

fn told_of_both(rt: &impl Abort, slots: &Slots<Bounded>, mut one: Seat, mut two: Seat)
    requires one { IsSeatOf slots.now one }
    requires two { IsSeatOf slots.now two }
    requires room { 1 < slots_of slots.now }
{
    assert!(rt; two_stores(slots, &mut one) == (Store::Stored, Store::Stored));
    slots.tell(&mut two, one);
    assert!(rt; slots.probe(&mut two, 0, Bounded::key_of(EXACT)) == Probe::Hit(EXACT));
    assert!(rt; slots.probe(&mut two, 1, Bounded::key_of(PLAIN)) == Probe::Hit(PLAIN));
}

#[test]
fn a_caller_is_told_of_both_slots(rt: HostRuntime) {
    let Ok((slots, mut seats)) = Slots::<Bounded>::make(rt.alloc(), 2, 2) else {
        panic!(rt; "not made")
    };
    let Some(one) = seats.pop() else {
        panic!(rt; "no seat")
    };
    let Some(two) = seats.pop() else {
        panic!(rt; "one seat")
    };
    told_of_both(&rt, &slots, one, two);
}
