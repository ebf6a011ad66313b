//! A caller who is held after each of its atomic steps, while another one probes and stores.
ghost use Rattle.std.specs.Prelude.{◌≡◌, ◌≢◌, ◌<◌, slice_index};
ghost use Rattle.slots.specs.Promise.{slots_of, IsSeatOf};

use crate::bounded::{Bounded, EXACT, LOOSE, OTHER, PLAIN};
use crate::replay::is_run;
use slots::{Act, Lore, Pause, Probe, Seat, Slots, Store};
use std::alloc::Global;
use std::process::Abort;

// The other caller, who probes the key of `PLAIN`, or doesn't, and then offers words after so many steps of the first one.
#[derive(Drop)]
struct Meddler<'a> {
    slots: &'a Slots<Bounded>,
    seat: Seat,
    slot: usize,
    words: [u64; 3],
    after: u8,
    probes: bool,
    probed: Option<Probe>,
    stored: Option<Store>,
    ghost seated: { IsSeatOf slots.now seat },
    ghost room: { slot < slots_of slots.now },
    ghost lore: { slice_index words 0 ≢ 0 },
}

impl Meddler<'_> {
    fn probe(&mut self) -> Probe {
        self.slots
            .probe(&mut self.seat, self.slot, Bounded::key_of(PLAIN))
    }

    fn store(&mut self) -> Store {
        self.slots.store(&mut self.seat, self.slot, self.words)
    }
}

impl Pause for Meddler<'_> {
    fn at(&mut self, done: u8) {
        if done == self.after {
            if self.probes {
                self.probed = Some(self.probe());
            }
            self.stored = Some(self.store());
        }
    }
}

// What the callers were answered: the other one while the first was held, the first one, and the other one afterwards.
#[derive(Drop, PartialEq, Eq)]
struct Answers<T> {
    probed: Option<Probe>,
    stored: Option<Store>,
    held: T,
    next: Probe,
}

fn hold_store(
    slots: &Slots<Bounded>,
    mut seat: Seat,
    other: Seat,
    slot: usize,
    words: [u64; 3],
    after: u8,
) -> Answers<Store>
    requires first { IsSeatOf slots.now seat }
    requires second { IsSeatOf slots.now other }
    requires room { slot < slots_of slots.now }
    requires lore { slice_index words 0 ≢ 0 }
{
    let mut meddler = Meddler {
        slots,
        seat: other,
        slot,
        words,
        after,
        probes: true,
        probed: None,
        stored: None,
    };
    let held = slots.store_with(&mut seat, slot, PLAIN, &mut meddler);
    let next = meddler.probe();
    Answers {
        probed: meddler.probed,
        stored: meddler.stored,
        held,
        next,
    }
}

// A store of `PLAIN` into a slot of two, held after so many steps while the other caller offers the words.
fn held_store(
    rt: &impl Abort,
    alloc: Global,
    slot: usize,
    words: [u64; 3],
    after: u8,
) -> Answers<Store>
    requires room { slot < 2 }
    requires lore { slice_index words 0 ≢ 0 }
{
    let Ok((slots, mut seats)) = Slots::<Bounded>::make(alloc, 2, 2) else {
        panic!(rt; "not made")
    };
    let Some(seat) = seats.pop() else {
        panic!(rt; "no seat")
    };
    let Some(other) = seats.pop() else {
        panic!(rt; "one seat")
    };
    hold_store(&slots, seat, other, slot, words, after)
}

// The other caller came before the claim.
fn comes_first(rt: &impl Abort, alloc: Global, slot: usize, after: u8)
    requires { slot < 2 }
{
    let answers = held_store(rt, alloc, slot, OTHER, after);
    let wanted = Answers {
        probed: Some(Probe::Vacant),
        stored: Some(Store::Stored),
        held: Store::Busy,
        next: Probe::Other,
    };
    assert!(rt; answers == wanted);
    let key = Bounded::key_of(PLAIN);
    assert!(rt;
        is_run(
            slot % 2 == 0,
            &[
                Act::Asked(key, Probe::Vacant),
                Act::Offered(OTHER, Store::Stored),
                Act::Offered(PLAIN, Store::Busy),
                Act::Asked(key, Probe::Other),
            ]
        )
    );
}

// The other caller came under the claim.
fn comes_between(rt: &impl Abort, alloc: Global, slot: usize, words: [u64; 3], after: u8)
    requires room { slot < 2 }
    requires lore { slice_index words 0 ≢ 0 }
{
    let answers = held_store(rt, alloc, slot, words, after);
    let wanted = Answers {
        probed: Some(Probe::Busy),
        stored: Some(Store::Busy),
        held: Store::Stored,
        next: Probe::Hit(PLAIN),
    };
    assert!(rt; answers == wanted);
    let key = Bounded::key_of(PLAIN);
    assert!(rt;
        is_run(
            slot % 2 == 0,
            &[
                Act::Asked(key, Probe::Busy),
                Act::Offered(words, Store::Busy),
                Act::Offered(PLAIN, Store::Stored),
                Act::Asked(key, Probe::Hit(PLAIN)),
            ]
        )
    );
}

#[test]
fn a_store_is_held_in_an_odd_slot(rt: HostRuntime) {
    comes_first(&rt, rt.alloc(), 1, 1);
    for after in 2..6 {
        comes_between(&rt, rt.alloc(), 1, OTHER, after);
    }
}

#[test]
fn a_store_is_held_in_an_even_slot(rt: HostRuntime) {
    for after in 1..5 {
        comes_first(&rt, rt.alloc(), 0, after);
    }
    for after in 5..9 {
        comes_between(&rt, rt.alloc(), 0, OTHER, after);
    }
}

#[test]
fn the_same_entry_is_offered_under_a_claim(rt: HostRuntime) {
    comes_between(&rt, rt.alloc(), 1, PLAIN, 2);
}

// A probe of a stored entry, held after so many steps while the other caller offers words, with a probe before or with none. And its next probe.
fn hold_probe(
    slots: &Slots<Bounded>,
    mut seat: Seat,
    other: Seat,
    slot: usize,
    after: u8,
    probes: bool,
) -> Answers<Probe>
    requires first { IsSeatOf slots.now seat }
    requires second { IsSeatOf slots.now other }
    requires room { slot < slots_of slots.now }
{
    slots.store(&mut seat, slot, PLAIN);
    let mut meddler = Meddler {
        slots,
        seat: other,
        slot,
        words: OTHER,
        after,
        probes,
        probed: None,
        stored: None,
    };
    let held = slots.probe_with(&mut seat, slot, Bounded::key_of(PLAIN), &mut meddler);
    let next = slots.probe(&mut seat, slot, Bounded::key_of(PLAIN));
    Answers {
        probed: meddler.probed,
        stored: meddler.stored,
        held,
        next,
    }
}

fn held_probe(
    rt: &impl Abort,
    alloc: Global,
    slot: usize,
    after: u8,
    probes: bool,
) -> Answers<Probe>
    requires { slot < 2 }
{
    let Ok((slots, mut seats)) = Slots::<Bounded>::make(alloc, 2, 2) else {
        panic!(rt; "not made")
    };
    let Some(seat) = seats.pop() else {
        panic!(rt; "no seat")
    };
    let Some(other) = seats.pop() else {
        panic!(rt; "one seat")
    };
    hold_probe(&slots, seat, other, slot, after, probes)
}

// The other caller's store came before the probe's second read of the gate.
fn store_comes_between(rt: &impl Abort, alloc: Global, slot: usize, after: u8, probes: bool)
    requires { slot < 2 }
{
    let answers = held_probe(rt, alloc, slot, after, probes);
    let wanted = Answers {
        probed: if probes {
            Some(Probe::Hit(PLAIN))
        } else {
            None
        },
        stored: Some(Store::Stored),
        held: Probe::Busy,
        next: Probe::Other,
    };
    assert!(rt; answers == wanted);
}

// No store came before it.
fn no_store_comes(rt: &impl Abort, alloc: Global, slot: usize)
    requires { slot < 2 }
{
    let answers = held_probe(rt, alloc, slot, 5, false);
    let wanted = Answers {
        probed: None,
        stored: None,
        held: Probe::Hit(PLAIN),
        next: Probe::Hit(PLAIN),
    };
    assert!(rt; answers == wanted);
}

#[test]
fn a_probe_is_held(rt: HostRuntime) {
    for slot in 0..2 {
        for after in 1..5 {
            store_comes_between(&rt, rt.alloc(), slot, after, false);
            store_comes_between(&rt, rt.alloc(), slot, after, true);
        }
        no_store_comes(&rt, rt.alloc(), slot);
    }
}

#[test]
fn the_calls_round_a_held_probe_are_a_run(rt: HostRuntime) {
    let key = Bounded::key_of(PLAIN);
    for even in [true, false] {
        assert!(rt;
            is_run(
                even,
                &[
                    Act::Offered(PLAIN, Store::Stored),
                    Act::Asked(key, Probe::Hit(PLAIN)),
                    Act::Offered(OTHER, Store::Stored),
                    Act::Asked(key, Probe::Busy),
                    Act::Asked(key, Probe::Other),
                ]
            )
        );
    }
}

// A store of words that aren't preferred, held after so many steps while the other caller offers words of another key.
fn hold_kept(
    slots: &Slots<Bounded>,
    mut seat: Seat,
    other: Seat,
    words: [u64; 3],
    after: u8,
) -> (Store, Option<Store>)
    requires first { IsSeatOf slots.now seat }
    requires second { IsSeatOf slots.now other }
    requires room { 0 < slots_of slots.now }
    requires lore { slice_index words 0 ≢ 0 }
{
    slots.store(&mut seat, 0, EXACT);
    let mut meddler = Meddler {
        slots,
        seat: other,
        slot: 0,
        words,
        after,
        probes: true,
        probed: None,
        stored: None,
    };
    let held = slots.store_with(&mut seat, 0, LOOSE, &mut meddler);
    (held, meddler.stored)
}

fn held_kept(rt: &impl Abort, alloc: Global, words: [u64; 3], after: u8) -> (Store, Option<Store>)
    requires { slice_index words 0 ≢ 0 }
{
    let Ok((slots, mut seats)) = Slots::<Bounded>::make(alloc, 1, 2) else {
        panic!(rt; "not made")
    };
    let Some(seat) = seats.pop() else {
        panic!(rt; "no seat")
    };
    let Some(other) = seats.pop() else {
        panic!(rt; "one seat")
    };
    hold_kept(&slots, seat, other, words, after)
}

#[test]
fn a_store_is_held_over_preferred_words(rt: HostRuntime) {
    let heavier = [0x8000000000000031, 0, 4 << 48];
    for after in 1..5 {
        assert!(rt;
            held_kept(&rt, rt.alloc(), heavier, after) == (Store::Busy, Some(Store::Stored))
        );
        assert!(rt;
            held_kept(&rt, rt.alloc(), PLAIN, after)
                == (Store::Kept(EXACT), Some(Store::Kept(EXACT)))
        );
    }
    assert!(rt; held_kept(&rt, rt.alloc(), PLAIN, 5) == (Store::Kept(EXACT), None));
}
