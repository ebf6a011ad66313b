//! Four threads over two slots.
ghost use Rattle.std.specs.Prelude.{◌+◌, ◌*◌, ◌<◌, ◌≤◌, ◌^◌, All, IfSome};
ghost use Rattle.slots.specs.Promise.{slots_of, IsSeatOf};

use crate::triples::Triples;
use slots::{Probe, Seat, Slots};
use std::alloc::Global;
use std::thread::{Threads, join, spawn};

const TURNS: u64 = 5000;

// A whole triple with the key, that one of the four threads stores.
fn is_stored(key: u64, found: [u64; 3]) -> bool {
    let x = found[0];
    let whole = found[1] == x.wrapping_add(1) && found[2] == x.wrapping_add(2);
    let first = x % 8;
    let stored = 1 <= first && first <= 4 && x < 8 * TURNS;
    x % 4 == key && whole && stored
}

// The hits of some threads, and those among them that no thread stored.
#[derive(Drop, PartialEq, Eq)]
struct Tally {
    hits: u64,
    wrong: u64,
}

fn both(one: Tally, other: Tally) -> Tally {
    Tally {
        hits: one.hits.saturating_add(other.hits),
        wrong: one.wrong.saturating_add(other.wrong),
    }
}

// A store and a probe in turn, 10,000 calls in all.
fn hammer(slots: &Slots<Triples>, mut seat: Seat, first: u64) -> Tally
    requires seat { IsSeatOf slots.now seat }
    requires room { 1 < slots_of slots.now }
    requires first { (0 < first) × (first ≤ 4) }
{
    let mut hits = 0u64;
    let mut wrong = 0u64;
    for i in 0..TURNS {
        let x = first + 8 * i;
        let slot = if i % 2 == 0 { 0 } else { 1 };
        slots.store(&mut seat, slot, [x, x + 1, x + 2]);
        if let Probe::Hit(found) = slots.probe(&mut seat, slot, [i % 4, 0, 0]) {
            hits = hits.saturating_add(1);
            if !is_stored(i % 4, found) {
                wrong = wrong.saturating_add(1);
            }
        }
    }
    Tally { hits, wrong }
}

fn two<R: Threads + Sync>(
    rt: &R,
    slots: &Slots<Triples>,
    one: Seat,
    other: Seat,
    first: u64,
) -> Tally
    requires seats { IsSeatOf slots.now one × IsSeatOf slots.now other }
    requires room { 1 < slots_of slots.now }
    requires first { (0 < first) × (first ≤ 3) }
{
    let (a, b) = join(
        rt,
        move || -> Tally
            requires { IsSeatOf slots.now one × (1 < slots_of slots.now) × (0 < first) × (first ≤ 3) }
        { hammer(slots, one, first) },
        move || -> Tally
            requires { IsSeatOf slots.now other × (1 < slots_of slots.now) × (0 < first) × (first ≤ 3) }
        { hammer(slots, other, first + 1) },
    );
    both(a, b)
}

fn four<R: Threads + Sync>(
    rt: &R,
    slots: &Slots<Triples>,
    one: Seat,
    other: Seat,
    third: Seat,
    fourth: Seat,
) -> Tally
    requires seats { IsSeatOf slots.now one × IsSeatOf slots.now other × IsSeatOf slots.now third
        × IsSeatOf slots.now fourth }
    requires room { 1 < slots_of slots.now }
{
    let (a, b) = join(
        rt,
        move || -> Tally
            requires { IsSeatOf slots.now one × IsSeatOf slots.now other × (1 < slots_of slots.now) }
        { two(rt, slots, one, other, 1) },
        move || -> Tally
            requires { IsSeatOf slots.now third × IsSeatOf slots.now fourth × (1 < slots_of slots.now) }
        { two(rt, slots, third, fourth, 3) },
    );
    both(a, b)
}

// The last seat, taken out.
fn last_seat(slots: &Slots<Triples>, seats: &mut Vec<Seat>) -> Option<Seat>
    requires { All (IsSeatOf slots.now) seats.old.items }
    ensures seat { IfSome result (IsSeatOf slots.now) }
    ensures rest { All (IsSeatOf slots.now) seats.new.items }
{
    seats.pop()
}

fn four_threads<R: Threads + Sync>(rt: &R, alloc: Global) -> Option<Tally> {
    let Ok((slots, mut seats)) = Slots::<Triples>::make(alloc, 2, 4) else {
        return None;
    };
    let one = last_seat(&slots, &mut seats)?;
    let other = last_seat(&slots, &mut seats)?;
    let third = last_seat(&slots, &mut seats)?;
    let fourth = last_seat(&slots, &mut seats)?;
    Some(four(rt, &slots, one, other, third, fourth))
}

// Whether the system gives a thread: `join` makes its calls one after another where it doesn't.
fn starts_a_thread<R: Threads>(rt: &R) -> bool {
    match spawn(rt, || 7u8) {
        Ok(thread) => thread.join(rt) == 7,
        Err(_) => false,
    }
}

#[test]
fn each_hit_is_one_whole_triple(rt: HostRuntime) {
    assert!(rt; starts_a_thread(&rt));
    let Some(tally) = four_threads(&rt, rt.alloc()) else {
        panic!(rt; "not made")
    };
    assert!(rt; tally.hits > 0 && tally.wrong == 0);
}
