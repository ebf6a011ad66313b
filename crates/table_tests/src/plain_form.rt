//! The plain form by itself, and beside the lock-free one.
ghost use Rattle.std.specs.Prelude.{◌≡◌, ◌<◌, slice_index, All, IfSome};
ghost use Rattle.slots.specs.Promise.{slots_of, IsSeatOf};

use cell_slots::{CellSeat, CellSlots};
use slots::{Lore, MakeFault, Probe, Seat, Slots, Store};
use std::sync::Wait;
use std::test::Fail;
use std::thread;
use std::thread::Threads;

// Words whose first is above 0. The first two are the key, and the third is what stands under it. None are preferred.
struct Pairs;

impl Lore for Pairs {
    ghost use Rattle.std.specs.Prelude.{◌<◌, [], ◌∷◌, false, slice_index};
    ghost use Rattle.std.proofs.Common.{refl, rules};

    ghost meets = { λ w. 0 < slice_index w 0 };

    ghost key = { λ w. slice_index w 0 ∷ slice_index w 1 ∷ 0 ∷ [] };

    fn key_of(words: [u64; 3]) -> [u64; 3] {
        [words[0], words[1], 0]
    }

    ghost prefers = { λ _ _. false };

    fn prefers(_old: [u64; 3], _new: [u64; 3]) -> bool {
        false
    }

    ghost no_zeros_preferred = { λ _. refl };

    ghost no_zeros = { Prim.search rules };
}

const FIRST: [u64; 3] = [7, 1, 11];

const SECOND: [u64; 3] = [7, 2, 11];

// Stores the words into a slot, and tells whether they are stored.
fn takes<R: Wait>(
    rt: &R,
    table: &CellSlots<Pairs>,
    seat: &mut CellSeat,
    slot: usize,
    words: [u64; 3],
) -> bool
    requires slot { slot < table.now.len }
    requires seat { seat.old.table ≡ table.now.table }
    requires lore { 0 < slice_index words 0 }
    ensures { seat.new.table ≡ table.now.table }
{
    table.store(rt, seat, slot, words) == Store::Stored
}

// What a slot answers to the key of the words.
fn asked<R: Wait>(
    rt: &R,
    table: &CellSlots<Pairs>,
    seat: &mut CellSeat,
    slot: usize,
    words: [u64; 3],
) -> Probe
    requires slot { slot < table.now.len }
    requires seat { seat.old.table ≡ table.now.table }
    ensures { seat.new.table ≡ table.now.table }
{
    table.probe(rt, seat, slot, Pairs::key_of(words))
}

#[test]
fn one_slot_gives_back_what_was_stored(rt: HostRuntime) -> Result<(), Fail> {
    let (slots, mut seats) = CellSlots::<Pairs>::make(rt.alloc(), 1, 1)?;
    let mut seat = seats.pop().ok_or("no seat")?;
    assert_eq!(rt; asked(&rt, &slots, &mut seat, 0, FIRST), Probe::Vacant);
    assert!(rt; takes(&rt, &slots, &mut seat, 0, FIRST));
    assert_eq!(rt; asked(&rt, &slots, &mut seat, 0, FIRST), Probe::Hit(FIRST));
    assert_eq!(rt; asked(&rt, &slots, &mut seat, 0, SECOND), Probe::Other);
    assert!(rt; takes(&rt, &slots, &mut seat, 0, SECOND));
    assert_eq!(rt; asked(&rt, &slots, &mut seat, 0, FIRST), Probe::Other);
    assert_eq!(rt;
        asked(&rt, &slots, &mut seat, 0, SECOND),
        Probe::Hit(SECOND)
    );
    Ok(())
}

#[test]
fn a_seat_is_told_of_each_slot(rt: HostRuntime) -> Result<(), Fail> {
    let (slots, mut seats) = CellSlots::<Pairs>::make(rt.alloc(), 2, 2)?;
    assert_eq!(rt; slots.len(), 2);
    let mut second = seats.pop().ok_or("no seat")?;
    let mut first = seats.pop().ok_or("no seat")?;
    assert!(rt; takes(&rt, &slots, &mut first, 1, FIRST));
    assert!(rt; takes(&rt, &slots, &mut first, 0, SECOND));
    slots.tell(&rt, &mut second, first);
    assert_eq!(rt;
        asked(&rt, &slots, &mut second, 0, SECOND),
        Probe::Hit(SECOND)
    );
    assert_eq!(rt;
        asked(&rt, &slots, &mut second, 1, FIRST),
        Probe::Hit(FIRST)
    );
    Ok(())
}

#[test]
fn sizes_have_limits(rt: HostRuntime) -> Result<(), Fail> {
    for (slots, callers) in [(0, 1), (65, 1), (1, 0), (1, 18)] {
        let made = CellSlots::<Pairs>::make(rt.alloc(), slots, callers);
        assert!(rt; matches!(made, Err(MakeFault::Size)));
    }
    let (slots, seats) = CellSlots::<Pairs>::make(rt.alloc(), 64, 17)?;
    assert_eq!(rt; slots.len(), 64);
    assert_eq!(rt; seats.len(), 17);
    Ok(())
}

// One store and one probe by a thread of its own.
fn works<R: Wait>(rt: &R, table: &CellSlots<Pairs>, mut seat: CellSeat) -> (CellSeat, bool)
    requires slot { 0 < table.now.len }
    requires seat { seat.table ≡ table.now.table }
    ensures { result.0.table ≡ table.now.table }
{
    let stored = takes(rt, table, &mut seat, 0, FIRST);
    let found = asked(rt, table, &mut seat, 0, FIRST) == Probe::Hit(FIRST);
    (seat, stored && found)
}

fn by_two<R: Threads + Wait + Sync>(
    rt: &R,
    table: &CellSlots<Pairs>,
    first: CellSeat,
    second: CellSeat,
) -> (bool, bool, Probe)
    requires slot { 0 < table.now.len }
    requires first { first.table ≡ table.now.table }
    requires second { second.table ≡ table.now.table }
{
    let ((mut told, one), (other, two)) = thread::join(
        rt,
        move || -> (CellSeat, bool)
            requires { (0 < table.now.len) × (first.table ≡ table.now.table) }
            ensures { result.0.table ≡ table.entry.now.table }
        { works(rt, table, first) },
        move || -> (CellSeat, bool)
            requires { (0 < table.now.len) × (second.table ≡ table.now.table) }
            ensures { result.0.table ≡ table.entry.now.table }
        { works(rt, table, second) },
    );
    table.tell(rt, &mut told, other);
    (one, two, asked(rt, table, &mut told, 0, FIRST))
}

// Whether the system gives a thread: `join` makes its calls one after another where it doesn't.
fn starts_a_thread<R: Threads>(rt: &R) -> bool {
    match thread::spawn(rt, || 7u8) {
        Ok(child) => child.join(rt) == 7,
        Err(_) => false,
    }
}

#[test]
fn threads_share_a_table(rt: HostRuntime) -> Result<(), Fail> {
    assert!(rt; starts_a_thread(&rt));
    let (slots, mut seats) = CellSlots::<Pairs>::make(rt.alloc(), 1, 2)?;
    let second = seats.pop().ok_or("no seat")?;
    let first = seats.pop().ok_or("no seat")?;
    assert_eq!(rt;
        by_two(&rt, &slots, first, second),
        (true, true, Probe::Hit(FIRST))
    );
    Ok(())
}

// The same call on both tables: a store, or a probe of the key. It says whether both answered the same.
fn same_reply<R: Wait>(
    rt: &R,
    plain: &CellSlots<Pairs>,
    plain_seat: &mut CellSeat,
    free: &Slots<Pairs>,
    free_seat: &mut Seat,
    stores: bool,
    slot: usize,
    words: [u64; 3],
) -> bool
    requires seats { (plain_seat.old.table ≡ plain.now.table) × IsSeatOf free.now free_seat.old }
    requires slot { (slot < plain.now.len) × (slot < slots_of free.now) }
    requires lore { 0 < slice_index words 0 }
    ensures { (plain_seat.new.table ≡ plain.now.table) × IsSeatOf free.now free_seat.new }
{
    if stores {
        let one = plain.store(rt, plain_seat, slot, words);
        one == free.store(free_seat, slot, words)
    } else {
        let key = Pairs::key_of(words);
        let one = plain.probe(rt, plain_seat, slot, key);
        one == free.probe(free_seat, slot, key)
    }
}

// 2,000 calls at four slots. It counts those that both tables answered the same.
fn same_replies<R: Wait>(
    rt: &R,
    plain: &CellSlots<Pairs>,
    plain_seat: &mut CellSeat,
    free: &Slots<Pairs>,
    free_seat: &mut Seat,
) -> u64
    requires seats { (plain_seat.old.table ≡ plain.now.table) × IsSeatOf free.now free_seat.old }
    requires slots { (plain.now.len ≡ 4) × (slots_of free.now ≡ 4) }
    ensures { (plain_seat.new.table ≡ plain.now.table) × IsSeatOf free.now free_seat.new }
{
    let mut same = 0u64;
    for i in 0..2000u64 {
        let slot = (i / 3 % 4) as usize;
        let words = [1 + i / 12 % 2, i / 24 % 3, i];
        if same_reply(
            rt,
            plain,
            plain_seat,
            free,
            free_seat,
            i % 3 == 0,
            slot,
            words,
        ) {
            same = same.saturating_add(1);
        }
    }
    same
}

// The calls by one caller of each table, and again by another one who was told of them.
fn same_when_told<R: Wait>(
    rt: &R,
    plain: &CellSlots<Pairs>,
    plain_seats: (CellSeat, CellSeat),
    free: &Slots<Pairs>,
    free_seats: (Seat, Seat),
) -> (u64, u64)
    requires plain { (plain_seats.0.table ≡ plain.now.table) × (plain_seats.1.table ≡ plain.now.table) }
    requires free { IsSeatOf free.now free_seats.0 × IsSeatOf free.now free_seats.1 }
    requires slots { (plain.now.len ≡ 4) × (slots_of free.now ≡ 4) }
{
    let (mut plain_seat, mut plain_other) = plain_seats;
    let (mut free_seat, mut free_other) = free_seats;
    let first = same_replies(rt, plain, &mut plain_seat, free, &mut free_seat);
    plain.tell(rt, &mut plain_other, plain_seat);
    free.tell(&mut free_other, free_seat);
    let second = same_replies(rt, plain, &mut plain_other, free, &mut free_other);
    (first, second)
}

// The last seat, taken out.
fn last_seat(free: &Slots<Pairs>, seats: &mut Vec<Seat>) -> Option<Seat>
    requires { All (IsSeatOf free.now) seats.old.items }
    ensures seat { IfSome result (IsSeatOf free.now) }
    ensures rest { All (IsSeatOf free.now) seats.new.items }
{
    seats.pop()
}

#[test]
fn both_forms_answer_the_same(rt: HostRuntime) -> Result<(), Fail> {
    let (plain, mut plain_seats) = CellSlots::<Pairs>::make(rt.alloc(), 4, 2)?;
    let (free, mut free_seats) = Slots::<Pairs>::make(rt.alloc(), 4, 2)?;
    let plain_other = plain_seats.pop().ok_or("no seat")?;
    let plain_seat = plain_seats.pop().ok_or("no seat")?;
    let free_other = last_seat(&free, &mut free_seats).ok_or("no seat")?;
    let free_seat = last_seat(&free, &mut free_seats).ok_or("no seat")?;
    let same = same_when_told(
        &rt,
        &plain,
        (plain_seat, plain_other),
        &free,
        (free_seat, free_other),
    );
    assert_eq!(rt; same, (2000, 2000));
    Ok(())
}
