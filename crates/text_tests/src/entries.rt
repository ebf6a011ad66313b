//! Worked examples.

use board::{Position, Side, read_fen};
use entry::{Entry, Interval, MateLore, key_of, meet, pack, pack_board, prefers, slot_of, unpack};
use moves::{Board, Goal};
use slots::Lore;
use std::process::Abort;

const FIRST: [u64; 3] = [0x8000000000100000, 0, 0x00FF000007000000];

const SECOND: [u64; 3] = [0x8004000000000000, 0x0001000060000010, 0x0001000000000007];

fn position(rt: &impl Abort, text: &str) -> Position {
    let Ok(position) = read_fen(text.as_bytes()) else {
        panic!(rt; "no position")
    };
    position
}

fn entry(rt: &impl Abort, text: &str, goal: Goal, interval: Interval) -> Entry {
    Entry {
        position: position(rt, text),
        attacker: Side::White,
        goal,
        interval,
    }
}

const UNKNOWN: Interval = Interval {
    below: 0,
    upto: None,
};

const ONE: Interval = Interval {
    below: 1,
    upto: Some(1),
};

#[test]
fn packings(rt: HostRuntime) {
    let first = entry(&rt, "k5/6/6/6/6/5K w", Goal::Mate, UNKNOWN);
    assert!(rt; pack(&first) == FIRST);
    let second = entry(&rt, "k4/2P2/1K3/5/5 w", Goal::Mate, ONE);
    assert!(rt; pack(&second) == SECOND);
    let stale = Interval {
        below: 0,
        upto: Some(1),
    };
    let third = entry(&rt, "k5/6/2K3/6/6/1R4 w", Goal::MateOrStale, stale);
    assert!(rt; pack(&third) == [0x8008000000000030, 0x0000000100000000, 0x0001000007000000]);
    let black = Entry {
        attacker: Side::Black,
        ..entry(&rt, "k5/6/6/6/6/5K b", Goal::Mate, UNKNOWN)
    };
    assert!(rt; pack(&black) == [0x8003000000100000, 0, 0x00FF000007000000]);
}

#[test]
fn packed_boards(rt: HostRuntime) {
    let board = Board::of(&position(&rt, "k4/2P2/1K3/5/5 w"));
    assert!(rt; pack_board(&board, Side::White, Goal::Mate, ONE) == SECOND);
    let stale = pack_board(&board, Side::Black, Goal::MateOrStale, UNKNOWN);
    assert!(rt; stale == [0x800E000000000000, 0x0000000060000010, 0x00FF000000000007]);
}

fn is_packing(words: [u64; 3]) -> bool {
    match unpack(words) {
        Some(entry) => pack(&entry) == words,
        None => false,
    }
}

#[test]
fn words(rt: HostRuntime) {
    assert!(rt; is_packing(FIRST));
    assert!(rt; is_packing(SECOND));
    assert!(rt; is_packing([0x8000000000000030, 0x0003000100000000, 0x0003000007000000]));
    assert!(rt; !is_packing([0, 0, 0]));
    assert!(rt; !is_packing([0x0000000000100000, FIRST[1], FIRST[2]]));
    assert!(rt; !is_packing([SECOND[0], 0x0002000060000010, SECOND[2]]));
    // a bit that is always 0, a code above 12, a square that the board does not have, and an end of 64
    assert!(rt; !is_packing([0x8010000000100000, FIRST[1], FIRST[2]]));
    assert!(rt; !is_packing([FIRST[0], 0x0100000000000000, FIRST[2]]));
    assert!(rt; !is_packing([FIRST[0], 0xD, FIRST[2]]));
    assert!(rt; !is_packing([SECOND[0], SECOND[1], 0x0001000000200007]));
    assert!(rt; !is_packing([FIRST[0], FIRST[1], 0x0040000007000000]));
}

#[test]
fn keys(rt: HostRuntime) {
    assert!(rt; key_of(FIRST) == [0x8000000000100000, 0, 0x0000000007000000]);
    assert!(rt; key_of(SECOND) == [0x8004000000000000, 0x0000000060000010, 0x0000000000000007]);
    assert!(rt; slot_of(&FIRST, 64) == 58);
    assert!(rt; slot_of(&FIRST, 1) == 0);
    assert!(rt; slot_of(&FIRST, 1_048_576) == 805_050);
    assert!(rt; slot_of(&key_of(FIRST), 1_048_576) == 805_050);
}

#[test]
fn meetings(rt: HostRuntime) {
    let late = Interval {
        below: 2,
        upto: None,
    };
    let early = Interval {
        below: 0,
        upto: Some(3),
    };
    let both = Interval {
        below: 2,
        upto: Some(3),
    };
    assert!(rt; meet(late, early) == both);
    assert!(rt; meet(early, late) == both);
    assert!(rt; meet(UNKNOWN, ONE) == ONE);
}

#[test]
fn preferences(rt: HostRuntime) {
    let known = [0x8000000000000030, 0x0003000100000000, 0x0003000007000000];
    let less = [0x8000000000000030, 0x0000000100000000, 0x0003000007000000];
    assert!(rt; prefers(known, FIRST) && prefers(known, known) && prefers(known, less));
    assert!(rt; !prefers(FIRST, known) && !prefers(less, known));
    assert!(rt; !prefers([0, 0, 0], FIRST) && !prefers(known, [0, 0, 0]));
    // codes above 12, under intervals that would be preferred
    let stray = [0x8000000000000030, 0x000300010000000D, 0x0003000007000000];
    assert!(rt; !prefers(stray, stray) && !prefers(stray, FIRST));
    assert!(rt; !prefers(known, [FIRST[0], 0xD, FIRST[2]]));
    assert!(rt;
        !prefers(known, [0, 1, 0])
            && MateLore::prefers(known, FIRST)
            && !MateLore::prefers(FIRST, known)
    );
}

#[test]
fn stays_as_preferred(rt: HostRuntime) {
    let known = [0x8000000000000030, 0x0003000100000000, 0x0003000007000000];
    let less = [0x8000000000000030, 0x0000000100000000, 0x0003000007000000];
    assert!(rt;
        MateLore::stays(known, FIRST)
            && MateLore::stays(known, known)
            && MateLore::stays(known, less)
    );
    assert!(rt; !MateLore::stays(FIRST, known) && !MateLore::stays(less, known));
    assert!(rt; !MateLore::stays([0, 0, 0], FIRST) && !MateLore::stays([0, 0, 0], known));
}
