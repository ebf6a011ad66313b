//! The calls over memory of the host, too little of it, and memory that is with somebody else.
ghost use Rattle.lent_memory.specs.Ownership.{IsMemorySize};

use crate::{page_after, page_check, page_fault, page_keys, page_moves, page_solve, page_tree};
use calls::SearchTerms;
use lent_memory::{Lent, Region};
use std::alloc::Global;
use std::process::Abort;
use std::test::Fail;

const ROOK_MATES_IN_THREE: &[u8] = b"k5/6/2K3/6/6/1R4 w";

const PAWN_PROMOTES: &[u8] = b"k5/2P3/6/6/6/5K w";

const ENOUGH: usize = 131072;

const fn mate_within(limit: u32) -> SearchTerms {
    SearchTerms {
        stale: false,
        limit,
        slots: 64,
    }
}

/// Memory that the host gives.
fn lent(rt: &impl Abort, alloc: Global, size: usize) -> Region
    requires { IsMemorySize size }
{
    Region::taken(&alloc, size).expect(rt, "memory")
}

#[test]
fn solves_into_the_room(rt: HostRuntime) {
    let mut room = [7u8; 14];
    let count = page_solve(
        lent(&rt, rt.alloc(), ENOUGH),
        ROOK_MATES_IN_THREE,
        mate_within(3),
        &mut room,
    );
    assert_eq!(rt; count, 12);
    assert_eq!(rt; &room, b"mate 3 c4c5\n\x07\x07");
}

// Such a table takes some MiB, so the arena has all that is lent.
#[test]
fn lends_all_to_the_table(rt: HostRuntime) {
    let terms = SearchTerms {
        stale: false,
        limit: 3,
        slots: 100_000,
    };
    let mut room = [7u8; 18];
    let memory = lent(&rt, rt.alloc(), 33_554_432);
    let count = page_solve(memory, ROOK_MATES_IN_THREE, terms, &mut room);
    assert_eq!(rt; count, 12);
    assert_eq!(rt; &room, b"mate 3 c4c5\n\x07\x07\x07\x07\x07\x07");
}

#[test]
fn writes_a_tree_into_the_room(rt: HostRuntime) {
    let mut room = [7u8; 18];
    let count = page_tree(
        lent(&rt, rt.alloc(), ENOUGH),
        ROOK_MATES_IN_THREE,
        mate_within(3),
        &mut room,
    );
    assert_eq!(rt; count, 17);
    assert_eq!(rt; &room, b"c4c5{a6a5:b1a1#}\n\x07");
}

#[test]
fn checks_a_tree(rt: HostRuntime) {
    let mut room = [7u8; 8];
    let tree = b"c4c5{a6a5:b1a1#}".as_slice();
    let count = page_check(
        lent(&rt, rt.alloc(), ENOUGH),
        ROOK_MATES_IN_THREE,
        false,
        tree,
        &mut room,
    );
    assert_eq!(rt; count, 6);
    assert_eq!(rt; &room, b"yes 3\n\x07\x07");
}

#[test]
fn lists_moves(rt: HostRuntime) {
    let mut room = [7u8; 33];
    let count = page_moves(lent(&rt, rt.alloc(), ENOUGH), PAWN_PROMOTES, &mut room);
    assert_eq!(rt; count, 33);
    assert_eq!(rt; &room, b"f1e1\nf1e2\nf1f2\nc5c6q\nc5c6r\nc5c6n\n");
}

#[test]
fn lists_all_keys(rt: HostRuntime) {
    let mut room = [7u8; 18];
    let mate = b"k4/2P2/1K3/5/5 w".as_slice();
    let count = page_keys(
        lent(&rt, rt.alloc(), ENOUGH),
        mate,
        mate_within(1),
        &mut room,
    );
    assert_eq!(rt; count, 16);
    assert_eq!(rt; &room, b"c4c5q 1\nc4c5r 1\n\x07\x07");
}

#[test]
fn plays_a_move(rt: HostRuntime) {
    let mut room = [7u8; 18];
    let promoted = b"c5c6q".as_slice();
    let count = page_after(
        lent(&rt, rt.alloc(), ENOUGH),
        PAWN_PROMOTES,
        promoted,
        &mut room,
    );
    assert_eq!(rt; count, 18);
    assert_eq!(rt; &room, b"k1Q3/6/6/6/6/5K b\n");
}

#[test]
fn tells_a_fault(rt: HostRuntime) {
    let mut room = [7u8; 15];
    assert_eq!(rt;
        page_fault(lent(&rt, rt.alloc(), ENOUGH), PAWN_PROMOTES, &mut room),
        0
    );
    assert_eq!(rt; room[0], 7);
    let count = page_moves(
        lent(&rt, rt.alloc(), ENOUGH),
        b"6/6/1K4/6/6/K4R w".as_slice(),
        &mut room,
    );
    assert_eq!(rt; count, 15);
    assert_eq!(rt; &room, b"refused: Kings\n");
}

#[test]
fn is_refused_for_want_of_memory(rt: HostRuntime) {
    let mut room = [7u8; 18];
    let count = page_solve(
        lent(&rt, rt.alloc(), 16),
        ROOK_MATES_IN_THREE,
        mate_within(3),
        &mut room,
    );
    assert_eq!(rt; count, 18);
    assert_eq!(rt; &room, b"refused: NoMemory\n");
}

#[test]
fn memory_is_with_one_at_a_time(rt: HostRuntime) -> Result<(), Fail> {
    let memory = Lent::new(lent(&rt, rt.alloc(), 64));
    assert_eq!(rt; memory.size(), 64);
    let mut first: Vec<u8, &Lent> = Vec::with_capacity(&memory, 48)?;
    first.push(1)?;
    let second: Result<Vec<u8, &Lent>, _> = Vec::with_capacity(&memory, 1);
    assert!(rt; second.is_err());
    drop(first);
    let mut third: Vec<u8, &Lent> = Vec::with_capacity(&memory, 64)?;
    third.push(2)?;
    assert_eq!(rt; third[0], 2);
    Ok(())
}
