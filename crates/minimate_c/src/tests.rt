//! The calls on worked positions, and rooms that are too small for a reply or just large enough.
ghost use Rattle.std.specs.Prelude.{◌≡◌};

use crate::{
    First, SolverHandle, StopHandle, Win, minimate_after, minimate_check, minimate_fault,
    minimate_keys, minimate_moves, minimate_solve, minimate_solver_close, minimate_solver_keys,
    minimate_solver_open, minimate_solver_solve, minimate_solver_tree, minimate_stop_close,
    minimate_stop_place, minimate_stop_set, minimate_tree,
};
use solver::Place;
use std::process::Abort;
use std::test::Fail;

const ROOK_MATES_IN_THREE: &[u8] = b"k5/6/2K3/6/6/1R4 w";

const PAWN_PROMOTES: &[u8] = b"k5/2P3/6/6/6/5K w";

#[test]
fn solves_into_the_room(rt: HostRuntime) {
    let mut room = [7u8; 14];
    let count = minimate_solve(rt.alloc(), ROOK_MATES_IN_THREE, false, 3, 64, &mut room);
    assert_eq!(rt; count, 12);
    assert_eq!(rt; &room, b"mate 3 c4c5\n\x07\x07");
    let count = minimate_solve(rt.alloc(), ROOK_MATES_IN_THREE, true, 3, 64, &mut room);
    assert_eq!(rt; count, 12);
    assert_eq!(rt; &room, b"goal 1 b1b5\n\x07\x07");
}

#[test]
fn writes_a_tree_into_the_room(rt: HostRuntime) {
    let mut room = [7u8; 18];
    let count = minimate_tree(rt.alloc(), ROOK_MATES_IN_THREE, false, 3, 64, &mut room);
    assert_eq!(rt; count, 17);
    assert_eq!(rt; &room, b"c4c5{a6a5:b1a1#}\n\x07");
}

#[test]
fn checks_a_tree(rt: HostRuntime) {
    let mut room = [7u8; 8];
    let tree = b"c4c5{a6a5:b1a1#}".as_slice();
    let count = minimate_check(rt.alloc(), ROOK_MATES_IN_THREE, false, tree, &mut room);
    assert_eq!(rt; count, 6);
    assert_eq!(rt; &room, b"yes 3\n\x07\x07");
    let stale = b"b1b5=".as_slice();
    let count = minimate_check(rt.alloc(), ROOK_MATES_IN_THREE, false, stale, &mut room);
    assert_eq!(rt; count, 3);
    assert_eq!(rt; &room, b"no\n 3\n\x07\x07");
}

#[test]
fn lists_moves(rt: HostRuntime) {
    let mut room = [7u8; 33];
    let count = minimate_moves(rt.alloc(), PAWN_PROMOTES, &mut room);
    assert_eq!(rt; count, 33);
    assert_eq!(rt; &room, b"f1e1\nf1e2\nf1f2\nc5c6q\nc5c6r\nc5c6n\n");
}

#[test]
fn lists_all_keys(rt: HostRuntime) {
    let mut room = [7u8; 18];
    let mate = b"k4/2P2/1K3/5/5 w".as_slice();
    let count = minimate_keys(rt.alloc(), mate, false, 1, 64, &mut room);
    assert_eq!(rt; count, 16);
    assert_eq!(rt; &room, b"c4c5q 1\nc4c5r 1\n\x07\x07");
    let count = minimate_keys(rt.alloc(), ROOK_MATES_IN_THREE, false, 1, 64, &mut room);
    assert_eq!(rt; count, 14);
    assert_eq!(rt; &room, b"none within 1\n1\n\x07\x07");
}

#[test]
fn plays_a_move(rt: HostRuntime) {
    let mut room = [7u8; 18];
    let promoted = b"c5c6q".as_slice();
    let count = minimate_after(rt.alloc(), PAWN_PROMOTES, promoted, &mut room);
    assert_eq!(rt; count, 18);
    assert_eq!(rt; &room, b"k1Q3/6/6/6/6/5K b\n");
    let unnamed = b"c5c6".as_slice();
    let count = minimate_after(rt.alloc(), PAWN_PROMOTES, unnamed, &mut room);
    assert_eq!(rt; count, 14);
    assert_eq!(rt; &room, b"refused: Move\nK b\n");
}

#[test]
fn tells_a_fault(rt: HostRuntime) {
    let mut room = [7u8; 128];
    assert_eq!(rt; minimate_fault(rt.alloc(), PAWN_PROMOTES, &mut room), 0);
    assert_eq!(rt; room[0], 7);
    let count = minimate_fault(rt.alloc(), b"6/6/1K4/6/6/K4R w".as_slice(), &mut room);
    let told =
        b"refused: Kings\nerror: each side has one king, K and k: here are 2 K and 0 k\n".as_slice();
    assert_eq!(rt; count, told.len());
    assert_eq!(rt; &room[..told.len()], told);
}

#[test]
fn leaves_a_room_that_is_too_small(rt: HostRuntime) {
    let mut room = [7u8; 11];
    let count = minimate_solve(rt.alloc(), ROOK_MATES_IN_THREE, false, 3, 64, &mut room);
    assert_eq!(rt; count, usize::MAX);
    assert_eq!(rt; &room, &[7u8; 11]);
}

#[test]
fn says_why_there_is_no_answer(rt: HostRuntime) {
    let mut room = [7u8; 16];
    let count = minimate_tree(rt.alloc(), ROOK_MATES_IN_THREE, false, 64, 64, &mut room);
    assert_eq!(rt; count, 15);
    assert_eq!(rt; &room, b"refused: Limit\n\x07");
    let count = minimate_moves(rt.alloc(), b"k5/6/2K3/6/6/1R4".as_slice(), &mut room);
    assert_eq!(rt; count, 16);
    assert_eq!(rt; &room, b"refused: Fields\n");
}

/// The king a1 has two lawful moves, to b1 and a2, since a pawn guards b2.
const NONE_MATES: &[u8] = b"2k2/2p2/2p2/3pp/K4 w";

/// c4c5, which mates in three plies.
const KEY: First = First {
    from_file: 2,
    from_rank: 3,
    to_file: 2,
    to_rank: 4,
    promotion: 0,
};

const NOTHING: Win = Win {
    plies: 0,
    first: First {
        from_file: 0,
        from_rank: 0,
        to_file: 0,
        to_rank: 0,
        promotion: 0,
    },
};

/// A solver over 64 slots, and what stops it.
fn opened<R: Abort + AllocGlobal>(rt: &R) -> (SolverHandle, StopHandle) {
    let mut solver = SolverHandle::none(rt.alloc());
    let mut stop = StopHandle::none(rt.alloc());
    assert_eq!(rt;
        minimate_solver_open(rt.alloc(), &mut solver, &mut stop, 64),
        0
    );
    (solver, stop)
}

/// How far the solver's search is, or was: nothing is forced within so many plies, and of so many moves so many are tried.
fn place_of<R: Abort + AllocGlobal>(rt: &R, stop: &mut StopHandle) -> (u32, u32, u32) {
    let mut place = Place {
        none_within: 99,
        tried: 99,
        moves: 99,
    };
    assert_eq!(rt; minimate_stop_place(rt.alloc(), stop, &mut place), 0);
    (place.none_within, place.tried, place.moves)
}

#[test]
fn a_solver_answers_in_numbers(rt: HostRuntime) {
    let (mut solver, mut stop) = opened(&rt);
    assert_eq!(rt; place_of(&rt, &mut stop), (0, 0, 0));
    let mut found = NOTHING;
    let third = ROOK_MATES_IN_THREE;
    let number = minimate_solver_solve(rt.alloc(), &mut solver, third, false, 3, &mut found);
    assert_eq!(rt; number, 0);
    assert_eq!(rt; found.plies, 3);
    assert!(rt; found.first == KEY);
    // of 17 moves fifteen come before the one that mates
    assert_eq!(rt; place_of(&rt, &mut stop), (2, 15, 17));
    let number = minimate_solver_solve(rt.alloc(), &mut solver, third, false, 1, &mut found);
    assert_eq!(rt; number, 1);
    assert_eq!(rt; found.plies, 3);
    let number = minimate_solver_solve(rt.alloc(), &mut solver, third, false, 64, &mut found);
    assert_eq!(rt; number, 3);
    let unfinished = b"k5/6/2K3/6/6/1R4".as_slice();
    let number = minimate_solver_solve(rt.alloc(), &mut solver, unfinished, false, 3, &mut found);
    assert_eq!(rt; number, 2);
}

#[test]
fn a_solver_writes_keys_and_a_tree(rt: HostRuntime) {
    let (mut solver, _stop) = opened(&rt);
    let mut room = [7u8; 20];
    let mut length = 99;
    let third = ROOK_MATES_IN_THREE;
    let number = minimate_solver_keys(
        rt.alloc(),
        &mut solver,
        third,
        false,
        3,
        &mut room,
        &mut length,
    );
    assert_eq!(rt; number, 0);
    assert_eq!(rt; length, 7);
    assert_eq!(rt; &room[..8], b"c4c5 3\n\x07".as_slice());
    let number = minimate_solver_tree(
        rt.alloc(),
        &mut solver,
        third,
        false,
        3,
        &mut room,
        &mut length,
    );
    assert_eq!(rt; number, 0);
    assert_eq!(rt; length, 17);
    assert_eq!(rt; &room[..18], b"c4c5{a6a5:b1a1#}\n\x07".as_slice());
}

#[test]
fn a_solver_stops_until_it_may_go_on(rt: HostRuntime) {
    let (mut solver, mut stop) = opened(&rt);
    let mut found = NOTHING;
    assert_eq!(rt; minimate_stop_set(rt.alloc(), &mut stop, true), 0);
    let number = minimate_solver_solve(rt.alloc(), &mut solver, NONE_MATES, false, 9, &mut found);
    assert_eq!(rt; number, 4);
    // a stop is heard where four plies are left, so first in the round of five, at its first move
    assert_eq!(rt; place_of(&rt, &mut stop), (4, 0, 2));
    assert_eq!(rt; minimate_stop_set(rt.alloc(), &mut stop, false), 0);
    let number = minimate_solver_solve(rt.alloc(), &mut solver, NONE_MATES, false, 9, &mut found);
    assert_eq!(rt; number, 1);
    assert!(rt; found == NOTHING);
}

#[test]
fn a_solver_is_opened_once_and_closed(rt: HostRuntime) {
    let (mut solver, mut stop) = opened(&rt);
    assert_eq!(rt;
        minimate_solver_open(rt.alloc(), &mut solver, &mut stop, 64),
        8
    );
    minimate_solver_close(rt.alloc(), &mut solver);
    assert_eq!(rt;
        minimate_solver_open(rt.alloc(), &mut solver, &mut stop, 64),
        8
    );
    let mut found = NOTHING;
    let third = ROOK_MATES_IN_THREE;
    let number = minimate_solver_solve(rt.alloc(), &mut solver, third, false, 3, &mut found);
    assert_eq!(rt; number, 5);
    minimate_stop_close(rt.alloc(), &mut stop);
    assert_eq!(rt; minimate_stop_set(rt.alloc(), &mut stop, true), 5);
    for slots in [0, 1048577] {
        assert_eq!(rt;
            minimate_solver_open(rt.alloc(), &mut solver, &mut stop, slots),
            6
        );
    }
    assert_eq!(rt;
        minimate_solver_open(rt.alloc(), &mut solver, &mut stop, 1),
        0
    );
}
