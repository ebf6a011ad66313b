//! Names of moves, which are written and read.

use board::{Game, Kind};
use moves::{Move, Square, read_move};
use std::process::Abort;

const C4: Square = Square { file: 2, rank: 3 };

const C5: Square = Square { file: 2, rank: 4 };

const A1: Square = Square { file: 0, rank: 0 };

const F6: Square = Square { file: 5, rank: 5 };

fn assert_named(rt: &impl Abort, name: &[u8], m: Move) {
    assert!(rt; read_move(name) == Some(m));
}

fn plain(from: Square, to: Square) -> Move {
    Move {
        from,
        to,
        promotion: None,
    }
}

#[test]
fn names_are_read(rt: HostRuntime) {
    assert_named(&rt, b"c4c5", plain(C4, C5));
    assert_named(&rt, b"a1f6", plain(A1, F6));
    assert_named(&rt, b"c4c4", plain(C4, C4));
    let queen = Move {
        from: F6,
        to: A1,
        promotion: Some(Kind::Queen),
    };
    assert_named(&rt, b"f6a1q", queen);
    let rook = Move {
        from: C5,
        to: F6,
        promotion: Some(Kind::Rook),
    };
    assert_named(&rt, b"c5f6r", rook);
    let bishop = Move {
        from: C5,
        to: F6,
        promotion: Some(Kind::Bishop),
    };
    assert_named(&rt, b"c5f6b", bishop);
    let knight = Move {
        from: C4,
        to: A1,
        promotion: Some(Kind::Knight),
    };
    assert_named(&rt, b"c4a1n", knight);
}

#[test]
fn other_bytes_name_no_move(rt: HostRuntime) {
    let texts: [&[u8]; 20] = [
        b"", b"c", b"c4", b"c4c", b"g4c5", b"c0c5", b"c7c5", b"c4g5", b"c4c0", b"c4c7", b"C4c5",
        b"4cc5", b"c4-c5", b" c4c5", b"c4c5 ", b"c4c5k", b"c4c5p", b"c4c5Q", b"c4c5qq", b"c4c5#",
    ];
    for text in texts {
        assert!(rt; read_move(text).is_none());
    }
}

/// Checks that a move is read of the name that is written for it.
fn assert_read_back<R: Abort + AllocGlobal>(rt: &R, m: Move) {
    let name = m.to_string(rt.alloc()).expect(rt, "memory");
    assert!(rt; read_move(name.as_bytes()) == Some(m));
}

#[test]
fn what_is_written_is_read(rt: HostRuntime) {
    for from in 0..36 {
        for to in 0..36 {
            let from = Square::of_number(Game::LosAlamos, from);
            let to = Square::of_number(Game::LosAlamos, to);
            assert_read_back(&rt, plain(from, to));
            let queen = Move {
                from,
                to,
                promotion: Some(Kind::Queen),
            };
            assert_read_back(&rt, queen);
        }
    }
}
