//! That an answer is found, with few workers and many, and the first fault of several.
use board::{Kind, Position, read_fen};
use moves::{Goal, Move, Square};
use problems::Answer;
use rounds::{SolveFault, solve};
use searcher::{Gate, NoGate};
use std::alloc::Global;
use std::process::Abort;
use std::sync::Wait;
use std::test::*;
use std::thread::Threads;

pub(crate) fn read(rt: &impl Abort, text: &[u8]) -> Position {
    let Ok(position) = read_fen(text) else {
        panic!(rt; "no position")
    };
    position
}

// White mates in three plies by c4c5, job 15 of 17. The move b1b5 is stalemate.
pub(crate) fn root(rt: &impl Abort) -> Position {
    read(rt, b"k5/6/2K3/6/6/1R4 w")
}

// c4c5 in three plies.
pub(crate) fn expected() -> Answer {
    Answer::Mate {
        plies: 3,
        first: Move {
            from: Square { file: 2, rank: 3 },
            to: Square { file: 2, rank: 4 },
            promotion: None,
        },
    }
}

// The answer within three plies.
pub(crate) fn solved<T: Gate, R: Threads + Wait + Abort + Sync>(
    rt: &R,
    alloc: Global,
    workers: u8,
    slots: usize,
    gate: &T,
) -> Answer {
    match solve(rt, alloc, &root(rt), Goal::Mate, 3, workers, slots, gate) {
        Ok(answer) => answer,
        Err(_) => panic!(rt; "refused"),
    }
}

#[test]
fn the_same_answer_by_any_number_of_workers(rt: HostRuntime) {
    for workers in [1, 2, 16] {
        for slots in [1, 64] {
            assert!(rt; solved(&rt, rt.alloc(), workers, slots, &NoGate) == expected());
        }
    }
}

// A queen and a rook both mate, and a queen is the least.
#[test]
fn the_least_of_two_moves_that_mate(rt: HostRuntime) {
    let position = read(&rt, b"k4/2P2/1K3/5/5 w");
    let promotion = Move {
        from: Square { file: 2, rank: 3 },
        to: Square { file: 2, rank: 4 },
        promotion: Some(Kind::Queen),
    };
    for workers in [1, 2, 16] {
        let answer = solve(
            &rt,
            rt.alloc(),
            &position,
            Goal::Mate,
            1,
            workers,
            64,
            &NoGate,
        );
        assert!(rt;
            answer
                == Ok(Answer::Mate {
                    plies: 1,
                    first: promotion
                })
        );
    }
}

#[test]
fn none_within_two_plies(rt: HostRuntime) {
    let position = root(&rt);
    for workers in [1, 16] {
        let answer = solve(
            &rt,
            rt.alloc(),
            &position,
            Goal::Mate,
            2,
            workers,
            64,
            &NoGate,
        );
        assert!(rt; answer == Ok(Answer::NoneWithin(2)));
    }
}

#[test]
fn stalemate_wins_for_the_other_goal(rt: HostRuntime) {
    let b1b5 = Move {
        from: Square { file: 1, rank: 0 },
        to: Square { file: 1, rank: 4 },
        promotion: None,
    };
    let answer = solve(
        &rt,
        rt.alloc(),
        &root(&rt),
        Goal::MateOrStale,
        1,
        2,
        64,
        &NoGate,
    );
    assert!(rt;
        answer
            == Ok(Answer::Mate {
                plies: 1,
                first: b1b5
            })
    );
}

#[test]
fn the_first_fault(rt: HostRuntime) {
    let position = root(&rt);
    for (limit, workers, slots, fault) in [
        (0, 1, 1, SolveFault::Limit),
        (64, 1, 1, SolveFault::Limit),
        (0, 17, 0, SolveFault::Limit),
        (1, 0, 1, SolveFault::Workers),
        (1, 17, 1, SolveFault::Workers),
        (1, 17, 0, SolveFault::Workers),
        (1, 1, 0, SolveFault::Slots),
        (1, 1, 1_048_577, SolveFault::Slots),
    ] {
        let answer = solve(
            &rt,
            rt.alloc(),
            &position,
            Goal::Mate,
            limit,
            workers,
            slots,
            &NoGate,
        );
        assert!(rt; answer == Err(fault));
    }
}
