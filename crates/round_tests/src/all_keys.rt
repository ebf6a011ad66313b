//! Keys of positions that are worked out by hand.
use crate::lent_tables::{problem, table};
use crate::solves::read;
use moves::{Goal, Move, Square};
use problems::{Key, Problem};
use rounds::{Task, keys_over};
use searcher::{NoGate, Table};
use std::alloc::Global;
use std::process::Abort;
use std::sync::Wait;
use std::test::*;
use std::thread::Threads;

// The keys of the problem, or none for want of memory.
fn keys<R: Threads + Wait + Abort + Sync>(
    rt: &R,
    alloc: Global,
    problem: &Problem,
    workers: u8,
) -> Option<Vec<Key>> {
    let Table { slots, mut seats } = table(rt, alloc, workers, 64);
    let task = Task {
        problem,
        slots: &slots,
        gate: &NoGate,
    };
    keys_over(rt, alloc, &task, &mut seats).ok()
}

pub(crate) fn key(from: (u8, u8), to: (u8, u8), plies: u8) -> Key {
    Key {
        first: Move {
            from: Square {
                file: from.0.min(5),
                rank: from.1.min(5),
            },
            to: Square {
                file: to.0.min(5),
                rank: to.1.min(5),
            },
            promotion: None,
        },
        plies,
    }
}

// Whether these keys are found within so many plies.
fn finds<R: Threads + Wait + Abort + Sync>(
    rt: &R,
    alloc: Global,
    (text, goal, limit): (&[u8], Goal, u8),
    workers: u8,
    expected: &[Key],
) -> bool {
    let problem = problem(rt, &read(rt, text), goal, limit);
    match keys(rt, alloc, &problem, workers) {
        Some(found) => found.as_slice() == expected,
        None => false,
    }
}

// c4c5 mates in three plies, and b1b5 is stalemate at once: a second reading of the rules has no other.
#[test]
fn each_key_has_the_plies_that_it_takes(rt: HostRuntime) {
    let text = b"k5/6/2K3/6/6/1R4 w".as_slice();
    let mates = [key((2, 3), (2, 4), 3)];
    let stales = [key((1, 0), (1, 4), 1)];
    let none = Vec::new(rt.alloc());
    for workers in [1, 2, 16] {
        assert!(rt;
            finds(
                &rt,
                rt.alloc(),
                (text, Goal::Mate, 3),
                workers,
                mates.as_slice()
            )
        );
        assert!(rt;
            finds(
                &rt,
                rt.alloc(),
                (text, Goal::Mate, 2),
                workers,
                none.as_slice()
            )
        );
        assert!(rt;
            finds(
                &rt,
                rt.alloc(),
                (text, Goal::MateOrStale, 2),
                workers,
                stales.as_slice()
            )
        );
    }
}

// All keys of this position, as a second reading of the rules has them.
#[test]
fn keys_of_one_ply_and_of_three(rt: HostRuntime) {
    let text = b"k5/6/1K4/6/6/5R w".as_slice();
    let expected = [
        key((5, 0), (3, 0), 3),
        key((5, 0), (4, 0), 3),
        key((5, 0), (5, 1), 3),
        key((5, 0), (5, 2), 3),
        key((5, 0), (5, 3), 3),
        key((5, 0), (5, 4), 3),
        key((5, 0), (5, 5), 1),
        key((1, 3), (2, 4), 3),
    ];
    for (workers, limit) in [(1, 3), (1, 4), (4, 3)] {
        assert!(rt;
            finds(
                &rt,
                rt.alloc(),
                (text, Goal::Mate, limit),
                workers,
                expected.as_slice()
            )
        );
    }
}
