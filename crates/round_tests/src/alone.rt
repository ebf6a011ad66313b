//! Solves and keys by the test's own thread alone, over a table that is lent.
ghost use Rattle.std.specs.Prelude.{◌≤◌};

use crate::all_keys::key;
use crate::lent_tables::{problem, table};
use crate::solves::{expected, root};
use moves::{Board, Goal, Move, Square};
use problems::{Answer, Key};
use solver::{keys_alone, solve_board_alone};
use std::alloc::Global;
use std::process::Abort;
use std::test::*;

// The answer of the root within the limit.
fn solved_alone(rt: &impl Abort, alloc: Global, goal: Goal, limit: u8) -> Answer
    requires { limit ≤ 63 }
{
    let (slots, mut seat) = table(rt, alloc, 1, 64).into_alone();
    let board = Board::of(&root(rt));
    solve_board_alone(&slots, &mut seat, &board, goal, limit)
}

// Whether these are the keys of the root within the limit.
fn finds(rt: &impl Abort, alloc: Global, goal: Goal, limit: u8, expected: &[Key]) -> bool {
    let (slots, mut seat) = table(rt, alloc, 1, 64).into_alone();
    let problem = problem(rt, &root(rt), goal, limit);
    match keys_alone(alloc, &slots, &mut seat, &problem) {
        Ok(found) => found.as_slice() == expected,
        Err(_) => false,
    }
}

// The root's move that is stalemate.
const B1B5: Move = Move {
    from: Square { file: 1, rank: 0 },
    to: Square { file: 1, rank: 4 },
    promotion: None,
};

#[test]
fn a_board_is_solved_within_any_limit(rt: HostRuntime) {
    for limit in [0, 1, 2] {
        let answer = solved_alone(&rt, rt.alloc(), Goal::Mate, limit);
        assert!(rt; answer == Answer::NoneWithin(limit));
    }
    for limit in [3, 4, 63] {
        assert!(rt; solved_alone(&rt, rt.alloc(), Goal::Mate, limit) == expected());
    }
    let none = solved_alone(&rt, rt.alloc(), Goal::MateOrStale, 0);
    assert!(rt; none == Answer::NoneWithin(0));
    let stale = solved_alone(&rt, rt.alloc(), Goal::MateOrStale, 63);
    assert!(rt;
        stale
            == Answer::Mate {
                plies: 1,
                first: B1B5,
            }
    );
}

#[test]
fn keys_by_one_thread(rt: HostRuntime) {
    let mates = [key((2, 3), (2, 4), 3)];
    let stales = [key((1, 0), (1, 4), 1)];
    let none = Vec::new(rt.alloc());
    assert!(rt; finds(&rt, rt.alloc(), Goal::Mate, 3, mates.as_slice()));
    assert!(rt; finds(&rt, rt.alloc(), Goal::Mate, 2, none.as_slice()));
    assert!(rt; finds(&rt, rt.alloc(), Goal::MateOrStale, 2, stales.as_slice()));
}
