//! Solves and keys by one thread. Of the 17 lawful moves of the position the rook b1 has ten and the king c4 seven; fifteen come before
//! c4c5, which alone mates in three plies: a6a5 is then the one reply, and b1a1 mates.

use crate::tables::{last_seat, position};
use decision::{Memory, Never, Scout};
use entry::MateLore;
use moves::{Board, Goal, Move, Square};
use problems::{Answer, Key, Problem, Root};
use searcher::{Searcher, least_win, plies_of};
use slots::Slots;
use solver::{keys_alone, solve_alone, solve_board_alone};

const ROOK_MATES_IN_THREE: &str = "k5/6/2K3/6/6/1R4 w";

const KEY: Move = Move {
    from: Square { file: 2, rank: 3 },
    to: Square { file: 2, rank: 4 },
    promotion: None,
};

#[test]
fn a_problem_has_a_limit_of_1_to_63(rt: HostRuntime) {
    let third = position(&rt, ROOK_MATES_IN_THREE);
    for (limit, is_one) in [(0, false), (1, true), (63, true), (64, false), (255, false)] {
        let made = Problem::of(&third, Goal::Mate, limit);
        assert!(rt; made.is_some() == is_one);
    }
}

#[test]
fn solves_a_problem_and_finds_its_keys(rt: HostRuntime) {
    let (table, mut seats) = Slots::<MateLore>::make(rt.alloc(), 64, 1).expect(&rt, "a table");
    let Some(mut seat) = last_seat(&table, &mut seats) else {
        panic!(rt; "no seat")
    };
    let third = position(&rt, ROOK_MATES_IN_THREE);
    let mate = Answer::Mate {
        plies: 3,
        first: KEY,
    };
    let within_one = Problem::of(&third, Goal::Mate, 1).expect(&rt, "a problem");
    let within_five = Problem::of(&third, Goal::Mate, 5).expect(&rt, "a problem");
    assert!(rt; solve_alone(&table, &mut seat, &within_one) == Answer::NoneWithin(1));
    assert!(rt; solve_alone(&table, &mut seat, &within_five) == mate);
    let board = Board::of(&third);
    let one = solve_board_alone(&table, &mut seat, &board, Goal::Mate, 1);
    assert!(rt; one == Answer::NoneWithin(1));
    let five = solve_board_alone(&table, &mut seat, &board, Goal::Mate, 5);
    assert!(rt; five == mate);
    let none = solve_board_alone(&table, &mut seat, &board, Goal::Mate, 0);
    assert!(rt; none == Answer::NoneWithin(0));
    let problem = Problem::of(&third, Goal::Mate, 3).expect(&rt, "a problem");
    let keys = keys_alone(rt.alloc(), &table, &mut seat, &problem).expect(&rt, "memory");
    let expected = [Key {
        first: KEY,
        plies: 3,
    }];
    assert!(rt; keys.as_slice() == expected.as_slice());
}

#[test]
fn the_sixteenth_job_wins(rt: HostRuntime) {
    let (table, mut seats) = Slots::<MateLore>::make(rt.alloc(), 64, 1).expect(&rt, "a table");
    let Some(mut seat) = last_seat(&table, &mut seats) else {
        panic!(rt; "no seat")
    };
    let mut scout = Scout {
        stop: Never,
        memory: Memory::new(),
    };
    let mut searcher = Searcher {
        slots: &table,
        seat: &mut seat,
        scout: &mut scout,
    };
    let root = Root::on(
        Board::of(&position(&rt, ROOK_MATES_IN_THREE)),
        Goal::Mate,
        5,
    );
    assert_eq!(rt; root.jobs(), 17);
    assert!(rt; least_win(&mut searcher, &root, 1) == Some(None));
    assert!(rt; least_win(&mut searcher, &root, 3) == Some(Some(15)));
    assert!(rt; plies_of(&mut searcher, &root, 15) == Some(Some(3)));
    let root = Root::on(root.board, Goal::Mate, 2);
    assert_eq!(rt; root.jobs(), 17);
    assert!(rt; plies_of(&mut searcher, &root, 15) == Some(None));
    let root = Root::on(root.board, Goal::Mate, 3);
    assert_eq!(rt; root.jobs(), 17);
    assert!(rt; plies_of(&mut searcher, &root, 0) == Some(None));
}
