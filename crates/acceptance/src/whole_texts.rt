//! Texts of whole solutions, as tests/answers/solutions.py works them out: its rules, its search and its names share no line with the program.
ghost use Rattle.problems.specs.Roots.{IsRoot};

use crate::composing::ALL;
use crate::tables::{last_seat, position};
use algebraic::Symbols;
use decision::{Memory, Never, Scout};
use entry::MateLore;
use moves::{Board, Goal, Move, read_move};
use problems::{Answer, Root};
use searcher::{Halt, Searcher, solve_by};
use slots::Slots;
use solution_text::{first_move_solution, whole_solution};
use std::process::Abort;

/// The text of the whole solution of a root whose side to move forces the goal within its plies; or of the play behind one of its moves.
fn told_in<R: Abort + AllocGlobal>(rt: &R, root: &Root, first: Option<Move>) -> Result<String, Halt>
    requires { IsRoot root.now }
{
    let (table, mut seats) = Slots::<MateLore>::make(rt.alloc(), 4096, 1).expect(rt, "a table");
    let Some(mut seat) = last_seat(&table, &mut seats) else {
        panic!(rt; "no seat")
    };
    let mut scout = Scout {
        stop: Never,
        memory: Memory::new(),
    };
    let mut searcher = Searcher {
        slots: &table,
        seat: &mut seat,
        scout: &mut scout,
    };
    let Some(Answer::Mate { plies, .. }) = solve_by(&mut searcher, root) else {
        panic!(rt; "no mate")
    };
    let fewest = Root::on(root.board.copied(), root.goal, plies);
    let Some(first) = first else {
        return whole_solution(rt.alloc(), &mut searcher, &fewest, Symbols::Letters, ALL);
    };
    for job in 0..fewest.jobs() {
        if fewest.moves[usize::from(job)] == first {
            return first_move_solution(rt.alloc(), &mut searcher, &fewest, Symbols::Letters, job);
        }
    }
    panic!(rt; "no such move")
}

/// A position, the goal, the plies it is searched for, and the text.
const WHOLE: [(&str, Goal, u8, &str); 7] = [
    (
        "2k3/6/6/2K3/6/5Q w",
        Goal::Mate,
        5,
        "\
mate in 3, cooked by 1 key\n\
no set play\n\
tries\n\
1.Qb5+?\n  1...Kd6 2.Kd4 threats 3.Qd5# 3.Qa6# 3.Qb6#\n    2...Ke6 3.Qe5#\n  but 1...Kxb5!\n\
1.Kb4? threats 2.Qd1 2.Qd3\n  1...~ 2.Qd1 zugzwang, dual 2.Qd3\n    2...Kb6 3.Qd6#\n  1...Kb6 2.Qb5#, dual 2.Qf6#\n  1...Kd6 2.Qf5 zugzwang\n    2...Kc6 3.Qc5#, dual 3.Qe6#\n  but 1...Kd5!\n\
1.Kd4? threat 2.Qa6#\n  1...Kd6 2.Qa6#, dual 2.Qf6#\n  but 1...Kb6!\n\
1.Qf5! threat 2.Kc4\n  1...~ 2.Kc4 threats 3.Qc5# 3.Qe6# 3.Qf6#\n    2...Kb6 3.Qb5#\n    2...Kd6 3.Qd5#, dual 3.Qf6#\n  1...Kb6 2.Kb4 threats 3.Qb5# 3.Qe6# 3.Qf6#, dual 2.Kc4\n    2...Ka6 3.Qa5#, dual 3.Qb5# 3.Qe6# 3.Qf6#\n    2...Kc6 3.Qc5#, dual 3.Qe6#\n  1...Kd6 2.Kb4 zugzwang, dual 2.Kc4 2.Kd4\n    2...Kc6 3.Qc5#, dual 3.Qe6#\n\
1.Kc4! threat 2.Qf6#\n  1...Kb6 2.Qa1 zugzwang, dual 2.Qf5\n    2...Kc6 3.Qa6#, dual 3.Qf6#\n  1...Kd6 2.Qf6#\n",
    ),
    (
        "2k2/5/5/2K2/4R w",
        Goal::Mate,
        5,
        "\
mate in 3\n\
set play\n  1...Kd5 2.Kc3 zugzwang\n    2...Kc5 3.Re5#\n\
tries\n\
1.Kb3? threat 2.Rd1\n  1...~ 2.Rd1 zugzwang\n    2...Kb5 3.Rd5#\n  1...Kb5 2.Re5#\n  1...Kd5 2.Kc3 zugzwang\n    2...Kc5 3.Re5#\n  but 1...Kd4!\n\
1.Kc3! threat 2.Re5#\n  1...Kb5 2.Ra1 zugzwang\n    2...Kc5 3.Ra5#\n  1...Kd5 2.Re2 zugzwang, dual 2.Re3, set 2.Kc3\n    2...Kc5 3.Re5#\n",
    ),
    (
        "2Nk1/pR3/5/2P1P/2K2 w",
        Goal::Mate,
        5,
        "\
mate in 3\n\
no set play\n\
tries\n\
1.c3? threat 2.Nd3\n  1...~ 2.Nd3 threat 3.Rd4#\n    2...a3 3.Rd4#\n  1...a3 2.Nd3 threat 3.Rd4#\n    2...a2 3.Rd4#\n  1...Ke5 2.Rd4 threat 3.Nd3#, dual 2.Nd3+\n    2...a3 3.Nd3#\n  but 1...Kxc5!\n\
1.e3? threat 2.Nd3\n  1...~ 2.Nd3 threats 3.e4# 3.Rd4#\n    2...a3 3.e4#, dual 3.Rd4#\n  1...a3 2.Nd3 threats 3.e4# 3.Rd4#\n    2...a2 3.e4#, dual 3.Rd4#\n  1...Ke5 2.e4 threat 3.Nd3#, dual 2.Rd4 2.Nd3+\n    2...a3 3.Nd3#\n  but 1...Kxc5!\n\
1.Nxa4? zugzwang\n  but 1...Ke5!\n\
1.Ne4? zugzwang\n  1...Ke5 2.Nc3 threat 3.Re4#\n    2...a3 3.Re4#\n  but 1...a3!\n\
1.Nd3! threats 2.c3 2.e3\n  1...~ 2.c3 threat 3.Rd4#, dual 2.e3\n    2...a3 3.Rd4#\n  1...a3 2.c3 threat 3.Rd4#, dual 2.e3\n    2...a2 3.Rd4#\n",
    ),
    (
        "5k/3K2/6/6/1q4/r5 b",
        Goal::MateOrStale,
        3,
        "\
goal in 2\n\
set play\n  1...Kd6 2.Qb5=\n\
tries\n\
1.Rc1? threats 2.Qb4= 2.Qe5#\n  1...Kd6 2.Qa2=, dual 2.Qd2# 2.Qb3= 2.Qd4# 2.Qb5= 2.Qe5#\n  but 1...Ke4!\n\
1.Qc2? threat 2.Rd1#\n  1...Kd6 2.Rd1#, dual 2.Ra5= 2.Qc4=\n  but 1...Kd4!\n\
1.Qc3? zugzwang\n  1...Kd6 2.Rd1#, dual 2.Ra5= 2.Qc4=\n  but 1...Ke4!\n\
1.Qd4+?\n  1...Kc6 2.Rb1=, dual 2.Ra5=\n  but 1...Kxd4!\n\
1.Qe5+?\n  1...Kc6 2.Rb1=, dual 2.Ra6#\n  but 1...Kc4!\n\
1.Qb4! threats 2.Rc1= 2.Ra6=\n  1...Kc6 2.Rd1=, dual 2.Ra5= 2.Ke5= 2.Ke6=\n",
    ),
    (
        "1K1k1/qR3/5/5/5 w",
        Goal::Mate,
        7,
        "\
mate in 4\n\
no set play\n\
no tries\n\
1.Rxa4! zugzwang\n  1...Ke5 2.Kc4 threats 3.Ra1 3.Ra2 3.Kd3\n    2...~ 3.Ra1 threat 4.Re1#, dual 3.Ra2 3.Kd3\n      3...Ke4 4.Re1#\n    2...Ke4 3.Ra3 zugzwang\n      3...Ke5 4.Re3#\n",
    ),
    (
        "k5/6/2K3/6/6/1R4 w",
        Goal::MateOrStale,
        5,
        "goal in 1\nno set play\nno tries\n1.Rb5=!\n",
    ),
    (
        "k4/2P2/1K3/5/5 w",
        Goal::Mate,
        5,
        "mate in 1, cooked by 1 key\nno set play\nno tries\n1.c5=Q#!\n1.c5=R#!\n",
    ),
];

#[test]
fn whole_texts_are_those_of_another_program(rt: HostRuntime) {
    for (text, goal, limit, expected) in &WHOLE {
        let root = Root::on(Board::of(&position(&rt, text)), *goal, *limit);
        let told = told_in(&rt, &root, None).expect(&rt, "a solution");
        assert_eq!(rt; told.as_str(), *expected, "{text}");
    }
}

/// A first move of a mate in three, and the text of the play behind it: a key, a try, one that three replies refute and one that gives check.
const FIRSTS: [(&[u8], &str); 4] = [
    (
        b"c3c4",
        "1.Kc4! threat 2.Qf6#\n  1...Kb6 2.Qa1 zugzwang, dual 2.Qf5\n    2...Kc6 3.Qa6#, dual 3.Qf6#\n  1...Kd6 2.Qf6#\n",
    ),
    (
        b"c3d4",
        "1.Kd4? threat 2.Qa6#\n  1...Kd6 2.Qa6#, dual 2.Qf6#\n  but 1...Kb6!\n",
    ),
    (
        b"f1b1",
        "1.Qb1? threat 2.Kd4\n  1...~ 2.Kd4 zugzwang\n    2...Kd6 3.Qb6#\n  but 1...Kc5!\n  but 1...Kd5!\n  but 1...Kd6!\n",
    ),
    (b"f1c4", "1.Qc4+?\n  but 1...Kb6!\n  but 1...Kd6!\n"),
];

#[test]
fn first_moves_are_told_as_by_another_program(rt: HostRuntime) {
    let root = Root::on(
        Board::of(&position(&rt, "2k3/6/6/2K3/6/5Q w")),
        Goal::Mate,
        5,
    );
    for (name, expected) in &FIRSTS {
        let told = told_in(&rt, &root, read_move(name)).expect(&rt, "a solution");
        assert_eq!(rt; told.as_str(), *expected);
    }
}
