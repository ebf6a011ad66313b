//! Solutions of problems, as tests/answers/solutions.py works them out: its rules and its search share no line with the program.
ghost use Rattle.std.specs.Prelude.{IfOk};
ghost use Rattle.problems.specs.Roots.{IsRoot};
ghost use Rattle.solutions.specs.Solutions.{IsSolution};

use crate::tables::{last_seat, position};
use board::Side;
use decision::{Memory, Never, Scout};
use entry::MateLore;
use moves::{Board, Goal, Move};
use problems::{Answer, Root};
use searcher::{Halt, Searcher, solve_by};
use slots::Slots;
use solutions::{Extras, KeyPlay, Solution, Threats, Try, Variation, passed, solution_of};
use std::alloc::{AllocError, Global};
use std::fmt::Write;
use std::process::Abort;
use std::test::Fail;

fn push_moves(text: &mut String, moves: &[Move]) -> Result<(), AllocError> {
    for m in moves {
        write!(text, " {m}")?;
    }
    Ok(())
}

fn push_variations(text: &mut String, variations: &[Variation]) -> Result<(), AllocError> {
    for variation in variations {
        write!(text, "- {} {}", variation.reply, variation.plies)?;
        push_moves(text, variation.moves.as_slice())?;
        text.push_str(" /")?;
        push_moves(text, variation.line.as_slice())?;
        text.push('\n')?;
    }
    Ok(())
}

fn push_threats(text: &mut String, threats: &Threats) -> Result<(), AllocError> {
    match threats {
        Threats::End => text.push_str("end"),
        Threats::Check => text.push_str("check"),
        Threats::Zugzwang => text.push_str("zugzwang"),
        Threats::Moves { plies, moves } => {
            write!(text, "threat {plies}")?;
            push_moves(text, moves.as_slice())
        }
    }
}

fn push_keys(text: &mut String, keys: &[KeyPlay]) -> Result<(), AllocError> {
    for key in keys {
        write!(text, "key {} ", key.first)?;
        push_threats(text, &key.threats)?;
        text.push('\n')?;
        push_variations(text, key.variations.as_slice())?;
    }
    Ok(())
}

fn push_tries(text: &mut String, tries: &[Try]) -> Result<(), AllocError> {
    for it in tries {
        write!(text, "- {} {}\n", it.first, it.refutation)?;
    }
    Ok(())
}

fn text_of(alloc: Global, solution: &Solution) -> Result<String, AllocError> {
    let mut text = String::new(alloc);
    write!(text, "{}\n", solution.plies)?;
    push_keys(&mut text, solution.keys.as_slice())?;
    if let Some(variations) = &solution.set_play {
        text.push_str("set\n")?;
        push_variations(&mut text, variations.as_slice())?;
    }
    if let Some(tries) = &solution.tries {
        text.push_str("tries\n")?;
        push_tries(&mut text, tries.as_slice())?;
    }
    Ok(text)
}

/// The solution of a root whose side to move forces the goal within its plies.
pub(crate) fn solution_in<R: Abort + AllocGlobal>(
    rt: &R,
    root: &Root,
    extras: Extras,
) -> Result<Solution, Halt>
    requires { IsRoot root.now }
    ensures { IfOk result (IsSolution root.now.goal root.now.board extras) }
{
    let (table, mut seats) = Slots::<MateLore>::make(rt.alloc(), 4096, 1).expect(rt, "a table");
    let Some(mut seat) = last_seat(&table, &mut seats) else {
        panic!(rt; "no seat")
    };
    let mut scout = Scout {
        stop: Never,
        memory: Memory::new(),
    };
    let mut searcher = Searcher {
        slots: &table,
        seat: &mut seat,
        scout: &mut scout,
    };
    let Some(Answer::Mate { plies, .. }) = solve_by(&mut searcher, root) else {
        panic!(rt; "no mate")
    };
    solution_of(rt.alloc(), &mut searcher, root, plies, extras)
}

pub(crate) const ALL: Extras = Extras {
    set_play: true,
    tries: true,
    sooner: false,
};

/// A position, the goal, and its solution, written out.
const SOLVED: [(&str, Goal, &str); 6] = [
    (
        "k5/6/2K3/6/6/1R4 w",
        Goal::Mate,
        "\
3\n\
key c4c5 threat 1 b1a1\n\
- a6a5 1 b1a1 / b1a1\n\
set\n\
tries\n\
- b1a1 a6b6\n\
- b1b2 a6a5\n\
- b1b3 a6a5\n\
- b1b4 a6a5\n\
- c4c3 a6a5\n\
- c4d3 a6a5\n\
- c4b4 a6b6\n\
- c4d4 a6a5\n\
- c4d5 a6a5\n\
",
    ),
    (
        "k5/6/2K3/6/6/1R4 w",
        Goal::MateOrStale,
        "\
1\n\
key b1b5 end\n\
set\n\
tries\n\
",
    ),
    (
        "1k4/5R/6/6/6/2R2K w",
        Goal::Mate,
        "\
3\n\
key c1a1 zugzwang\n\
- b6c6 1 a1a6 / a1a6\n\
key c1e1 threat 1 e1e6\n\
- b6a6 1 e1e6 / e1e6\n\
- b6c6 1 e1e6 / e1e6\n\
key c1c2 zugzwang\n\
- b6a6 1 c2c6 / c2c6\n\
key c1c3 zugzwang\n\
- b6a6 1 c3c6 / c3c6\n\
key c1c4 zugzwang\n\
- b6a6 1 c4c6 / c4c6\n\
key c1c5 zugzwang\n\
- b6a6 1 c5c6 f5f6 / c5c6\n\
key f1e1 zugzwang\n\
- b6a6 1 c1c6 / c1c6\n\
key f1e2 zugzwang\n\
- b6a6 1 c1c6 / c1c6\n\
key f1f2 zugzwang\n\
- b6a6 1 c1c6 / c1c6\n\
key f5d5 zugzwang\n\
- b6a6 1 c1c6 / c1c6\n\
key f5e5 zugzwang\n\
- b6a6 1 c1c6 / c1c6\n\
set\n\
- b6a6 1 c1c6 / c1c6\n\
tries\n\
- c1d1 b6c6\n\
- c1c6 b6c6\n\
- f5a5 b6a5\n\
- f5c5 b6a6\n\
",
    ),
    (
        "k4/2P2/1K3/5/5 w",
        Goal::Mate,
        "\
1\n\
key c4c5q end\n\
key c4c5r end\n\
set\n\
tries\n\
",
    ),
    (
        "2qK1/3B1/1k1NQ/3b1/r1Q2 w",
        Goal::Mate,
        "\
5\n\
key c1c5 threat 3 d3c1 e3d2 c5c4\n\
- a1b1 3 d3c1 / d3c1 b3a4 e3a3\n\
- a1c1 3 d3c1 / d3c1 b3a4 e3a3\n\
- a1d1 3 d3c1 c5c4 / d3c1 b3a4 e3a3\n\
- a1e1 3 d3c1 c5c4 / d3c1 b3a4 e3a3\n\
- a1a2 3 d3c1 d3b2 / d3c1 b3a4 e3b3\n\
- a1a3 1 c5c4 / c5c4\n\
- a1a4 1 d3c1 / d3c1\n\
- a1a5 3 d3c1 / d3c1 b3a4 e3a3\n\
- d2c1 3 d3c1 c5c4 / d3c1 b3a4 e3b3\n\
- d2e1 3 d3c1 c5c4 / d3c1 b3a4 e3b3\n\
- d2c3 3 c5c3 / c5c3 b3a2 c3b2\n\
- d2e3 3 c5c3 c5c4 / c5c3 b3a2 c3b2\n\
- d2b4 3 d3c1 c5b4 / d3c1 b3a4 e3b3\n\
- d2a5 3 d3c1 c5c4 / d3c1 b3a4 e3b3\n\
- b3a2 3 d3b4 e3d2 c5c4 / d3b4 a2b1 e3b3\n\
- b3a4 1 d3b2 / d3b2\n\
key d3c5 check\n\
- b3a2 1 c1a1 c1b2 c1c2 e3d2 e3a3 e3b3 / c1a1\n\
- b3b4 3 c1a1 c1b2 c1d2 c1c4 e3d2 e3b3 / c1a1 d2c1 a1a4\n\
set\n\
tries\n\
",
    ),
    (
        "1k3/5/1p2b/r4/4K b",
        Goal::Mate,
        "\
5\n\
key e3d4 threat 3 b3b2\n\
- e1d1 3 d4c3 / d4c3 d1c1 a2a1\n\
key b5c4 threat 3 c4d3\n\
- e1d1 3 c4d3 / c4d3 d1e1 a2a1\n\
set\n\
tries\n\
- a2a1 e1e2\n\
- a2b2 e1d1\n\
- a2c2 e1d1\n\
- b3b2 e1e2\n\
- e3c1 e1d1\n\
- e3d2 e1e2\n\
- e3c5 e1d1\n\
- b5a4 e1d1\n\
- b5b4 e1d1\n\
- b5a5 e1d1\n\
- b5c5 e1d1\n\
",
    ),
];

#[test]
fn solutions_are_those_of_another_program(rt: HostRuntime) -> Result<(), Fail> {
    for (text, goal, expected) in &SOLVED {
        let root = Root::on(Board::of(&position(&rt, text)), *goal, 5);
        let solution = solution_in(&rt, &root, ALL).expect(&rt, "a solution");
        let got = text_of(rt.alloc(), &solution)?;
        assert_eq!(rt; got.as_str(), *expected, "{text}");
    }
    Ok(())
}

// c4c5 is the one key: what isn't asked for is left out.
#[test]
fn set_play_and_tries_are_there_where_asked_for(rt: HostRuntime) -> Result<(), Fail> {
    let root = Root::on(
        Board::of(&position(&rt, "k5/6/2K3/6/6/1R4 w")),
        Goal::Mate,
        5,
    );
    for (set_play, tries) in [(false, false), (true, false), (false, true)] {
        let extras = Extras {
            set_play,
            tries,
            sooner: false,
        };
        let solution = solution_in(&rt, &root, extras).expect(&rt, "a solution");
        assert_eq!(rt; solution.set_play.is_some(), set_play);
        assert_eq!(rt; solution.tries.is_some(), tries);
    }
    Ok(())
}

// The king on a6 is in check from a1, and not from b1.
#[test]
fn a_side_in_check_cannot_pass(rt: HostRuntime) {
    let checked = Board::of(&position(&rt, "k5/6/2K3/6/6/R5 b"));
    assert!(rt; passed(&checked).is_none());
    let calm = Board::of(&position(&rt, "k5/6/2K3/6/6/1R4 b"));
    let Some(next) = passed(&calm) else {
        panic!(rt; "no pass")
    };
    assert!(rt; next.mover() == Side::White);
}
