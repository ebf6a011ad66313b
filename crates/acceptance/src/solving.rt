//! Answers of a solve.
ghost use Rattle.std.specs.Prelude.{IfOk};
ghost use Rattle.problems.specs.Answer.{IsAnswer};

use board::Position;
use moves::{Goal, read_sound};
use problems::Answer;
use rounds::{SolveFault, solve};
use searcher::NoGate;
use std::alloc::{AllocError, Global};
use std::sync::Wait;
use std::test::Fail;
use std::thread::Threads;

/// The answer of one worker and the test's own thread.
pub(crate) fn solved<R: Threads + Wait + Sync>(
    rt: &R,
    alloc: Global,
    position: &Position,
    goal: Goal,
    limit: u8,
    slots: usize,
) -> Result<Answer, SolveFault>
    ensures { IfOk result (IsAnswer goal position.now limit) }
{
    solve(rt, alloc, position, goal, limit, 1, slots, &NoGate)
}

pub(crate) fn answer_text(
    alloc: Global,
    answer: Result<Answer, SolveFault>,
) -> Result<String, AllocError> {
    let Ok(answer) = answer else {
        return format!(in alloc; "refused");
    };
    match answer {
        Answer::Mate { plies, first } => format!(in alloc; "{plies} {first}"),
        Answer::NoneWithin(limit) => format!(in alloc; "none within {limit}"),
    }
}

#[test]
fn solves_within_one_ply(rt: HostRuntime) -> Result<(), Fail> {
    for (text, goal, limit, answer) in [
        ("k5/6/1K4/6/6/5R w", Goal::Mate, 1, "1 f1f6"),
        ("5r/6/6/1k4/6/K5 b", Goal::Mate, 1, "1 f6f1"),
        // a queen and a rook both mate: the queen's letter comes first
        ("k4/2P2/1K3/5/5 w", Goal::Mate, 1, "1 c4c5q"),
        // a stalemating move is a win for the second goal alone
        ("k5/6/2K3/6/6/1R4 w", Goal::Mate, 1, "none within 1"),
        ("k5/6/2K3/6/6/1R4 w", Goal::MateOrStale, 1, "1 b1b5"),
        // who is mated or stalemated at the root has no win
        ("k4R/6/1K4/6/6/6 b", Goal::Mate, 1, "none within 1"),
        ("k5/2Q3/6/6/6/5K b", Goal::MateOrStale, 1, "none within 1"),
        ("k5/6/1K4/6/6/5R w", Goal::Mate, 0, "refused"),
        ("k5/6/1K4/6/6/5R w", Goal::Mate, 64, "refused"),
    ] {
        let position = read_sound(text.as_bytes()).expect(&rt, "a position");
        let got = answer_text(
            rt.alloc(),
            solved(&rt, rt.alloc(), &position, goal, limit, 64),
        )?;
        assert_eq!(rt; got.as_str(), answer, "{text}");
    }
    Ok(())
}

#[test]
fn solves_by_rounds(rt: HostRuntime) -> Result<(), Fail> {
    for (text, limit, slots, answer) in [
        // the rook's move to b5 is stalemate
        ("k5/6/2K3/6/6/1R4 w", 2, 64, "none within 2"),
        ("k5/6/2K3/6/6/1R4 w", 3, 64, "3 c4c5"),
        ("k5/6/2K3/6/6/1R4 w", 4, 64, "3 c4c5"),
        ("k5/6/2K3/6/6/1R4 w", 3, 1, "3 c4c5"),
        ("k5/2Q3/6/6/6/5K b", 5, 64, "none within 5"),
        ("k5/6/1K4/6/6/5R w", 1, 0, "refused"),
        ("k5/6/1K4/6/6/5R w", 1, 1_048_577, "refused"),
    ] {
        let position = read_sound(text.as_bytes()).expect(&rt, "a position");
        let answer_is = solved(&rt, rt.alloc(), &position, Goal::Mate, limit, slots);
        let got = answer_text(rt.alloc(), answer_is)?;
        assert_eq!(rt; got.as_str(), answer, "{text}");
    }
    Ok(())
}
