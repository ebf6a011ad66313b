//! Certificates that the maker writes: their lines, and what the checker says of them.
use crate::solving::solved;
use crate::tables::position;
use certifying::Certificate;
use entry::MateLore;
use moves::{Board, Goal};
use problems::{Answer, Question};
use slots::Slots;
use std::alloc::{AllocError, Global};
use std::process::Abort;
use std::sync::Wait;
use std::thread::Threads;
use verifying::verify;

/// The lines of claims of an answer.
fn claims_of<R: Abort + AllocGlobal>(
    rt: &R,
    text: &str,
    goal: Goal,
    answer: &Answer,
) -> Result<Vec<u8>, AllocError> {
    let (table, mut seats) = Slots::<MateLore>::make(rt.alloc(), 64, 1).expect(rt, "a table");
    let board = Board::of(&position(rt, text));
    let root = Question {
        attacker: board.mover(),
        position: board,
        goal,
    };
    let mut certificate = Certificate::of(rt.alloc(), table, seats.take_last(), root, *answer)?;
    let mut lines = Vec::new(rt.alloc());
    for _ in 0..1000 {
        match certificate.next_line()? {
            Some(line) => lines.extend_from_slice(line.as_slice())?,
            None => return Ok(lines),
        }
    }
    Ok(lines)
}

/// What the checker says of the certificate that begins with this line, of what is found within the limit.
fn checked<R: Threads + Wait + Abort + AllocGlobal + Sync>(
    rt: &R,
    text: &str,
    goal: Goal,
    limit: u8,
    first: &str,
) -> Result<bool, AllocError> {
    let Ok(answer) = solved(rt, rt.alloc(), &position(rt, text), goal, limit, 64) else {
        panic!(rt; "no answer")
    };
    let claims = claims_of(rt, text, goal, &answer)?;
    let mut whole = Vec::new(rt.alloc());
    whole.extend_from_slice(first.as_bytes())?;
    whole.extend_from_slice(claims.as_slice())?;
    let board = Board::of(&position(rt, text));
    Ok(verify(rt.alloc(), &board, goal, whole.as_slice()) == Ok(answer))
}

#[test]
fn lines_of_a_mate_at_once(rt: HostRuntime) {
    // the rook's moves from f1 come first: five along the rank, and then f2, f3, f4, f5 and the mate on f6
    let rook = "k5/6/1K4/6/6/5R w";
    let Ok(answer) = solved(&rt, rt.alloc(), &position(&rt, rook), Goal::Mate, 1, 64) else {
        panic!(rt; "no answer")
    };
    let lines = claims_of(&rt, rook, Goal::Mate, &answer).expect(&rt, "memory");
    assert_eq!(rt; lines.as_slice(), b"j\n\n".as_slice());
}

#[test]
fn the_checker_takes_what_the_maker_writes(rt: HostRuntime) {
    let rook = "k5/6/2K3/6/6/1R4 w";
    let kings = "k5/6/6/6/6/5K w";
    for (text, goal, limit, first) in [
        (rook, Goal::Mate, 3, "mate 3 c4c5\n"),
        (rook, Goal::Mate, 2, "none within 2\n"),
        (rook, Goal::MateOrStale, 3, "goal 1 b1b5\n"),
        (kings, Goal::Mate, 8, "none within 8\n"),
        ("k4/2P2/1K3/5/5 w", Goal::Mate, 5, "mate 1 c4c5q\n"),
        ("5/3k1/2R2/1KP1P/5 w", Goal::Mate, 9, "mate 9 b2b3\n"),
    ] {
        let is_taken = checked(&rt, text, goal, limit, first).expect(&rt, "memory");
        assert!(rt; is_taken, "{text} {first}");
    }
}
