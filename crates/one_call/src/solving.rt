//! A solve by two workers, over a table of its own or one that is lent. A worker whose start is refused is
//! left out. After want of memory the table that was lent and its seats serve the next decision.
ghost use Rattle.std.specs.Prelude.{All};
ghost use Rattle.slots.specs.Promise.{IsSeatOf};

use board::{Position, Side, read_fen};
use decision::decide;
use entry::MateLore;
use moves::{Goal, Move, Square};
use problems::{Answer, Problem};
use rounds::{SolveFault, Task, make_table, solve, solve_over};
use searcher::{NoGate, Table};
use slots::{Seat, Slots};
use std::alloc::Global;
use std::sync::Wait;
use std::thread::Threads;

/// White mates in three plies by c4c5.
pub(crate) fn root() -> Option<Position> {
    read_fen(b"k5/6/2K3/6/6/1R4 w").ok()
}

const C4C5: Move = Move {
    from: Square { file: 2, rank: 3 },
    to: Square { file: 2, rank: 4 },
    promotion: None,
};

pub(crate) fn answer<R: Threads + Wait + Sync>(rt: &R, alloc: Global) -> &'static str {
    let Some(root) = root() else {
        return "no position";
    };
    let answer = match solve(rt, alloc, &root, Goal::Mate, 3, 2, 64, &NoGate) {
        Ok(answer) => answer,
        Err(SolveFault::NoMemory) => return "no memory",
        Err(_) => return "refused",
    };
    said_of(answer)
}

fn said_of(answer: Answer) -> &'static str {
    let expected = Answer::Mate {
        plies: 3,
        first: C4C5,
    };
    if answer == expected {
        "solved"
    } else {
        "wrong"
    }
}

/// Whether the three seats are there, and one decides.
fn serve(slots: &Slots<MateLore>, seats: &mut Vec<Seat>, root: &Position) -> bool
    requires { All (IsSeatOf slots.now) seats.old.items }
{
    if seats.len() != 3 {
        return false;
    }
    let mut seat = seats.take_last();
    decide(slots, &mut seat, root, Side::White, Goal::Mate, 3).yes
}

pub(crate) fn answer_over<R: Threads + Wait + Sync>(rt: &R, alloc: Global) -> &'static str {
    let Some(root) = root() else {
        return "no position";
    };
    let Some(problem) = Problem::of(&root, Goal::Mate, 3) else {
        return "no problem";
    };
    let Ok(Table { slots, mut seats }) = make_table(alloc, 2, 64) else {
        return "no memory";
    };
    let task = Task {
        problem: &problem,
        slots: &slots,
        gate: &NoGate,
    };
    match solve_over(rt, alloc, &task, &mut seats) {
        Ok(answer) => said_of(answer),
        Err(_) if serve(&slots, &mut seats, &root) => "no memory",
        Err(_) => "no more decisions",
    }
}
