//! A solve: rounds of more and more plies, each by all workers, over one table.
ghost use Rattle.std.specs.Prelude.{◌≡◌, IfOk, IfErr, None, length};
ghost use Rattle.problems.specs.Answer.{IsAnswer};
ghost use Rattle.searcher.specs.Tables.{AreSeats, AreCallers};
ghost use Rattle.searcher.specs.Limits.{limits_fault, IsRefusal};
ghost use Rattle.rounds.specs.Going.{SeatsGoOn};

use crate::round::round;
use crate::shared::Solve;
use crate::task::Task;
use board::Position;
use moves::Goal;
use problems::{Answer, Problem, Root};
use searcher::{Ended, Gate, SolveFault, Table, make_table};
use slots::Seat;
use std::alloc::{AllocError, Global};
use std::marker::Brand;
use std::sync::Wait;
use std::thread::Threads;

/// The fewest plies in which the side to move forces the goal, with the least first move, or that there are
/// none up to the limit: searched by a thread for each seat of the task's table. The first seat is that of the caller's
/// own thread. After a want of memory the seats serve the next call.
pub fn solve_over<T: Gate, R: Threads + Wait + Sync>(
    rt: &R,
    alloc: Global,
    task: &Task<'_, T>,
    seats: &mut Vec<Seat>,
) -> Result<Answer, AllocError>
    requires { AreCallers task.now.slots.now seats.old.items }
    ensures answer { IfOk result
        (IsAnswer task.now.problem.now.goal task.now.problem.now.position task.now.problem.now.limit) }
    ensures seats { AreSeats task.now.slots.now (length seats.old.items) seats.new.items }
    ensures go_on { SeatsGoOn T.keeps task.now.slots.now seats.old.items seats.new.items }
{
    let search = Solve {
        root: Root::of(task.problem),
        slots: task.slots,
        gate: task.gate,
    };
    // an even number of plies forces no more than the odd one below it
    for number in 0..(search.root.limit + 1) / 2 {
        let plies = 2 * number + 1;
        if let Some(job) = round::<Brand, T, R>(rt, alloc, &search, plies, seats)? {
            let first = search.root.moves[usize::from(job)];
            return Ok(Answer::Mate { plies, first });
        }
        search.gate.end(plies, Ended::Round);
    }
    Ok(Answer::NoneWithin(search.root.limit))
}

/// The fewest plies in which the side to move forces the goal, with the least first move, or that there are none up to the
/// limit: searched by so many workers and the caller's own thread, over a table of so many slots. A worker that can't be
/// started is left out.
pub fn solve<T: Gate, R: Threads + Wait + Sync>(
    rt: &R,
    alloc: Global,
    position: &Position,
    goal: Goal,
    limit: u8,
    workers: u8,
    slots: usize,
    gate: &T,
) -> Result<Answer, SolveFault>
    ensures answer { IfOk result (IsAnswer goal position.now limit) }
    ensures accepted { IfOk result (λ _. limits_fault limit workers slots ≡ None) }
    ensures refused { IfErr result (IsRefusal limit workers slots) }
{
    let Some(problem) = Problem::of(position, goal, limit) else {
        return Err(SolveFault::Limit);
    };
    let Table { slots, mut seats } = make_table(alloc, workers, slots)?;
    let task = Task {
        problem: &problem,
        slots: &slots,
        gate,
    };
    Ok(solve_over(rt, alloc, &task, &mut seats)?)
}
