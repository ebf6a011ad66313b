//! Solves and keys by the caller's own thread over a table, with no lock, where nothing stops it.
ghost use Rattle.std.specs.Prelude.{◌≤◌, IfOk};
ghost use Rattle.slots.specs.Promise.{IsSeatOf};
ghost use Rattle.problems.specs.Answer.{IsAnswer};
ghost use Rattle.decision.specs.Calls.{Continues};
ghost use Rattle.problems.specs.Keys.{ListsKeys};
ghost use Rattle.problems.specs.Roots.{IsRoot};

use decision::{Memory, Never, Scout};
use entry::MateLore;
use moves::{Board, Goal};
use problems::{Answer, Key, Problem, Root};
use searcher::{Halt, Searcher, keys_of, solve_by};
use slots::{Seat, Slots};
use std::alloc::{AllocError, Allocator};

/// `solve_by`, over a table.
fn solve_root<A: Allocator>(slots: &Slots<MateLore, A>, seat: &mut Seat, root: &Root) -> Answer
    requires seat { IsSeatOf slots.now seat.old }
    requires root { IsRoot root.now }
    ensures continues { Continues slots.now seat.old seat.new }
    ensures answer { IsAnswer root.now.goal root.now.board root.now.limit result }
{
    let mut scout = Scout {
        stop: Never,
        memory: Memory::new(),
    };
    let mut searcher = Searcher {
        slots,
        seat,
        scout: &mut scout,
    };
    let Some(answer) = solve_by(&mut searcher, root) else {
        unreachable!()
    };
    answer
}

/// `solve_by`, over a table. The table and the seat serve the next call.
pub fn solve_alone<A: Allocator>(
    slots: &Slots<MateLore, A>,
    seat: &mut Seat,
    problem: &Problem,
) -> Answer
    requires seat { IsSeatOf slots.now seat.old }
    ensures continues { Continues slots.now seat.old seat.new }
    ensures answer { IsAnswer problem.now.goal problem.now.position problem.now.limit result }
{
    solve_root(slots, seat, &Root::of(problem))
}

/// The fewest plies in which the side to move forces the goal, with the least first move, or that there are none up to the limit, of 0 to
/// 63: `solve_alone`, on a board. The table and the seat serve the next call.
pub fn solve_board_alone<A: Allocator>(
    slots: &Slots<MateLore, A>,
    seat: &mut Seat,
    board: &Board,
    goal: Goal,
    limit: u8,
) -> Answer
    requires seat { IsSeatOf slots.now seat.old }
    requires limit { limit ≤ 63 }
    ensures continues { Continues slots.now seat.old seat.new }
    ensures answer { IsAnswer goal board.now limit result }
{
    solve_root(slots, seat, &Root::on(board.copied(), goal, limit))
}

/// `keys_of`, over a table. After a want of memory the table and the seat serve the next call.
pub fn keys_alone<A: Allocator, B: Allocator>(
    alloc: B,
    slots: &Slots<MateLore, A>,
    seat: &mut Seat,
    problem: &Problem,
) -> Result<Vec<Key, B>, AllocError>
    requires seat { IsSeatOf slots.now seat.old }
    ensures continues { Continues slots.now seat.old seat.new }
    ensures keys { IfOk result (λ keys. ListsKeys problem.now.goal problem.now.position problem.now.limit keys.items) }
{
    let mut scout = Scout {
        stop: Never,
        memory: Memory::new(),
    };
    let mut searcher = Searcher {
        slots,
        seat,
        scout: &mut scout,
    };
    match keys_of(alloc, &mut searcher, &Root::of(problem)) {
        Ok(keys) => Ok(keys),
        Err(Halt::NoMemory) => Err(AllocError),
        Err(Halt::Stopped) => unreachable!(),
    }
}
