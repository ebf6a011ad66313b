//! A tree that several threads prepare: what they find stands in the table alone, and no answer rests on it.
ghost use Rattle.std.specs.Prelude.{◌≡◌, ◌<◌, ◌≤◌, All, IfOk, length, vec_capacity};
ghost use Rattle.rules.specs.Squares.{Ply};
ghost use Rattle.rules.specs.Moves.{IsMove};
ghost use Rattle.rules.specs.Forces.{Forces};
ghost use Rattle.slots.specs.Promise.{IsSeatOf};
ghost use Rattle.problems.specs.Answer.{IsFewest};
ghost use Rattle.decision.specs.Calls.{Continues, SeatsContinue};
ghost use Rattle.wintree.specs.Wins.{Wins, height};
ghost use Rattle.searcher.specs.Best.{IsBest};

use crate::best::best_move;
use crate::building::build_tree;
use crate::decider::Decider;
use crate::searcher::Searcher;
use crate::table::Table;
use decision::{Memory, Never, Scout};
use entry::MateLore;
use moves::{Board, Goal, after, lawful_on};
use problems::Problem;
use slots::{Seat, Slots};
use std::alloc::Global;
use std::sync::Wait;
use std::thread;
use std::thread::Threads;
use wintree::{NoMemory, Tree};

/// From so many plies on a line is searched by all threads.
const PREPARED_FROM: u8 = 7;

/// One thread's way through the tree: each begins at another reply of a position, every other one from the last on.
#[derive(Drop)]
struct Walk {
    goal: Goal,
    turn: usize,
}

impl Walk {
    /// The number of the reply that comes after k others, of so many.
    fn place(&self, k: usize, count: usize) -> usize
        requires { k < count }
        ensures { result < count }
    {
        let from = (self.turn / 2).wrapping_mul(5).wrapping_mul(count) / 13;
        let at = from.wrapping_add(k) % count;
        if self.turn % 2 == 0 {
            at
        } else {
            count - 1 - at
        }
    }
}

/// Finds the best move, and then those after each reply.
#[cycle(preparing)]
fn prepare_line<D: Decider>(walk: &Walk, decider: &mut D, board: &Board, limit: u8)
    requires limit { limit ≤ 63 }
    requires forced { Forces walk.now.goal board.now.mover board.now limit }
    ensures { D.goes decider.old decider.new }
{
    if limit < PREPARED_FROM {
        return;
    }
    let Some(attack) = best_move(decider, board, walk.goal, limit) else {
        return;
    };
    prepare_replies(walk, decider, &after(board, attack), limit - 2);
}

/// Finds the best moves after each lawful reply, where each is met within so many plies.
#[cycle(preparing)]
fn prepare_replies<D: Decider>(walk: &Walk, decider: &mut D, board: &Board, n: u8)
    requires plies { n ≤ 61 }
    requires forced { (m : Ply) (q : _) → IsMove board.now m q → Forces walk.now.goal q.mover q n }
    ensures { D.goes decider.old decider.new }
{
    let moves = lawful_on(board);
    let replies = moves.as_slice();
    let count = replies.len();
    for k in 0..count {
        let reply = replies[walk.place(k, count)];
        prepare_line(walk, decider, &after(board, reply), n);
    }
}

/// Searches, by a thread for each seat, what the problem's tree needs.
fn prepare_tree<R: Threads + Wait + Sync>(
    rt: &R,
    problem: &Problem,
    plies: u8,
    slots: &Slots<MateLore>,
    seats: &mut Vec<Seat>,
)
    requires seats { All (IsSeatOf slots.now) seats.old.items }
    requires plies { plies ≤ 63 }
    requires fewest { IsFewest problem.now.goal problem.now.position plies }
    ensures capacity { vec_capacity seats.new ≡ vec_capacity seats.old }
    ensures count { length seats.new.items ≡ length seats.old.items }
    ensures seats { All (IsSeatOf slots.now) seats.new.items }
    ensures go_on { SeatsContinue slots.now seats.old.items seats.new.items }
{
    let threads = seats.len();
    if threads < 2 || plies < PREPARED_FROM {
        return;
    }
    let goal = problem.goal;
    let board = Board::of(&problem.position);
    thread::for_each_mut(
        rt,
        seats.as_mut_slice(),
        threads,
        &|turn, seat: &mut Seat|
            requires { (plies ≤ 63) × Forces goal board.mover board plies × IsSeatOf slots.now seat.now }
            ensures { IsSeatOf slots.entry.now seat.exit.now × Continues slots.entry.now seat.entry.now seat.exit.now }
        {
            let mut scout = Scout {
                stop: Never,
                memory: Memory::new(),
            };
            let mut searcher = Searcher {
                slots,
                seat,
                scout: &mut scout,
            };
            prepare_line(&Walk { goal, turn }, &mut searcher, &board, plies)
        },
    );
}

/// The tree that `build_tree` gives, of a problem whose fewest plies to the goal these are, its longer lines searched by a thread for
/// each seat of the table. The last seat is that of the caller's own thread. A thread that can't be started is left out. After a want of
/// memory the table serves the next call.
pub fn build_tree_over<R: Threads + Wait + Sync>(
    rt: &R,
    alloc: Global,
    problem: &Problem,
    plies: u8,
    table: &mut Table,
) -> Result<Tree, NoMemory>
    requires plies { plies ≤ 63 }
    requires fewest { IsFewest problem.now.goal problem.now.position plies }
    ensures same { table.new.slots ≡ table.old.slots }
    ensures seats { length table.new.seats.items ≡ length table.old.seats.items }
    ensures go_on { SeatsContinue table.old.slots table.old.seats.items table.new.seats.items }
    ensures best { IfOk result (IsBest problem.now.goal problem.now.position) }
    ensures wins { IfOk result (Wins problem.now.goal problem.now.position) }
    ensures height { IfOk result (λ tree. height tree ≡ plies) }
{
    prepare_tree(rt, problem, plies, &table.slots, &mut table.seats);
    let mut own = table.seats.take_last();
    let Problem { position, goal, .. } = problem;
    let tree = build_tree(alloc, &table.slots, &mut own, position, *goal, plies);
    table.seats.push_reserved(own);
    tree
}
