//! That a table, once lent, comes back and serves on.
use crate::solves::{expected, read, root};
use board::Position;
use moves::{Goal, Move, Square};
use problems::{Answer, Problem};
use rounds::{SolveFault, Task, make_table, solve_over};
use searcher::{NoGate, Table};
use std::alloc::Global;
use std::process::Abort;
use std::sync::Wait;
use std::test::*;
use std::thread::Threads;

// A table of so many slots, with seats for so many workers and the caller's thread.
pub(crate) fn table(rt: &impl Abort, alloc: Global, workers: u8, slots: usize) -> Table {
    match make_table(alloc, workers, slots) {
        Ok(made) => made,
        Err(_) => panic!(rt; "no table"),
    }
}

// A table of 64 slots for the caller's thread alone.
pub(crate) fn own_table(rt: &impl Abort, alloc: Global) -> Table {
    let (slots, seat) = table(rt, alloc, 1, 64).into_alone();
    let mut seats = Vec::with_capacity(alloc, 1).expect(rt, "memory");
    seats.push_reserved(seat);
    Table { slots, seats }
}

// The problem of a position within so many plies.
pub(crate) fn problem(rt: &impl Abort, position: &Position, goal: Goal, limit: u8) -> Problem {
    Problem::of(position, goal, limit).expect(rt, "a limit")
}

// The answer for mate within so many plies, or none for want of memory.
fn within<R: Threads + Wait + Abort + Sync>(
    rt: &R,
    alloc: Global,
    position: &Position,
    limit: u8,
    table: &mut Table,
) -> Option<Answer> {
    let problem = problem(rt, position, Goal::Mate, limit);
    let task = Task {
        problem: &problem,
        slots: &table.slots,
        gate: &NoGate,
    };
    solve_over(rt, alloc, &task, &mut table.seats).ok()
}

// Black mates at once by f6f1.
const F6F1: Move = Move {
    from: Square { file: 5, rank: 5 },
    to: Square { file: 5, rank: 0 },
    promotion: None,
};

// Two positions of two games are solved, one of them to two limits.
fn serves<R: Threads + Wait + Abort + Sync>(rt: &R, alloc: Global, table: &mut Table) -> bool {
    let none = within(rt, alloc, &root(rt), 2, table) == Some(Answer::NoneWithin(2));
    let third = within(rt, alloc, &root(rt), 3, table) == Some(expected());
    let black = read(rt, b"5r/6/6/1k4/6/K5 b");
    let first = within(rt, alloc, &black, 63, table);
    none && third
        && first
            == Some(Answer::Mate {
                plies: 1,
                first: F6F1,
            })
}

#[test]
fn one_table_serves_several_solves(rt: HostRuntime) {
    for (workers, slots) in [(1, 1), (2, 64), (16, 64)] {
        let mut table = table(&rt, rt.alloc(), workers, slots);
        assert!(rt; serves(&rt, rt.alloc(), &mut table));
        assert!(rt; serves(&rt, rt.alloc(), &mut table));
        assert!(rt; table.seats.len() == usize::from(workers) + 1);
    }
}

#[test]
fn one_seat_alone_serves(rt: HostRuntime) {
    let mut table = own_table(&rt, rt.alloc());
    let answer = within(&rt, rt.alloc(), &root(&rt), 3, &mut table);
    assert!(rt; answer == Some(expected()) && table.seats.len() == 1);
}

#[test]
fn tables_of_the_sizes_asked(rt: HostRuntime) {
    for (workers, slots) in [(1, 1), (16, 64)] {
        let table = table(&rt, rt.alloc(), workers, slots);
        assert!(rt; table.slots.len() == slots && table.seats.len() == usize::from(workers) + 1);
    }
    for (workers, slots, fault) in [
        (17, 0, SolveFault::Workers),
        (0, 1, SolveFault::Workers),
        (1, 0, SolveFault::Slots),
        (16, 1_048_577, SolveFault::Slots),
    ] {
        let made = make_table(rt.alloc(), workers, slots);
        assert!(rt; matches!(made, Err(found) if found == fault));
    }
}

// A limit of 1 to 63 makes a problem, and no other does.
#[test]
fn problems_within_the_limits_alone(rt: HostRuntime) {
    let position = root(&rt);
    for limit in [1, 2, 63] {
        let made = Problem::of(&position, Goal::Mate, limit);
        assert!(rt; matches!(made, Some(problem) if problem.limit == limit));
    }
    for limit in [0, 64, 255] {
        assert!(rt; Problem::of(&position, Goal::Mate, limit).is_none());
    }
}
