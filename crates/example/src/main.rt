//! The crates as a maker of engines uses them: a position, its solve by three threads, the tree of its mate, and that tree's check.
#![tactic(auto)]

use board::Position;
use moves::{Goal, read_sound};
use search::{
    Answer, NoGate, Problem, SolveFault, Table, Task, build_tree_over, make_table, solve_over,
};
use std::io;
use std::io::Write;
use std::sync::Wait;
use std::thread::Threads;
use wintree::{Tree, check, tree_text};

/// A king and a rook against a king, White to move.
const POSITION: &[u8] = b"k5/6/2K3/6/6/1R4 w";

/// The tree of the problem's answer, or none: the same table serves the solve and the tree.
fn tree_over<R: Threads + Wait + AllocGlobal + Sync>(
    rt: &R,
    problem: &Problem,
    table: &mut Table,
) -> Result<Option<Tree>, SolveFault> {
    let task = Task {
        problem,
        slots: &table.slots,
        gate: &NoGate,
    };
    match solve_over(rt, rt.alloc(), &task, &mut table.seats)? {
        Answer::NoneWithin(_) => Ok(None),
        Answer::Mate { plies, .. } => match build_tree_over(rt, rt.alloc(), problem, plies, table) {
            Ok(tree) => Ok(Some(tree)),
            Err(_) => Err(SolveFault::NoMemory),
        },
    }
}

/// The tree of the position's mate within five plies, or none.
fn mate_of<R: Threads + Wait + AllocGlobal + Sync>(
    rt: &R,
    position: &Position,
) -> Result<Option<Tree>, SolveFault> {
    let Some(problem) = Problem::of(position, Goal::Mate, 5) else {
        return Err(SolveFault::Limit);
    };
    let mut table = make_table(rt.alloc(), 2, 4096)?;
    tree_over(rt, &problem, &mut table)
}

fn main(rt: HostRuntime) -> io::Result<()> {
    let Ok(position) = read_sound(POSITION) else {
        return println!(rt; "no sound position");
    };
    let Ok(Some(tree)) = mate_of(&rt, &position) else {
        return println!(rt; "no mate within 5 plies");
    };
    let Ok(text) = tree_text(rt.alloc(), &tree) else {
        return println!(rt; "no memory");
    };
    rt.stdout().write_all(text.as_slice())?;
    match check(&position, &tree, Goal::Mate) {
        Some(plies) => println!(rt; " wins in {plies} plies"),
        None => println!(rt; " doesn't win"),
    }
}
