//! The calls of a solver that lives, and of what stops it.
ghost use Rattle.std.specs.Prelude.{◌≡◌, ◌⊎◌, ◌↔◌, false, true};
ghost use Rattle.slots.specs.Promise.{IsSize};
ghost use Rattle.minimate_c.specs.Asked.{AsksSolver, IsOpenSolver};
ghost use Rattle.minimate_c.specs.Stopping.{Sets, Looks};
ghost use Rattle.minimate_c.specs.Written.{KeysTold, TreeTold, WritesTold};

use crate::asking::{ANOTHER, FORCED, NO_SOLVER, Query, boxed, replied, set_stop};
use crate::found::Win;
use crate::handle::{SolverHandle, StopHandle};
use crate::writing::{Telling, put, told_by};
use solver::Place;
use std::alloc::Global;

/// Makes a solver over so many slots, and what stops it: 0 where there are both, else why there is neither.
#[unsafe(no_mangle)]
pub extern "C" fn minimate_solver_open(
    alloc: Global,
    solver: &mut SolverHandle,
    stop: &mut StopHandle,
    slots: u32,
) -> u32
    ensures opened { (result ≡ 0) → IsOpenSolver slots solver.new.held.value stop.new.held.value }
    ensures slots { (result ≡ 6) → IsSize slots 1 → ⊥ }
    ensures size { solver.old.full ≡ false → stop.old.full ≡ false → (¬ IsSize slots 1) → result ≡ 6 }
    ensures another { (result ≡ 8) ↔ ((solver.old.full ≡ true) ⊎ (stop.old.full ≡ true)) }
    ensures number { (result ≡ 0) ⊎ (result ≡ 6) ⊎ (result ≡ 7) ⊎ (result ≡ 8) }
    ensures kept { (result ≡ 0) ⊎ ((solver.new ≡ solver.old) × (stop.new ≡ stop.old)) }
{
    if solver.full || stop.full {
        return ANOTHER;
    }
    match boxed(alloc, slots) {
        Ok((made, source)) => {
            solver.put(made);
            stop.put(source);
            FORCED
        }
        Err(number) => number,
    }
}

/// Asks a solver for the fewest plies up to the limit, and the least first move.
#[unsafe(no_mangle)]
pub extern "C" fn minimate_solver_solve(
    alloc: Global,
    solver: &mut SolverHandle,
    fen: &[u8],
    stale: bool,
    limit: u32,
    found: &mut Win,
) -> u32
    ensures { AsksSolver fen.now stale limit found.old solver.old.held.value solver.new.held.value result found.new }
{
    let Some(mut held) = solver.take(alloc) else {
        return NO_SOLVER;
    };
    let result = replied(&mut held, &Query { fen, stale, limit }, found);
    solver.put(held);
    result
}

/// Asks a solver for each first move that forces the goal within the limit: their text goes into the room, and its length is told.
#[unsafe(no_mangle)]
pub extern "C" fn minimate_solver_keys(
    alloc: Global,
    solver: &mut SolverHandle,
    fen: &[u8],
    stale: bool,
    limit: u32,
    room: &mut [u8],
    length: &mut usize,
) -> u32
    ensures { WritesTold KeysTold fen.now stale limit room.old
        solver.old.held.value solver.new.held.value result room.new length.new }
{
    let asked = Query { fen, stale, limit };
    let told = told_by(alloc, solver, &asked, Telling::Keys);
    put(told, room, length)
}

/// Asks a solver for the tree that shows the answer: its text goes into the room, and its length is told.
#[unsafe(no_mangle)]
pub extern "C" fn minimate_solver_tree(
    alloc: Global,
    solver: &mut SolverHandle,
    fen: &[u8],
    stale: bool,
    limit: u32,
    room: &mut [u8],
    length: &mut usize,
) -> u32
    ensures { WritesTold TreeTold fen.now stale limit room.old
        solver.old.held.value solver.new.held.value result room.new length.new }
{
    let asked = Query { fen, stale, limit };
    let told = told_by(alloc, solver, &asked, Telling::Tree);
    put(told, room, length)
}

/// Gives a solver up.
#[unsafe(no_mangle)]
pub extern "C" fn minimate_solver_close(alloc: Global, solver: &mut SolverHandle)
    ensures { solver.new.full ≡ false }
{
    let _ = solver.take(alloc);
}

/// Tells a solver to stop, or to go on.
#[unsafe(no_mangle)]
pub extern "C" fn minimate_stop_set(alloc: Global, stop: &mut StopHandle, set: bool) -> u32
    ensures { Sets set stop.old.held.value stop.new.held.value result }
{
    let Some(mut source) = stop.take(alloc) else {
        return NO_SOLVER;
    };
    set_stop(&mut source, set);
    stop.put(source);
    FORCED
}

/// How far the search is that is under way, or how far the last one was.
#[unsafe(no_mangle)]
pub extern "C" fn minimate_stop_place(
    alloc: Global,
    stop: &mut StopHandle,
    place: &mut Place,
) -> u32
    ensures { Looks stop.old.held.value stop.new.held.value place.old result place.new }
{
    let Some(source) = stop.take(alloc) else {
        return NO_SOLVER;
    };
    *place = source.place();
    stop.put(source);
    FORCED
}

/// Gives up what stops a solver.
#[unsafe(no_mangle)]
pub extern "C" fn minimate_stop_close(alloc: Global, stop: &mut StopHandle)
    ensures { stop.new.full ≡ false }
{
    let _ = stop.take(alloc);
}
