//! What a program asks a solver and is answered by a text, in room that it lends.
ghost use Rattle.std.specs.Prelude.{◌≡◌, IfErr, IfOk};
ghost use Rattle.searcher.specs.declared.halt.Halt.TheVariants.{Stopped as stopped};
ghost use Rattle.solver.specs.Stopping.{IsStopped, Hears};
ghost use Rattle.minimate_c.specs.Written.{IsTold, IsWhy, KeysTold, TreeTold};
ghost use Rattle.minimate_c.specs.Putting.{FindsTold, PutsTold, TellsText, number_of, keys_number};

use crate::asking::{FORCED, NO_MEMORY, NO_SOLVER, NONE_WITHIN, Query, STOPPED, asked_problem};
use crate::handle::SolverHandle;
use answer_texts::keys_text;
use context::none_line;
use problems::{Answer, Key, Problem};
use replies::tree_line;
use searcher::Halt;
use solver::Solver;
use std::alloc::Global;

/// The room is too small for the text.
const ROOM: u32 = 9;

/// What is told by a text.
#[derive(Clone, Copy)]
pub(crate) enum Telling {
    /// Each first move that forces the goal.
    Keys,
    /// The tree that shows the answer.
    Tree,
}

/// The text that a search found, and whether something is forced, as a number.
#[derive(Drop)]
pub(crate) struct SolverText {
    pub(crate) number: u32,
    pub(crate) text: Vec<u8>,
}

fn number_of(halt: Halt) -> u32
    ensures { result ≡ number_of halt }
{
    match halt {
        Halt::Stopped => STOPPED,
        Halt::NoMemory => NO_MEMORY,
    }
}

/// Whether there are keys.
fn number_for(keys: &[Key]) -> u32
    ensures { result ≡ keys_number keys.now }
{
    match keys {
        [] => NONE_WITHIN,
        _ => FORCED,
    }
}

/// The keys of a problem, each on a line, or that there are none.
fn keys_at(alloc: Global, solver: &mut Solver, problem: &Problem) -> Result<SolverText, Halt>
    ensures hears { Hears solver.old solver.new }
    ensures told { IfOk result (λ told. KeysTold problem.now.goal problem.now.position problem.now.limit
        told.number told.text.items) }
    ensures halt { IfErr result (λ halt. halt ≡ stopped → IsStopped solver.new) }
{
    let keys = solver.keys(alloc, problem)?;
    let number = number_for(keys.as_slice());
    match keys_text(alloc, u32::from(problem.limit), keys.as_slice()) {
        Ok(text) => Ok(SolverText {
            number,
            text: text.into_bytes(),
        }),
        Err(_) => Err(Halt::NoMemory),
    }
}

/// The best tree of a problem, on a line, or that there is none.
fn tree_at(alloc: Global, solver: &mut Solver, problem: &Problem) -> Result<SolverText, Halt>
    ensures hears { Hears solver.old solver.new }
    ensures told { IfOk result (λ told. TreeTold problem.now.goal problem.now.position problem.now.limit
        told.number told.text.items) }
    ensures halt { IfErr result (λ halt. halt ≡ stopped → IsStopped solver.new) }
{
    match solver.solve(problem) {
        Some(Answer::Mate { plies, .. }) => {
            let tree = solver.tree(alloc, &problem.position, problem.goal, plies)?;
            let text = tree_line(alloc, &tree)?;
            Ok(SolverText {
                number: FORCED,
                text,
            })
        }
        Some(Answer::NoneWithin(limit)) => match none_line(alloc, limit) {
            Ok(text) => Ok(SolverText {
                number: NONE_WITHIN,
                text,
            }),
            Err(_) => Err(Halt::NoMemory),
        },
        None => Err(Halt::Stopped),
    }
}

/// What is told of a problem.
fn told_at(
    alloc: Global,
    solver: &mut Solver,
    problem: &Problem,
    telling: Telling,
) -> Result<SolverText, Halt>
    ensures hears { Hears solver.old solver.new }
    ensures told { IfOk result (λ told. TellsText telling problem.now.goal problem.now.position problem.now.limit
        told.number told.text.items) }
    ensures halt { IfErr result (λ halt. halt ≡ stopped → IsStopped solver.new) }
{
    match telling {
        Telling::Keys => keys_at(alloc, solver, problem),
        Telling::Tree => tree_at(alloc, solver, problem),
    }
}

/// What is told at the position of a text, or why there is nothing to tell.
fn told_of(
    alloc: Global,
    solver: &mut Solver,
    asked: &Query<'_>,
    telling: Telling,
) -> Result<SolverText, u32>
    ensures hears { Hears solver.old solver.new }
    ensures told { IfOk result (λ told.
        IsTold (TellsText telling) asked.now.fen.now asked.now.stale asked.now.limit told.number told.text.items) }
    ensures why { IfErr result (IsWhy asked.now.fen.now asked.now.limit (IsStopped solver.new)) }
{
    let problem = match asked_problem(asked) {
        Ok(problem) => problem,
        Err(why) => return Err(why),
    };
    match told_at(alloc, solver, &problem, telling) {
        Ok(told) => Ok(told),
        Err(halt) => Err(number_of(halt)),
    }
}

/// The same of the solver that a handle holds, where it holds one.
pub(crate) fn told_by(
    alloc: Global,
    handle: &mut SolverHandle,
    asked: &Query<'_>,
    telling: Telling,
) -> Result<SolverText, u32>
    ensures { FindsTold (TellsText telling) asked.now.fen.now asked.now.stale asked.now.limit
        handle.old.held.value handle.new.held.value result }
{
    let Some(mut solver) = handle.take(alloc) else {
        return Err(NO_SOLVER);
    };
    let told = told_of(alloc, &mut solver, asked, telling);
    handle.put(solver);
    told
}

/// Copies a text to the beginning of the room, if it fits, and tells its length.
pub(crate) fn put(found: Result<SolverText, u32>, room: &mut [u8], length: &mut usize) -> u32
    ensures { PutsTold found room.old result room.new length.new }
{
    let told = match found {
        Ok(told) => told,
        Err(why) => {
            *length = 0;
            return why;
        }
    };
    *length = told.text.len();
    if room.len() < told.text.len() {
        return ROOM;
    }
    room[..told.text.len()].copy_from_slice(told.text.as_slice());
    told.number
}
