//! The play behind a first move that is given: the answer by all threads, and then the play by one seat over the same table.
ghost use Rattle.std.specs.Prelude.{◌≡◌, IfOk, Some, slice_get, vec_items};
ghost use Rattle.rules.specs.Squares.{Ply};
ghost use Rattle.problems.specs.Answer.{IsFewest};
ghost use Rattle.problems.specs.Roots.{IsRoot, IsJobOf};
ghost use Rattle.refusals.specs.Outcome.{Gives};
ghost use Rattle.solution_text.specs.WholeText.{IsFirstSolution};
ghost use Rattle.composing.specs.Solution.{ShowsFirstNamed, ShowsFirstOf};

use crate::searched::searched_at;
use algebraic::Symbols;
use command_line::Limits;
use context::{Context, named_job, none_line};
use decision::{Memory, Never, Scout};
use problems::{Answer, Root};
use refusals::Refusal;
use searcher::{Crew, Halt, Searcher, Table};
use solution_text::first_move_solution;
use std::alloc::{AllocError, Global};
use std::sync::Wait;
use std::thread::Threads;
use std::time::Clock;

/// The text of the play behind the job's move, of a root whose limit is the fewest plies, by the table of what has found them.
fn told(
    alloc: Global,
    table: Table,
    root: &Root,
    symbols: Symbols,
    job: u16,
) -> Result<Vec<u8>, AllocError>
    requires job { IsJobOf root.now job }
    requires fewest { IsFewest root.now.goal root.now.board root.now.limit }
    ensures { IfOk result (λ text. (m : Ply) × (slice_get root.now.moves.items job ≡ Some m)
        × IsFirstSolution symbols root.now.goal root.now.board m text.items) }
{
    let (slots, mut seat) = table.into_alone();
    let mut scout = Scout {
        stop: Never,
        memory: Memory::new(),
    };
    let mut searcher = Searcher {
        slots: &slots,
        seat: &mut seat,
        scout: &mut scout,
    };
    match first_move_solution(alloc, &mut searcher, root, symbols, job) {
        Ok(text) => Ok(text.into_bytes()),
        Err(Halt::NoMemory) => Err(AllocError),
        Err(Halt::Stopped) => unreachable!(),
    }
}

/// What is told of the root's move of this number, within the limits: its limit counts for nothing here.
fn told_within<R: Threads + Wait + Eprint + Clock + Sync + AllocGlobal, C: Crew<Global>>(
    context: &Context<'_, R, C>,
    root: Root,
    job: u16,
    limits: Limits,
    symbols: Symbols,
) -> Result<Vec<u8>, Refusal>
    requires crew { C.ready context.now.crew }
    requires job { IsJobOf root job }
    ensures { Gives vec_items (ShowsFirstOf symbols root job limits) result }
{
    let alloc = context.rt.alloc();
    let mut root = root;
    let found = searched_at(context, &root.board.position(), root.goal, limits)?;
    match found.answer {
        Answer::Mate { plies, .. } => {
            root.limit = plies;
            Ok(told(alloc, found.table, &root, symbols, job)?)
        }
        Answer::NoneWithin(limit) => none_line(alloc, limit),
    }
}

/// The play behind the root's move of this name, within the limits.
pub(crate) fn first_at<R: Threads + Wait + Eprint + Clock + Sync + AllocGlobal, C: Crew<Global>>(
    context: &Context<'_, R, C>,
    root: Root,
    name: &[u8],
    limits: Limits,
    symbols: Symbols,
) -> Result<Vec<u8>, Refusal>
    requires crew { C.ready context.now.crew }
    requires root { IsRoot root }
    ensures { Gives vec_items (ShowsFirstNamed symbols root.goal root.board limits name.now) result }
{
    match named_job(&root, name) {
        Some(job) => told_within(context, root, job, limits, symbols),
        None => Err(Refusal::Move),
    }
}
