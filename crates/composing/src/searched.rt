//! The answer at one position, with a sign of life beside its search.
ghost use Rattle.std.specs.Prelude.{IfOk};
ghost use Rattle.problems.specs.Answer.{IsAnswer};
ghost use Rattle.composing.specs.Searched.{SolvesOver};

use board::Position;
use command_line::Limits;
use context::{Context, beside, opened};
use moves::Goal;
use problems::Answer;
use refusals::Refusal;
use searcher::{Crew, Table};
use std::alloc::{AllocError, Global};
use std::sync::Wait;
use std::thread::Threads;
use std::time::Clock;

/// An answer, with the table by which it was found.
#[derive(Drop)]
pub struct Searched {
    pub answer: Answer,
    pub table: Table,
}

/// The answer at a position, with a sign of life where one is asked for.
pub fn searched_at<R: Threads + Wait + Eprint + Clock + Sync + AllocGlobal, C: Crew<Global>>(
    context: &Context<'_, R, C>,
    position: &Position,
    goal: Goal,
    limits: Limits,
) -> Result<Searched, Refusal>
    requires { C.ready context.now.crew }
    ensures { SolvesOver goal position.now limits result }
{
    let (problem, mut table) = opened(context.rt.alloc(), position, goal, limits)?;
    let watch = context.watch_of(position, false, limits);
    let answer = {
        let (crew, table, problem, watch) = (&context.crew, &mut table, &problem, watch.as_ref());
        beside(
            context.rt,
            watch,
            move || -> Result<Answer, AllocError>
                requires { C.ready crew.now }
                ensures { IfOk result
                    (IsAnswer problem.entry.now.goal problem.entry.now.position problem.entry.now.limit) }
            { crew.solve(table, problem, watch) },
        )?
    };
    Ok(Searched { answer, table })
}
