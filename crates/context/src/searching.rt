//! A table and a problem within limits.
ghost use Rattle.problems.specs.Problems.{IsProblemOf};
ghost use Rattle.context.specs.Limits.{FindsWithin};
ghost use Rattle.context.specs.Searching.{IsTableOf};

use crate::limits::{Search, refusal_of, search_of};
use board::Position;
use command_line::Limits;
use moves::Goal;
use problems::{Problem, is_limit};
use refusals::Refusal;
use searcher::{Table, make_table};
use std::alloc::{Allocator, Global};

/// A table within the limits: so many slots, with a seat for each worker and one for the caller's own thread.
pub fn table_within(alloc: Global, limits: Limits) -> Result<Table, Refusal>
    ensures { FindsWithin limits (IsTableOf limits) result }
{
    let Search {
        limit,
        workers,
        slots,
    } = search_of(limits);
    if !is_limit(limit) {
        return Err(Refusal::Limit);
    }
    match make_table(alloc, workers, slots) {
        Ok(table) => Ok(table),
        Err(fault) => Err(refusal_of(fault)),
    }
}

/// The problem of a position, and a table for it, within the limits.
pub fn opened<A: Allocator + Copy>(
    alloc: A,
    position: &Position,
    goal: Goal,
    limits: Limits,
) -> Result<(Problem, Table<A>), Refusal>
    ensures { FindsWithin limits (λ opened. IsProblemOf position.now goal limits.limit opened.0) result }
{
    let Search {
        limit,
        workers,
        slots,
    } = search_of(limits);
    let Some(problem) = Problem::of(position, goal, limit) else {
        return Err(Refusal::Limit);
    };
    match make_table(alloc, workers, slots) {
        Ok(table) => Ok((problem, table)),
        Err(fault) => Err(refusal_of(fault)),
    }
}
