//! The reply to a first move that is given: its tree, where it wins within the limit.
ghost use Rattle.std.specs.Prelude.{◌≡◌, ◌⊎◌, IfSome, MatchOption, None, min, vec_items};
ghost use Rattle.problems.specs.Roots.{IsRoot, IsJobOf};
ghost use Rattle.replies.specs.First.{IsFirstReply, IsUnmet, MissesAt, MissesJob, MissesWithin, ShowsFirst, ShowsJob};
ghost use Rattle.context.specs.Naming.{NamesJob};
ghost use Rattle.refusals.specs.Outcome.{Gives};
ghost use Rattle.context.specs.Limits.{fault_of};
ghost use Rattle.context.specs.Naming.{NamesNone};

use crate::shown::tree_line;
use board::Position;
use command_line::{Limits, NamedMove};
use context::{named_job, none_line, search_of, table_within};
use moves::{Board, Goal, Move, after, lawful_on, read_sound};
use problems::{Answer, MOST_LIMIT, Problem, Root};
use refusals::{Refusal, advise_refuted};
use searcher::{Crew, Table};
use std::alloc::Global;
use std::io::Write;

/// The first reply behind which the goal isn't forced within so many plies, over what the table has. After a want of memory it is
/// none.
fn refutation<C: Crew<Global>>(
    crew: &C,
    table: &mut Table,
    board: &Board,
    goal: Goal,
    limit: u8,
) -> Option<Move>
    requires { C.ready crew.now }
    ensures { IfSome result (IsUnmet goal board.now limit) }
{
    let replies = lawful_on(board);
    for reply in replies.as_slice() {
        let position = after(board, *reply).position();
        let problem = Problem::of(&position, goal, limit)?;
        match crew.solve(table, &problem, None) {
            Ok(Answer::Mate { .. }) => {}
            Ok(Answer::NoneWithin(_)) => return Some(*reply),
            Err(_) => return None,
        }
    }
    None
}

/// Tells what refutes the root's move of this number, where a reply does.
fn tell_refutation<C: Crew<Global>, E: Write>(
    crew: &C,
    table: &mut Table,
    root: &Root,
    job: u16,
    errors: &mut E,
)
    requires crew { C.ready crew.now }
    requires job { IsJobOf root.now job }
{
    let first = root.moves[usize::from(job)];
    let next = after(&root.board, first);
    if let Some(reply) = refutation(crew, table, &next, root.goal, root.limit.saturating_sub(2)) {
        let _ = advise_refuted(errors, first, reply);
    }
}

/// What is printed of a root's move: its tree, or that it wins within no number of plies up to the limit; then `errors` is told what refutes it.
fn opened_text<C: Crew<Global>, E: Write>(
    crew: &C,
    root: &Root,
    job: u16,
    limits: Limits,
    errors: &mut E,
) -> Result<Vec<u8>, Refusal>
    requires crew { C.ready crew.now }
    requires job { IsJobOf root.now job }
    requires limit { fault_of limits ≡ None → root.now.limit ≡ limits.limit }
    ensures shown { Gives vec_items (ShowsJob root.now job limits) result }
    ensures silent { MissesJob root.now job limits.limit ⊎ (errors.new ≡ errors.old) }
{
    let alloc = crew.alloc();
    let mut table = table_within(alloc, limits)?;
    match crew.tree_of(&mut table, root, job) {
        Ok(Some(tree)) => Ok(tree_line(alloc, &tree)?),
        Ok(None) => {
            tell_refutation(crew, &mut table, root, job, errors);
            none_line(alloc, root.limit)
        }
        Err(_) => Err(Refusal::NoMemory),
    }
}

/// The tree of the root's move of this name. A limit of more than 63 plies is refused, once the name is that of a lawful move.
fn first_shown<C: Crew<Global>, E: Write>(
    crew: &C,
    root: &Root,
    name: &[u8],
    limits: Limits,
    errors: &mut E,
) -> Result<Vec<u8>, Refusal>
    requires crew { C.ready crew.now }
    requires root { IsRoot root.now }
    requires limit { root.now.limit ≡ min (min limits.limit 255) 63 }
    ensures shown { Gives vec_items (ShowsFirst root.now.goal root.now.board name.now limits) result }
    ensures silent { MissesWithin root.now.goal root.now.board limits.limit name.now ⊎ (errors.new ≡ errors.old) }
{
    match named_job(root, name) {
        Some(job) => opened_text(crew, root, job, limits, errors),
        None => Err(Refusal::Move),
    }
}

/// The tree of the first move of this name, on a line, where it wins within the limit; else `errors` is told what refutes it.
pub fn first_reply<C: Crew<Global>, E: Write>(
    crew: &C,
    played: &NamedMove<'_>,
    goal: Goal,
    limits: Limits,
    errors: &mut E,
) -> Result<Vec<u8>, Refusal>
    requires { C.ready crew.now }
    ensures shown { Gives vec_items (IsFirstReply played.now goal limits) result }
    ensures silent { MissesAt played.now goal limits ⊎ (errors.new ≡ errors.old) }
{
    let position = read_sound(played.fen)?;
    let limit = search_of(limits).limit.min(MOST_LIMIT);
    let root = Root::on(Board::of(&position), goal, limit);
    first_shown(crew, &root, played.name, limits, errors)
}
