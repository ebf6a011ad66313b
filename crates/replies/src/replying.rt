//! The reply to a line: the text of its answer, or why there is none.
ghost use Rattle.std.specs.Prelude.{◌≡◌, ◌⊎◌, ◌+◌, ◌<◌, [], vec_items};
ghost use Rattle.devices.specs.Input.{OfInput};
ghost use Rattle.replies.specs.Outcome.{GivesReply};
ghost use Rattle.refusals.specs.Outcome.{Gives, GivesIfRead, reads_failed};
ghost use Rattle.replies.specs.Output.{MayRead, ShowsCheck, ShowsCommand};

use crate::shown::{MOST_INPUT, shown_at, verdict_text};
use board::Position;
use command_line::{Action, Line};
use context::Context;
use devices::{Source, read_all, without_line_feed};
use moves::{Goal, read_sound};
use progress::{Watch, shown};
use refusals::{Refusal, ReplyFault};
use searcher::Crew;
use std::alloc::Global;
use std::io::Write;
use std::sync::Wait;
use std::thread::Threads;
use std::time::Clock;

/// In how many plies the tree of the input wins, if it wins.
fn check_text<S: Source, E: Write>(
    alloc: Global,
    position: &Position,
    goal: Goal,
    reader: &mut S,
    errors: &mut E,
) -> Result<Vec<u8>, ReplyFault>
    requires { S.failures reader.old < u64.MAX }
    ensures shown { OfInput (S.remaining reader.old)
        (λ input. GivesIfRead vec_items (ShowsCheck goal position.now input) result) }
    ensures counts { S.failures reader.new ≡ S.failures reader.old + reads_failed result }
{
    let input = read_all(alloc, reader, MOST_INPUT)?;
    let text = without_line_feed(input.as_slice());
    Ok(verdict_text(alloc, position, goal, text, errors)?)
}

/// The text that answers a line. Only `check` asks the reader for anything, and only where the position is sound; then `errors` is told why
/// a tree doesn't win.
pub fn reply_to<
    R: Threads + Wait + Eprint + Clock + Sync + AllocGlobal,
    C: Crew<Global>,
    S: Source,
    E: Write,
>(
    context: &Context<'_, R, C>,
    watch: Option<&Watch>,
    line: &Line<'_>,
    reader: &mut S,
    errors: &mut E,
) -> Result<Vec<u8>, ReplyFault>
    requires crew { C.ready context.now.crew }
    requires reads { S.failures reader.old < u64.MAX }
    ensures given { GivesReply vec_items line.now (S.remaining reader.old) result }
    ensures asked { MayRead line.now ⊎ (reader.new ≡ reader.old) }
    ensures counts { S.failures reader.new ≡ S.failures reader.old + reads_failed result }
    ensures silent { MayRead line.now ⊎ (errors.new ≡ errors.old) }
{
    let position = read_sound(line.fen)?;
    if let Action::Check(goal) = line.action {
        return check_text(context.rt.alloc(), &position, goal, reader, errors);
    }
    let (crew, position, action) = (&context.crew, &position, line.action);
    let Some(watch) = watch else {
        let quiet = shown_at(crew, None, position, action, b"")?;
        return Ok(quiet);
    };
    let told = shown(
        context.rt,
        watch,
        move || -> Result<Vec<u8>, Refusal>
            requires { C.ready crew.now }
            ensures { Gives vec_items (ShowsCommand position.entry.now action []) result }
        { shown_at(crew, Some(watch), position, action, b"") },
    )?;
    Ok(told)
}
