//! A run of the program over any reader and writer.
ghost use Rattle.std.specs.Prelude.{◌≡◌, ◌⊎◌, ◌+◌, ◌<◌, map};
ghost use Rattle.replies.specs.Output.{MayRead};
ghost use Rattle.endings.specs.Run.{ending_of, run_of, EndsReply, MayTell};
ghost use Rattle.endings.specs.Words.{MeansSome, MeansSomeIn, RunsProgram, RunsWords};
ghost use Rattle.console.specs.Order.{MayReadOf, RunsOrder, TellsMore, TellsMoreOf};
ghost use Rattle.console.specs.Playing.{WritesAfter};
ghost use Rattle.console.specs.Run.{RunsLine};

use crate::over::{asking_of, tell_if_line_is_over};
use crate::watching::watch_of;
use command_line::{Line, LineFault, NamedMove, Order, read_order};
use context::{Context, context_of};
use devices::{Sink, Source};
use endings::{
    ANSWERED, REFUSED_WORDS, end_wordless, explain_if_refused, fail_to_read, finish,
    give_up_for_memory, refuse_and_tell, refuse_move,
};
use refusals::{Refusal, Refused, ReplyFault};
use replies::{after_reply, first_reply, reply_to};
use rounds::Workers;
use std::convert::AsStr;
use std::io::{self, Write, sink};
use std::sync::Wait;
use std::thread::Threads;
use std::time::Clock;

/// Answers a line: writes its output, and gives its status. No line but a `check` at a sound
/// position asks the reader for anything. Nobody is told how far a search is, or why a line was refused.
pub fn run_line<R: Threads + Wait + Eprint + Clock + Sync + AllocGlobal, S: Source, K: Sink>(
    rt: &R,
    line: &Line<'_>,
    reader: &mut S,
    writer: &mut K,
) -> u8
    requires reads { S.failures reader.old < u64.MAX }
    requires writes { K.failures writer.old < u64.MAX }
    ensures unread { MayRead line.now ⊎ (reader.new ≡ reader.old) }
    ensures runs { RunsLine line.now (run_of S.remaining S.failures reader.old reader.new
        (ending_of K.contents K.failures writer.old writer.new result)) }
{
    let context = Context {
        rt,
        crew: Workers { rt },
        shows: false,
        line: None,
    };
    run_line_on(&context, line, reader, writer, &mut sink())
}

/// Answers a line for a context that may show how far a search is. `errors` is told why a line was refused, or a tree doesn't win;
/// whether it takes that changes nothing.
fn run_line_on<
    R: Threads + Wait + Eprint + Clock + Sync + AllocGlobal,
    S: Source,
    K: Sink,
    E: Write,
>(
    context: &Context<'_, R, Workers<'_, R>>,
    line: &Line<'_>,
    reader: &mut S,
    writer: &mut K,
    errors: &mut E,
) -> u8
    requires reads { S.failures reader.old < u64.MAX }
    requires writes { K.failures writer.old < u64.MAX }
    ensures unread { MayRead line.now ⊎ (reader.new ≡ reader.old) }
    ensures runs { RunsLine line.now (run_of S.remaining S.failures reader.old reader.new
        (ending_of K.contents K.failures writer.old writer.new result)) }
    ensures silent { MayTell result ⊎ TellsMoreOf line.now ⊎ (errors.new ≡ errors.old) }
{
    let watch = watch_of(context, line);
    match reply_to(context, watch.as_ref(), line, reader, errors) {
        Ok(text) => {
            tell_if_line_is_over(errors, line);
            finish(writer, errors, text.as_slice(), ANSWERED)
        }
        Err(ReplyFault::Refused(refusal)) => {
            let asking = asking_of(line.action);
            let refused = Refused {
                refusal,
                fen: line.fen,
                asking,
            };
            refuse_and_tell(context.rt, writer, errors, &refused)
        }
        Err(ReplyFault::ReadFailed) => fail_to_read(errors),
    }
}

/// Writes a reply to a move that is named, or why there is none.
fn write_played<R: AllocGlobal, K: Sink, E: Write>(
    rt: &R,
    played: &NamedMove<'_>,
    writer: &mut K,
    errors: &mut E,
    reply: Result<Vec<u8>, Refusal>,
) -> u8
    requires { K.failures writer.old < u64.MAX }
    ensures runs { EndsReply (ending_of K.contents K.failures writer.old writer.new result) reply }
    ensures silent { MayTell result ⊎ (errors.new ≡ errors.old) }
{
    match reply {
        Ok(text) => finish(writer, errors, text.as_slice(), ANSWERED),
        Err(refusal) => refuse_move(rt, writer, errors, played, refusal),
    }
}

/// Answers the position after a move. `errors` is told why it was refused.
fn run_after<R: AllocGlobal, K: Sink, E: Write>(
    rt: &R,
    played: &NamedMove<'_>,
    writer: &mut K,
    errors: &mut E,
) -> u8
    requires { K.failures writer.old < u64.MAX }
    ensures runs { WritesAfter played.now (ending_of K.contents K.failures writer.old writer.new result) }
    ensures silent { MayTell result ⊎ (errors.new ≡ errors.old) }
{
    let reply = after_reply(rt.alloc(), played.fen, played.name);
    write_played(rt, played, writer, errors, reply)
}

/// Answers what the words ask for, where no other program does. The first word is the program's name.
pub fn run<
    R: Threads + Wait + Eprint + Clock + Sync + AllocGlobal,
    W: AsStr,
    S: Source,
    K: Sink,
    E: Write,
>(rt: &R, words: &[W], reader: &mut S, writer: &mut K, errors: &mut E) -> u8
    requires reads { S.failures reader.old < u64.MAX }
    requires writes { K.failures writer.old < u64.MAX }
    ensures unread { MeansSome MayReadOf (map W.text words.now) ⊎ (reader.new ≡ reader.old) }
    ensures runs { RunsWords RunsOrder (map W.text words.now) (run_of S.remaining S.failures reader.old reader.new
        (ending_of K.contents K.failures writer.old writer.new result)) }
    ensures silent { MayTell result ⊎ MeansSome TellsMore (map W.text words.now) ⊎ (errors.new ≡ errors.old) }
{
    match read_order(rt.alloc(), words) {
        Ok(Order::One(line)) => {
            let context = context_of(rt, Workers { rt }, words);
            run_line_on(&context, &line, reader, writer, errors)
        }
        Ok(Order::After(played)) => run_after(rt, &played, writer, errors),
        Ok(Order::TreeAfter(played, goal, limits)) => {
            let reply = first_reply(&Workers { rt }, &played, goal, limits, errors);
            write_played(rt, &played, writer, errors, reply)
        }
        // those are answered by programs of their own
        Ok(
            Order::Batch(..)
            | Order::Verify(_)
            | Order::Certify(..)
            | Order::Solution(..)
            | Order::Show(..),
        ) => REFUSED_WORDS,
        Err(LineFault::Words) => REFUSED_WORDS,
        Err(LineFault::NoMemory) => give_up_for_memory(writer, errors),
    }
}

/// The commands that it answers.
const OWN: &[&str] = &["solve", "tree", "keys", "check", "moves", "after"];

/// Runs the words, or answers why there are none. What is to be said of words that are no line goes to
/// `errors`, and why a line was refused; whether they take it changes nothing.
pub fn run_program<
    R: Threads + Wait + Eprint + Clock + Sync + AllocGlobal,
    S: Source,
    K: Sink,
    E: Write,
>(rt: &R, words: io::Result<Vec<String>>, reader: &mut S, writer: &mut K, errors: &mut E) -> u8
    requires reads { S.failures reader.old < u64.MAX }
    requires writes { K.failures writer.old < u64.MAX }
    ensures runs { RunsProgram RunsOrder words (run_of S.remaining S.failures reader.old reader.new
        (ending_of K.contents K.failures writer.old writer.new result)) }
    ensures unread { MeansSomeIn MayReadOf words ⊎ (reader.new ≡ reader.old) }
    ensures silent { (result ≡ 2) ⊎ MayTell result ⊎ MeansSomeIn TellsMore words ⊎ (errors.new ≡ errors.old) }
{
    match words {
        Ok(words) => {
            let status = run(rt, words.as_slice(), reader, writer, errors);
            explain_if_refused(rt.alloc(), OWN, status, words.as_slice(), errors);
            status
        }
        Err(error) => end_wordless(&error, writer, errors),
    }
}
