//! The program of batches, over any words and streams.
ghost use Rattle.std.specs.Prelude.{◌≡◌, ◌⊎◌, ◌<◌, map};
ghost use Rattle.endings.specs.Run.{ending_of, run_of, MayTell};
ghost use Rattle.endings.specs.Words.{MeansSome, MeansSomeIn, RunsProgram, RunsWords};
ghost use Rattle.batches.specs.Order.{BatchesOrder, ReadsPositions, TellsOfLines};

use crate::running::run_batch;
use batch_texts::Batch;
use command_line::{LineFault, Order, read_order};
use context::context_of;
use devices::{Sink, Source};
use endings::{REFUSED_WORDS, end_wordless, explain_if_refused, give_up_for_memory};
use rounds::Workers;
use std::convert::AsStr;
use std::io::{self, Write};
use std::sync::Wait;
use std::thread::Threads;
use std::time::Clock;

/// The commands that it answers.
const OWN: &[&str] = &["batch"];

/// Answers the positions of the input, if the words ask for a `batch`. The first word is the program's name.
pub fn run<
    R: Threads + Wait + Eprint + Clock + Sync + AllocGlobal,
    W: AsStr,
    S: Source,
    K: Sink,
    E: Write,
>(rt: &R, words: &[W], reader: &mut S, writer: &mut K, errors: &mut E) -> u8
    requires reads { S.failures reader.old < u64.MAX }
    requires writes { K.failures writer.old < u64.MAX }
    ensures unread { MeansSome ReadsPositions (map W.text words.now) ⊎ (reader.new ≡ reader.old) }
    ensures runs { RunsWords BatchesOrder (map W.text words.now) (run_of S.remaining S.failures reader.old reader.new
        (ending_of K.contents K.failures writer.old writer.new result)) }
    ensures silent { MayTell result ⊎ MeansSome TellsOfLines (map W.text words.now) ⊎ (errors.new ≡ errors.old) }
{
    match read_order(rt.alloc(), words) {
        Ok(Order::Batch(goal, limits, options)) => {
            let batch = Batch {
                goal,
                limits,
                options,
            };
            let mut context = context_of(rt, Workers { rt }, words);
            run_batch(&mut context, batch, reader, writer, errors)
        }
        Ok(
            Order::One(_)
            | Order::Verify(_)
            | Order::Certify(..)
            | Order::After(_)
            | Order::TreeAfter(..)
            | Order::Solution(..)
            | Order::Show(..),
        ) => REFUSED_WORDS,
        Err(LineFault::Words) => REFUSED_WORDS,
        Err(LineFault::NoMemory) => give_up_for_memory(writer, errors),
    }
}

/// Runs the words, or answers why there are none. What is to be said of words that mean nothing here goes to `errors`, and why a
/// line was refused; whether they take it changes nothing.
pub fn run_program<
    R: Threads + Wait + Eprint + Clock + Sync + AllocGlobal,
    S: Source,
    K: Sink,
    E: Write,
>(rt: &R, words: io::Result<Vec<String>>, reader: &mut S, writer: &mut K, errors: &mut E) -> u8
    requires reads { S.failures reader.old < u64.MAX }
    requires writes { K.failures writer.old < u64.MAX }
    ensures runs { RunsProgram BatchesOrder words (run_of S.remaining S.failures reader.old reader.new
        (ending_of K.contents K.failures writer.old writer.new result)) }
    ensures unread { MeansSomeIn ReadsPositions words ⊎ (reader.new ≡ reader.old) }
    ensures silent { (result ≡ 2) ⊎ MayTell result ⊎ MeansSomeIn TellsOfLines words ⊎ (errors.new ≡ errors.old) }
{
    match words {
        Ok(words) => {
            let status = run(rt, words.as_slice(), reader, writer, errors);
            explain_if_refused(rt.alloc(), OWN, status, words.as_slice(), errors);
            status
        }
        Err(error) => end_wordless(&error, writer, errors),
    }
}
