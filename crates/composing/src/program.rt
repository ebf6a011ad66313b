//! The composer's program, over any words and a writer.
ghost use Rattle.std.specs.Prelude.{◌≡◌, ◌⊎◌, ◌<◌};
ghost use Rattle.endings.specs.Run.{ending_of, readerless, MayTell};
ghost use Rattle.endings.specs.Words.{MeansSomeIn, RunsProgram};
ghost use Rattle.composing.specs.Order.{ComposesOrder, ComposesOver};

use crate::running::run;
use devices::Sink;
use endings::{end_wordless, explain_if_refused};
use std::io::{self, Write};
use std::sync::Wait;
use std::thread::Threads;
use std::time::Clock;

/// The commands that it answers.
const OWN: &[&str] = &["solution", "certify", "show"];

/// Runs the words, or answers why there are none. What is to be said of words that mean nothing here goes to `errors`, and why a
/// position was refused; whether they take it changes nothing.
pub fn run_program<R: Threads + Wait + Eprint + Clock + Sync + AllocGlobal, K: Sink, E: Write>(
    rt: &R,
    words: io::Result<Vec<String>>,
    writer: &mut K,
    errors: &mut E,
) -> u8
    requires writes { K.failures writer.old < u64.MAX }
    ensures runs { RunsProgram ComposesOrder words
        (readerless (ending_of K.contents K.failures writer.old writer.new result)) }
    ensures silent { (result ≡ 2) ⊎ MayTell result ⊎ MeansSomeIn ComposesOver words ⊎ (errors.new ≡ errors.old) }
{
    match words {
        Ok(words) => {
            let status = run(rt, words.as_slice(), writer, errors);
            explain_if_refused(rt.alloc(), OWN, status, words.as_slice(), errors);
            status
        }
        Err(error) => end_wordless(&error, writer, errors),
    }
}
