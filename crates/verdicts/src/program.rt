//! The checker's program, over any words and streams.
ghost use Rattle.std.specs.Prelude.{◌≡◌, ◌⊎◌, ◌<◌};
ghost use Rattle.endings.specs.Run.{ending_of, run_of, MayTell};
ghost use Rattle.endings.specs.Words.{MeansSomeIn, RunsProgram};
ghost use Rattle.verdicts.specs.Order.{ReadsCertificate, VerifiesOrder};

use crate::beginning::Input;
use crate::running::run;
use devices::{Sink, Source};
use endings::{end_wordless, explain_if_refused};
use std::io::{self, Write};

/// The commands that it answers.
const OWN: &[&str] = &["verify"];

/// Runs the words, or answers why there are none. What is to be said of words that mean nothing here goes to `errors`, and why a
/// certificate was refused; whether they take it changes nothing.
pub fn run_program<R: AllocGlobal, S: Source + Input, K: Sink, E: Write>(
    rt: &R,
    words: io::Result<Vec<String>>,
    reader: &mut S,
    writer: &mut K,
    errors: &mut E,
) -> u8
    requires reads { S.failures reader.old < u64.MAX }
    requires writes { K.failures writer.old < u64.MAX }
    ensures runs { RunsProgram VerifiesOrder words (run_of S.remaining S.failures reader.old reader.new
        (ending_of K.contents K.failures writer.old writer.new result)) }
    ensures unread { MeansSomeIn ReadsCertificate words ⊎ (reader.new ≡ reader.old) }
    ensures silent { (result ≡ 2) ⊎ MayTell result ⊎ (errors.new ≡ errors.old) }
{
    match words {
        Ok(words) => {
            let status = run(rt, words.as_slice(), reader, writer, errors);
            explain_if_refused(rt.alloc(), OWN, status, words.as_slice(), errors);
            status
        }
        Err(error) => end_wordless(&error, writer, errors),
    }
}
