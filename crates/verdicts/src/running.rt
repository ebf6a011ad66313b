//! A run of the checker's program over any reader and writer.
ghost use Rattle.std.specs.Prelude.{◌≡◌, ◌⊎◌, ◌<◌, map};
ghost use Rattle.endings.specs.Run.{ending_of, run_of, MayTell};
ghost use Rattle.endings.specs.Words.{MeansSome, RunsWords};
ghost use Rattle.verdicts.specs.Order.{ReadsCertificate, VerifiesOrder};
ghost use Rattle.verdicts.specs.Verifying.{RunsVerify, MayReadAbout};

use crate::beginning::Input;
use crate::certified::verified;
use command_line::{LineFault, Order, Subject, read_order};
use devices::{Sink, Source};
use endings::{ANSWERED, REFUSED_WORDS, fail_to_read, finish, give_up_for_memory, refuse_and_tell};
use refusals::{Asking, Refusal, Refused, ReplyFault};
use std::convert::AsStr;
use std::io::Write;

/// What was refused to a certificate that begins so.
pub fn proof_refused<'a>(
    subject: &Subject<'a>,
    beginning: &'a [u8],
    refusal: Refusal,
) -> Refused<'a>
    ensures { result.refusal ≡ refusal }
{
    Refused {
        refusal,
        fen: subject.fen,
        asking: Asking::Proof(subject.goal, beginning),
    }
}

/// Answers what the certificate of the input proves. `errors` is told why it was refused.
fn run_verify<R: AllocGlobal, S: Source + Input, K: Sink, E: Write>(
    rt: &R,
    subject: &Subject<'_>,
    reader: &mut S,
    writer: &mut K,
    errors: &mut E,
) -> u8
    requires reads { S.failures reader.old < u64.MAX }
    requires writes { K.failures writer.old < u64.MAX }
    ensures unread { MayReadAbout subject.now ⊎ (reader.new ≡ reader.old) }
    ensures runs { RunsVerify subject.now (run_of S.remaining S.failures reader.old reader.new
        (ending_of K.contents K.failures writer.old writer.new result)) }
    ensures silent { MayTell result ⊎ (errors.new ≡ errors.old) }
{
    match verified(rt.alloc(), subject, reader) {
        Ok(text) => finish(writer, errors, text.as_slice(), ANSWERED),
        Err(ReplyFault::Refused(refusal)) => {
            let refused = proof_refused(subject, reader.beginning(), refusal);
            refuse_and_tell(rt, writer, errors, &refused)
        }
        Err(ReplyFault::ReadFailed) => fail_to_read(errors),
    }
}

/// Answers what the words ask for, if that is `verify`. The first word is the program's name.
pub fn run<R: AllocGlobal, W: AsStr, S: Source + Input, K: Sink, E: Write>(
    rt: &R,
    words: &[W],
    reader: &mut S,
    writer: &mut K,
    errors: &mut E,
) -> u8
    requires reads { S.failures reader.old < u64.MAX }
    requires writes { K.failures writer.old < u64.MAX }
    ensures unread { MeansSome ReadsCertificate (map W.text words.now) ⊎ (reader.new ≡ reader.old) }
    ensures runs { RunsWords VerifiesOrder (map W.text words.now) (run_of S.remaining S.failures reader.old reader.new
        (ending_of K.contents K.failures writer.old writer.new result)) }
    ensures silent { MayTell result ⊎ (errors.new ≡ errors.old) }
{
    match read_order(rt.alloc(), words) {
        Ok(Order::Verify(subject)) => run_verify(rt, &subject, reader, writer, errors),
        Ok(
            Order::One(_)
            | Order::Batch(..)
            | Order::Certify(..)
            | Order::After(_)
            | Order::TreeAfter(..)
            | Order::Solution(..)
            | Order::Show(..),
        ) => REFUSED_WORDS,
        Err(LineFault::Words) => REFUSED_WORDS,
        Err(LineFault::NoMemory) => give_up_for_memory(writer, errors),
    }
}
