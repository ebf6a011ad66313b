//! A run of a batch over any reader and writer.
ghost use Rattle.std.specs.Prelude.{◌≡◌, ◌⊎◌, ◌<◌, None};
ghost use Rattle.refusals.specs.declared.refusal.Refusal.TheVariants.{NoMemory};
ghost use Rattle.context.specs.Limits.{fault_of};
ghost use Rattle.endings.specs.Run.{ending_of, run_of, Finishes};
ghost use Rattle.batches.specs.Batch.{RefusesBatch, RunsBatch, wanting_text};

use crate::batch::{BatchStop, answer_batch, open_batch, refusal_line};
use batch_texts::Batch;
use context::Context;
use devices::{Sink, Source};
use endings::{ANSWERED, fail_to_read, fail_to_write, finish, give_up_for_memory};
use refusals::{Asking, Refusal, Refused};
use searcher::Crew;
use std::alloc::Global;
use std::io::Write;
use std::sync::Wait;
use std::thread::Threads;
use std::time::Clock;

const WANTING: &[u8] =
    b"{\"position\":null,\"refused\":\"NoMemory\",\"sentence\":\"out of memory\"}\n";

/// Ends a batch for want of memory, without taking memory.
fn give_up<K: Sink, E: Write>(json: bool, writer: &mut K, errors: &mut E) -> u8
    requires { K.failures writer.old < u64.MAX }
    ensures { Finishes (ending_of K.contents K.failures writer.old writer.new result) (wanting_text json) 3 }
{
    if json {
        finish(writer, errors, WANTING, Refusal::NoMemory.status())
    } else {
        give_up_for_memory(writer, errors)
    }
}

/// Writes why a whole batch is refused, and tells it with a sentence.
fn refuse_batch<R: AllocGlobal, K: Sink, E: Write>(
    rt: &R,
    json: bool,
    writer: &mut K,
    errors: &mut E,
    refusal: Refusal,
) -> u8
    requires { K.failures writer.old < u64.MAX }
    ensures refuses { RefusesBatch json (ending_of K.contents K.failures writer.old writer.new result) refusal }
    ensures memory { refusal ≡ NoMemory
        → Finishes (ending_of K.contents K.failures writer.old writer.new result) (wanting_text json) 3 }
{
    if refusal.status() == 3 {
        return give_up(json, writer, errors);
    }
    let refused = Refused {
        refusal,
        fen: b"",
        asking: Asking::Search,
    };
    match refusal_line(rt.alloc(), json, errors, None, &refused) {
        Ok(text) => finish(writer, errors, text.as_slice(), refusal.status()),
        Err(_) => give_up(json, writer, errors),
    }
}

/// Answers the lines of a batch, or refuses its limits.
pub fn run_batch<
    R: Threads + Wait + Eprint + Clock + Sync + AllocGlobal,
    C: Crew<Global>,
    S: Source,
    K: Sink,
    E: Write,
>(
    context: &mut Context<'_, R, C>,
    batch: Batch,
    reader: &mut S,
    writer: &mut K,
    errors: &mut E,
) -> u8
    requires crew { C.ready context.old.crew }
    requires reads { S.failures reader.old < u64.MAX }
    requires writes { K.failures writer.old < u64.MAX }
    ensures unread { (fault_of batch.limits ≡ None) ⊎ (reader.new ≡ reader.old) }
    ensures runs { RunsBatch batch (run_of S.remaining S.failures reader.old reader.new
        (ending_of K.contents K.failures writer.old writer.new result)) }
{
    match open_batch(context.rt, batch) {
        Ok(mut opened) => match answer_batch(context, &mut opened, reader, writer, errors) {
            None => ANSWERED,
            Some(BatchStop::NoMemory) => give_up(batch.options.json, writer, errors),
            Some(BatchStop::ReadFailed) => fail_to_read(errors),
            Some(BatchStop::WriteFailed) => fail_to_write(errors),
        },
        Err(refusal) => refuse_batch(context.rt, batch.options.json, writer, errors, refusal),
    }
}
