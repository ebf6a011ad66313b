//! How a run ends: what is written last, and the status.
ghost use Rattle.std.specs.Prelude.{◌≡◌, ◌⊎◌, ◌↔◌, ◌<◌, IsTrue, OnOk};
ghost use Rattle.std.specs.Io.KnownBytes.{Appends};
ghost use Rattle.endings.specs.Run.{ending_of, Finishes, HasFailed, HasNoAnswer, Refuses, no_memory, unread_sentence, unwritten_sentence};

use devices::{Sink, write_all};
use refusals::{Refusal, refused_text};
use std::alloc::Global;
use std::io::{self, Write};

/// The status of a run that has answered.
pub const ANSWERED: u8 = 0;

const REFUSED: u8 = 1;

/// The status of words that mean no order.
pub const REFUSED_WORDS: u8 = 2;

const OUT_OF_MEMORY: u8 = 3;

const FAILED: u8 = 4;

const NO_MEMORY: &[u8] = b"refused: NoMemory\n";

/// Whether a run with this status has no answer.
pub fn has_no_answer(status: u8) -> bool
    ensures { IsTrue result ↔ HasNoAnswer status }
{
    status == REFUSED || status == OUT_OF_MEMORY
}

/// Says that the input could not be read.
fn say_unread<E: Write>(errors: &mut E) -> io::Result<()>
    ensures { OnOk result (Appends (E.contents errors.old) (E.contents errors.new) unread_sentence) }
{
    errors.write_all(b"error: the input could not be read to its end\n")
}

/// Says that the output could not be written.
fn say_unwritten<E: Write>(errors: &mut E) -> io::Result<()>
    ensures { OnOk result (Appends (E.contents errors.old) (E.contents errors.new) unwritten_sentence) }
{
    errors.write_all(b"error: the output could not be written to its end\n")
}

/// The status of a run whose input could not be read, which is told.
pub fn fail_to_read<E: Write>(errors: &mut E) -> u8
    ensures { HasFailed result }
{
    let _ = say_unread(errors);
    FAILED
}

/// The status of a run whose output could not be written, which is told.
pub fn fail_to_write<E: Write>(errors: &mut E) -> u8
    ensures { HasFailed result }
{
    let _ = say_unwritten(errors);
    FAILED
}

/// Writes the text, and gives the status where all of it was taken.
pub fn finish<K: Sink, E: Write>(writer: &mut K, errors: &mut E, text: &[u8], status: u8) -> u8
    requires { K.failures writer.old < u64.MAX }
    ensures written { Finishes (ending_of K.contents K.failures writer.old writer.new result) text.now status }
    ensures silent { HasFailed result ⊎ (errors.new ≡ errors.old) }
{
    match write_all(writer, text) {
        Ok(()) => status,
        Err(_) => fail_to_write(errors),
    }
}

/// Writes why there is no answer. The line for want of memory is written without taking memory.
pub fn refuse<K: Sink, E: Write>(
    alloc: Global,
    writer: &mut K,
    errors: &mut E,
    refusal: Refusal,
) -> u8
    requires { K.failures writer.old < u64.MAX }
    ensures written { Refuses (ending_of K.contents K.failures writer.old writer.new result) refusal }
    ensures silent { HasFailed result ⊎ (errors.new ≡ errors.old) }
{
    match refused_text(alloc, refusal) {
        Ok(text) => finish(writer, errors, text.as_bytes(), refusal.status()),
        Err(_) => give_up_for_memory(writer, errors),
    }
}

/// Writes the line for want of memory, without taking memory.
pub fn give_up_for_memory<K: Sink, E: Write>(writer: &mut K, errors: &mut E) -> u8
    requires { K.failures writer.old < u64.MAX }
    ensures written { Finishes (ending_of K.contents K.failures writer.old writer.new result) no_memory 3 }
    ensures silent { HasFailed result ⊎ (errors.new ≡ errors.old) }
{
    finish(writer, errors, NO_MEMORY, OUT_OF_MEMORY)
}
