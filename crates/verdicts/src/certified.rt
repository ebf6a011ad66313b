//! The reply to a certificate: the answer that it proves, or why it proves none.
ghost use Rattle.std.specs.Prelude.{◌≡◌, ◌⊎◌, ◌+◌, ◌<◌, vec_items};
ghost use Rattle.board.specs.Board.{PlainBoard};
ghost use Rattle.devices.specs.Input.{OfInput};
ghost use Rattle.refusals.specs.Outcome.{GivesIfRead, reads_failed, IsSoundText};
ghost use Rattle.verdicts.specs.Verdict.{ShowsProved, GivesVerdict, reply_fault_of_certificate};

use answer_texts::answer_text;
use board::Position;
use command_line::Subject;
use devices::Source;
use moves::{Board, Goal, read_sound};
use refusals::{Refusal, ReplyFault};
use std::alloc::Allocator;
use verifying::{Fault, verify_input};

/// What a fault of a certificate is of a reply.
fn reply_fault_of_certificate(fault: Fault) -> ReplyFault
    ensures { result ≡ reply_fault_of_certificate fault }
{
    match fault {
        Fault::Answer => ReplyFault::Refused(Refusal::Answer),
        Fault::Claim(line) => ReplyFault::Refused(Refusal::Claim(line)),
        Fault::TooLong => ReplyFault::Refused(Refusal::TooLong),
        Fault::NoMemory => ReplyFault::Refused(Refusal::NoMemory),
        Fault::ReadFailed => ReplyFault::ReadFailed,
    }
}

/// The answer that the certificate of the input proves, as it is printed.
fn verified_at<S: Source, A: Allocator + Copy>(
    alloc: A,
    position: &Position,
    goal: Goal,
    reader: &mut S,
) -> Result<Vec<u8, A>, ReplyFault>
    requires { S.failures reader.old < u64.MAX }
    ensures shown { OfInput (S.remaining reader.old)
        (λ input. GivesIfRead vec_items (ShowsProved goal position.now input) result) }
    ensures counts { S.failures reader.new ≡ S.failures reader.old + reads_failed result }
{
    match verify_input(alloc, &Board::of(position), goal, reader) {
        Ok(answer) => Ok(answer_text(alloc, goal, answer)?.into_bytes()),
        Err(fault) => Err(reply_fault_of_certificate(fault)),
    }
}

/// The text that answers a certificate, which is read where the position is sound, as far as to its first fault.
pub fn verified<S: Source, A: Allocator + Copy>(
    alloc: A,
    subject: &Subject<'_>,
    reader: &mut S,
) -> Result<Vec<u8, A>, ReplyFault>
    requires { S.failures reader.old < u64.MAX }
    ensures given { GivesVerdict vec_items subject.now (S.remaining reader.old) result }
    ensures asked { ((b : PlainBoard) × IsSoundText subject.now.fen.now b) ⊎ (reader.new ≡ reader.old) }
    ensures counts { S.failures reader.new ≡ S.failures reader.old + reads_failed result }
{
    let position = read_sound(subject.fen)?;
    verified_at(alloc, &position, subject.goal, reader)
}
