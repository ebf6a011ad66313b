//! Whole certificates.
ghost use Rattle.std.specs.Prelude.{◌≡◌, ◌+◌, ◌<◌, ℕ, IfErr, IfOk};
ghost use Rattle.verifying.specs.declared.fault.Fault.TheVariants.{NoMemory, ReadFailed};
ghost use Rattle.problems.specs.Answer.{IsAnswer};
ghost use Rattle.devices.specs.Input.{OfInput};
ghost use Rattle.certificates.specs.Answers.{IsUpTo};
ghost use Rattle.verifying.specs.Refusals.{TellsOf, reads_lost};
ghost use Rattle.verifying.specs.Certificate.{IsCertificate, IsRefusedWith};

use crate::checker::{Checker, MOST_LINE};
use crate::fault::Fault;
use devices::{Counted, Source};
use input_lines::Unread;
use moves::{Board, Goal};
use problems::Answer;
use std::alloc::Allocator;

/// The answer of the first line of the certificate that the reader gives, if the other lines prove it of the position. Nothing is read
/// behind the first fault.
pub fn verify_input<S: Source, A: Allocator + Copy>(
    alloc: A,
    board: &Board,
    goal: Goal,
    reader: &mut S,
) -> Result<Answer, Fault>
    requires { S.failures reader.old < u64.MAX }
    // The answer of none within a limit is that of this limit, and a mate that of its plies and of any more.
    ensures answer { IfOk result (λ answer. (limit : ℕ) → IsUpTo limit answer → IsAnswer goal board.now limit answer) }

    // It is what the text says, or the fault is one of the text.
    ensures text { OfInput (S.remaining reader.old) (λ input. TellsOf goal input result) }
    ensures counts { S.failures reader.new ≡ S.failures reader.old + reads_lost result }

    // It is the answer of which the text is a certificate.
    ensures certificate { IfOk result (λ answer.
        OfInput (S.remaining reader.old) (IsCertificate goal board.now answer)) }

    // But for want of memory and a failed read no certificate is refused.
    ensures refused { IfErr result (λ fault. (fault ≡ NoMemory → ⊥) → (fault ≡ ReadFailed → ⊥)
        → OfInput (S.remaining reader.old) (IsRefusedWith goal board.now fault)) }
{
    let mut checker = Checker::new(alloc, board, goal);
    let mut unread = Unread::new();
    let mut line = Vec::new(alloc);
    for _ in 0..u64::MAX {
        if !unread.next_line_within(reader, &mut line, MOST_LINE)? {
            return checker.ended(line.as_slice());
        }
        checker.take(line.as_slice())?;
    }
    Err(Fault::NoMemory)
}

/// The same of a text.
pub fn verify<A: Allocator + Copy>(
    alloc: A,
    board: &Board,
    goal: Goal,
    text: &[u8],
) -> Result<Answer, Fault>
    ensures answer { IfOk result (λ answer. (limit : ℕ) → IsUpTo limit answer → IsAnswer goal board.now limit answer) }
    ensures text { TellsOf goal text.now result }
    ensures certificate { IfOk result (λ answer. IsCertificate goal board.now answer text.now) }
    ensures refused { IfErr result (λ fault. (fault ≡ NoMemory → ⊥) → (fault ≡ ReadFailed → ⊥)
        → IsRefusedWith goal board.now fault text.now) }
{
    let mut reader = Counted::new(text);
    verify_input(alloc, board, goal, &mut reader)
}
