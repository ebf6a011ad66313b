//! What a certificate proves, by the checker that trusts no solver.
ghost use Rattle.std.specs.Prelude.{vec_items};
ghost use Rattle.refusals.specs.Outcome.{Gives};
ghost use Rattle.verdicts.specs.Verdict.{IsVerdict};

use crate::text::Text;
use command_line::Subject;
use moves::Goal;
use refusals::{Refusal, ReplyFault};
use std::alloc::Allocator;
use verdicts::verified;

/// The reply of `verify` to the certificate of this text.
pub(crate) fn verify_reply<A: Allocator + Copy>(
    alloc: A,
    fen: &[u8],
    goal: Goal,
    text: &[u8],
) -> Result<Vec<u8, A>, Refusal>
    ensures { Gives vec_items (IsVerdict (record { fen = fen.entry; goal = goal }) text.now) result }
{
    let subject = Subject { fen, goal };
    let mut reader = Text { rest: text };
    match verified(alloc, &subject, &mut reader) {
        Ok(reply) => Ok(reply),
        Err(ReplyFault::Refused(refusal)) => Err(refusal),
        // no read of a text fails
        Err(ReplyFault::ReadFailed) => Err(Refusal::NoMemory),
    }
}
