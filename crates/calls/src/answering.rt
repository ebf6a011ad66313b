//! The reply to a call, as it is put into the room.
ghost use Rattle.std.specs.Prelude.{vec_items};
ghost use Rattle.refusals.specs.Outcome.{Gives};
ghost use Rattle.refusals.specs.Reply.{refused};
ghost use Rattle.refusals.specs.declared.refusal.Refusal.TheVariants.{NoMemory};
ghost use Rattle.calls.specs.Calls.{Answers, IsReply};
ghost use Rattle.calls.specs.Room.{IsPut};

use crate::asked::{Call, goal_of, limits_of};
use crate::one_thread::line_reply;
use crate::playing::fault_reply;
use crate::room::put;
use crate::verdict::verify_reply;
use command_line::Action;
use refusals::{Refusal, refused_text};
use replies::after_reply;
use std::alloc::Allocator;

/// What is put for want of memory.
const NO_MEMORY: &[u8] = b"refused: NoMemory\n";

/// The reply's text, or why there is none.
fn reply_text<A: Allocator + Copy>(
    alloc: A,
    fen: &[u8],
    call: &Call<'_>,
) -> Result<Vec<u8, A>, Refusal>
    ensures { Gives vec_items (IsReply fen.entry call.now) result }
{
    match *call {
        Call::Moves => line_reply(alloc, fen, Action::Moves, b""),
        Call::Fault => fault_reply(alloc, fen),
        Call::After(name) => after_reply(alloc, fen, name),
        Call::Check { stale, tree } => line_reply(alloc, fen, Action::Check(goal_of(stale)), tree),
        Call::Verify { stale, certificate } => {
            verify_reply(alloc, fen, goal_of(stale), certificate)
        }
        Call::Solve(terms) => {
            let action = Action::Solve(goal_of(terms.stale), limits_of(terms));
            line_reply(alloc, fen, action, b"")
        }
        Call::Keys(terms) => {
            let action = Action::Keys(goal_of(terms.stale), limits_of(terms));
            line_reply(alloc, fen, action, b"")
        }
        Call::Tree(terms) => {
            let action = Action::Tree(goal_of(terms.stale), limits_of(terms));
            line_reply(alloc, fen, action, b"")
        }
    }
}

/// Puts the refusal for want of memory, and takes none.
pub fn no_memory(room: &mut [u8]) -> usize
    ensures { IsPut (refused NoMemory).text room.old room.new result }
{
    put(NO_MEMORY, room)
}

/// Puts the reply to a call, or why there is none, and answers the length of what it puts.
pub fn reply<A: Allocator + Copy>(alloc: A, fen: &[u8], call: &Call<'_>, room: &mut [u8]) -> usize
    ensures { Answers fen.entry call.now room.old room.new result }
{
    match reply_text(alloc, fen, call) {
        Ok(text) => put(text.as_slice(), room),
        Err(refusal) => match refused_text(alloc, refusal) {
            Ok(text) => put(text.as_bytes(), room),
            Err(_) => no_memory(room),
        },
    }
}
