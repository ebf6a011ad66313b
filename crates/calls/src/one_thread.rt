//! The replies that one thread gives, from the text of a position: those of the program, for whoever can start no thread.
ghost use Rattle.std.specs.Prelude.{vec_items};
ghost use Rattle.refusals.specs.Outcome.{Gives};
ghost use Rattle.replies.specs.Output.{IsOutput};

use command_line::Action;
use moves::read_sound;
use refusals::Refusal;
use replies::shown_at;
use solver::Alone;
use std::alloc::Allocator;

/// The program's reply to a line with this input, searched by the caller's own thread alone.
pub(crate) fn line_reply<A: Allocator + Copy>(
    alloc: A,
    fen: &[u8],
    action: Action,
    input: &[u8],
) -> Result<Vec<u8, A>, Refusal>
    ensures { Gives vec_items (IsOutput (record { fen = fen.entry; action = action }) input.now) result }
{
    let position = read_sound(fen)?;
    shown_at(&Alone { alloc }, None, &position, action, input)
}
