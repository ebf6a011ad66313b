//! The reply to a move that is to be played at a position: the position after it.
ghost use Rattle.std.specs.Prelude.{◌≡◌, ℕ, IfOk, List, MatchOption, vec_items};
ghost use Rattle.board.specs.Fen.{IsFenText};
ghost use Rattle.rules.specs.MoveText.{move_text};
ghost use Rattle.rules.specs.Moves.{IsLawful};
ghost use Rattle.refusals.specs.Reply.{line_of};
ghost use Rattle.refusals.specs.Outcome.{Gives};
ghost use Rattle.replies.specs.Playing.{ShowsAfter, IsAfterReply};
ghost use Rattle.context.specs.Naming.{NamesNone};

use board::{Position, fen_text};
use moves::{Move, is_lawful, read_move, read_sound};
use refusals::Refusal;
use rules::apply;
use std::alloc::{AllocError, Allocator};

/// The lawful move of this name.
fn named_move(position: &Position, name: &[u8]) -> Option<Move>
    ensures { MatchOption result (NamesNone position.now name.now)
        (λ m. IsLawful position.now m × (move_text m ≡ name.now)) }
{
    let m = read_move(name)?;
    if is_lawful(position, m) {
        Some(m)
    } else {
        None
    }
}

fn position_line<A: Allocator>(alloc: A, position: &Position) -> Result<Vec<u8, A>, AllocError>
    ensures { IfOk result (λ line. (text : List ℕ) × IsFenText text position.now × (line.items ≡ line_of text)) }
{
    let text = fen_text(position);
    let mut line = Vec::new(alloc);
    line.extend_from_slice(text.as_bytes())?;
    line.push(b'\n')?;
    Ok(line)
}

fn after_shown<A: Allocator>(
    alloc: A,
    position: &Position,
    name: &[u8],
) -> Result<Vec<u8, A>, Refusal>
    ensures { Gives vec_items (ShowsAfter position.now name.now) result }
{
    match named_move(position, name) {
        Some(m) => Ok(position_line(alloc, &apply(position, m))?),
        None => Err(Refusal::Move),
    }
}

/// The text of the position after the lawful move of this name, on a line.
pub fn after_reply<A: Allocator>(alloc: A, fen: &[u8], name: &[u8]) -> Result<Vec<u8, A>, Refusal>
    ensures { Gives vec_items (IsAfterReply fen.now name.now) result }
{
    let position = read_sound(fen)?;
    after_shown(alloc, &position, name)
}
