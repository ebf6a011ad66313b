//! What is told of a search for a side that is mated or stalemated already.
ghost use Rattle.std.specs.Prelude.{◌≡◌, ◌⊎◌, IfSome};
ghost use Rattle.refusals.specs.Outcome.{IsOver};

use board::Position;
use moves::{Board, has_lawful_move, read_sound};
use refusals::advise_over;
use std::io::Write;

/// The position of a text where the side to move has no lawful move.
fn over_at(fen: &[u8]) -> Option<Position>
    ensures { IfSome result (λ _. IsOver fen.now) }
{
    let Ok(position) = read_sound(fen) else {
        return None;
    };
    if has_lawful_move(&Board::of(&position)) {
        None
    } else {
        Some(position)
    }
}

/// Tells where a search at the position of this text is over, in a batch with the number of its line.
pub fn tell_if_over<E: Write>(errors: &mut E, fen: &[u8], line: Option<u64>)
    ensures { IsOver fen.now ⊎ (errors.new ≡ errors.old) }
{
    if let Some(position) = over_at(fen) {
        let _ = advise_over(errors, &position, line);
    }
}
