//! The lawful moves by their places in their list.
ghost use Rattle.std.specs.Prelude.{MatchOption};
ghost use Rattle.rules.specs.Squares.{Ply};
ghost use Rattle.verifying.specs.Certificate.{IsMoveAt};

use moves::{Board, Move, lawful_on};

/// The lawful move at this place.
pub(crate) fn move_at(board: &Board, place: usize) -> Option<Move>
    ensures { MatchOption result ((m : Ply) → IsMoveAt board.now place m → ⊥) (IsMoveAt board.now place) }
{
    let moves = lawful_on(board);
    if place >= moves.len() {
        return None;
    }
    Some(moves.as_slice()[place])
}
