//! A pass.
ghost use Rattle.std.specs.Prelude.{◌≡◌, MatchOption};
ghost use Rattle.rules.specs.Reach.{IsSound};
ghost use Rattle.solutions.specs.Solutions.{passed};

use board::Position;
use moves::{Board, sound};

/// The same board with the other side to move, where that is sound.
pub fn passed(board: &Board) -> Option<Board>
    ensures { MatchOption result (IsSound (passed board.now) → ⊥)
        (λ next. (next ≡ passed board.now) × IsSound (passed board.now)) }
{
    let position = board.position();
    let Some(next) = Position::of(position.game(), position.mover().other(), &position.units())
    else {
        unreachable!()
    };
    if sound(&next) {
        Some(Board::of(&next))
    } else {
        None
    }
}
