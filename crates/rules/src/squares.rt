//! Squares.
ghost use Rattle.std.specs.Prelude.{◌≡◌, ◌<◌, ◌+◌, ◌*◌, ◌↔◌, IsTrue};
ghost use Rattle.board.specs.Board.{unit_on};
ghost use Rattle.board.specs.Games.{squares_of};
ghost use Rattle.rules.specs.Squares.{Place, IsOnBoard, square_number, unit_at};

use board::{Game, Position, Unit};
use std::marker::Model;

/// A square, by its file and its rank, both counted from 0.
#[derive(Clone, Copy, PartialEq, Eq, Debug, Default)]
pub struct Square {
    pub file: u8,
    pub rank: u8,
}

impl Model for Square {
    ghost use Rattle.std.specs.Prelude.{◌<◌};
    ghost use Rattle.rules.specs.Squares.{Place};

    ghost Value = { Place };

    ghost view = { λ s. record { file = s.file; rank = s.rank } };

    ghost invariant = { λ s. (s.file < 6) × (s.rank < 6) };

    ghost inverse = { λ s. record { file = s.file; rank = s.rank } };
}

impl Square {
    /// Whether the game's board has the square.
    pub fn is_on_board(self, game: Game) -> bool
        ensures { IsTrue result ↔ IsOnBoard game self }
    {
        self.file < game.width() && self.rank < game.width()
    }

    /// The square's number on the game's board.
    pub fn number(self, game: Game) -> u8
        requires { IsOnBoard game self }
        ensures value { result ≡ square_number game self }
        ensures within { result < squares_of game }
    {
        self.file + game.width() * self.rank
    }

    /// The square of a number.
    pub fn of_number(game: Game, number: u8) -> Square
        requires { number < squares_of game }
        ensures on_board { IsOnBoard game result }
        ensures number { square_number game result ≡ number }
    {
        // Divisors that the compiler knows are cheap to divide by.
        match game {
            Game::LosAlamos => Square {
                file: number % 6,
                rank: number / 6,
            },
            Game::Gardner => Square {
                file: number % 5,
                rank: number / 5,
            },
        }
    }
}

/// What stands on a square.
pub(crate) fn unit_at(position: &Position, square: Square) -> Option<Unit>
    requires { IsOnBoard position.now.game square }
    ensures { result ≡ unit_at position.now square }
{
    position.unit(square.number(position.game()))
}
