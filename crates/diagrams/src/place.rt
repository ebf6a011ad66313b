//! Where a square is seen.
ghost use Rattle.std.specs.Prelude.{◌≡◌, ◌<◌};
ghost use Rattle.board.specs.Games.{width_of};
ghost use Rattle.diagrams.specs.Places.{column_of, row_of};

use board::{Game, Side};

/// A file as it is seen, or a column as a file.
pub(crate) fn column_of(game: Game, below: Side, file: u8) -> u8
    requires { file < width_of game }
    ensures value { result ≡ column_of game below file }
    ensures on_board { result < width_of game }
{
    match below {
        Side::White => file,
        Side::Black => game.width() - 1 - file,
    }
}

/// A rank as it is seen from above, or a row as a rank.
pub(crate) fn row_of(game: Game, below: Side, rank: u8) -> u8
    requires { rank < width_of game }
    ensures value { result ≡ row_of game below rank }
    ensures on_board { result < width_of game }
{
    match below {
        Side::White => game.width() - 1 - rank,
        Side::Black => rank,
    }
}
