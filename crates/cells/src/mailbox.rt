//! Cells: eight to a rank, with a border round the board, so that a step off the board comes to a cell of the border.
ghost use Rattle.std.specs.Prelude.{◌≡◌, ◌<◌, ◌≤◌, ℕ, ◌↔◌};
ghost use Rattle.cells.specs.Mailbox.{cell_of, place_in, IsCell};
ghost use Rattle.cells.specs.CellSets.{Has};

use board::Game;
use rules::Square;

/// The cell of a square.
pub fn cell_of(square: Square) -> u8
    ensures value { result ≡ cell_of square }
    ensures within { result < 63 }
{
    17 + 8 * square.rank + square.file
}

/// The square of a cell of the board.
pub fn square_in(cell: u8) -> Square
    requires above { 17 ≤ cell }
    requires file { (place_in cell).file < 6 }
    requires rank { (place_in cell).rank < 6 }
    ensures { result ≡ place_in cell }
{
    Square {
        file: (cell - 17) % 8,
        rank: (cell - 17) / 8,
    }
}

/// The cells of the board.
pub fn cells(game: Game) -> u64
    ensures { (i : ℕ) → Has result i ↔ IsCell game i }
{
    match game {
        Game::LosAlamos => 0x7E7E_7E7E_7E7E_0000,
        Game::Gardner => 0x003E_3E3E_3E3E_0000,
    }
}
