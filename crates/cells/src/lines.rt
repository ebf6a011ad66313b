//! The lines of cells that go through a cell, and how far one goes before something stands on it.
ghost use Rattle.std.specs.Prelude.{◌<◌, ◌↔◌, ℕ};
ghost use Rattle.cells.specs.Mailbox.{IsCell};
ghost use Rattle.cells.specs.CellSets.{Has};
ghost use Rattle.cells.specs.Ways.{IsOnStraight, IsOnSlanted};

use crate::tables::{SLANTED_LINES, STRAIGHT_LINES, board_number};
use board::Game;

/// The other cells of the cell's rank and file.
pub fn straight_lines(game: Game, cell: u8) -> u64
    requires { IsCell game cell }
    ensures { (j : ℕ) → Has result j ↔ IsOnStraight game cell j }
{
    STRAIGHT_LINES[board_number(game)][cell as usize]
}

/// The other cells of the cell's diagonals.
pub fn slanted_lines(game: Game, cell: u8) -> u64
    requires { IsCell game cell }
    ensures { (j : ℕ) → Has result j ↔ IsOnSlanted game cell j }
{
    SLANTED_LINES[board_number(game)][cell as usize]
}

/// The cells up to the lowest of the set, which may be empty.
pub fn up_to_lowest(stops: u64) -> u64
    ensures { (j : ℕ) → j < 63 → Has result j ↔ ((i : ℕ) → i < j → Has stops i → ⊥) }
{
    stops ^ stops.wrapping_sub(1)
}

/// The cells down to the highest of the set, which may be empty.
pub fn down_to_highest(stops: u64) -> u64
    ensures { (j : ℕ) → 0 < j → j < 64 → Has result j ↔ ((i : ℕ) → j < i → Has stops i → ⊥) }
{
    u64::MAX << (63 - (stops | 1).leading_zeros())
}
