//! The set of cells that a unit reaches, one bit a cell.
ghost use Rattle.std.specs.Prelude.{◌≡◌, ◌≢◌, ◌<◌, ◌≤◌, ℕ, None, ◌↔◌, ◌⊎◌, IsTrue};
ghost use Rattle.std.specs.Int.{bit_at};
ghost use Rattle.board.specs.Games.{IsPlayed};
ghost use Rattle.rules.specs.Squares.{unit_at};
ghost use Rattle.cells.specs.Mailbox.{place_in, IsCell};
ghost use Rattle.cells.specs.CellSets.{Has};
ghost use Rattle.moves.specs.Targets.{IsTarget};
ghost use Rattle.cells.specs.Ways.{IsNext, ahead_way};

use crate::packed::Board;
use crate::seen::seen;
use board::{Kind, Side, Unit};
use cells::single;

/// The cell ahead of a pawn.
fn ahead(side: Side, cell: u8) -> u8
    requires above { 17 ≤ cell }
    requires within { cell < 63 }
    ensures { IsNext (ahead_way side) cell result }
{
    match side {
        Side::White => cell + 8,
        Side::Black => cell - 8,
    }
}

/// The cell ahead of a pawn, if it is empty.
fn pushed(board: &Board, side: Side, cell: u8) -> u64
    requires { IsCell board.now.game cell }
    ensures { (j : ℕ) → Has result j ↔ (IsNext (ahead_way side) cell j × IsCell board.now.game j
        × (unit_at board.now (place_in j) ≡ None)) }
{
    let next = ahead(side, cell);
    if next < 63 {
        single(next) & board.empty()
    } else {
        0
    }
}

/// The cells that a unit reaches.
#[inline(always)]
pub(crate) fn targets(board: &Board, unit: Unit, cell: u8) -> u64
    requires cell { IsCell board.now.game cell }
    requires played { IsPlayed board.now.game unit.kind }
    ensures { (i : ℕ) → Has result i ↔ IsTarget board.now unit (place_in cell) i }
{
    let seen = seen(board, unit.side, unit.kind, cell);
    match unit.kind {
        Kind::Pawn => (seen & board.foes_of(unit.side)) | pushed(board, unit.side, cell),
        _ => seen & !board.of_side(unit.side),
    }
}
