//! Moves that end a check, other than the king's.
ghost use Rattle.std.specs.Prelude.{◌≡◌, ◌<◌, ℕ, Some};
ghost use Rattle.board.specs.declared.game.Kind.TheVariants.{King};
ghost use Rattle.board.specs.Board.{IsPosition};
ghost use Rattle.board.specs.Games.{other_side};
ghost use Rattle.rules.specs.Squares.{unit_at};
ghost use Rattle.rules.specs.Reach.{AttacksFrom};
ghost use Rattle.cells.specs.Mailbox.{place_in, IsCell};
ghost use Rattle.cells.specs.CellSets.{Has};
ghost use Rattle.cells.specs.Ways.{Rides};
ghost use Rattle.moves.specs.Guard.{HasBlocks};

use crate::packed::Board;
use crate::seen::along;
use cells::{WAYS, Way, has, single};

/// The cells that way from the king to the first unit, if that is the checker.
fn between(board: &Board, way: Way, king: u8, checker: u8) -> u64
    requires cell { IsCell board.now.game king }
    requires checker { IsCell board.now.game checker }
    ensures { Rides board.now way king checker → (j : ℕ) → Rides board.now way king j → Has result j }
{
    let line = along(board, way, king);
    if has(line, checker) { line } else { 0 }
}

/// Where the mover's king stands in the cell and the unit in the other gives check: the other cell, and the cells between.
pub(crate) fn blocks(board: &Board, king: u8, checker: u8) -> u64
    requires position { IsPosition board.now }
    requires cell { IsCell board.now.game king }
    requires king { unit_at board.now (place_in king) ≡ Some (record { side = board.now.mover; kind = King }) }
    requires from { IsCell board.now.game checker }
    requires check { AttacksFrom board.now (other_side board.now.mover) (place_in checker) (place_in king) }
    ensures { HasBlocks board.now result }
{
    let mut set = single(checker);
    for way in &WAYS {
        set |= between(board, *way, king, checker);
    }
    set
}
