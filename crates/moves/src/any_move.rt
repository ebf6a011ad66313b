//! Whether a board has a lawful move.
ghost use Rattle.std.specs.Prelude.{◌≡◌, ◌↔◌, IsTrue, Some, true, false};
ghost use Rattle.board.specs.Board.{IsPosition, is_of_side};
ghost use Rattle.rules.specs.Squares.{Ply, unit_at};
ghost use Rattle.rules.specs.Moves.{IsLawful, IsMated};
ghost use Rattle.cells.specs.Mailbox.{place_in, IsCell};
ghost use Rattle.moves.specs.Guard.{Guards};

use crate::board_list::{Guard, blocked, guard_in_check, guard_of, mover_king};
use crate::packed::Board;
use crate::safe::{free_cells, may_go, tried};
use crate::sweep::any_cell;
use board::{Kind, Unit};
use cells::has;

/// Whether one of the unit's moves is lawful, each of which is tested.
fn has_tested_move(board: &Board, guard: Guard, unit: Unit, from: u8) -> bool
    requires position { IsPosition board.now }
    requires guards { Guards board.now guard }
    requires cell { IsCell board.now.game from }
    requires stands { unit_at board.now (place_in from) ≡ Some unit }
    requires owner { unit.side ≡ board.now.mover }
    ensures found { IsTrue result → (m : Ply) × IsLawful board.now m }
    ensures none { result ≡ false → (m : Ply) → m.from ≡ place_in from → IsLawful board.now m → ⊥ }
{
    any_cell(tried(board, guard, unit, from), |to| {
        may_go(board, guard, unit, from, to)
    })
}

/// Whether the mover's king, which most often can, has a lawful move.
fn has_king_move(board: &Board, guard: Guard) -> bool
    requires position { IsPosition board.now }
    requires guards { Guards board.now guard }
    ensures found { IsTrue result → (m : Ply) × IsLawful board.now m }
{
    let king = Unit {
        side: board.mover(),
        kind: Kind::King,
    };
    has_tested_move(board, guard, king, guard.king)
}

/// Whether the mover's unit in the cell has a lawful move.
fn has_move_in(board: &Board, guard: Guard, cell: u8) -> bool
    requires position { IsPosition board.now }
    requires guards { Guards board.now guard }
    requires cell { IsCell board.now.game cell }
    requires own { is_of_side board.now.mover (unit_at board.now (place_in cell)) ≡ true }
    ensures found { IsTrue result → (m : Ply) × IsLawful board.now m }
    ensures none { result ≡ false → (m : Ply) → m.from ≡ place_in cell → IsLawful board.now m → ⊥ }
{
    let Some(unit) = board.unit_in(cell) else {
        unreachable!()
    };
    match free_cells(board, guard, unit, cell) {
        Some(free) => free != 0,
        None => has_tested_move(board, guard, unit, cell),
    }
}

/// Whether there is a lawful move, on a board laid out: where the king is in check, its own moves are tried first.
pub(crate) fn has_move(board: &Board, guard: Guard) -> bool
    requires position { IsPosition board.now }
    requires guards { Guards board.now guard }
    ensures { IsTrue result ↔ ((m : Ply) × IsLawful board.now m) }
{
    if guard.checked && has_king_move(board, guard) {
        return true;
    }
    any_cell(board.own(), |cell| { has_move_in(board, guard, cell) })
}

/// Whether the mover is mated. Most kings in check can go, so that is asked before where other units must come.
pub(crate) fn is_mated(board: &Board) -> bool
    requires { IsPosition board.now }
    ensures { IsTrue result ↔ IsMated board.now }
{
    let (king, attacked) = mover_king(board);
    if !has(attacked, king) {
        return false;
    }
    let (guard, checkers) = guard_in_check(board, king, attacked);
    !has_king_move(board, guard) && !has_move(board, blocked(board, guard, checkers))
}

/// Whether there is a lawful move. Stops at the first, and makes no list.
pub fn has_lawful_move(board: &Board) -> bool
    ensures { IsTrue result ↔ ((m : Ply) × IsLawful board.now m) }
{
    has_move(board, guard_of(board))
}
