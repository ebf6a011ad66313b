//! The cells to which a unit moves lawfully.
ghost use Rattle.std.specs.Prelude.{◌≡◌, ◌↔◌, IsTrue, IfSome, Some, ℕ, false};
ghost use Rattle.board.specs.Board.{IsPosition};
ghost use Rattle.rules.specs.Squares.{Ply, unit_at};
ghost use Rattle.rules.specs.Moves.{IsLawful};
ghost use Rattle.cells.specs.Mailbox.{cell_of, place_in, IsCell};
ghost use Rattle.cells.specs.CellSets.{Has};
ghost use Rattle.moves.specs.Targets.{IsTarget};
ghost use Rattle.moves.specs.Guard.{Guards};
ghost use Rattle.moves.specs.Safe.{IsNamed, HasSafe, IsCalm};

use crate::attacked::calm_steps;
use crate::board_list::Guard;
use crate::look::{is_attacked, is_checked};
use crate::packed::Board;
use crate::sweep::take_lowest;
use crate::targets::targets;
use board::{Game, Kind, Side, Unit};
use cells::{common, except, has, square_in, with_cell};
use rules::{Move, Square, is_king, promotes};

/// A move between the squares: a pawn that comes to its last rank becomes a queen.
fn queening(game: Game, unit: Unit, from: Square, to: Square) -> Move
    ensures from { result.from ≡ from }
    ensures to { result.to ≡ to }
    ensures named { IsNamed game unit result }
{
    let promotion = if promotes(game, unit, to) {
        Some(Kind::Queen)
    } else {
        None
    };
    Move {
        from,
        to,
        promotion,
    }
}

/// Whether no king stands in the cell, and no unit of the other side attacks it.
pub(crate) fn is_calm(board: &Board, cell: u8, side: Side) -> bool
    requires position { IsPosition board.now }
    requires cell { IsCell board.now.game cell }
    ensures { IsTrue result ↔ IsCalm board.now (place_in cell) side }
{
    !board.has_king(cell) && !is_attacked(board, cell, side)
}

/// Whether the unit's moves to a cell that it reaches are lawful: all are, or none.
pub(crate) fn may_go(board: &Board, guard: Guard, unit: Unit, from: u8, to: u8) -> bool
    requires position { IsPosition board.now }
    requires guards { Guards board.now guard }
    requires cell { IsCell board.now.game from }
    requires stands { unit_at board.now (place_in from) ≡ Some unit }
    requires owner { unit.side ≡ board.now.mover }
    requires target { IsTarget board.now unit (place_in from) to }
    ensures { (m : Ply) → m.from ≡ place_in from → m.to ≡ place_in to → IsNamed board.now.game unit m
        → IsTrue result ↔ IsLawful board.now m }
{
    if board.has_king(to) {
        return false;
    }
    if is_king(Some(unit)) {
        if has(guard.attacked, to) {
            return false;
        }
        if !has(guard.shadow, to) {
            return true;
        }
    } else {
        if !has(guard.blocks, to) {
            return false;
        }
        if !guard.checked && !has(guard.pins, from) {
            return true;
        }
    }
    let m = queening(board.game(), unit, square_in(from), square_in(to));
    !is_checked(&board.moved(m, unit), unit.side)
}

/// The cells that the unit reaches, without some to which no move of it is lawful.
pub(crate) fn tried(board: &Board, guard: Guard, unit: Unit, from: u8) -> u64
    requires position { IsPosition board.now }
    requires guards { Guards board.now guard }
    requires cell { IsCell board.now.game from }
    requires stands { unit_at board.now (place_in from) ≡ Some unit }
    requires owner { unit.side ≡ board.now.mover }
    ensures reached { (i : ℕ) → Has result i → IsTarget board.now unit (place_in from) i }
    ensures all { (m : Ply) → m.from ≡ place_in from → IsLawful board.now m → Has result (cell_of m.to) }
{
    if is_king(Some(unit)) {
        return calm_steps(board, unit.side, from, guard.attacked);
    }
    common(targets(board, unit, from), guard.blocks)
}

/// The cells to which the unit moves lawfully, by a test of each.
#[inline(never)]
fn sifted(board: &Board, guard: Guard, unit: Unit, from: u8) -> u64
    requires position { IsPosition board.now }
    requires guards { Guards board.now guard }
    requires cell { IsCell board.now.game from }
    requires stands { unit_at board.now (place_in from) ≡ Some unit }
    requires owner { unit.side ≡ board.now.mover }
    ensures { HasSafe board.now unit (place_in from) result }
{
    let mut left = tried(board, guard, unit, from);
    let mut safe = 0;
    'cells: while left != 0 {
        let cell = take_lowest(&mut left);
        let goes = may_go(board, guard, unit, from, cell);
        safe = with_cell(safe, cell, goes);
    }
    safe
}

/// The cells to which the unit moves lawfully, where a glance tells: the king isn't in check, nor is the unit pinned to it.
// Inside the loops that count and list, since most units go by this glance.
#[inline(always)]
pub(crate) fn free_cells(board: &Board, guard: Guard, unit: Unit, from: u8) -> Option<u64>
    requires position { IsPosition board.now }
    requires guards { Guards board.now guard }
    requires cell { IsCell board.now.game from }
    requires stands { unit_at board.now (place_in from) ≡ Some unit }
    requires owner { unit.side ≡ board.now.mover }
    ensures { IfSome result (HasSafe board.now unit (place_in from)) }
{
    if guard.checked {
        return None;
    }
    if is_king(Some(unit)) {
        return Some(calm_steps(board, unit.side, from, guard.attacked));
    }
    if has(guard.pins, from) {
        return None;
    }
    let reached = targets(board, unit, from);
    Some(except(reached, board.kings()))
}

/// The cells to which the unit moves lawfully.
#[inline(always)]
pub(crate) fn safe_cells(board: &Board, guard: Guard, unit: Unit, from: u8) -> u64
    requires position { IsPosition board.now }
    requires guards { Guards board.now guard }
    requires cell { IsCell board.now.game from }
    requires stands { unit_at board.now (place_in from) ≡ Some unit }
    requires owner { unit.side ≡ board.now.mover }
    ensures { HasSafe board.now unit (place_in from) result }
{
    match free_cells(board, guard, unit, from) {
        Some(free) => free,
        None => sifted(board, guard, unit, from),
    }
}
