//! The lawful moves of a board, by the cells that each unit reaches.
ghost use Rattle.std.specs.Prelude.{◌≡◌, ◌≤◌, ◌+◌, ◌*◌, ◌<◌, Some, true, false};
ghost use Rattle.arrayvec.specs.ArrayVec.{array_vec_len};
ghost use Rattle.board.specs.declared.game.Kind.TheVariants.{King, Pawn};
ghost use Rattle.board.specs.Games.{other_side};
ghost use Rattle.board.specs.Board.{IsPosition, is_of_side};
ghost use Rattle.rules.specs.Squares.{Ply, IsOnBoard, square_number, unit_at};
ghost use Rattle.rules.specs.Moves.{Promotes, IsLawful, after};
ghost use Rattle.rules.specs.Order.{ListsLawful};
ghost use Rattle.rules.specs.Listing.{ListsBelow, ListsFrom};
ghost use Rattle.cells.specs.Mailbox.{place_in, IsCell};
ghost use Rattle.cells.specs.CellSets.{Has};
ghost use Rattle.moves.specs.Guard.{Guards, Checkers};
ghost use Rattle.moves.specs.Looking.{AreAttacked};
ghost use Rattle.moves.specs.Safe.{IsNamed};

use crate::attacked::attacked;
use crate::blocks::blocks;
use crate::look::{attackers, king_cell};
use crate::packed::Board;
use crate::pinned::{pinned, shadow};
use crate::safe::safe_cells;
use crate::sweep::take_lowest;
use arrayvec::ArrayVec;
use board::{Game, Kind, Unit};
use cells::{has, lowest, square_in};
use rules::{Move, PROMOTIONS, Square, is_promoted_well, promotes};

/// What the mover's king asks of each move: the cell where it stands, the cells that the other side attacks, whether it is in check, where it isn't, the cells of the
/// units that are pinned to it, cells to which a unit other than the king must come, and cells to which a rider that gives check
/// may come once the king has gone.
#[derive(Clone, Copy)]
pub(crate) struct Guard {
    pub(crate) king: u8,
    pub(crate) attacked: u64,
    pub(crate) checked: bool,
    pub(crate) pins: u64,
    pub(crate) blocks: u64,
    pub(crate) shadow: u64,
}

/// How many of the promotions, from none on, a move of the unit to the square may name.
pub(crate) fn promotion_count(game: Game, unit: Unit, to: Square) -> usize
    ensures five { Promotes game unit to → result ≡ 5 }
    ensures one { (Promotes game unit to → ⊥) → result ≡ 1 }
    ensures within { (1 ≤ result) × (result ≤ 5) }
{
    if promotes(game, unit, to) { 5 } else { 1 }
}

/// Adds the moves of the unit to a square, all of which are lawful.
fn push_to(board: &Board, unit: Unit, from: Square, to: Square, moves: &mut ArrayVec<Move, 512>)
    requires from_on_board { IsOnBoard board.now.game from }
    requires to_on_board { IsOnBoard board.now.game to }
    requires stands { unit_at board.now from ≡ Some unit }
    requires lawful { (m : Ply) → m.from ≡ from → m.to ≡ to → IsNamed board.now.game unit m → IsLawful board.now m }
    requires room { array_vec_len moves.old + 5 ≤ 512 }
    requires before { ListsBelow board.now
        ((square_number board.now.game from * 36 + square_number board.now.game to) * 5) moves.old.items }
    ensures after { ListsBelow board.now
        ((square_number board.now.game from * 36 + square_number board.now.game to + 1) * 5) moves.new.items }
    ensures few { array_vec_len moves.new ≤ array_vec_len moves.old + 5 }
    ensures one { (unit.kind ≡ Pawn → ⊥) → array_vec_len moves.new ≤ array_vec_len moves.old + 1 }
{
    let game = board.game();
    for i in 0..promotion_count(game, unit, to) {
        let m = Move {
            from,
            to,
            promotion: PROMOTIONS[i],
        };
        if is_promoted_well(game, unit, m) {
            moves.push(m);
        }
    }
}

/// Adds the lawful moves of the mover's unit in the cell.
fn push_in(board: &Board, guard: Guard, cell: u8, moves: &mut ArrayVec<Move, 512>)
    requires position { IsPosition board.now }
    requires guards { Guards board.now guard }
    requires cell { IsCell board.now.game cell }
    requires own { is_of_side board.now.mover (unit_at board.now (place_in cell)) ≡ true }
    requires before { ListsFrom board.now (square_number board.now.game (place_in cell)) moves.old.items }
    ensures { ListsFrom board.now (square_number board.now.game (place_in cell) + 1) moves.new.items }
{
    let Some(unit) = board.unit_in(cell) else {
        unreachable!()
    };
    let from = square_in(cell);
    let mut left = safe_cells(board, guard, unit, cell);
    'cells: while left != 0 {
        let to = take_lowest(&mut left);
        push_to(board, unit, from, square_in(to), moves);
    }
}

/// Puts the lawful moves into the list, in order, in place of what it held.
pub fn list_lawful(board: &Board, moves: &mut ArrayVec<Move, 512>)
    ensures { ListsLawful board.now moves.new.items }
{
    let guard = guard_of(board);
    moves.clear();
    let mut left = board.own();
    'units: while left != 0 {
        let cell = take_lowest(&mut left);
        push_in(board, guard, cell, moves);
    }
}

/// The lawful moves, in order.
pub fn lawful_on(board: &Board) -> ArrayVec<Move, 512>
    ensures { ListsLawful board.now result.items }
{
    let mut moves = ArrayVec::new();
    list_lawful(board, &mut moves);
    moves
}

/// The cell of the mover's king, and the cells that the other side attacks.
pub(crate) fn mover_king(board: &Board) -> (u8, u64)
    ensures position { IsPosition board.now }
    ensures cell { IsCell board.now.game result.0 }
    ensures king { unit_at board.now (place_in result.0) ≡ Some (record { side = board.now.mover; kind = King }) }
    ensures attacked { AreAttacked board.now (other_side board.now.mover) result.1 }
{
    let side = board.mover();
    let Some(king) = king_cell(board, side) else {
        unreachable!()
    };
    (king, attacked(board, side))
}

/// Where the mover's king stands, whether it is in check, and what is pinned to it.
pub(crate) fn guard_of(board: &Board) -> Guard
    ensures guards { Guards board.now result }
    ensures position { IsPosition board.now }
{
    let (king, attacked) = mover_king(board);
    if has(attacked, king) {
        let (guard, checkers) = guard_in_check(board, king, attacked);
        return blocked(board, guard, checkers);
    }
    Guard {
        king,
        attacked,
        checked: false,
        pins: pinned(board, board.mover(), king),
        blocks: u64::MAX,
        shadow: 0,
    }
}

/// The guard of the mover's king, which is attacked, and the cells of the units that check it. Where other units must come isn't
/// told yet.
pub(crate) fn guard_in_check(board: &Board, king: u8, attacked: u64) -> (Guard, u64)
    requires position { IsPosition board.now }
    requires cell { IsCell board.now.game king }
    requires king { unit_at board.now (place_in king) ≡ Some (record { side = board.now.mover; kind = King }) }
    requires attacked { AreAttacked board.now (other_side board.now.mover) attacked }
    requires there { Has attacked king }
    ensures guards { Guards board.now result.0 }
    ensures checked { result.0.checked ≡ true }
    ensures some { 0 < result.1 }
    ensures checkers { Checkers board.now result.0.king result.1 }
{
    let checkers = attackers(board, king, board.mover());
    let guard = Guard {
        king,
        attacked,
        checked: true,
        pins: 0,
        blocks: u64::MAX,
        shadow: shadow(board, king, checkers),
    };
    (guard, checkers)
}

/// The guard of a king in check, with the cells to which units other than the king must come.
pub(crate) fn blocked(board: &Board, guard: Guard, checkers: u64) -> Guard
    requires position { IsPosition board.now }
    requires guards { Guards board.now guard }
    requires checked { guard.checked ≡ true }
    requires some { 0 < checkers }
    requires checkers { Checkers board.now guard.king checkers }
    ensures { Guards board.now result }
{
    Guard {
        blocks: blocks(board, guard.king, lowest(checkers)),
        ..guard
    }
}
