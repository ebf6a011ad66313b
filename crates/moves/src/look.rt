//! Check as the king sees it: a square is attacked by what a unit of the same kind would take from there.
ghost use Rattle.std.specs.Prelude.{◌≡◌, ◌<◌, ◌+◌, ◌↔◌, IsTrue, MatchOption, Some, ℕ};
ghost use Rattle.board.specs.declared.game.Kind.TheVariants.{King};
ghost use Rattle.board.specs.Board.{PlainBoard, IsPosition};
ghost use Rattle.board.specs.Games.{other_side};
ghost use Rattle.rules.specs.Squares.{unit_at};
ghost use Rattle.rules.specs.Reach.{AttacksFrom, IsAttacked, IsInCheck};
ghost use Rattle.rules.specs.Moves.{IsLawful, GivesCheck};
ghost use Rattle.cells.specs.Mailbox.{place_in, IsCell};
ghost use Rattle.cells.specs.CellSets.{Has};
ghost use Rattle.moves.specs.Looking.{Aims, TakesAs};
ghost use Rattle.moves.specs.Sets.{Owns};

use crate::packed::{Board, after};
use crate::seen::seen;
use crate::sets::{Class, class_of};
use board::{Game, Kind, Side};
use cells::{king_leaps, knight_leaps, lowest, pawn_captures, slanted_lines, straight_lines};
use rules::Move;

/// The cells where a unit of the kind would take from this one on an empty board.
#[inline(always)]
pub(crate) fn open_lines(game: Game, side: Side, kind: Kind, cell: u8) -> u64
    requires { IsCell game cell }
    ensures { (b : PlainBoard) (j : ℕ) → b.game ≡ game → IsCell game j
        → Aims b (record { side = side; kind = kind }) (place_in cell) (place_in j) → Has result j }
{
    match kind {
        Kind::King => king_leaps(game, cell),
        Kind::Queen => straight_lines(game, cell) | slanted_lines(game, cell),
        Kind::Rook => straight_lines(game, cell),
        Kind::Bishop => slanted_lines(game, cell),
        Kind::Knight => knight_leaps(game, cell),
        Kind::Pawn => pawn_captures(game, side, cell),
    }
}

/// The cells of those foes that go as the kind does and would take on this one so.
#[inline(always)]
fn struck(board: &Board, side: Side, kind: Kind, cell: u8, foes: u64) -> u64
    requires cell { IsCell board.now.game cell }
    requires foes { Owns board.now (other_side side) foes }
    ensures { (i : ℕ) → Has result i
        ↔ (IsCell board.now.game i × TakesAs board.now (other_side side) kind (place_in i) (place_in cell)) }
{
    let among = foes & board.set(class_of(kind));
    if among == 0 {
        return 0;
    }
    if among & open_lines(board.game(), side, kind, cell) == 0 {
        return 0;
    }
    among & seen(board, side, kind, cell)
}

/// The cells of the other side's units that attack the cell.
pub(crate) fn attackers(board: &Board, cell: u8, side: Side) -> u64
    requires cell { IsCell board.now.game cell }
    requires position { IsPosition board.now }
    ensures { (i : ℕ) → Has result i
        ↔ (IsCell board.now.game i × AttacksFrom board.now (other_side side) (place_in i) (place_in cell)) }
{
    let foes = board.foes_of(side);
    struck(board, side, Kind::Rook, cell, foes)
        | struck(board, side, Kind::Bishop, cell, foes)
        | struck(board, side, Kind::Knight, cell, foes)
        | struck(board, side, Kind::King, cell, foes)
        | struck(board, side, Kind::Pawn, cell, foes)
}

/// Whether some unit of the other side attacks the cell. Stops at the first kind that does.
pub(crate) fn is_attacked(board: &Board, cell: u8, side: Side) -> bool
    requires cell { IsCell board.now.game cell }
    requires position { IsPosition board.now }
    ensures { IsTrue result ↔ IsAttacked board.now (place_in cell) (other_side side) }
{
    let foes = board.foes_of(side);
    if struck(board, side, Kind::Rook, cell, foes) != 0 {
        return true;
    }
    if struck(board, side, Kind::Bishop, cell, foes) != 0 {
        return true;
    }
    if struck(board, side, Kind::Knight, cell, foes) != 0 {
        return true;
    }
    if struck(board, side, Kind::King, cell, foes) != 0 {
        return true;
    }
    struck(board, side, Kind::Pawn, cell, foes) != 0
}

/// The cell of the side's king.
pub(crate) fn king_cell(board: &Board, side: Side) -> Option<u8>
    ensures { MatchOption result
        ((i : ℕ) → IsCell board.now.game i → unit_at board.now (place_in i) ≡ Some (record { side = side; kind = King }) → ⊥)
        (λ i. IsCell board.now.game i × (unit_at board.now (place_in i) ≡ Some (record { side = side; kind = King }))) }
{
    let kings = board.of_side(side) & board.set(Class::Crowned);
    if kings == 0 {
        return None;
    }
    Some(lowest(kings))
}

/// Whether the side's king is attacked, on a board laid out.
pub(crate) fn is_checked(board: &Board, side: Side) -> bool
    requires { IsPosition board.now }
    ensures { IsTrue result ↔ IsInCheck board.now side }
{
    match king_cell(board, side) {
        Some(cell) => is_attacked(board, cell, side),
        None => false,
    }
}

/// Whether the king of the side to move is attacked.
pub fn mover_in_check(board: &Board) -> bool
    ensures { IsTrue result ↔ IsInCheck board.now board.now.mover }
{
    is_checked(board, board.mover())
}

/// Whether the lawful move gives check.
pub fn gives_check(board: &Board, m: Move) -> bool
    requires { IsLawful board.now m }
    ensures { IsTrue result ↔ GivesCheck board.now m }
{
    let next = after(board, m);
    mover_in_check(&next)
}
