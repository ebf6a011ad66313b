//! Moves that may give check.
ghost use Rattle.std.specs.Prelude.{◌≡◌, ◌↔◌, ℕ, IsTrue, IfSome, Some};
ghost use Rattle.board.specs.Board.{IsPosition};
ghost use Rattle.board.specs.Games.{other_side};
ghost use Rattle.rules.specs.Squares.{Place, Ply, unit_at};
ghost use Rattle.rules.specs.Reach.{Reaches, IsInCheck};
ghost use Rattle.rules.specs.Moves.{Promotes, IsPseudoLegal, after};
ghost use Rattle.cells.specs.Mailbox.{cell_of, place_in, IsCell};
ghost use Rattle.cells.specs.CellSets.{Has};
ghost use Rattle.moves.specs.Targets.{IsTarget};
ghost use Rattle.moves.specs.Looking.{Aims};
ghost use Rattle.moves.specs.Checking.{IsCheckInfo};

use crate::attacked::{attacked, calm_steps};
use crate::look::king_cell;
use crate::packed::Board;
use crate::pinned::pinned;
use crate::seen::seen;
use crate::targets::targets;
use board::{Kind, Side, Unit};
use cells::{common, has, square_in};
use rules::Square;

/// The cell of the king that isn't the mover's, the cells of the units that alone keep a rider of the mover from it, the cells
/// to which it steps calmly, and those that a knight of the mover would reach from there.
#[derive(Clone, Copy)]
pub(crate) struct CheckInfo {
    pub(crate) king: u8,
    pub(crate) uncovers: u64,
    pub(crate) steps: u64,
    pub(crate) leaps: u64,
}

/// By what checks to the king that isn't the mover's are seen, if it isn't attacked already.
pub(crate) fn check_info(board: &Board) -> Option<CheckInfo>
    ensures { IfSome result (λ info. IsCheckInfo board.now info) }
{
    let own = board.mover();
    let foe = own.other();
    let king = king_cell(board, foe)?;
    let attacked = attacked(board, foe);
    if has(attacked, king) {
        return None;
    }
    let knight = Unit {
        side: own,
        kind: Kind::Knight,
    };
    Some(CheckInfo {
        king,
        uncovers: pinned(board, foe, king),
        steps: calm_steps(board, foe, king, attacked),
        leaps: targets(board, knight, king),
    })
}

/// Cells among which are all from which the unit would take on the king's, and to which it may move.
fn aiming(board: &Board, info: CheckInfo, unit: Unit) -> u64
    requires known { IsCheckInfo board.now info }
    ensures { (m : Ply) → IsPseudoLegal board.now m unit → Aims board.now unit m.to (place_in info.king)
        → Has result (cell_of m.to) }
{
    match unit.kind {
        Kind::Knight => info.leaps,
        kind => seen(board, unit.side.other(), kind, info.king),
    }
}

/// Whether the unit's next move is its last as a pawn.
pub(crate) fn may_promote(board: &Board, unit: Unit, from: Square) -> bool
    ensures { (to : Place) → Reaches board.now unit from to (unit_at board.now to)
        → IsTrue result ↔ Promotes board.now.game unit to }
{
    if unit.kind != Kind::Pawn {
        return false;
    }
    match unit.side {
        Side::White => from.rank + 2 == board.game().width(),
        Side::Black => from.rank == 1,
    }
}

/// The cells that the unit reaches, without some to which no move of it gives check.
pub(crate) fn checking(board: &Board, info: CheckInfo, unit: Unit, from: u8) -> u64
    requires position { IsPosition board.now }
    requires known { IsCheckInfo board.now info }
    requires cell { IsCell board.now.game from }
    requires stands { unit_at board.now (place_in from) ≡ Some unit }
    requires owner { unit.side ≡ board.now.mover }
    ensures reached { (i : ℕ) → Has result i → IsTarget board.now unit (place_in from) i }
    ensures all { (m : Ply) → IsPseudoLegal board.now m unit → m.from ≡ place_in from
        → IsInCheck (after board.now m unit) (other_side board.now.mover) → Has result (cell_of m.to) }
{
    let reached = targets(board, unit, from);
    if reached == 0 || has(info.uncovers, from) || may_promote(board, unit, square_in(from)) {
        return reached;
    }
    common(reached, aiming(board, info, unit))
}
