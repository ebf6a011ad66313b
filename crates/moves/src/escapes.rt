//! Steps by which a king gets away from a move, whatever else stands on the board.
ghost use Rattle.std.specs.Prelude.{◌≡◌, ℕ, IsTrue};
ghost use Rattle.board.specs.Board.{IsPosition};
ghost use Rattle.rules.specs.Squares.{Ply};
ghost use Rattle.rules.specs.Moves.{IsPseudoLegal, IsLawful, after};
ghost use Rattle.cells.specs.Mailbox.{cell_of, place_in, IsCell};
ghost use Rattle.cells.specs.CellSets.{Has};
ghost use Rattle.moves.specs.Pinned.{IsPinned};
ghost use Rattle.moves.specs.Checking.{IsCheckInfo, IsUnseen};

use crate::checks::{CheckInfo, may_promote};
use crate::look::open_lines;
use crate::packed::Board;
use crate::seen::lines;
use crate::sweep::take_lowest;
use board::{Side, Unit};
use cells::{except, has, single, square_in, with_cell};

/// The cells on the lines of this one, if a rider of the other side stands on them too.
fn opened(board: &Board, side: Side, cell: u8) -> u64
    requires { IsCell board.now.game cell }
    ensures { (i : ℕ) → IsCell board.now.game i → IsPinned board.now side (place_in i) (place_in cell) → Has result i }
{
    let riders = board.foes_of(side) & board.riders();
    let lines = lines(board, cell);
    if riders & lines == 0 { 0 } else { lines }
}

/// Whether one of these steps of the other king is to no cell on which the unit may take once it has come to the cell.
fn flees(board: &Board, unit: Unit, to: u8, steps: u64) -> bool
    requires { IsCell board.now.game to }
    ensures { IsTrue result → (i : ℕ) × Has steps i × IsUnseen board.now unit to i }
{
    let aims = open_lines(board.game(), unit.side, unit.kind, to);
    except(steps, single(to) | aims) != 0
}

/// Of the cells of the board to which the unit may come, those where the other king has no step then that is lawful at a glance. It leaves
/// out none of a pawn's that becomes another unit, and none of a unit's that alone keeps a rider from that king.
pub(crate) fn held(board: &Board, info: CheckInfo, unit: Unit, from: u8, reached: u64) -> u64
    requires position { IsPosition board.now }
    requires known { IsCheckInfo board.now info }
    requires cell { IsCell board.now.game from }
    requires reached { (i : ℕ) → Has reached i → IsCell board.now.game i }
    ensures some { (i : ℕ) → Has result i → Has reached i }
    ensures all { (m : Ply) → m.from ≡ place_in from → IsPseudoLegal board.now m unit → Has reached (cell_of m.to)
        → ((n : Ply) → IsLawful (after board.now m unit) n → ⊥) → Has result (cell_of m.to) }
{
    if reached == 0 || has(info.uncovers, from) || may_promote(board, unit, square_in(from)) {
        return reached;
    }
    let steps = except(
        info.steps,
        single(from) | opened(board, unit.side.other(), from),
    );
    let mut left = reached;
    let mut held = 0;
    'cells: while left != 0 {
        let to = take_lowest(&mut left);
        let holds = !flees(board, unit, to, steps);
        held = with_cell(held, to, holds);
    }
    held
}
