//! How many lawful moves there are.
ghost use Rattle.std.specs.Prelude.{◌≡◌, ◌≤◌, true};
ghost use Rattle.board.specs.Board.{IsPosition, is_of_side};
ghost use Rattle.rules.specs.Squares.{Place, square_number, unit_at};
ghost use Rattle.rules.specs.Reach.{Reaches};
ghost use Rattle.cells.specs.Mailbox.{place_in, IsCell};
ghost use Rattle.moves.specs.Counting.{CountsLawful};
ghost use Rattle.moves.specs.Guard.{Guards};
ghost use Rattle.moves.specs.Safe.{IsEach, CountsFrom};

use crate::board_list::{Guard, guard_of};
use crate::checks::may_promote;
use crate::packed::Board;
use crate::safe::safe_cells;
use crate::sweep::take_lowest;
use board::{Game, Unit};
use cells::square_in;
use rules::Square;

/// How many moves the unit has to each square that it reaches.
fn moves_to_each(board: &Board, unit: Unit, from: Square) -> u16
    ensures each { (to : Place) → Reaches board.now unit from to (unit_at board.now to)
        → IsEach board.now.game unit to result }
    ensures few { result ≤ 4 }
{
    if !may_promote(board, unit, from) {
        return 1;
    }
    match board.game() {
        Game::LosAlamos => 3,
        Game::Gardner => 4,
    }
}

/// How many lawful moves the mover's unit in the cell has.
#[inline(always)]
fn count_from(board: &Board, guard: Guard, cell: u8) -> u16
    requires position { IsPosition board.now }
    requires guards { Guards board.now guard }
    requires cell { IsCell board.now.game cell }
    requires own { is_of_side board.now.mover (unit_at board.now (place_in cell)) ≡ true }
    ensures { CountsFrom board.now (square_number board.now.game (place_in cell)) result }
{
    let Some(unit) = board.unit_in(cell) else {
        unreachable!()
    };
    let safe = safe_cells(board, guard, unit, cell);
    safe.count_ones() as u16 * moves_to_each(board, unit, square_in(cell))
}

/// How many lawful moves there are. Makes no list.
pub fn count_lawful(board: &Board) -> u16
    ensures { CountsLawful board.now result }
{
    let guard = guard_of(board);
    let mut left = board.own();
    let mut count = 0;
    'units: while left != 0 {
        let cell = take_lowest(&mut left);
        count += count_from(board, guard, cell);
    }
    count
}
