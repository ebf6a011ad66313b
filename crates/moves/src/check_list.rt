//! The lawful moves that give check.
ghost use Rattle.moves.specs.CheckList.{ListsChecks};

use crate::board_list::lawful_on;
use crate::look::gives_check;
use crate::packed::Board;
use arrayvec::ArrayVec;
use rules::Move;

/// Puts the lawful moves that give check into the list, in order, in place of what it held.
pub fn list_checks(board: &Board, moves: &mut ArrayVec<Move, 512>)
    ensures { ListsChecks board.now moves.new.items }
{
    let all = lawful_on(board);
    moves.clear();
    for m in all.as_slice() {
        if gives_check(board, *m) {
            moves.push(*m);
        }
    }
}
