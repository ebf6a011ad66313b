//! The goal within at most three plies, by going through the moves.
ghost use Rattle.std.specs.Prelude.{◌≤◌, ◌↔◌, IsTrue};
ghost use Rattle.board.specs.Games.{other_side};
ghost use Rattle.rules.specs.Forces.{IsReached, Forces};

use moves::{Board, Goal, after, has_lawful_move, lawful_on, mover_in_check, reaches_at_once};

/// The most plies that the checker works out by itself, without a claim.
pub const LEAF: u8 = 3;

/// Whether the side to move is where the goal wants it.
pub(crate) fn is_reached(board: &Board, goal: Goal) -> bool
    ensures { IsTrue result ↔ IsReached goal board.now }
{
    let check = mover_in_check(board);
    match goal {
        Goal::Mate => check && !has_lawful_move(board),
        Goal::MateOrStale => !has_lawful_move(board),
    }
}

/// Whether each move of the side to move lets the other side reach the goal by its next. Without a move the goal is to be reached.
fn loses_in_two(board: &Board, goal: Goal) -> bool
    ensures { IsTrue result ↔ Forces goal (other_side board.now.mover) board.now 2 }
{
    let moves = lawful_on(board);
    if moves.is_empty() {
        return is_reached(board, goal);
    }
    for m in moves.as_slice() {
        if !reaches_at_once(&after(board, *m), goal) {
            return false;
        }
    }
    true
}

/// Whether the side to move forces the goal within three plies.
fn wins_in_three(board: &Board, goal: Goal) -> bool
    ensures { IsTrue result ↔ Forces goal board.now.mover board.now 3 }
{
    let moves = lawful_on(board);
    for m in moves.as_slice() {
        if loses_in_two(&after(board, *m), goal) {
            return true;
        }
    }
    false
}

/// Whether the side to move forces the goal within at most three plies.
pub(crate) fn is_forced_within(board: &Board, goal: Goal, plies: u8) -> bool
    requires { plies ≤ 3 }
    ensures { IsTrue result ↔ Forces goal board.now.mover board.now plies }
{
    if plies == 0 {
        return false;
    }
    if plies < 3 {
        return reaches_at_once(board, goal);
    }
    wins_in_three(board, goal)
}
