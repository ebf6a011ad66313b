//! Whether one move is lawful on a board, and the board after it. No list is made.
ghost use Rattle.std.specs.Prelude.{◌≡◌, ◌↔◌, IsTrue, MatchOption, Some};
ghost use Rattle.rules.specs.Squares.{IsOnBoard, unit_at};
ghost use Rattle.rules.specs.Moves.{IsPseudoLegal, IsMove, IsLawful};

use crate::look::is_checked;
use crate::packed::Board;
use crate::targets::targets;
use board::{Game, Unit};
use cells::{cell_of, has};
use rules::{Move, is_promoted_well};

/// Whether the board has both squares of the move.
fn has_squares(game: Game, m: Move) -> bool
    ensures { IsTrue result ↔ (IsOnBoard game m.from × IsOnBoard game m.to) }
{
    m.from.is_on_board(game) && m.to.is_on_board(game)
}

/// Whether the unit on its first square may make the move, but for its own king's safety.
fn is_pseudo_legal(board: &Board, m: Move, unit: Unit) -> bool
    requires squares { IsOnBoard board.now.game m.from × IsOnBoard board.now.game m.to }
    requires stands { unit_at board.now m.from ≡ Some unit }
    ensures { IsTrue result ↔ IsPseudoLegal board.now m unit }
{
    if unit.side != board.mover() {
        return false;
    }
    let to = cell_of(m.to);
    if !has(targets(board, unit, cell_of(m.from)), to) {
        return false;
    }
    if board.has_king(to) {
        return false;
    }
    is_promoted_well(board.game(), unit, m)
}

/// The board after the move, if the move is lawful.
pub fn after_if_lawful(board: &Board, m: Move) -> Option<Board>
    ensures { MatchOption result (IsLawful board.now m → ⊥) (λ next. IsMove board.now m next) }
{
    if !has_squares(board.game(), m) {
        return None;
    }
    let Some(unit) = board.unit_at(m.from) else {
        return None;
    };
    if !is_pseudo_legal(board, m, unit) {
        return None;
    }
    let next = board.moved(m, unit);
    if is_checked(&next, unit.side) {
        return None;
    }
    Some(next)
}

/// Whether the move is lawful. No list is made.
pub fn is_lawful_on(board: &Board, m: Move) -> bool
    ensures { IsTrue result ↔ IsLawful board.now m }
{
    after_if_lawful(board, m).is_some()
}
