//! The list of lawful moves.
ghost use Rattle.std.specs.Prelude.{◌≡◌, ◌≤◌, ◌+◌, ◌*◌, ◌<◌, Some, MatchOption, true, false};
ghost use Rattle.arrayvec.specs.ArrayVec.{array_vec_len};
ghost use Rattle.board.specs.declared.game.Kind.TheVariants.{Pawn};
ghost use Rattle.board.specs.declared.game.Unit.{Unit as Man};
ghost use Rattle.board.specs.Board.{unit_on, is_of_side};
ghost use Rattle.board.specs.Games.{squares_of};
ghost use Rattle.rules.specs.Squares.{IsOnBoard, square_number, unit_at};
ghost use Rattle.rules.specs.Order.{ListsLawful};
ghost use Rattle.rules.specs.Listing.{ListsBelow};

use crate::plies::{Move, is_lawful_by};
use crate::reach::reaches;
use crate::squares::{Square, unit_at};
use arrayvec::ArrayVec;
use board::{Kind, PieceTable, Position, Unit, pieces};

/// What a move may name as its promotion, in order.
pub const PROMOTIONS: [Option<Kind>; 5] = [
    None,
    Some(Kind::Queen),
    Some(Kind::Rook),
    Some(Kind::Bishop),
    Some(Kind::Knight),
];

/// Adds the lawful moves from one square to the other.
fn push_between(
    table: &PieceTable,
    position: &Position,
    from: Square,
    to: Square,
    moves: &mut ArrayVec<Move, 512>,
)
    requires game { table.now ≡ position.now.game }
    requires from_on_board { IsOnBoard position.now.game from }
    requires to_on_board { IsOnBoard position.now.game to }
    requires room { array_vec_len moves.old + 5 ≤ 512 }
    requires before { ListsBelow position.now
        ((square_number position.now.game from * 36 + square_number position.now.game to) * 5) moves.old.items }
    ensures after { ListsBelow position.now
        ((square_number position.now.game from * 36 + square_number position.now.game to + 1) * 5) moves.new.items }
    ensures few { array_vec_len moves.new ≤ array_vec_len moves.old + 5 }
    ensures one { (u : Man) → unit_at position.now from ≡ Some u → (u.kind ≡ Pawn → ⊥)
        → array_vec_len moves.new ≤ array_vec_len moves.old + 1 }
{
    for promotion in &PROMOTIONS {
        let m = Move {
            from,
            to,
            promotion: *promotion,
        };
        if is_lawful_by(table, position, m) {
            moves.push(m);
        }
    }
}

/// Adds the lawful moves of the unit on the square.
fn push_from(
    table: &PieceTable,
    position: &Position,
    unit: Unit,
    from: Square,
    moves: &mut ArrayVec<Move, 512>,
)
    requires game { table.now ≡ position.now.game }
    requires on_board { IsOnBoard position.now.game from }
    requires stands { unit_at position.now from ≡ Some unit }
    requires room { array_vec_len moves.old + 41 ≤ 512 }
    requires before { ListsBelow position.now (square_number position.now.game from * 36 * 5) moves.old.items }
    ensures after { ListsBelow position.now ((square_number position.now.game from + 1) * 36 * 5) moves.new.items }
    ensures few { array_vec_len moves.new ≤ array_vec_len moves.old + 36 }
{
    let game = position.game();
    for number in 0..game.squares() {
        let to = Square::of_number(game, number);
        if reaches(table, position, unit, from, to, position.unit(number)) {
            push_between(table, position, from, to, moves);
        }
    }
}

/// The unit on a square, if it is the mover's.
fn own_unit(position: &Position, number: u8) -> Option<Unit>
    requires { number < squares_of position.now.game }
    ensures { MatchOption result
        (is_of_side position.now.mover (unit_on position.now number) ≡ false)
        (λ u. (unit_on position.now number ≡ Some u) × (is_of_side position.now.mover (unit_on position.now number) ≡ true)) }
{
    let unit = position.unit(number)?;
    if unit.side == position.mover() {
        Some(unit)
    } else {
        None
    }
}

/// The lawful moves, in order.
pub fn lawful(position: &Position) -> ArrayVec<Move, 512>
    ensures { ListsLawful position.now result.items }
{
    let game = position.game();
    let table = pieces(game);
    let mut moves = ArrayVec::new();
    for number in 0..game.squares() {
        if let Some(unit) = own_unit(position, number) {
            push_from(
                &table,
                position,
                unit,
                Square::of_number(game, number),
                &mut moves,
            );
        }
    }
    moves
}
