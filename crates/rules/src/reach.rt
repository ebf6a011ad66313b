//! Which squares a unit reaches, and which are attacked.
ghost use Rattle.std.specs.Prelude.{◌≡◌, ◌<◌, ◌+◌, ◌↔◌, IsTrue, MatchOption, Some, ℕ, ℤ, pos, ◌+ℤ◌};
ghost use Rattle.std.specs.Int.RustNames.{unsigned_abs};
ghost use Rattle.rules.specs.Squares.{Place, IsOnBoard, unit_at};
ghost use Rattle.board.specs.declared.game.Kind.TheVariants.{King};
ghost use Rattle.rules.specs.Reach.{ahead_of, IsStep, Leads, Allows, ReachesBy, Reaches, AttacksFrom, IsAttacked, IsCheckAt, IsInCheck, IsSound};

use crate::Square;
use crate::squares::unit_at;
use board::{Game, Kind, Mode, PieceTable, Position, Side, Step, Unit, pieces};

/// The file or rank this far from one, if the board has it.
fn shifted(from: u8, by: i16, width: u8) -> Option<u8>
    requires { unsigned_abs by < 1000 }
    ensures { MatchOption result
        ((to : ℕ) → to < width → pos to ≡ pos from +ℤ by → ⊥)
        (λ to. (to < width) × (pos to ≡ pos from +ℤ by)) }
{
    let to = i16::from(from) + by;
    if to < 0 || to >= i16::from(width) {
        None
    } else {
        Some(to as u8)
    }
}

/// How many ranks up the board a step goes.
pub(crate) fn ranks_up(side: Side, step: &Step) -> i16
    ensures value { result ≡ ahead_of side step.now.dy }
    ensures small { unsigned_abs result < 1000 }
{
    match side {
        Side::White => i16::from(step.dy),
        Side::Black => -i16::from(step.dy),
    }
}

/// The square one step away, if the board has it.
pub(crate) fn next(game: Game, side: Side, step: &Step, from: Square) -> Option<Square>
    ensures { MatchOption result
        ((t : Place) → IsOnBoard game t → IsStep side step.now from t → ⊥)
        (λ t. IsOnBoard game t × IsStep side step.now from t) }
{
    let width = game.width();
    let file = shifted(from.file, i16::from(step.dx), width)?;
    let rank = shifted(from.rank, ranks_up(side, step), width)?;
    Some(Square { file, rank })
}

/// Whether the step leads from one square to the other, repeated if it is a rider's.
fn leads(position: &Position, side: Side, step: &Step, from: Square, to: Square) -> bool
    requires on_board { IsOnBoard position.now.game from }
    requires goes { 0 < unsigned_abs step.now.dx + unsigned_abs step.now.dy }
    ensures { IsTrue result ↔ Leads position.now side step.now from to }
{
    let Some(square) = next(position.game(), side, step, from) else {
        return false;
    };
    if square == to {
        return true;
    }
    if !step.rider || unit_at(position, square).is_some() {
        return false;
    }
    leads(position, side, step, square, to)
}

/// Whether a step of this mode may end on a square with this unit.
pub(crate) fn allows(mode: Mode, side: Side, target: Option<Unit>) -> bool
    ensures { IsTrue result ↔ Allows mode side target }
{
    match target {
        None => mode != Mode::Capture,
        Some(unit) => mode != Mode::Move && unit.side == side.other(),
    }
}

/// Whether this step of the unit reaches the other square.
fn reaches_by(
    position: &Position,
    unit: Unit,
    step: &Step,
    from: Square,
    to: Square,
    target: Option<Unit>,
) -> bool
    requires on_board { IsOnBoard position.now.game from }
    requires goes { 0 < unsigned_abs step.now.dx + unsigned_abs step.now.dy }
    ensures { IsTrue result ↔ ReachesBy position.now unit step.now from to target }
{
    allows(step.mode, unit.side, target) && leads(position, unit.side, step, from, to)
}

/// Whether the unit on one square reaches the other, if `target` is what stands there.
pub(crate) fn reaches(
    table: &PieceTable,
    position: &Position,
    unit: Unit,
    from: Square,
    to: Square,
    target: Option<Unit>,
) -> bool
    requires game { table.now ≡ position.now.game }
    requires on_board { IsOnBoard position.now.game from }
    ensures { IsTrue result ↔ Reaches position.now unit from to target }
{
    let Some(steps) = table.steps(unit.kind) else {
        return false;
    };
    for step in steps.as_slice() {
        if reaches_by(position, unit, step, from, to, target) {
            return true;
        }
    }
    false
}

/// Whether a unit of the side stands on one square and attacks the other.
fn attacks_from(
    table: &PieceTable,
    position: &Position,
    side: Side,
    from: Square,
    to: Square,
) -> bool
    requires game { table.now ≡ position.now.game }
    requires on_board { IsOnBoard position.now.game from }
    ensures { IsTrue result ↔ AttacksFrom position.now side from to }
{
    let enemy = Unit {
        side: side.other(),
        kind: Kind::King,
    };
    match unit_at(position, from) {
        Some(unit) => unit.side == side && reaches(table, position, unit, from, to, Some(enemy)),
        None => false,
    }
}

/// Whether some unit of the side attacks the square.
fn is_attacked(table: &PieceTable, position: &Position, square: Square, side: Side) -> bool
    requires { table.now ≡ position.now.game }
    ensures { IsTrue result ↔ IsAttacked position.now square side }
{
    let game = position.game();
    for number in 0..game.squares() {
        if attacks_from(
            table,
            position,
            side,
            Square::of_number(game, number),
            square,
        ) {
            return true;
        }
    }
    false
}

/// Whether the side's king stands on the square.
fn has_king(position: &Position, side: Side, square: Square) -> bool
    requires { IsOnBoard position.now.game square }
    ensures { IsTrue result ↔ (unit_at position.now square ≡ Some (record { side = side; kind = King })) }
{
    match unit_at(position, square) {
        Some(unit) => unit.kind == Kind::King && unit.side == side,
        None => false,
    }
}

/// Whether the side's king stands on the square and is attacked.
fn is_check_at(table: &PieceTable, position: &Position, side: Side, square: Square) -> bool
    requires game { table.now ≡ position.now.game }
    requires on_board { IsOnBoard position.now.game square }
    ensures { IsTrue result ↔ IsCheckAt position.now side square }
{
    has_king(position, side, square) && is_attacked(table, position, square, side.other())
}

/// Whether the side's king is attacked, by this table of the game.
pub(crate) fn in_check_by(table: &PieceTable, position: &Position, side: Side) -> bool
    requires { table.now ≡ position.now.game }
    ensures { IsTrue result ↔ IsInCheck position.now side }
{
    let game = position.game();
    for number in 0..game.squares() {
        if is_check_at(table, position, side, Square::of_number(game, number)) {
            return true;
        }
    }
    false
}

/// Whether the side's king is attacked.
pub fn in_check(position: &Position, side: Side) -> bool
    ensures { IsTrue result ↔ IsInCheck position.now side }
{
    in_check_by(&pieces(position.game()), position, side)
}

/// Whether the side that isn't to move is out of check.
pub fn sound(position: &Position) -> bool
    ensures { IsTrue result ↔ IsSound position.now }
{
    !in_check(position, position.mover().other())
}
