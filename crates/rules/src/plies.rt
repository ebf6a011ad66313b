//! Moves, what they do, and which are lawful.
ghost use Rattle.std.specs.Prelude.{◌≡◌, ◌↔◌, IsTrue, MatchOption, Some, IsSome, IfSome};
ghost use Rattle.board.specs.declared.game.Unit.{Unit as Man};
ghost use Rattle.rules.specs.Squares.{IsOnBoard, unit_at};
ghost use Rattle.rules.specs.Moves.{IsLastRank, Promotes, IsPromotion, IsSomeKing, IsPseudoLegal, IsMove, IsLawful, after};

use crate::Square;
use crate::reach::{in_check_by, reaches};
use crate::squares::unit_at;
use board::{Game, Kind, PieceTable, Position, Side, Unit, pieces};
use std::marker::Model;

/// A move: the two squares, and what a pawn becomes that comes to its last rank.
#[derive(Clone, Copy, PartialEq, Eq, Debug, Default)]
pub struct Move {
    pub from: Square,
    pub to: Square,
    pub promotion: Option<Kind>,
}

impl Model for Move {
    ghost use Rattle.std.specs.Prelude.{IfSome};
    ghost use Rattle.rules.specs.Squares.{Ply};
    ghost use Rattle.rules.specs.Moves.{IsPromoted};

    ghost Value = { Ply };

    ghost view = { λ m. record { from = m.from; to = m.to; promotion = m.promotion } };

    ghost invariant = { λ m. IfSome m.promotion IsPromoted };

    ghost inverse = { λ m. record { from = m.from; to = m.to; promotion = m.promotion } };
}

/// Whether this is the side's last rank.
fn is_last_rank(game: Game, side: Side, rank: u8) -> bool
    ensures { IsTrue result ↔ IsLastRank game side rank }
{
    match side {
        Side::White => rank == game.width() - 1,
        Side::Black => rank == 0,
    }
}

/// Whether the unit is a pawn that comes to its last rank.
pub fn promotes(game: Game, unit: Unit, to: Square) -> bool
    ensures { IsTrue result ↔ Promotes game unit to }
{
    unit.kind == Kind::Pawn && is_last_rank(game, unit.side, to.rank)
}

/// Whether a pawn of this game may become this.
fn is_promotion(game: Game, kind: Kind) -> bool
    ensures { IsTrue result ↔ IsPromotion game kind }
{
    match kind {
        Kind::Queen | Kind::Rook | Kind::Knight => true,
        Kind::Bishop => game == Game::Gardner,
        Kind::King | Kind::Pawn => false,
    }
}

/// Whether the move names a promotion where it must, and one of the game's.
pub fn is_promoted_well(game: Game, unit: Unit, m: Move) -> bool
    ensures { IsTrue result
        ↔ ((IsSome m.promotion ↔ Promotes game unit m.to) × IfSome m.promotion (IsPromotion game)) }
{
    match m.promotion {
        Some(kind) => promotes(game, unit, m.to) && is_promotion(game, kind),
        None => !promotes(game, unit, m.to),
    }
}

/// Whether a king stands there.
pub fn is_king(target: Option<Unit>) -> bool
    ensures { IsTrue result ↔ IsSomeKing target }
{
    match target {
        Some(unit) => unit.kind == Kind::King,
        None => false,
    }
}

/// Whether the unit on the move's from-square may make it, but for its own king's safety.
fn is_pseudo_legal(table: &PieceTable, position: &Position, m: Move, unit: Unit) -> bool
    requires game { table.now ≡ position.now.game }
    requires from_on_board { IsOnBoard position.now.game m.from }
    requires to_on_board { IsOnBoard position.now.game m.to }
    requires stands { unit_at position.now m.from ≡ Some unit }
    ensures { IsTrue result ↔ IsPseudoLegal position.now m unit }
{
    let target = unit_at(position, m.to);
    if unit.side != position.mover() || is_king(target) {
        return false;
    }
    is_promoted_well(position.game(), unit, m)
        && reaches(table, position, unit, m.from, m.to, target)
}

/// The unit that may make the move, but for its own king's safety.
fn pseudo_legal(table: &PieceTable, position: &Position, m: Move) -> Option<Unit>
    requires { table.now ≡ position.now.game }
    ensures { MatchOption result
        ((u : Man) → IsPseudoLegal position.now m u → ⊥)
        (λ u. IsPseudoLegal position.now m u) }
{
    let game = position.game();
    if !m.from.is_on_board(game) || !m.to.is_on_board(game) {
        return None;
    }
    let unit = unit_at(position, m.from)?;
    if is_pseudo_legal(table, position, m, unit) {
        Some(unit)
    } else {
        None
    }
}

/// The position after the unit's move.
fn moved(position: &Position, m: Move, unit: Unit) -> Position
    requires { IsPseudoLegal position.now m unit }
    ensures { result ≡ after position.now m unit }
{
    let game = position.game();
    let mut units = position.units();
    units[m.from.number(game) as usize] = None;
    units[m.to.number(game) as usize] = Some(Unit {
        side: unit.side,
        kind: m.promotion.unwrap_or(unit.kind),
    });
    Position::of(game, position.mover().other(), &units).unwrap()
}

/// Whether the move is lawful, by this table of the game.
pub(crate) fn is_lawful_by(table: &PieceTable, position: &Position, m: Move) -> bool
    requires { table.now ≡ position.now.game }
    ensures { IsTrue result ↔ IsLawful position.now m }
{
    match pseudo_legal(table, position, m) {
        Some(unit) => !in_check_by(table, &moved(position, m, unit), position.mover()),
        None => false,
    }
}

/// Whether the move is lawful.
pub fn is_lawful(position: &Position, m: Move) -> bool
    ensures { IsTrue result ↔ IsLawful position.now m }
{
    is_lawful_by(&pieces(position.game()), position, m)
}

/// The position after a lawful move.
pub fn apply(position: &Position, m: Move) -> Position
    requires { IsLawful position.now m }
    ensures { IsMove position.now m result }
{
    let Some(unit) = pseudo_legal(&pieces(position.game()), position, m) else {
        unreachable!()
    };
    moved(position, m, unit)
}
