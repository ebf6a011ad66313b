//! Positions.
ghost use Rattle.std.specs.Prelude.{◌≡◌, ◌<◌, ℕ, ◌↔◌, IsTrue, IfSome, IfNone, None, slice_index_or, count_by};
ghost use Rattle.board.specs.Board.{PlainBoard, board_of, IsPosition, MayStandOn, IsArmy, is_king_of, is_of_side, unit_on};
ghost use Rattle.board.specs.Games.{squares_of};

use crate::{Game, Kind, Side, Unit};
use std::marker::Model;

/// Whether a unit may stand on a square.
fn may_stand_on(game: Game, number: u8, unit: Unit) -> bool
    requires { number < 36 }
    ensures { IsTrue result ↔ MayStandOn game number unit }
{
    if number >= game.squares() || !game.plays(unit.kind) {
        return false;
    }
    unit.kind != Kind::Pawn || (game.width() <= number && number + game.width() < game.squares())
}

/// Whether each unit stands where it may.
fn stand_well(game: Game, units: &[Option<Unit>; 36]) -> bool
    ensures { IsTrue result
        ↔ ((n : ℕ) → IfSome (slice_index_or units.now n None) (MayStandOn game n)) }
{
    for number in 0..36 {
        if let Some(unit) = units[number as usize] {
            if !may_stand_on(game, number, unit) {
                return false;
            }
        }
    }
    true
}

/// Whether the side has one king, and no more units than the game gives it.
fn is_army(game: Game, units: &[Option<Unit>; 36], side: Side) -> bool
    ensures { IsTrue result ↔ IsArmy game units.now side }
{
    let mut kings = 0;
    let mut count = 0;
    for place in units {
        if let Some(unit) = place {
            if unit.side == side {
                count += 1;
                kings += (unit.kind == Kind::King) as u8;
            }
        }
    }
    kings == 1 && count <= game.most_units()
}

/// A position that either game allows, but for whose king is in check.
#[derive(Clone, Copy)]
pub struct Position {
    game: Game,
    mover: Side,
    units: [Option<Unit>; 36],
}

impl Model for Position {
    ghost use Rattle.board.specs.Board.{PlainBoard, board_of, IsPosition};

    ghost Value = { PlainBoard };

    ghost view = { λ p. board_of p.game p.mover p.units };

    ghost invariant = { λ p. IsPosition (board_of p.game p.mover p.units) };

    ghost inverse = { λ b. record { game = b.game; mover = b.mover; units = b.units } };
}

impl Position {
    /// The position of these units by square number, if the game allows it.
    pub fn of(game: Game, mover: Side, units: &[Option<Unit>; 36]) -> Option<Position>
        ensures refused { IfNone result (IsPosition (board_of game mover units.now) → ⊥) }
        ensures made { IfSome result (λ p. p ≡ board_of game mover units.now) }
        ensures position { IfSome result IsPosition }
    {
        if !stand_well(game, units)
            || !is_army(game, units, Side::White)
            || !is_army(game, units, Side::Black)
        {
            return None;
        }
        Some(Position {
            game,
            mover,
            units: *units,
        })
    }

    /// The game that is played.
    pub fn game(&self) -> Game
        ensures value { result ≡ self.now.game }
        ensures position { IsPosition self.now }
    {
        self.game
    }

    /// The side to move.
    pub fn mover(&self) -> Side
        ensures { result ≡ self.now.mover }
    {
        self.mover
    }

    /// The unit on a square, by the square's number.
    pub fn unit(&self, square: u8) -> Option<Unit>
        requires { square < squares_of self.now.game }
        ensures { result ≡ unit_on self.now square }
    {
        self.units[square as usize]
    }

    /// The units of all squares by number, and none on the places that the board does not have.
    pub fn units(&self) -> [Option<Unit>; 36]
        ensures { result ≡ self.now.units }
    {
        self.units
    }
}
