//! Positions of units that are placed anywhere.
use crate::dice::Dice;
use board::{Game, Kind, Position, Side, Unit};
use moves::sound;

/// Units that are to be placed, besides the kings.
pub(crate) type Army = [Option<Unit>; 18];

/// Puts a unit on a square that dice name, if nothing stands there and it may stand there.
fn put(dice: &mut Dice, game: Game, units: &mut [Option<Unit>; 36], unit: Unit) {
    let square = dice.below(game.squares());
    let rank = square / game.width();
    let outer = rank == 0 || rank == game.width() - 1;
    if units[square as usize].is_none() && !(outer && unit.kind == Kind::Pawn) {
        units[square as usize] = Some(unit);
    }
}

/// A position with the kings and these units, or none where they don't stand so.
pub(crate) fn placed(dice: &mut Dice, game: Game, army: &Army) -> Option<Position> {
    let mut units = [None; 36];
    for side in [Side::White, Side::Black] {
        let kind = Kind::King;
        put(dice, game, &mut units, Unit { side, kind });
    }
    for unit in army {
        if let Some(unit) = *unit {
            put(dice, game, &mut units, unit);
        }
    }
    let position = Position::of(game, Side::White, &units)?;
    if sound(&position) {
        Some(position)
    } else {
        None
    }
}

/// What a unit of a crowd is: one number of ten for each.
fn kind_of(game: Game, number: u8) -> Kind {
    match number {
        0 => Kind::Queen,
        1 | 2 => Kind::Rook,
        3 | 4 => Kind::Knight,
        5 if game == Game::Gardner => Kind::Bishop,
        _ => Kind::Pawn,
    }
}

/// Seven to nine units a side, of kinds that dice name.
pub(crate) fn crowd(dice: &mut Dice, game: Game) -> Army {
    let mut army = [None; 18];
    let count = usize::from(14 + dice.below(5));
    for number in 0..count {
        let side = if number % 2 == 0 {
            Side::White
        } else {
            Side::Black
        };
        let kind = kind_of(game, dice.below(10));
        army[number] = Some(Unit { side, kind });
    }
    army
}
