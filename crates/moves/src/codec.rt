//! A position as three words, and back. Nothing else makes digits of squares, or squares of digits.
ghost use Rattle.std.specs.Prelude.{◌≡◌, ◌<◌, IfNone, IfSome};
ghost use Rattle.board.specs.Board.{PlainBoard, board_of, IsPosition};
ghost use Rattle.moves.specs.Words.{game_of_flags, mover_of_flags, IsFlags, unpacked, Spells, IsPacked};

use crate::words::{code_of, code_on, put, unit_of, with_digit};
use board::{Game, Position, Side, Unit};
use rules::Square;

/// The flags of a game and a side to move.
fn flags_of(game: Game, mover: Side) -> u8
    ensures flags { IsFlags result }
    ensures game { game_of_flags result ≡ game }
    ensures mover { mover_of_flags result ≡ mover }
{
    let side = match mover {
        Side::White => 0,
        Side::Black => 1,
    };
    match game {
        Game::LosAlamos => side,
        Game::Gardner => side + 4,
    }
}

/// A position's words: four bits a square, from the lowest on, two ranks a word; and in the first, above its squares, the side to
/// move and the game.
pub fn write_words(position: &Position) -> [u64; 3]
    ensures value { unpacked result ≡ position.now }
    ensures packed { IsPacked result }
{
    write_units(position.game(), position.mover(), &position.units())
}

/// The words of the position of these units, by square number.
pub(crate) fn write_units(game: Game, mover: Side, units: &[Option<Unit>; 36]) -> [u64; 3]
    requires { IsPosition (board_of game mover units.now) }
    ensures value { unpacked result ≡ board_of game mover units.now }
    ensures packed { IsPacked result }
{
    let flags = flags_of(game, mover);
    let mut words = [with_digit(0, 12, flags), 0, 0];
    for square in 0..game.squares() {
        if let Some(unit) = units[square as usize] {
            let at = Square::of_number(game, square);
            put(&mut words, game, at, code_of(unit));
        }
    }
    words
}

/// The position whose units stand in the words, if they are a position's. Bits that are no square's aren't read, and four bits that
/// are no unit's are an empty square: whoever must know that the words are the position's own writes them again.
pub fn read_words(game: Game, mover: Side, words: &[u64; 3]) -> Option<Position>
    ensures refused { IfNone result ((b : PlainBoard) → IsPosition b → b.game ≡ game → b.mover ≡ mover
        → Spells b words.now → ⊥) }
    ensures made { IfSome result (λ b. (b.game ≡ game) × (b.mover ≡ mover) × Spells b words.now) }
    ensures position { IfSome result IsPosition }
{
    let mut units = [None; 36];
    for number in 0..game.squares() {
        let code = code_on(words, game, Square::of_number(game, number));
        units[number as usize] = unit_of(code);
    }
    Position::of(game, mover, &units)
}
