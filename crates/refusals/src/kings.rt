//! What is wrong with a position whose side to move could take the king.
use crate::sentence::Part::{On, Text};
use crate::sentence::{NO, Sentence};
use board::{Kind, Position, Side, Unit, read_fen};
use moves::{Square, in_check};

fn king_square(position: &Position, side: Side) -> Option<Square> {
    let game = position.game();
    let king = Unit {
        side,
        kind: Kind::King,
    };
    for number in 0..game.squares() {
        if position.unit(number) == Some(king) {
            return Some(Square::of_number(game, number));
        }
    }
    None
}

const TOUCHING: &str = "the kings are next to each other, on % and %: move one of them away";

const BOTH: &str =
    "both kings are in check: move the king of the side that is not to move, or what checks it";

const OTHER: &str = "% is in check, and % is to move: write % for the side, or move a unit";

/// Why a text is refused for a check: with the other side to move the position is taken, if that isn't in check too.
pub fn check_sentence(fen: &[u8]) -> Sentence<'_> {
    let mut mover = Side::White;
    // A text that is refused for a check is a position's.
    if let Ok(position) = read_fen(fen) {
        mover = position.mover();
        let white = king_square(&position, Side::White);
        let black = king_square(&position, Side::Black);
        if let (Some(white), Some(black)) = (white, black) {
            if white.file.abs_diff(black.file) <= 1 && white.rank.abs_diff(black.rank) <= 1 {
                return Sentence(TOUCHING, (On(white), On(black), NO, NO));
            }
        }
        if in_check(&position, mover) {
            return Sentence(BOTH, (NO, NO, NO, NO));
        }
    }
    let (mover, other, side) = match mover {
        Side::White => ("White", "Black", "b"),
        Side::Black => ("Black", "White", "w"),
    };
    Sentence(OTHER, (Text(other), Text(mover), Text(side), NO))
}
