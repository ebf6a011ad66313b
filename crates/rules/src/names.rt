//! The names of squares and moves: how they are written, and how they are read.
ghost use Rattle.std.specs.Prelude.{◌≡◌, ◌≢◌, ◌+◌, ◌<◌, ◌∷◌, [], ℕ, IfSome, MatchOption, Option, Some};
ghost use Rattle.board.specs.declared.game.Game.TheVariants.{LosAlamos};
ghost use Rattle.board.specs.declared.game.Kind.{Kind as PlainKind};
ghost use Rattle.rules.specs.Squares.{IsOnBoard, Place, Ply};
ghost use Rattle.rules.specs.Moves.{IsPly, IsPromoted};
ghost use Rattle.rules.specs.MoveText.{move_text, promotion_text, square_text};

use crate::{Move, Square};
use board::Kind;
use std::fmt;

/// The file's letter and the rank's digit, as `a1`.
impl fmt::Display for Square {
    ghost use Rattle.std.specs.Prelude.{Some};
    ghost use Rattle.rules.specs.MoveText.{square_text};

    ghost output = { λ square. Some (square_text square) };

    fn fmt<W: fmt::Write>(&self, f: &mut fmt::Formatter<W>) -> fmt::Result {
        let file = (b'a' + self.file) as char;
        let rank = (b'1' + self.rank) as char;
        write!(f, "{file}{rank}")
    }
}

/// From-square, to-square and the letter of a promotion, as `c4c5q`.
impl fmt::Display for Move {
    ghost use Rattle.std.specs.Prelude.{Some};
    ghost use Rattle.rules.specs.MoveText.{move_text};

    ghost output = { λ m. Some (move_text m) };

    fn fmt<W: fmt::Write>(&self, f: &mut fmt::Formatter<W>) -> fmt::Result {
        let from = self.from;
        let to = self.to;
        let promotion = match self.promotion {
            Some(Kind::Queen) => "q",
            Some(Kind::Rook) => "r",
            Some(Kind::Bishop) => "b",
            Some(Kind::Knight) => "n",
            Some(Kind::King | Kind::Pawn) | None => "",
        };
        write!(f, "{from}{to}{promotion}")
    }
}

/// The file or the rank that the byte names, where `first` names the first one.
fn read_coordinate(byte: u8, first: u8) -> Option<u8>
    requires { first < 128 }
    ensures { MatchOption result ((number : ℕ) → number < 6 → byte ≢ first + number)
        (λ number. (number < 6) × (byte ≡ first + number)) }
{
    if byte >= first && byte < first + 6 {
        return Some(byte - first);
    }
    None
}

/// The square of the larger board that the two bytes name.
fn read_square(file: u8, rank: u8) -> Option<Square>
    ensures { MatchOption result
        ((square : Place) → IsOnBoard LosAlamos square → square_text square ≢ file ∷ rank ∷ [])
        (λ square. IsOnBoard LosAlamos square × (square_text square ≡ file ∷ rank ∷ [])) }
{
    let file = read_coordinate(file, b'a')?;
    let rank = read_coordinate(rank, b'1')?;
    Some(Square { file, rank })
}

/// What a pawn becomes by what stands behind the squares: nothing, or one letter.
fn read_promotion(letter: &[u8]) -> Option<Option<Kind>>
    ensures { MatchOption result
        ((promotion : Option PlainKind) → IfSome promotion IsPromoted → promotion_text promotion ≢ letter.now)
        (λ promotion. IfSome promotion IsPromoted × (promotion_text promotion ≡ letter.now)) }
{
    match letter {
        [] => Some(None),
        [b'q'] => Some(Some(Kind::Queen)),
        [b'r'] => Some(Some(Kind::Rook)),
        [b'b'] => Some(Some(Kind::Bishop)),
        [b'n'] => Some(Some(Kind::Knight)),
        _ => None,
    }
}

/// The move of this name, on the larger board.
pub fn read_move(name: &[u8]) -> Option<Move>
    ensures read { (m : Ply) → IsPly m → move_text m ≡ name.now → result ≡ Some m }
    ensures some { IfSome result (λ m. IsPly m × (move_text m ≡ name.now)) }
{
    let [from_file, from_rank, to_file, to_rank, letter @ ..] = name else {
        return None;
    };
    let from = read_square(*from_file, *from_rank)?;
    let to = read_square(*to_file, *to_rank)?;
    let promotion = read_promotion(letter)?;
    Some(Move {
        from,
        to,
        promotion,
    })
}
