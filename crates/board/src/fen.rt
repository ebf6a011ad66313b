//! Positions as text.
ghost use Rattle.std.specs.Prelude.{◌≡◌, ℕ, ◌+◌, ◌-◌, ◌<◌, ◌≤◌, ◌++◌, ◌∷◌, [], List, Option, None, Some, replicate, length, take, drop, MatchOption, IfOk, IfErr, IfSome, IsSomeAnd};
ghost use Rattle.arrayvec.specs.ArrayVec.{array_vec_len};
ghost use Rattle.board.specs.declared.game.Side.{Side};
ghost use Rattle.board.specs.declared.game.Unit.{Unit as Man};
ghost use Rattle.board.specs.Fen.{letter_of, side_letter, IsTextFrom, IsFenText};
ghost use Rattle.board.specs.Board.{PlainBoard, IsPosition};
ghost use Rattle.board.specs.FenFaults.{IsFenFault};

use crate::fault::fault_of;
use crate::{FenFault, Game, Kind, Position, Side, Unit, fen_text};
use arrayvec::ArrayVec;

/// The unit of a letter.
pub fn unit_of(letter: u8) -> Option<Unit>
    ensures { MatchOption result
        ((u : Man) → letter ≡ letter_of u.side u.kind → ⊥)
        (λ u. letter ≡ letter_of u.side u.kind) }
{
    let (side, upper) = if letter >= b'a' {
        (Side::Black, letter - 32)
    } else {
        (Side::White, letter)
    };
    let kind = match upper {
        b'K' => Kind::King,
        b'Q' => Kind::Queen,
        b'R' => Kind::Rook,
        b'B' => Kind::Bishop,
        b'N' => Kind::Knight,
        b'P' => Kind::Pawn,
        _ => return None,
    };
    Some(Unit { side, kind })
}

/// What a byte of a board says, and of how many squares: a letter names its unit once, and a digit is a run of empty squares.
fn places_of(c: u8) -> (Option<Unit>, u8)
    ensures { MatchOption result.0
        (((u : Man) → c ≡ letter_of u.side u.kind → ⊥) × (result.1 ≡ c - 48))
        (λ u. (c ≡ letter_of u.side u.kind) × (result.1 ≡ 1)) }
{
    match unit_of(c) {
        Some(unit) => (Some(unit), 1),
        None => (None, c.saturating_sub(b'0')),
    }
}

/// Puts a place so many times in front of what stands from `at` on.
fn insert_places(units: &mut ArrayVec<Option<Unit>, 36>, at: usize, place: Option<Unit>, times: u8)
    requires within { at ≤ array_vec_len units.old }
    requires room { array_vec_len units.old + times ≤ 36 }
    ensures { units.new.items ≡ take at units.old.items ++ (replicate times place ++ drop at units.old.items) }
{
    for _ in 0..times {
        units.insert(at, place);
    }
}

/// The units of a board's text by square number: each rank's stand in front of those of the ranks above it.
fn squares_of(board: &[u8]) -> Option<ArrayVec<Option<Unit>, 36>>
    ensures { (w n : ℕ) (side : Side) (units : List (Option Man)) → length units ≤ 36
        → IsTextFrom w side n (board.now ++ 32 ∷ side_letter side ∷ []) units
        → IsSomeAnd result (λ found. found.items ≡ units) }
{
    let mut units = ArrayVec::new();
    let mut file = 0;
    for c in board {
        if *c == b'/' {
            file = 0;
        } else {
            let (place, times) = places_of(*c);
            if units.len() + times as usize > 36 {
                return None;
            }
            insert_places(&mut units, file, place, times);
            file += times as usize;
        }
    }
    Some(units)
}

/// The position of the text, where it is one's. Of any other text it is some position or none.
fn likely_position(text: &[u8]) -> Option<Position>
    ensures { (b : PlainBoard) → IsPosition b → IsFenText text.now b → result ≡ Some b }
{
    let [board @ .., _, mover] = text else {
        return None;
    };
    let units = squares_of(board)?;
    let game = if units.len() == 36 {
        Game::LosAlamos
    } else {
        Game::Gardner
    };
    let mover = if *mover == b'w' {
        Side::White
    } else {
        Side::Black
    };
    let mut places = [None; 36];
    places[..units.len()].copy_from_slice(units.as_slice());
    Position::of(game, mover, &places)
}

/// The position of the text, if it is one's: a position has one text, so what is read is written and compared.
fn parse_fen(text: &[u8]) -> Option<Position>
    ensures read { (b : PlainBoard) → IsPosition b → IsFenText text.now b → result ≡ Some b }
    ensures text { IfSome result (IsFenText text.now) }
{
    let position = likely_position(text)?;
    if fen_text(&position).as_bytes() == text {
        Some(position)
    } else {
        None
    }
}

/// The position of the text, or the first reason why it is none's.
pub fn read_fen(text: &[u8]) -> Result<Position, FenFault>
    ensures read { (b : PlainBoard) → IsPosition b → IsFenText text.now b → result ≡ Ok b }
    ensures ok { IfOk result (λ p. IsFenText text.now p) }
    ensures fault { IfErr result (λ f. IsFenFault text.now f) }
{
    match parse_fen(text) {
        Some(position) => Ok(position),
        None => Err(fault_of(text)),
    }
}
