//! Why a text is no position's.
ghost use Rattle.std.specs.Prelude.{◌≡◌, ◌≢◌, ◌+◌, ◌-◌, ◌*◌, ℕ, ◌<◌, ◌≤◌, ◌==◌, ◌↔◌, ◌∷◌, [], Any, All, Contains, IsTrue, MatchBool, MatchOption, IfSome, IfNone, count_by, length, map, replicate, slice_index};
ghost use Rattle.board.specs.Board.{PlainBoard, IsPosition};
ghost use Rattle.board.specs.Fen.{IsFenText};
ghost use Rattle.board.specs.Games.{most_units};
ghost use Rattle.board.specs.declared.game.Game.{Game};
ghost use Rattle.board.specs.declared.game.Side.{Side};
ghost use Rattle.board.specs.Fen.{side_letter};
ghost use Rattle.board.specs.FenFaults.{FenFaultHolds, HasAdjacentRuns, IsBoardByte, IsFenFault, IsShape, board_part, fen_fault_number, is_case_of, is_digit, row_width, rows, side_part};
ghost use Rattle.board.specs.Passed.{Passes};

use crate::fen::unit_of;
use crate::{Game, Side};
use thiserror::Error;

/// Why a text is refused: the first of these that holds.
#[derive(Clone, Copy, PartialEq, Eq, Debug, Error)]
pub enum FenFault {
    #[error("write the board, exactly one space, and then w or b")]
    Fields,
    #[error("write six rows of six squares or five rows of five, divided by /")]
    Shape,
    #[error("use no letters in a row but those of the game: K Q R N P, in Gardner B too, in upper or lower case")]
    Letter,
    #[error("write each run of empty squares as one digit above 0")]
    Run,
    #[error("write nothing but w or b after the space")]
    Side,
    #[error("give each side exactly one king")]
    Kings,
    #[error("give a side no more than 12 units in Los Alamos, or 10 in Gardner")]
    Units,
    #[error("put no pawn on the first or the last rank")]
    PawnRank,
    #[error("let the side that is not to move stand out of check")]
    OtherInCheck,
}

/// The faults before a pawn on an outer rank, in the order in which they are asked for.
const TESTED: [FenFault; 7] = [
    FenFault::Fields,
    FenFault::Shape,
    FenFault::Letter,
    FenFault::Run,
    FenFault::Side,
    FenFault::Kings,
    FenFault::Units,
];

/// How often the byte occurs.
fn count_of(text: &[u8], byte: u8) -> usize
    ensures { result ≡ count_by (λ c. c == byte) text.now }
{
    let mut count = 0;
    for c in text {
        if *c == byte {
            count += 1;
        }
    }
    count
}

/// Whether the letter is one of this side's, upper case for White.
fn is_case_of(side: Side, c: u8) -> bool
    ensures { result ≡ is_case_of side c }
{
    match side {
        Side::White => b'A' <= c && c <= b'Z',
        Side::Black => b'a' <= c && c <= b'z',
    }
}

/// How many letters of this side's case there are.
fn count_case(board: &[u8], side: Side) -> usize
    ensures { result ≡ count_by (is_case_of side) board.now }
{
    let mut count = 0;
    for c in board {
        if is_case_of(side, *c) {
            count += 1;
        }
    }
    count
}

/// What stands before the first space, and what behind it.
fn parts(text: &[u8]) -> (&[u8], &[u8])
    ensures board { result.0.now ≡ board_part text.now }
    ensures side { result.1.now ≡ side_part text.now }
{
    for i in 0..text.len() {
        if text[i] == b' ' {
            return (&text[..i], &text[i + 1..]);
        }
    }
    (text, &[])
}

/// Whether this is a digit.
fn is_digit(c: u8) -> bool
    ensures { result ≡ is_digit c }
{
    b'0' <= c && c <= b'9'
}

/// Whether the row has this many squares.
fn is_wide(row: &[u8], width: u8) -> bool
    requires { width < 10 }
    ensures { IsTrue result ↔ (row_width row.now ≡ width) }
{
    let mut squares = 0;
    for c in row {
        squares += if is_digit(*c) { *c - b'0' } else { 1 };
        if squares > width {
            return false;
        }
    }
    squares == width
}

/// Whether the board has as many rows of this width as the width says.
fn has_rows(board: &[u8], width: u8) -> bool
    requires { width < 10 }
    ensures { IsTrue result ↔ (map row_width (rows board.now) ≡ replicate width width) }
{
    let mut count = 0;
    for row in board.split(|c| *c == b'/') {
        if count == width || !is_wide(row, width) {
            return false;
        }
        count += 1;
    }
    count == width
}

/// The game whose board has this shape.
fn game_of(board: &[u8]) -> Option<Game>
    ensures { MatchOption result ((g : Game) → IsShape g board.now → ⊥) (λ g. IsShape g board.now) }
{
    if has_rows(board, 6) {
        return Some(Game::LosAlamos);
    }
    if has_rows(board, 5) {
        return Some(Game::Gardner);
    }
    None
}

/// Whether a board of this game may have the byte.
fn is_board_byte(game: Game, c: u8) -> bool
    ensures { MatchBool result (IsBoardByte game c) (IsBoardByte game c → ⊥) }
{
    if c == b'/' || is_digit(c) {
        return true;
    }
    match unit_of(c) {
        Some(unit) => game.plays(unit.kind),
        None => false,
    }
}

/// Whether the board has a game's shape and some byte that no board of this game has.
fn has_foreign(board: &[u8]) -> bool
    ensures { MatchBool result
        ((g : Game) × IsShape g board.now × Any (λ c. IsBoardByte g c → ⊥) board.now)
        ((g : Game) → IsShape g board.now → All (IsBoardByte g) board.now) }
{
    let Some(game) = game_of(board) else {
        return false;
    };
    for c in board {
        if !is_board_byte(game, *c) {
            return true;
        }
    }
    false
}

/// Whether two digits stand next to each other.
fn has_adjacent_runs(board: &[u8]) -> bool
    ensures { IsTrue result ↔ HasAdjacentRuns board.now }
{
    for i in 1..board.len() {
        if is_digit(board[i - 1]) && is_digit(board[i]) {
            return true;
        }
    }
    false
}

/// Whether the board has a game's shape and a side has too many units.
fn has_many_units(board: &[u8]) -> bool
    ensures { IsTrue result
        ↔ ((g : Game) × IsShape g board.now × ((side : Side) × (most_units g < count_by (is_case_of side) board.now))) }
{
    let Some(game) = game_of(board) else {
        return false;
    };
    let most = game.most_units() as usize;
    count_case(board, Side::White) > most || count_case(board, Side::Black) > most
}

/// Whether the text has this fault, one of those that come before a pawn on an outer rank.
fn has_fault(text: &[u8], fault: FenFault) -> bool
    requires { fen_fault_number fault < 8 }
    ensures { MatchBool result (FenFaultHolds fault text.now) (Passes fault text.now) }
{
    let (board, side) = parts(text);
    match fault {
        FenFault::Fields => count_of(text, b' ') != 1,
        FenFault::Shape => game_of(board).is_none(),
        FenFault::Letter => has_foreign(board),
        FenFault::Run => board.contains(&b'0') || has_adjacent_runs(board),
        FenFault::Side => side != b"w".as_slice() && side != b"b".as_slice(),
        FenFault::Kings => count_of(board, b'K') != 1 || count_of(board, b'k') != 1,
        FenFault::Units => has_many_units(board),
        FenFault::PawnRank | FenFault::OtherInCheck => false,
    }
}

/// The fault of a text that is no position's.
pub fn fault_of(text: &[u8]) -> FenFault
    requires { (b : PlainBoard) → IsPosition b → IsFenText text.now b → ⊥ }
    ensures { IsFenFault text.now result }
{
    for fault in &TESTED {
        if has_fault(text, *fault) {
            return *fault;
        }
    }
    FenFault::PawnRank
}
