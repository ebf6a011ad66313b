//! Four bits of a word.
ghost use Rattle.std.specs.Prelude.{◌≡◌, ◌≢◌, ◌<◌, ℕ, Some, slice_index_or};
ghost use Rattle.std.specs.Int.RustNames.{bit_xor};
ghost use Rattle.rules.specs.Squares.{IsOnBoard, square_number};
ghost use Rattle.moves.specs.Words.{digit, word_of, place_of, code_on, man_of};

use board::{Game, Kind, Side, Unit};
use rules::Square;

/// The code at a place of the word.
pub(crate) fn digit(word: u64, place: u8) -> u8
    requires { place < 16 }
    ensures value { result ≡ digit word place }
    ensures small { result < 16 }
{
    ((word >> (4 * place)) % 16) as u8
}

/// The word with another code at the place.
pub(crate) fn with_digit(word: u64, place: u8, code: u8) -> u64
    requires place { place < 16 }
    requires code { code < 16 }
    ensures there { digit result place ≡ code }
    ensures elsewhere { (i : ℕ) → i ≢ place → digit result i ≡ digit word i }
{
    let change = digit(word, place) ^ code;
    word ^ (u64::from(change) << (4 * place))
}

/// The word of a square, and its place there.
fn place_of(game: Game, square: Square) -> (usize, u8)
    requires { IsOnBoard game square }
    ensures word { result.0 ≡ word_of game (square_number game square) }
    ensures place { result.1 ≡ place_of game (square_number game square) }
    ensures three { result.0 < 3 }
    ensures twelve { result.1 < 12 }
{
    let word = (square.rank / 2) as usize;
    let place = square.file + game.width() * (square.rank % 2);
    (word, place)
}

/// The code on a square.
pub(crate) fn code_on(words: &[u64; 3], game: Game, square: Square) -> u8
    requires { IsOnBoard game square }
    ensures value { result ≡ code_on game words.now (square_number game square) }
    ensures small { result < 16 }
{
    let (word, place) = place_of(game, square);
    digit(words[word], place)
}

/// Puts a code on a square.
pub(crate) fn put(words: &mut [u64; 3], game: Game, square: Square, code: u8)
    requires square { IsOnBoard game square }
    requires code { code < 16 }
    ensures there { code_on game words.new (square_number game square) ≡ code }
    ensures elsewhere { (k i : ℕ) → (k ≡ word_of game (square_number game square)
        → i ≡ place_of game (square_number game square) → ⊥)
        → digit (slice_index_or words.new k 0) i ≡ digit (slice_index_or words.old k 0) i }
{
    let (word, place) = place_of(game, square);
    words[word] = with_digit(words[word], place, code);
}

/// The word with the other side to move.
pub(crate) fn turned(word: u64) -> u64
    ensures flags { digit result 12 ≡ bit_xor (digit word 12) 1 }
    ensures elsewhere { (i : ℕ) → i ≢ 12 → digit result i ≡ digit word i }
{
    with_digit(word, 12, digit(word, 12) ^ 1)
}

static MEN: [Option<Unit>; 16] = [
    None,
    Some(Unit {
        side: Side::White,
        kind: Kind::King,
    }),
    Some(Unit {
        side: Side::White,
        kind: Kind::Queen,
    }),
    Some(Unit {
        side: Side::White,
        kind: Kind::Rook,
    }),
    Some(Unit {
        side: Side::White,
        kind: Kind::Bishop,
    }),
    Some(Unit {
        side: Side::White,
        kind: Kind::Knight,
    }),
    Some(Unit {
        side: Side::White,
        kind: Kind::Pawn,
    }),
    Some(Unit {
        side: Side::Black,
        kind: Kind::King,
    }),
    Some(Unit {
        side: Side::Black,
        kind: Kind::Queen,
    }),
    Some(Unit {
        side: Side::Black,
        kind: Kind::Rook,
    }),
    Some(Unit {
        side: Side::Black,
        kind: Kind::Bishop,
    }),
    Some(Unit {
        side: Side::Black,
        kind: Kind::Knight,
    }),
    Some(Unit {
        side: Side::Black,
        kind: Kind::Pawn,
    }),
    None,
    None,
    None,
];

/// The unit of a code, if it is a unit's.
pub(crate) fn unit_of(code: u8) -> Option<Unit>
    requires { code < 16 }
    ensures { result ≡ man_of code }
{
    MEN[code as usize]
}

/// The code of a unit.
pub(crate) fn code_of(unit: Unit) -> u8
    ensures value { man_of result ≡ Some unit }
    ensures code { result < 13 }
{
    let kind = match unit.kind {
        Kind::King => 1,
        Kind::Queen => 2,
        Kind::Rook => 3,
        Kind::Bishop => 4,
        Kind::Knight => 5,
        Kind::Pawn => 6,
    };
    match unit.side {
        Side::White => kind,
        Side::Black => kind + 6,
    }
}
