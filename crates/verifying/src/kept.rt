//! A claim as it is kept, in 32 bytes.
ghost use Rattle.std.specs.Prelude.{◌≡◌};
ghost use Rattle.moves.specs.Words.{IsPacked, game_of, mover_of_flags, flags_of, unpacked};

use board::{Game, Side};
use certificates::Claim;
use moves::{Board, read_words};
use std::marker::Model;

/// A claim, whose position is three words.
#[derive(Drop)]
pub(crate) struct Kept {
    words: [u64; 3],
    plies: u8,
}

impl Model for Kept {
    ghost use Rattle.certificates.specs.declared.claim.Claim.{Claim};
    ghost use Rattle.moves.specs.Words.{IsPacked, unpacked};

    ghost Value = { Claim };

    ghost view = { λ kept. record { position = unpacked kept.words; plies = kept.plies } };

    ghost invariant = { λ kept. IsPacked kept.words };
}

/// The game that the words tell.
fn game_of(words: &[u64; 3]) -> Game
    ensures { result ≡ game_of words.now }
{
    if (words[0] >> 48) % 16 < 4 {
        Game::LosAlamos
    } else {
        Game::Gardner
    }
}

/// The side to move that the words tell.
fn mover_of(words: &[u64; 3]) -> Side
    ensures { result ≡ mover_of_flags (flags_of words.now) }
{
    if (words[0] >> 48) % 16 % 2 == 0 {
        Side::White
    } else {
        Side::Black
    }
}

/// The board of the words.
fn board_of(words: &[u64; 3]) -> Board
    requires { IsPacked words.now }
    ensures { result ≡ unpacked words.now }
{
    let position = read_words(game_of(words), mover_of(words), words).unwrap();
    Board::of(&position)
}

impl Kept {
    /// The claim about this position.
    pub(crate) fn of(position: &Board, plies: u8) -> Kept
        ensures { result ≡ record { position = position.now; plies = plies } }
    {
        Kept {
            words: position.words(),
            plies,
        }
    }

    /// The claim.
    pub(crate) fn claim(&self) -> Claim
        ensures { result ≡ self.now }
    {
        Claim {
            position: board_of(&self.words),
            plies: self.plies,
        }
    }
}
