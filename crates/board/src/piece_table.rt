//! The pieces of a game, each with the steps of its string.
ghost use Rattle.std.specs.Prelude.{◌≡◌, ◌↔◌, IsSome, IfSome};
ghost use Rattle.board.specs.Denotation.{terms_of, ListsSteps};
ghost use Rattle.board.specs.Games.{IsPlayed};
ghost use Rattle.board.specs.Notation.{IsReading, piece_text};

use crate::betza::parse_betza;
use crate::{Game, Kind, Moves};
use std::marker::Model;

/// The steps of each kind that a game plays with.
#[derive(Drop)]
pub struct PieceTable {
    game: Game,
    king: Moves,
    queen: Moves,
    rook: Moves,
    bishop: Moves,
    knight: Moves,
    pawn: Moves,
}

impl Model for PieceTable {
    ghost use Rattle.board.specs.declared.game.Game.{Game};

    ghost Value = { Game };

    ghost use Rattle.board.specs.Table.{IsTable};

    ghost view = { λ t. t.game };

    ghost invariant = { IsTable };
}

/// The string of a kind.
fn piece_text(kind: Kind) -> &'static [u8]
    ensures { result.now ≡ piece_text kind }
{
    match kind {
        Kind::King => b"K",
        Kind::Queen => b"Q",
        Kind::Rook => b"R",
        Kind::Bishop => b"B",
        Kind::Knight => b"N",
        Kind::Pawn => b"mfWcfF",
    }
}

/// The steps of a kind, by its string: each kind's has an accepted reading, so the `unwrap` is proved.
fn steps(kind: Kind) -> Moves
    ensures { ListsSteps (terms_of kind) result.items }
{
    parse_betza(piece_text(kind)).unwrap()
}

/// The pieces of a game.
pub fn pieces(game: Game) -> PieceTable
    ensures { result ≡ game }
{
    PieceTable {
        game,
        king: steps(Kind::King),
        queen: steps(Kind::Queen),
        rook: steps(Kind::Rook),
        bishop: steps(Kind::Bishop),
        knight: steps(Kind::Knight),
        pawn: steps(Kind::Pawn),
    }
}

impl PieceTable {
    /// The steps of a kind, if the game plays with it.
    pub fn steps(&self, kind: Kind) -> Option<&Moves>
        ensures played { IsSome result ↔ IsPlayed self.now kind }
        ensures reading { IsReading (piece_text kind) (terms_of kind) }
        ensures steps { IfSome result (λ steps. ListsSteps (terms_of kind) steps.now.items) }
    {
        if !self.game.plays(kind) {
            return None;
        }
        let steps = match kind {
            Kind::King => &self.king,
            Kind::Queen => &self.queen,
            Kind::Rook => &self.rook,
            Kind::Bishop => &self.bishop,
            Kind::Knight => &self.knight,
            Kind::Pawn => &self.pawn,
        };
        Some(steps)
    }
}
