//! What is asked: a position, a goal and a limit.
use crate::dice::Dice;
use crate::placing::{Army, crowd, placed};
use crate::playing::played;
use board::{Game, Kind as Piece, Position, Side, Unit};
use moves::Goal;

/// Which questions are drawn.
#[derive(Clone, Copy, PartialEq, Eq)]
pub(crate) enum Kind {
    /// Positions of games: the mate.
    Games,
    /// Crowded boards: the mate.
    Boards,
    /// A few units: the mate, or for some the mate or stalemate.
    Endings,
    /// Crowded boards: all keys.
    Keys,
    /// A few units, White's the stronger: the tree of the mate, its text, and the check of what is read from it.
    Trees,
}

impl Kind {
    /// The kind of a word.
    pub(crate) fn of(word: &str) -> Option<Kind> {
        match word {
            "games" => Some(Kind::Games),
            "boards" => Some(Kind::Boards),
            "endings" => Some(Kind::Endings),
            "keys" => Some(Kind::Keys),
            "trees" => Some(Kind::Trees),
            _ => None,
        }
    }
}

/// A position whose side to move is asked for the goal within so many plies.
#[derive(Drop)]
pub(crate) struct Question {
    pub(crate) position: Position,
    pub(crate) goal: Goal,
    pub(crate) limit: u8,
    pub(crate) kind: Kind,
}

/// An army of three kinds: White's, and Black's after so many.
fn of_three(kinds: [Piece; 3], white: usize) -> Army {
    let mut army = [None; 18];
    for number in 0..3 {
        let side = if number < white {
            Side::White
        } else {
            Side::Black
        };
        let kind = kinds[number];
        army[number] = Some(Unit { side, kind });
    }
    army
}

/// The units of an ending.
fn few(game: Game, number: u8) -> Army {
    match (game, number) {
        (_, 0) => of_three([Piece::Knight, Piece::Knight, Piece::Pawn], 2),
        (_, 1) => of_three([Piece::Pawn, Piece::Pawn, Piece::Pawn], 2),
        (_, 2) => of_three([Piece::Rook, Piece::Pawn, Piece::Rook], 2),
        (_, 3) => of_three([Piece::Queen, Piece::Rook, Piece::Pawn], 1),
        (Game::LosAlamos, _) => of_three([Piece::Rook, Piece::Knight, Piece::Pawn], 1),
        (Game::Gardner, _) => of_three([Piece::Bishop, Piece::Knight, Piece::Pawn], 2),
    }
}

/// The units of a mate whose tree is wanted.
fn strong(number: u8) -> Army {
    match number {
        0 => of_three([Piece::Rook, Piece::Pawn, Piece::Pawn], 2),
        1 => of_three([Piece::Queen, Piece::Knight, Piece::Pawn], 1),
        2 => of_three([Piece::Rook, Piece::Knight, Piece::Pawn], 2),
        _ => of_three([Piece::Queen, Piece::Pawn, Piece::Pawn], 1),
    }
}

/// The units that stand on a board of the kind.
fn army(dice: &mut Dice, game: Game, kind: Kind) -> Army {
    match kind {
        Kind::Endings => few(game, dice.below(5)),
        Kind::Trees => strong(dice.below(4)),
        _ => crowd(dice, game),
    }
}

/// A position of the kind, or none where the dice fell badly.
fn position_of(dice: &mut Dice, game: Game, kind: Kind) -> Option<Position> {
    if kind == Kind::Games {
        let plies = 20 + dice.below(30);
        return played(dice, game, plies);
    }
    let army = army(dice, game, kind);
    placed(dice, game, &army)
}

/// A question of the kind, or none where the dice fell badly.
pub(crate) fn drawn(dice: &mut Dice, kind: Kind, limit: u8) -> Option<Question> {
    let game = if dice.below(2) == 0 {
        Game::LosAlamos
    } else {
        Game::Gardner
    };
    let stale = kind == Kind::Endings && dice.below(3) == 0;
    let position = position_of(dice, game, kind)?;
    Some(Question {
        position,
        goal: if stale { Goal::MateOrStale } else { Goal::Mate },
        limit,
        kind,
    })
}
