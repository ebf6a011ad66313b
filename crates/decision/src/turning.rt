//! Boards that are turned about, on which the same is forced.
ghost use Rattle.std.specs.Prelude.{◌≡◌, ◌<◌, ◌↔◌, IsTrue, Option, MatchOption};
ghost use Rattle.board.specs.Board.{board_of};
ghost use Rattle.rules.specs.Squares.{IsOnBoard};
ghost use Rattle.laws.specs.Turnings.{mirrored, turned_place, IsTurned, MayTurn};
ghost use Rattle.decision.specs.Turned.{turn_of, IsTurnedWell};

use board::{Game, Side, Unit};
use moves::{Board, Square};

/// A way to turn a board about: left and right are exchanged, then top and bottom, and then files and ranks.
#[derive(Clone, Copy)]
pub struct Turning {
    pub left_right: bool,
    pub top_bottom: bool,
    pub diagonal: bool,
}

/// A file or a rank, or if it is mirrored, the one as far from the other edge.
fn mirrored(is_mirrored: bool, width: u8, n: u8) -> u8
    requires { n < width }
    ensures { result ≡ mirrored is_mirrored width n }
{
    if is_mirrored { width - 1 - n } else { n }
}

impl Turning {
    /// Whether each square stays.
    pub(crate) fn is_none(self) -> bool {
        !self.left_right && !self.top_bottom && !self.diagonal
    }

    /// Where a square comes to lie.
    fn place(self, game: Game, square: Square) -> Square
        requires { IsOnBoard game square }
        ensures { result ≡ turned_place game (turn_of self) square }
    {
        let width = game.width();
        let file = mirrored(self.left_right, width, square.file);
        let rank = mirrored(self.top_bottom, width, square.rank);
        if self.diagonal {
            Square {
                file: rank,
                rank: file,
            }
        } else {
            Square { file, rank }
        }
    }
}

/// The units of the board, each where its square comes to lie.
fn turned_units(board: &Board, turning: Turning) -> [Option<Unit>; 36]
    ensures { IsTurned (turn_of turning) board.now (board_of board.now.game board.now.mover result) }
{
    let game = board.game();
    let mut units = [None; 36];
    for number in 0..game.squares() {
        let square = Square::of_number(game, number);
        let place = turning.place(game, square);
        units[place.number(game) as usize] = board.unit_at(square);
    }
    units
}

/// Whether the board may be turned so: pawns, if it has any, go ahead as before.
fn may_turn(board: &Board, turning: Turning) -> bool
    ensures { IsTrue result ↔ MayTurn (turn_of turning) board.now }
{
    if turning.top_bottom || turning.diagonal {
        return !board.has_pawn();
    }
    true
}

/// The board turned about, or `None` where its pawns would go another way.
pub fn turned(board: &Board, turning: Turning) -> Option<Board>
    ensures { MatchOption result (MayTurn (turn_of turning) board.now → ⊥) (IsTurnedWell turning board.now) }
{
    if !may_turn(board, turning) {
        return None;
    }
    let units = turned_units(board, turning);
    Some(Board::of_units(board.game(), board.mover(), &units))
}

/// Whether a file or a rank of the attacker's king, and where that is in the middle, of the defender's, is nearer to the far edge.
fn is_far(own: u8, other: u8, width: u8) -> bool
    requires own { own < 6 }
    requires other { other < 6 }
{
    2 * own + 1 > width || 2 * own + 1 == width && 2 * other + 1 > width
}

/// The turning by which the attacker's king, and then the defender's, come to stand on the least squares. Most positions of a search
/// stand so already.
pub(crate) fn least(board: &Board, attacker: Side) -> Turning {
    let width = board.game().width();
    let own = board.king(attacker);
    let other = board.king(attacker.other());
    let left_right = is_far(own.file, other.file, width);
    if board.has_pawn() {
        return Turning {
            left_right,
            top_bottom: false,
            diagonal: false,
        };
    }
    let top_bottom = is_far(own.rank, other.rank, width);
    let own_file = mirrored(left_right, width, own.file);
    let own_rank = mirrored(top_bottom, width, own.rank);
    let other_file = mirrored(left_right, width, other.file);
    let other_rank = mirrored(top_bottom, width, other.rank);
    let diagonal = own_file < own_rank || own_file == own_rank && other_file < other_rank;
    Turning {
        left_right,
        top_bottom,
        diagonal,
    }
}
