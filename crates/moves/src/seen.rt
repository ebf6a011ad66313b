//! What a unit sees from a cell: where it would take.
ghost use Rattle.std.specs.Prelude.{◌<◌, ◌↔◌, ℕ};
ghost use Rattle.std.specs.Int.{bit_at};
ghost use Rattle.board.specs.declared.terms.Atom.TheVariants.{Wazir, Ferz};
ghost use Rattle.cells.specs.Mailbox.{place_in, IsCell};
ghost use Rattle.cells.specs.CellSets.{Has};
ghost use Rattle.moves.specs.Looking.{Aims};
ghost use Rattle.cells.specs.declared.tables.Way.{Way};
ghost use Rattle.cells.specs.Ways.{IsOnRay, Rides};
ghost use Rattle.moves.specs.Sets.{RidesBy};

use crate::packed::Board;
use board::{Kind, Side};
use cells::{
    Way, down_to_highest, king_leaps, knight_leaps, pawn_captures, ray, slanted_lines,
    straight_lines, up_to_lowest,
};

/// The cells to which a rider comes that way from the cell.
pub(crate) fn along(board: &Board, way: Way, cell: u8) -> u64
    requires { IsCell board.now.game cell }
    ensures { (j : ℕ) → Has result j ↔ Rides board.now way cell j }
{
    let line = ray(board.game(), way, cell);
    let stops = line & board.taken();
    match way {
        Way::North | Way::East | Way::NorthEast | Way::NorthWest => line & up_to_lowest(stops),
        Way::South | Way::West | Way::SouthEast | Way::SouthWest => line & down_to_highest(stops),
    }
}

/// The cells on the lines through this one.
pub(crate) fn lines(board: &Board, cell: u8) -> u64
    requires { IsCell board.now.game cell }
    ensures { (i : ℕ) → Has result i ↔ ((way : Way) × IsOnRay board.now.game way cell i) }
{
    let game = board.game();
    straight_lines(game, cell) | slanted_lines(game, cell)
}

/// The cells to which a rider comes from the cell along its rank and its file.
fn straight(board: &Board, cell: u8) -> u64
    requires { IsCell board.now.game cell }
    ensures { (j : ℕ) → Has result j ↔ RidesBy board.now Wazir cell j }
{
    along(board, Way::North, cell)
        | along(board, Way::South, cell)
        | along(board, Way::East, cell)
        | along(board, Way::West, cell)
}

/// The cells to which a rider comes from the cell along its diagonals.
fn slanted(board: &Board, cell: u8) -> u64
    requires { IsCell board.now.game cell }
    ensures { (j : ℕ) → Has result j ↔ RidesBy board.now Ferz cell j }
{
    along(board, Way::NorthEast, cell)
        | along(board, Way::SouthWest, cell)
        | along(board, Way::NorthWest, cell)
        | along(board, Way::SouthEast, cell)
}

/// The cells where a unit of the kind would take from this one.
#[inline(always)]
pub(crate) fn seen(board: &Board, side: Side, kind: Kind, cell: u8) -> u64
    requires { IsCell board.now.game cell }
    ensures { (j : ℕ) → Has result j
        ↔ (IsCell board.now.game j × Aims board.now (record { side = side; kind = kind }) (place_in cell) (place_in j)) }
{
    match kind {
        Kind::King => king_leaps(board.game(), cell),
        Kind::Queen => straight(board, cell) | slanted(board, cell),
        Kind::Rook => straight(board, cell),
        Kind::Bishop => slanted(board, cell),
        Kind::Knight => knight_leaps(board.game(), cell),
        Kind::Pawn => pawn_captures(board.game(), side, cell),
    }
}
