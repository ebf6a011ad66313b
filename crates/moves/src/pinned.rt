//! The units that alone keep an enemy rider from their king.
ghost use Rattle.std.specs.Prelude.{◌≡◌, ℕ, None, All};
ghost use Rattle.rules.specs.Squares.{unit_at};
ghost use Rattle.cells.specs.Mailbox.{place_in, IsCell};
ghost use Rattle.board.specs.Board.{IsPosition};
ghost use Rattle.moves.specs.Pinned.{IsPinned, HoldsPins};
ghost use Rattle.moves.specs.Guard.{Checkers};
ghost use Rattle.cells.specs.CellSets.{Has};
ghost use Rattle.cells.specs.Ways.{Rides};

use crate::packed::Board;
use crate::seen::{along, lines};
use crate::sets::Class;
use board::Side;
use cells::{Way, lowest, ray, slanted_lines, straight_lines, without};

/// The ways along ranks and files.
static STRAIGHT_WAYS: [Way; 4] = [Way::North, Way::South, Way::East, Way::West];

/// The ways along diagonals.
static SLANTED_WAYS: [Way; 4] = [
    Way::NorthEast,
    Way::SouthWest,
    Way::NorthWest,
    Way::SouthEast,
];

/// The cell of the first unit that way from the king, if one of the riders stands next behind it.
fn pinned_along(board: &Board, way: Way, cell: u8, riders: u64) -> u64
    requires { IsCell board.now.game cell }
    ensures { (i r : ℕ) → (unit_at board.now (place_in i) ≡ None → ⊥) → Has riders r
        → Rides board.now way cell i → Rides board.now way i r → Has result i }
{
    if ray(board.game(), way, cell) & riders == 0 {
        return 0;
    }
    let first = along(board, way, cell) & board.taken();
    if first == 0 || along(board, way, lowest(first)) & riders == 0 {
        return 0;
    }
    first
}

/// The cells to which a rider may come once the king that it checks has gone from its cell: those on its lines. Where two riders
/// check, all cells.
pub(crate) fn shadow(board: &Board, king: u8, checkers: u64) -> u64
    requires position { IsPosition board.now }
    requires cell { IsCell board.now.game king }
    requires checkers { Checkers board.now king checkers }
    ensures { (i : ℕ) → IsCell board.now.game i → IsPinned board.now board.now.mover (place_in i) (place_in king)
        → Has result i }
{
    let riders = checkers & board.riders();
    if riders == 0 {
        return 0;
    }
    let cell = lowest(riders);
    if without(riders, cell) != 0 {
        return u64::MAX;
    }
    lines(board, cell)
}

/// The cells of the units next to this cell along the ways, where one of the riders stands next behind.
// Inside `pinned`, so that no turn of the loop asks which way.
#[inline(always)]
fn pinned_on(board: &Board, ways: &[Way; 4], cell: u8, riders: u64) -> u64
    requires { IsCell board.now.game cell }
    ensures { All (HoldsPins board.now riders cell result) ways.now }
{
    if riders == 0 {
        return 0;
    }
    let mut set = 0;
    for way in ways {
        set |= pinned_along(board, *way, cell, riders);
    }
    set
}

/// The cells of the units that are pinned to the side's king, which stands in the cell; of enemies too, which are no matter.
pub(crate) fn pinned(board: &Board, side: Side, cell: u8) -> u64
    requires { IsCell board.now.game cell }
    ensures { (i : ℕ) → IsCell board.now.game i → IsPinned board.now side (place_in cell) (place_in i) → Has result i }
{
    let foes = board.foes_of(side);
    let game = board.game();
    let straight = foes & board.set(Class::Straight) & straight_lines(game, cell);
    let slanted = foes & board.set(Class::Slanted) & slanted_lines(game, cell);
    pinned_on(board, &STRAIGHT_WAYS, cell, straight)
        | pinned_on(board, &SLANTED_WAYS, cell, slanted)
}
