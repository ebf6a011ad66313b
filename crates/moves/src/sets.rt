//! The units of a board as sets of cells, one bit a cell.
ghost use Rattle.std.specs.Prelude.{◌≡◌, ◌<◌, ◌↔◌, ℕ, IsTrue, Some, None};
ghost use Rattle.board.specs.Board.{PlainBoard, IsPosition, board_of, unit_on};
ghost use Rattle.rules.specs.Squares.{unit_at};
ghost use Rattle.rules.specs.Moves.{IsPseudoLegal, placed, after};
ghost use Rattle.cells.specs.Mailbox.{cell_of, place_in, IsCell};
ghost use Rattle.cells.specs.CellSets.{Has};
ghost use Rattle.moves.specs.Looking.{class_of};
ghost use Rattle.moves.specs.Sets.{IsOf, set_of, Shows, HasMoved, AreMoved, HasAdded, AreAdded, HasNone};

use board::{Game, Kind, Side, Unit};
use cells::{cell_of, with_cell};
use rules::Square;

/// What the units of a set have in common. A queen goes both straight and slanted.
#[derive(Clone, Copy)]
pub(crate) enum Class {
    White,
    Black,
    Crowned,
    Straight,
    Slanted,
    Horsed,
    Foot,
}

/// The cells of the units of each class.
#[derive(Clone, Copy)]
pub(crate) struct Sets {
    pub(crate) white: u64,
    pub(crate) black: u64,
    pub(crate) kings: u64,
    pub(crate) straight: u64,
    pub(crate) slanted: u64,
    pub(crate) knights: u64,
    pub(crate) pawns: u64,
}

/// The class of the units that go as the kind does: a queen goes as a rook and as a bishop.
#[inline(always)]
pub(crate) fn class_of(kind: Kind) -> Class
    ensures { result ≡ class_of kind }
{
    match kind {
        Kind::King => Class::Crowned,
        Kind::Queen | Kind::Rook => Class::Straight,
        Kind::Bishop => Class::Slanted,
        Kind::Knight => Class::Horsed,
        Kind::Pawn => Class::Foot,
    }
}

/// Whether the unit is of the class.
fn is_of(class: Class, unit: Unit) -> bool
    ensures { IsTrue result ↔ IsOf class unit }
{
    match class {
        Class::White => unit.side == Side::White,
        Class::Black => unit.side == Side::Black,
        Class::Crowned => unit.kind == Kind::King,
        Class::Straight => unit.kind == Kind::Queen || unit.kind == Kind::Rook,
        Class::Slanted => unit.kind == Kind::Queen || unit.kind == Kind::Bishop,
        Class::Horsed => unit.kind == Kind::Knight,
        Class::Foot => unit.kind == Kind::Pawn,
    }
}

/// The cells of the class once the unit stands in the cell too.
fn added_cells(set: u64, class: Class, cell: u8, unit: Unit) -> u64
    requires { cell < 64 }
    ensures { (i : ℕ) → Has result i ↔ HasAdded set class cell unit i }
{
    with_cell(set, cell, is_of(class, unit))
}

/// The cells of the class after a unit has moved from one cell to another, where it is `placed`.
fn moved_cells(set: u64, class: Class, from: u8, to: u8, placed: Unit) -> u64
    requires from { from < 63 }
    requires to { to < 63 }
    ensures { (i : ℕ) → Has result i ↔ HasMoved set class from to placed i }
{
    let rest = set & !(1 << from) & !(1 << to);
    with_cell(rest, to, is_of(class, placed))
}

impl Sets {
    /// The sets of these units, by square number.
    pub(crate) fn of_units(game: Game, mover: Side, units: &[Option<Unit>; 36]) -> Sets
        ensures { Shows (board_of game mover units.now) result }
    {
        let _ = mover;
        let mut sets = Sets::none();
        for number in 0..game.squares() {
            if let Some(unit) = units[number as usize] {
                let cell = cell_of(Square::of_number(game, number));
                sets = sets.with(cell, unit);
            }
        }
        sets
    }

    /// The set of a class.
    pub(crate) fn of_class(&self, class: Class) -> u64
        ensures { result ≡ set_of self.now class }
    {
        match class {
            Class::White => self.white,
            Class::Black => self.black,
            Class::Crowned => self.kings,
            Class::Straight => self.straight,
            Class::Slanted => self.slanted,
            Class::Horsed => self.knights,
            Class::Foot => self.pawns,
        }
    }

    /// The sets of no units.
    fn none() -> Sets
        ensures { HasNone result }
    {
        Sets {
            white: 0,
            black: 0,
            kings: 0,
            straight: 0,
            slanted: 0,
            knights: 0,
            pawns: 0,
        }
    }

    /// The sets once the unit stands in the cell too.
    fn with(&self, cell: u8, unit: Unit) -> Sets
        requires { cell < 64 }
        ensures { AreAdded self.now result cell unit }
    {
        Sets {
            white: added_cells(self.white, Class::White, cell, unit),
            black: added_cells(self.black, Class::Black, cell, unit),
            kings: added_cells(self.kings, Class::Crowned, cell, unit),
            straight: added_cells(self.straight, Class::Straight, cell, unit),
            slanted: added_cells(self.slanted, Class::Slanted, cell, unit),
            knights: added_cells(self.knights, Class::Horsed, cell, unit),
            pawns: added_cells(self.pawns, Class::Foot, cell, unit),
        }
    }

    /// The sets after a unit has moved from one cell to another, where it is `placed`.
    pub(crate) fn moved(&self, from: u8, to: u8, placed: Unit) -> Sets
        requires from { from < 63 }
        requires to { to < 63 }
        ensures { AreMoved self.now result from to placed }
    {
        Sets {
            white: moved_cells(self.white, Class::White, from, to, placed),
            black: moved_cells(self.black, Class::Black, from, to, placed),
            kings: moved_cells(self.kings, Class::Crowned, from, to, placed),
            straight: moved_cells(self.straight, Class::Straight, from, to, placed),
            slanted: moved_cells(self.slanted, Class::Slanted, from, to, placed),
            knights: moved_cells(self.knights, Class::Horsed, from, to, placed),
            pawns: moved_cells(self.pawns, Class::Foot, from, to, placed),
        }
    }
}
