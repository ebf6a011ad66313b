//! A position in three words.
ghost use Rattle.std.specs.Prelude.{◌≡◌, ◌<◌, ◌+◌, ◌*◌, ◌↔◌, ℕ, Some, None, IsTrue};
ghost use Rattle.board.specs.declared.game.Kind.TheVariants.{King};
ghost use Rattle.board.specs.Board.{board_of, unit_on, IsPosition};
ghost use Rattle.board.specs.Games.{squares_of, other_side};
ghost use Rattle.moves.specs.Words.{unpacked, IsPacked};
ghost use Rattle.rules.specs.Squares.{IsOnBoard, unit_at};
ghost use Rattle.cells.specs.Mailbox.{place_in, IsCell};
ghost use Rattle.cells.specs.CellSets.{Has};
ghost use Rattle.moves.specs.Sets.{Holds, HasRider, Owns};
ghost use Rattle.moves.specs.Pawns.{HasPawn};
ghost use Rattle.rules.specs.Moves.{IsSomeKing, IsPseudoLegal, IsMove, IsLawful, after};

use crate::codec::{read_words, write_units};
use crate::sets::{Class, Sets};
use crate::words::{code_of, code_on, put, turned, unit_of};
use board::{Game, Position, Side, Unit};
use cells::{cell_of, cells, has, lowest, square_in};
use rules::{Move, Square};
use std::marker::Model;

/// A position: four bits a square, two ranks a word, and the side to move and the game in word 0; and its units as sets.
#[derive(Drop)]
pub struct Board {
    words: [u64; 3],
    sets: Sets,
}

impl Model for Board {
    ghost use Rattle.board.specs.Board.{PlainBoard};
    ghost use Rattle.moves.specs.Words.{unpacked};
    ghost use Rattle.moves.specs.Sets.{IsKept};

    ghost Value = { PlainBoard };

    ghost view = { λ b. unpacked b.words };

    ghost invariant = { λ b. IsKept b.words b.sets };
}

impl Board {
    /// The board of a position.
    pub fn of(position: &Position) -> Board
        ensures { result ≡ position.now }
    {
        Board::of_units(position.game(), position.mover(), &position.units())
    }

    /// The board of the position of these units, by square number. No position is made.
    pub fn of_units(game: Game, mover: Side, units: &[Option<Unit>; 36]) -> Board
        requires { IsPosition (board_of game mover units.now) }
        ensures { result ≡ board_of game mover units.now }
    {
        let words = write_units(game, mover, units);
        let sets = Sets::of_units(game, mover, units);
        Board { words, sets }
    }

    /// A copy of the board. No position is made.
    pub fn copied(&self) -> Board
        ensures { result ≡ self.now }
    {
        Board {
            words: self.words,
            sets: self.sets,
        }
    }

    /// The position that the words stand for.
    pub fn position(&self) -> Position
        ensures { result ≡ self.now }
    {
        read_words(self.game(), self.mover(), &self.words).unwrap()
    }

    /// The game that is played.
    pub fn game(&self) -> Game
        ensures value { result ≡ self.now.game }
        ensures position { IsPosition self.now }
    {
        if (self.words[0] >> 48) % 16 < 4 {
            Game::LosAlamos
        } else {
            Game::Gardner
        }
    }

    /// The side to move.
    pub fn mover(&self) -> Side
        ensures value { result ≡ self.now.mover }
        ensures position { IsPosition self.now }
    {
        if (self.words[0] >> 48) % 16 % 2 == 0 {
            Side::White
        } else {
            Side::Black
        }
    }

    /// The unit on a square, by the square's number.
    pub fn unit(&self, square: u8) -> Option<Unit>
        requires { square < squares_of self.now.game }
        ensures { result ≡ unit_on self.now square }
    {
        self.unit_at(Square::of_number(self.game(), square))
    }

    /// The unit on a square.
    pub fn unit_at(&self, square: Square) -> Option<Unit>
        requires { IsOnBoard self.now.game square }
        ensures { result ≡ unit_at self.now square }
    {
        unit_of(code_on(&self.words, self.game(), square))
    }

    /// Where the side's king stands.
    pub fn king(&self, side: Side) -> Square
        ensures on_board { IsOnBoard self.now.game result }
        ensures king { unit_at self.now result ≡ Some (record { side = side; kind = King }) }
    {
        square_in(lowest(self.of_side(side) & self.sets.kings))
    }

    /// Whether a square has a pawn.
    pub fn has_pawn(&self) -> bool
        ensures { IsTrue result ↔ HasPawn self.now }
    {
        self.set(Class::Foot) != 0
    }

    /// The words of the board.
    pub fn words(&self) -> [u64; 3]
        ensures value { unpacked result ≡ self.now }
        ensures packed { IsPacked result }
    {
        self.words
    }

    /// The unit in a cell of the board.
    pub(crate) fn unit_in(&self, cell: u8) -> Option<Unit>
        requires { IsCell self.now.game cell }
        ensures { result ≡ unit_at self.now (place_in cell) }
    {
        self.unit_at(square_in(cell))
    }

    /// The cells of the units of a class.
    pub(crate) fn set(&self, class: Class) -> u64
        ensures { Holds self.now class result }
    {
        self.sets.of_class(class)
    }

    /// The cells of the riders.
    pub(crate) fn riders(&self) -> u64
        ensures { (i : ℕ) → Has result i ↔ (IsCell self.now.game i × HasRider self.now (place_in i)) }
    {
        self.set(Class::Straight) | self.set(Class::Slanted)
    }

    /// The cells of the kings.
    pub(crate) fn kings(&self) -> u64
        ensures { (i : ℕ) → Has result i ↔ (IsCell self.now.game i × IsSomeKing (unit_at self.now (place_in i))) }
    {
        self.set(Class::Crowned)
    }

    /// Whether a king stands in the cell.
    pub(crate) fn has_king(&self, cell: u8) -> bool
        requires { IsCell self.now.game cell }
        ensures { IsTrue result ↔ IsSomeKing (unit_at self.now (place_in cell)) }
    {
        has(self.kings(), cell)
    }

    /// The cells of a side's units.
    pub(crate) fn of_side(&self, side: Side) -> u64
        ensures { Owns self.now side result }
    {
        match side {
            Side::White => self.set(Class::White),
            Side::Black => self.set(Class::Black),
        }
    }

    /// The cells of the mover's units.
    pub(crate) fn own(&self) -> u64
        ensures cells { Owns self.now self.now.mover result }
        ensures position { IsPosition self.now }
    {
        self.of_side(self.mover())
    }

    /// The cells of the other side's units.
    pub(crate) fn foes_of(&self, side: Side) -> u64
        ensures { Owns self.now (other_side side) result }
    {
        self.of_side(side.other())
    }

    /// The cells of all units.
    pub(crate) fn taken(&self) -> u64
        ensures { (i : ℕ) → Has result i ↔ (IsCell self.now.game i × (unit_at self.now (place_in i) ≡ None → ⊥)) }
    {
        self.sets.white | self.sets.black
    }

    /// The empty cells of the board.
    pub(crate) fn empty(&self) -> u64
        ensures { (i : ℕ) → Has result i ↔ (IsCell self.now.game i × (unit_at self.now (place_in i) ≡ None)) }
    {
        cells(self.game()) & !self.taken()
    }

    /// The board after the unit's move.
    pub(crate) fn moved(&self, m: Move, unit: Unit) -> Board
        requires { IsPseudoLegal self.now m unit }
        ensures { result ≡ after self.now m unit }
    {
        let game = self.game();
        let mut words = self.words;
        put(&mut words, game, m.from, 0);
        let placed = Unit {
            side: unit.side,
            kind: m.promotion.unwrap_or(unit.kind),
        };
        put(&mut words, game, m.to, code_of(placed));
        words[0] = turned(words[0]);
        let sets = self.sets.moved(cell_of(m.from), cell_of(m.to), placed);
        Board { words, sets }
    }
}

/// The board after a lawful move.
pub fn after(board: &Board, m: Move) -> Board
    requires { IsLawful board.now m }
    ensures { IsMove board.now m result }
{
    let Some(unit) = board.unit_at(m.from) else {
        unreachable!()
    };
    board.moved(m, unit)
}
