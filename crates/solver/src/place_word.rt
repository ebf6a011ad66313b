//! The word that tells how far a search is: the search writes it, and whoever asks reads it. Each step on it is told by a seat of its own.
ghost use Rattle.std.specs.Prelude.{◌≡◌, IfOk};
ghost use Rattle.solver.specs.Placing.{IsPlace, place, word_place, place_begun, stepped};
ghost use Rattle.solver.specs.PlaceRule.{PlaceHolds, place_view, place_seen, place_written, IsPlaceSeatOf, found_place, told_place};

use crate::listening::Place;
use atomic_table::{Play, Table, TableRule};
use std::alloc::{AllocError, Global};
use std::marker::Model;

/// A search is of at most so many plies.
const MOST_PLIES: u64 = 63;

/// A root has at most so many moves.
const MOST_MOVES: u64 = 512;

/// The moves tried take so many values, and the moves too.
const PART: u64 = 65536;

/// What a seat knows of the place. No value of it is made.
pub struct PlaceView {
    /// The place that it found.
    pub found: Place,
    /// The place that the word stood for after its last step.
    pub told: Place,
}

/// What a step on the word told. It has no bytes.
pub type PlaceSeat = atomic_table::Seat<(), PlaceView>;

/// The rule of a word that stands for a place.
pub struct Placed;

impl TableRule<(), PlaceView, u64> for Placed {
    ghost holds = { λ _. PlaceHolds };

    ghost first = { λ _. place_view (word_place 0) (word_place 0) };
}

/// The word is read.
struct Look;

impl Play<(), PlaceView> for Look {
    ghost then = { λ st. place_seen };
}

/// The word is written.
struct Tell;

impl Play<(), PlaceView> for Tell {
    ghost then = { λ st m n. place_written n m };
}

/// How far a search is, in one word.
#[derive(Drop)]
pub struct PlaceWord {
    table: Table<(), PlaceView, u64, Placed, Global>,
}

impl Model for PlaceWord {
    ghost use Rattle.std.specs.Prelude.{◌≡◌};
    ghost use Rattle.atomic_table.specs.Seated.{TableId};

    ghost Value = { TableId };

    ghost view = { λ w. w.table.shared.table_id };

    ghost invariant = { λ w. (w.table.shared.table_id.words ≡ 1) × (w.table.shared.table_id.slots ≡ 0) };
}

impl PlaceWord {
    /// Nothing is searched yet.
    pub(crate) fn make(alloc: Global) -> Result<(PlaceWord, PlaceSeat), AllocError>
        ensures seat { IfOk result (λ r. IsPlaceSeatOf r.0 r.1) }
        ensures told { IfOk result (λ r. told_place r.1 ≡ place 0 0 0) }
    {
        let (table, seat) = Table::of_words(alloc, &[0], &0)?;
        Ok((PlaceWord { table }, seat))
    }

    /// A round begins: nothing is forced within so many plies, and none of so many moves is tried.
    pub(crate) fn begin(&self, none_within: u8, moves: u16) -> PlaceSeat
        ensures seat { IsPlaceSeatOf self.now result }
        ensures told { told_place result ≡ place_begun none_within moves }
    {
        let (_, mut seat) = self.read();
        let none_within = u64::from(none_within).min(MOST_PLIES);
        let moves = u64::from(moves).min(MOST_MOVES);
        self.tell(&mut seat, (none_within * PART + moves) * PART);
        seat
    }

    /// A move more is tried, up to all. One caller alone writes.
    pub(crate) fn step(&self) -> PlaceSeat
        ensures seat { IsPlaceSeatOf self.now result }
        ensures told { told_place result ≡ stepped (found_place result) }
    {
        let (word, mut seat) = self.read();
        if word % PART < word / PART % PART {
            self.tell(&mut seat, word + 1);
        }
        seat
    }

    /// How far the search is. One atomic step.
    pub(crate) fn look(&self) -> (Place, PlaceSeat)
        ensures seat { IsPlaceSeatOf self.now result.1 }
        ensures told { result.0 ≡ told_place result.1 }
        ensures place { IsPlace result.0 }
    {
        let (word, seat) = self.read();
        let place = Place {
            none_within: (word / PART / PART) as u32,
            tried: (word % PART) as u32,
            moves: (word / PART % PART) as u32,
        };
        (place, seat)
    }

    // The word.
    fn read(&self) -> (u64, PlaceSeat)
        ensures seat { IsPlaceSeatOf self.now result.1 }
        ensures found { (found_place result.1 ≡ word_place result.0) × (told_place result.1 ≡ word_place result.0) }
        ensures place { IsPlace (word_place result.0) }
    {
        self.table.shared.load_new_seat::<Look>(0)
    }

    // Writes the word.
    fn tell(&self, seat: &mut PlaceSeat, word: u64)
        requires seat { IsPlaceSeatOf self.now seat.old }
        requires place { IsPlace (word_place word) }
        ensures seat { IsPlaceSeatOf self.now seat.new }
        ensures found { found_place seat.new ≡ found_place seat.old }
        ensures told { told_place seat.new ≡ word_place word }
    {
        self.table.shared.store::<Tell>(seat, 0, word)
    }
}
