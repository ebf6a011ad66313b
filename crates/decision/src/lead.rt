//! A search that runs: what leads it, and the lists that it uses position after position.

use crate::memory::Memory;
use crate::order::{Costed, order_into};
use crate::scout::Scout;
use arrayvec::ArrayVec;
use moves::Move;
use problems::Question;

/// Lists that are used position after position, since a new one is cleared.
#[derive(Drop)]
pub(crate) struct Rooms {
    pub costed: ArrayVec<Costed, 512>,
    pub moves: ArrayVec<Move, 512>,
    pub replies: ArrayVec<Move, 512>,
}

/// What leads a search, with the lists that the search uses. It lives only while the search runs.
#[derive(Drop)]
pub(crate) struct Lead<'a, S> {
    pub scout: &'a mut Scout<S>,
    pub rooms: Rooms,
}

impl Rooms {
    ghost use Rattle.problems.specs.Tried.{ListsAll};

    /// The lists are empty.
    pub(crate) fn new() -> Rooms {
        Rooms {
            costed: ArrayVec::new(),
            moves: ArrayVec::new(),
            replies: ArrayVec::new(),
        }
    }

    /// Puts the lawful moves into the list of them, those of least cost first.
    pub(crate) fn order(&mut self, memory: &Memory, q: &Question, n: u8)
        ensures { ListsAll q.now.position self.new.moves.items }
    {
        order_into(memory, q, n, &mut self.costed, &mut self.moves);
    }
}
