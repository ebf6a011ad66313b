//! Decisions of which a gate is told.
ghost use Rattle.atomic_table.specs.Seated.{TableId};
ghost use Rattle.slots.specs.Promise.{IsSeatOf};
ghost use Rattle.rounds.specs.Going.{KeptSeatsGoOn};

use entry::MateLore;
use searcher::Gate;
use slots::{Seat, Slots};

/// One thread's decisions, of which the gate is told.
#[derive(Drop)]
pub(crate) struct Gated<'a, T> {
    pub slots: &'a Slots<MateLore>,
    pub seat: &'a mut Seat,
    pub gate: &'a T,
    ghost belongs: { IsSeatOf slots.now seat.now },
}

/// Whatever the gate is: where a seat goes on in its calls, the seats of a solve go on. The function does nothing: its
/// contract is the law.
pub fn kept_seats_go_on<T: Gate>()
    ensures { (table : TableId) → KeptSeatsGoOn T.keeps table }
{}
