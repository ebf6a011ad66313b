//! A solver that lives.
ghost use Rattle.slots.specs.Promise.{IsSeatOf};

use crate::listening::Listener;
use decision::Scout;
use entry::MateLore;
use slots::{Seat, Slots};

/// One table and a seat there, with what listens for a stop. Whatever was asked before, each answer is the definition's.
#[derive(Drop)]
pub struct Solver {
    pub slots: Slots<MateLore>,
    pub(crate) seat: Seat,
    pub scout: Scout<Listener>,
    ghost belongs: { IsSeatOf slots seat },
}
