//! What a caller may do as the jobs of a search are begun and as they end.
ghost use Rattle.std.specs.Prelude.{◌≡◌};
ghost use Rattle.atomic_table.specs.Seated.{TableId};
ghost use Rattle.slots.specs.Promise.{IsSeatOf};
ghost use Rattle.searcher.specs.Gates.{KeepsOn};

use entry::MateLore;
use progress::Ended;
use slots::{Seat, Slots};

/// What a solve calls as its jobs begin and end. A round is a number of plies, and a job the number of a lawful root move.
///
/// `begin` is called before a job is decided, by the thread that decides it, with the solve's table and that thread's seat.
/// `end` is called by the same thread once the job is decided, and by the caller's own thread after a round in which no job
/// wins, before the next round begins. `join` is called by a thread that has no job of its own left, before it searches a job
/// that another thread has begun: after that thread's `begin` has returned. What such a thread finds reaches the thread that
/// decides the job through the table alone.
pub trait Gate: Sync {
    ghost use Rattle.std.specs.Prelude.{ℕ};
    ghost use Rattle.atomic_table.specs.Seated.{TableId};
    ghost use Rattle.atomic_table.specs.declared.shared.Seat.{Seat};
    ghost use Rattle.slots.specs.declared.views.View.{View};

    /// What a call does to a seat of the table. Nothing is said where a gate doesn't say it.
    ghost keeps: { TableId → Seat ℕ View → Seat ℕ View → Type 0 } = { λ _ _ _. Unit {0} };

    fn begin(&self, round: u8, job: u16, slots: &Slots<MateLore>, seat: &mut Seat)
        requires { IsSeatOf slots.now seat.old }
        ensures seat { IsSeatOf slots.now seat.new }
        ensures keeps { keeps slots.now seat.old seat.new };

    fn end(&self, _round: u8, _ended: Ended) {}

    fn join(&self, _round: u8, _job: u16) {}
}

/// The gate that does nothing.
#[derive(Clone, Copy)]
pub struct NoGate;

impl Gate for NoGate {
    ghost use Rattle.std.specs.Prelude.{◌≡◌};

    ghost keeps = { λ _ before after. after ≡ before };

    fn begin(&self, _round: u8, _job: u16, _slots: &Slots<MateLore>, _seat: &mut Seat) {}
}

/// In the calls of the gate that does nothing each seat goes on. The function does nothing: its contract is the law.
pub fn no_gate_keeps_on()
    ensures { (table : TableId) → KeepsOn ⟦<NoGate as Gate>⟧.keeps table }
{}
