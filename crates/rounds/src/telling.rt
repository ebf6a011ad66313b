//! What one thread decides, of which a gate is told.
ghost use Rattle.std.specs.Prelude.{◌≡◌, ◌↔◌, IsTrue, false};
ghost use Rattle.progress.specs.declared.ended.Ended.TheVariants.{Wins, Loses};
ghost use Rattle.slots.specs.Promise.{IsSeatOf};
ghost use Rattle.problems.specs.Roots.{IsJobOf, IsLimit, WinsIn};
ghost use Rattle.rounds.specs.Going.{SeatGoesOn};

use crate::gated::Gated;
use crate::shared::Solve;
use decision::decide_on;
use problems::{Question, Root};
use searcher::{Decider, Ended, Gate};
use slots::Seat;

/// That the job is decided.
pub(crate) fn job_ended(job: u16, wins: bool) -> Ended
    ensures wins { IsTrue wins → result ≡ Wins job }
    ensures loses { wins ≡ false → result ≡ Loses job }
{
    if wins {
        Ended::Wins(job)
    } else {
        Ended::Loses(job)
    }
}

impl<T: Gate> Decider for Gated<'_, T> {
    ghost use Rattle.std.proofs.Common.{◌∙◌, refl, sym, subst};
    ghost use Rattle.decision.proofs.Calls.{continues_none};
    ghost use Rattle.rounds.specs.Going.SeatGoesOn.{searched, onward};
    ghost use Rattle.rounds.specs.Telling.{TellsOn};

    ghost told = { λ _. ⊥ };

    ghost goes = { TellsOn T.keeps };

    fn forces(&mut self, q: &Question, n: u8) -> Option<bool> {
        Some(decide_on(self.slots, self.seat, q, n).yes)
    }

    fn wins(&mut self, root: &Root, job: u16, plies: u8) -> Option<bool> {
        self.gate.begin(plies, job, self.slots, self.seat);
        let q = root.question_of(job);
        let yes = self.forces(&q, plies - 1)?;
        self.gate.end(plies, job_ended(job, yes));
        Some(yes)
    }

    ghost goes_at_once = { λ a. record {
      table = refl;
      seat = refl;
      calls = λ seat. searched (continues_none a.slots.now a.seat.now seat);
      still = λ seat. seat;
    } };

    ghost goes_on = { λ a b c p q. record {
      table = q.table ∙ p.table;
      seat = q.seat ∙ p.seat;
      calls = λ seat. onward (p.calls seat)
          (subst (λ t. SeatGoesOn T.keeps t b.seat.now c.seat.now) p.table (q.calls (p.still seat)));
      still = λ seat. q.still (p.still seat);
    } };
}

/// Whether the job wins within so many plies, decided by one seat.
pub(crate) fn decide_job<T: Gate>(
    search: &Solve<'_, T>,
    seat: &mut Seat,
    job: u16,
    plies: u8,
) -> bool
    requires seat { IsSeatOf search.now.slots.now seat.old }
    requires job { IsJobOf search.now.root job }
    requires plies { IsLimit plies }
    ensures seat { IsSeatOf search.now.slots.now seat.new }
    ensures goes_on { SeatGoesOn T.keeps search.now.slots.now seat.old seat.new }
    ensures wins { IsTrue result ↔ WinsIn search.now.root plies job }
{
    let mut gated = Gated {
        slots: search.slots,
        seat,
        gate: search.gate,
    };
    let Some(wins) = gated.wins(&search.root, job, plies) else {
        unreachable!()
    };
    wins
}
