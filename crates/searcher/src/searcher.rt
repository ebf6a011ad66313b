//! One thread's search over a table: it decides by a seat there.
ghost use Rattle.slots.specs.Promise.{IsSeatOf};

use crate::decider::Decider;
use decision::{Scout, Stop, is_forced_until};
use entry::MateLore;
use problems::Question;
use slots::{Seat, Slots};
use std::alloc::Allocator;

/// A table, a seat there, and what leads the searches. Whatever was asked before, each answer is the definition's.
#[derive(Drop)]
pub struct Searcher<'a, S, A: Allocator> {
    pub slots: &'a Slots<MateLore, A>,
    pub seat: &'a mut Seat,
    pub scout: &'a mut Scout<S>,
    ghost belongs: { IsSeatOf slots.now seat.now },
}

impl<S: Stop, A: Allocator> Decider for Searcher<'_, S, A> {
    ghost use Rattle.searcher.specs.Searching.{SearchesOn, IsToldToStop};
    ghost use Rattle.std.proofs.Common.{◌∙◌, refl, sym, subst};
    ghost use Rattle.decision.specs.Calls.{Continues};
    ghost use Rattle.decision.proofs.Calls.{continues_none, continues_more};

    ghost told = { IsToldToStop S.told };

    ghost goes = { SearchesOn S.stays };

    fn forces(&mut self, q: &Question, n: u8) -> Option<bool> {
        is_forced_until(self.slots, self.seat, self.scout, q, n)
    }

    fn begin(&self, none_within: u8, jobs: u16) {
        self.scout.stop.begin(none_within, jobs);
    }

    fn step(&self) {
        self.scout.stop.step();
    }

    ghost goes_at_once = { λ a. record {
      table = refl;
      seat = refl;
      scout = refl;
      calls = continues_none a.slots.now a.seat.now;
      stop = S.stays_at_once a.scout.now.stop;
    } };

    ghost goes_on = { λ a b c p q. record {
      table = q.table ∙ p.table;
      seat = q.seat ∙ p.seat;
      scout = q.scout ∙ p.scout;
      calls = λ seat. continues_more a.slots.now a.seat.now b.seat.now c.seat.now (p.calls seat)
          (subst (λ t. Continues t b.seat.now c.seat.now) p.table
          (q.calls (subst (λ t. IsSeatOf t b.seat.now) (sym p.table) (p.calls seat).seat)));
      stop = S.stays_on a.scout.now.stop b.scout.now.stop c.scout.now.stop p.stop q.stop;
    } };
}
