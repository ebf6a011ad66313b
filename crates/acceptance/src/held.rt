//! A decision while another caller's store is held.
ghost use Rattle.slots.specs.Promise.{IsSeatOf};

use crate::tables::{nothing_of, position};
use board::{Position, Side};
use decision::{Decision, decide};
use entry::MateLore;
use moves::Goal;
use slots::{Pause, Probe, Seat, Slots, Store};
use std::process::Abort;

/// The other caller, who decides after so many steps of the store.
#[derive(Drop)]
struct Decider<'a> {
    slots: &'a Slots<MateLore>,
    seat: Seat,
    position: Position,
    after: u8,
    decision: Option<Decision>,
    ghost seated: { IsSeatOf slots.now seat },
}

impl Decider<'_> {
    fn decide(&mut self) -> Decision {
        decide(
            self.slots,
            &mut self.seat,
            &self.position,
            Side::White,
            Goal::Mate,
            3,
        )
    }
}

impl Pause for Decider<'_> {
    fn at(&mut self, done: u8) {
        if done == self.after {
            self.decision = Some(self.decide());
        }
    }
}

fn decides_while_held(rt: &impl Abort, slots: &Slots<MateLore>, mut seat: Seat, other: Seat)
    requires first { IsSeatOf slots.now seat }
    requires second { IsSeatOf slots.now other }
{
    let mut decider = Decider {
        slots,
        seat: other,
        position: position(rt, "k5/6/2K3/6/6/1R4 w"),
        after: 5,
        decision: None,
    };
    let nothing = nothing_of(&position(rt, "k5/6/6/6/6/5K w"));
    assert!(rt; slots.len() > 0);
    let held = slots.store_with(&mut seat, 0, nothing, &mut decider);
    let Some(decision) = decider.decision else {
        panic!(rt; "no decision")
    };
    assert!(rt; held == Store::Stored);
    assert!(rt; decision.yes && decision.first == Probe::Busy && decision.expanded > 0);
}

#[test]
fn decides_while_a_store_is_held(rt: HostRuntime) {
    let Ok(made) = Slots::<MateLore>::make(rt.alloc(), 1, 2) else {
        panic!(rt; "no table")
    };
    let (slots, mut seats) = made;
    let Some(seat) = seats.pop() else {
        panic!(rt; "no seat")
    };
    let Some(other) = seats.pop() else {
        panic!(rt; "no seat")
    };
    decides_while_held(&rt, &slots, seat, other);
}
