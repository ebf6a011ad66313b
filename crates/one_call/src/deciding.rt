//! A table of true entries, and decisions over it: none of them takes memory.
ghost use Rattle.slots.specs.Promise.{IsSeatOf};

use crate::solving::root;
use board::{Position, Side};
use decision::{Memory, Never, Scout, decide, decide_on, decide_until};
use entry::MateLore;
use moves::{Board, Goal};
use problems::Question;
use slots::{Seat, Slots};
use std::alloc::Global;

/// A decision of each kind, and whether it is right: White mates in three plies and no fewer.
fn decisions(slots: &Slots<MateLore>, mut seat: Seat, root: &Position) -> bool
    requires { IsSeatOf slots.now seat }
{
    let q = Question {
        position: Board::of(root),
        attacker: Side::White,
        goal: Goal::Mate,
    };
    let mut scout = Scout {
        stop: Never,
        memory: Memory::new(),
    };
    let early = decide(slots, &mut seat, root, Side::White, Goal::Mate, 2).yes;
    let late = decide_on(slots, &mut seat, &q, 3).yes;
    match decide_until(slots, &mut seat, &mut scout, &q, 9) {
        Some(decision) => decision.yes && late && !early,
        None => false,
    }
}

/// A table is made, and decided over, where that is asked.
pub(crate) fn answer(alloc: Global, decides: bool) -> &'static str {
    let Some(root) = root() else {
        return "no position";
    };
    let Ok((slots, mut seats)) = Slots::<MateLore>::make(alloc, 64, 1) else {
        return "no memory";
    };
    let Some(seat) = seats.pop() else {
        return "no seat";
    };
    if !decides || decisions(&slots, seat, &root) {
        "decided"
    } else {
        "wrong"
    }
}
