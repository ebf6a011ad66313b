//! A search that another party stops after it has begun and before it ends, and the searches behind it. The answers are worked out by
//! others, and the numbers by the rules of play.
ghost use Rattle.slots.specs.Promise.{IsSeatOf};

use crate::stopped::{KEY, ROOK_MATES_IN_THREE, at, made, problem, read};
use crate::telling::{last_seat, listener_of};
use decision::{Memory, Scout, Stop};
use entry::MateLore;
use moves::{Move, Square};
use problems::{Answer, Problem, Root};
use searcher::{Searcher, solve_by};
use slots::{Seat, Slots};
use solver::{Listener, StopSource};
use std::process::Abort;
use std::test::*;

/// Listens as a solver does. Another party asks for a stop once, as soon as so many of the root's moves are tried.
#[derive(Drop)]
struct Interrupted {
    listener: Listener,
    source: StopSource,
    tried: Option<u32>,
}

impl Stop for Interrupted {
    ghost told = { λ _. Unit {0} };

    ghost stays = { λ _ _. Unit {0} };

    fn is_set(&mut self) -> bool {
        if self.tried == Some(self.source.place().tried) {
            self.tried = None;
            self.source.stop();
        }
        self.listener.is_set()
    }

    fn begin(&self, none_within: u8, moves: u16) {
        self.listener.begin(none_within, moves);
    }

    fn step(&self) {
        self.listener.step();
    }

    ghost stays_at_once = { λ _. tt };

    ghost stays_on = { λ _ _ _ _ _. tt };
}

/// A table, a seat there and what leads the searches, as a solver has them.
#[derive(Drop)]
struct Parts {
    slots: Slots<MateLore>,
    seat: Seat,
    scout: Scout<Interrupted>,
    ghost belongs: { IsSeatOf slots seat },
}

impl Parts {
    fn solve(&mut self, problem: &Problem) -> Option<Answer> {
        let mut searcher = Searcher {
            slots: &self.slots,
            seat: &mut self.seat,
            scout: &mut self.scout,
        };
        solve_by(&mut searcher, &Root::of(problem))
    }
}

/// A table for searches that are stopped once so many moves are tried.
fn parts_to_stop<R: Abort + AllocGlobal>(rt: &R, tried: u32) -> Parts {
    let (solver, source) = made(rt, rt.alloc());
    let Ok((slots, mut seats)) = Slots::make(rt.alloc(), 64, 1) else {
        panic!(rt; "no slots")
    };
    let Some(seat) = last_seat(&slots, &mut seats) else {
        panic!(rt; "no seat")
    };
    let stop = Interrupted {
        listener: listener_of(solver),
        source,
        tried: Some(tried),
    };
    let memory = Memory::new();
    Parts {
        slots,
        seat,
        scout: Scout { stop, memory },
    }
}

/// Of Black's 18 lawful moves the rook a2 has eight, the pawn b3 one, the bishop e3 four and the king b5 five. Eleven come before e3d4,
/// the least with which it mates in three.
const BISHOP_MATES_IN_FIVE: &[u8] = b"1k3/5/1p2b/r4/4K b";

const BISHOP_KEY: Move = Move {
    from: Square { file: 4, rank: 2 },
    to: Square { file: 3, rank: 3 },
    promotion: None,
};

const ROOK_KEY: Move = Move {
    from: Square { file: 5, rank: 0 },
    to: Square { file: 5, rank: 5 },
    promotion: None,
};

/// The answer of a mate.
fn mate(plies: u8, first: Move) -> Option<Answer> {
    Some(Answer::Mate { plies, first })
}

// A stop is heard where four plies are left, so in the round of five: here while the sixth of its moves is searched.
#[test]
fn is_stopped_in_mid_search(rt: HostRuntime) {
    let mut parts = parts_to_stop(&rt, 5);
    let fifth = problem(&rt, &read(&rt, BISHOP_MATES_IN_FIVE), 5);
    assert!(rt; parts.solve(&fifth) == None);
    assert_eq!(rt; parts.scout.stop.source.place(), at(4, 5, 18));
    // until it may go on
    assert!(rt; parts.solve(&fifth) == None);
    parts.scout.stop.source.go_on();
    let third = problem(&rt, &read(&rt, ROOK_MATES_IN_THREE), 3);
    assert!(rt; parts.solve(&third) == mate(3, KEY));
    let first = problem(&rt, &read(&rt, b"k5/6/1K4/6/6/5R w"), 1);
    assert!(rt; parts.solve(&first) == mate(1, ROOK_KEY));
    assert!(rt; parts.solve(&fifth) == mate(5, BISHOP_KEY));
    assert_eq!(rt; parts.scout.stop.source.place(), at(4, 11, 18));
}
