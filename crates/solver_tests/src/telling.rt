//! How far a search is, as it is heard while it runs. The numbers are worked out by the rules of play.
ghost use Rattle.std.specs.Prelude.{◌≤◌, IfSome};
ghost use Rattle.slots.specs.Promise.{IsSeatOf, AllNew};
ghost use Rattle.problems.specs.Roots.{IsRoot};

use crate::stopped::{made, read};
use decision::{Memory, Scout, Stop};
use entry::MateLore;
use moves::{Board, Goal};
use problems::{Answer, Root};
use searcher::{Searcher, solve_by};
use slots::{Seat, Slots};
use solver::{Listener, Place, Solver, StopSource};
use std::process::Abort;
use std::test::*;

/// Listens as a solver does, and writes down how far the search is each time that it is asked.
#[derive(Drop)]
struct Watcher {
    listener: Listener,
    source: StopSource,
    heard: Vec<Place>,
}

impl Stop for Watcher {
    ghost told = { λ _. Unit {0} };

    ghost stays = { λ _ _. Unit {0} };

    fn is_set(&mut self) -> bool {
        self.heard.push(self.source.place()).is_err() || self.listener.is_set()
    }

    fn begin(&self, none_within: u8, moves: u16) {
        self.listener.begin(none_within, moves);
    }

    fn step(&self) {
        self.listener.step();
    }

    ghost stays_at_once = { λ _. tt };

    ghost stays_on = { λ _ _ _ _ _. tt };
}

/// What listens in a solver that is given up.
pub(crate) fn listener_of(solver: Solver) -> Listener {
    let scout = solver.scout;
    scout.stop
}

/// The last seat, taken out.
pub(crate) fn last_seat(slots: &Slots<MateLore>, seats: &mut Vec<Seat>) -> Option<Seat>
    requires { AllNew slots.now seats.old.items }
    ensures { IfSome result (λ seat. IsSeatOf slots.now seat) }
{
    seats.pop()
}

/// The solve of a root, as one thread makes it.
fn solved(
    slots: &Slots<MateLore>,
    seat: &mut Seat,
    scout: &mut Scout<Watcher>,
    root: &Root,
) -> Option<Answer>
    requires seat { IsSeatOf slots.now seat.old }
    requires root { IsRoot root.now }
{
    let mut searcher = Searcher { slots, seat, scout };
    solve_by(&mut searcher, root)
}

/// What is heard while it is decided that nothing is forced within so many plies.
fn heard_in<R: Abort + AllocGlobal>(rt: &R, text: &[u8], limit: u8) -> Vec<Place>
    requires { limit ≤ 63 }
{
    let (solver, source) = made(rt, rt.alloc());
    let Ok((slots, mut seats)) = Slots::make(rt.alloc(), 64, 1) else {
        panic!(rt; "no slots")
    };
    let Some(mut seat) = last_seat(&slots, &mut seats) else {
        panic!(rt; "no seat")
    };
    let stop = Watcher {
        listener: listener_of(solver),
        source,
        heard: Vec::new(rt.alloc()),
    };
    let memory = Memory::new();
    let mut scout = Scout { stop, memory };
    let root = Root::on(Board::of(&read(rt, text)), Goal::Mate, limit);
    let answer = solved(&slots, &mut seat, &mut scout, &root);
    assert!(rt; answer == Some(Answer::NoneWithin(limit)));
    let watcher = scout.stop;
    watcher.heard
}

// A lone knight mates nobody: the king c4 has seven moves and the knight b1 three. A search asks where four plies are left, so first in the
// round of five, whose moves it tries one after another.
#[test]
fn tried_grows_move_by_move(rt: HostRuntime) {
    let heard = heard_in(&rt, b"k5/6/2K3/6/6/1N4 w", 5);
    let mut tried = 0;
    for place in &heard {
        assert_eq!(rt; place.none_within, 4);
        assert_eq!(rt; place.moves, 10);
        assert!(rt; matches!(place.tried.checked_sub(tried), Some(0 | 1)));
        tried = place.tried;
    }
    assert!(rt; !heard.is_empty());
    assert_eq!(rt; tried, 9);
}
