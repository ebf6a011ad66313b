//! Decisions over small tables.
use crate::tables::{Table, learnt, nothing_of, position};
use decision::{Memory, Never, Scout, Stop, Underway};
use moves::Goal;
use slots::{Probe, Store};

const CORNERED: &str = "k5/6/2K3/6/6/1R4 w";

// Mate is forced within three plies, and not within two.
const CORNERED_IN_THREE: [u64; 3] = [0x8000000000000030, 0x0003000100000000, 0x0003000007000000];

#[test]
fn decides_one_position_again(rt: HostRuntime) {
    let cornered = position(&rt, CORNERED);
    let mut table = Table::make(&rt, rt.alloc(), 1);
    let three = table.decide(&cornered, Goal::Mate, 3);
    assert!(rt; three.yes && three.first == Probe::Vacant && three.expanded > 0);
    let one = table.decide(&cornered, Goal::Mate, 1);
    assert!(rt; !one.yes && one.expanded > 0);
    let two = table.decide(&cornered, Goal::Mate, 2);
    assert!(rt; !two.yes && two.expanded > 0);
    let again = table.decide(&cornered, Goal::Mate, 2);
    assert!(rt; !again.yes && again.expanded == 0);
    assert!(rt; table.probe(&rt, 0, CORNERED_IN_THREE) == Probe::Hit(CORNERED_IN_THREE));
}

#[test]
fn a_hit_that_decides_costs_nothing(rt: HostRuntime) {
    let cornered = position(&rt, CORNERED);
    let mut table = Table::make(&rt, rt.alloc(), 1);
    let first = table.decide(&cornered, Goal::Mate, 3);
    assert!(rt; first.yes && first.expanded > 0);
    let second = table.decide(&cornered, Goal::Mate, 3);
    assert!(rt; second.yes && second.expanded == 0);
}

#[test]
fn the_goal_is_asked_too(rt: HostRuntime) {
    let cornered = position(&rt, CORNERED);
    let mut table = Table::make(&rt, rt.alloc(), 1);
    assert!(rt; table.decide(&cornered, Goal::MateOrStale, 1).yes);
    assert!(rt; !table.decide(&cornered, Goal::Mate, 1).yes);
}

// An entry that says nothing of its position.
const NOTHING: [u64; 3] = [0x8000000000100000, 0, 0x00FF000007000000];

const CORNERED_WITHIN_THREE: [u64; 3] = [
    0x8000000000000030,
    0x0000000100000000,
    0x0003000007000000,
];

#[test]
fn an_even_slot_keeps_what_is_worth_more(rt: HostRuntime) {
    let cornered = position(&rt, CORNERED);
    let three = learnt(&rt, rt.alloc(), &cornered, 2, true);
    let within = learnt(&rt, rt.alloc(), &cornered, 2, false);
    let nothing = nothing_of(&position(&rt, "k5/6/6/6/6/5K w"));
    assert!(rt;
        three == CORNERED_IN_THREE && within == CORNERED_WITHIN_THREE && nothing == NOTHING
    );
    let mut table = Table::make(&rt, rt.alloc(), 2);
    assert!(rt; table.store(&rt, 0, nothing) == Store::Stored);
    assert!(rt; table.store(&rt, 0, three) == Store::Stored);
    assert!(rt; table.store(&rt, 0, nothing) == Store::Kept(CORNERED_IN_THREE));
    assert!(rt; table.store(&rt, 0, three) == Store::Kept(CORNERED_IN_THREE));
    assert!(rt; table.store(&rt, 0, within) == Store::Kept(CORNERED_IN_THREE));
    assert!(rt; table.store(&rt, 1, three) == Store::Stored);
    assert!(rt; table.store(&rt, 1, nothing) == Store::Stored);
}

// Tells to stop at once.
#[derive(Drop)]
struct AtOnce;

impl Stop for AtOnce {
    ghost told = { λ _. Unit {0} };

    ghost stays = { λ _ _. Unit {0} };

    fn is_set(&mut self) -> bool {
        true
    }

    ghost stays_at_once = { λ _. tt };

    ghost stays_on = { λ _ _ _ _ _. tt };
}

// Puts moves off to positions that are searched already.
#[derive(Drop)]
struct PutsOff {
    underway: Underway,
}

impl Stop for PutsOff {
    ghost told = { λ _. ⊥ };

    ghost stays = { λ _ _. Unit {0} };

    fn is_set(&mut self) -> bool {
        false
    }

    fn underway(&self) -> Option<&Underway> {
        Some(&self.underway)
    }

    ghost stays_at_once = { λ _. tt };

    ghost stays_on = { λ _ _ _ _ _. tt };
}

// Mate is forced within five plies and no fewer, as another program has it.
const IN_FIVE: &str = "4N1/6/6/1Q4/2P3/K2N1k w";

#[test]
fn a_decision_is_stopped_or_right(rt: HostRuntime) {
    let position = position(&rt, IN_FIVE);
    let mut table = Table::make(&rt, rt.alloc(), 64);
    assert!(rt; table.decide_until(&position, Goal::Mate, 5, AtOnce) == None);
    assert!(rt; table.decide_until(&position, Goal::Mate, 4, Never) == Some(false));
    assert!(rt; table.decide_until(&position, Goal::Mate, 5, Never) == Some(true));
    assert!(rt; table.decide_until(&position, Goal::Mate, 5, AtOnce) == Some(true));
    assert!(rt; !table.decide_on(&position, Goal::Mate, 4));
    assert!(rt; table.decide_on(&position, Goal::Mate, 5));
}

// A decision of one ply makes the moves of its own position alone, whatever the search state has counted before.
#[test]
fn each_decision_counts_its_own_positions(rt: HostRuntime) {
    let cornered = position(&rt, CORNERED);
    let mut scout = Scout {
        stop: Never,
        memory: Memory::new(),
    };
    let mut table = Table::make(&rt, rt.alloc(), 64);
    let three = table.decide_by(&mut scout, &cornered, Goal::Mate, 3);
    let three = three.expect(&rt, "a decision");
    assert!(rt; three.yes && three.expanded > 1);
    let mut empty = Table::make(&rt, rt.alloc(), 64);
    let one = empty.decide_by(&mut scout, &cornered, Goal::Mate, 1);
    let one = one.expect(&rt, "a decision");
    assert!(rt; !one.yes);
    assert_eq!(rt; one.expanded, 1);
}

#[test]
fn a_decision_that_puts_moves_off_is_right(rt: HostRuntime) {
    let position = position(&rt, IN_FIVE);
    for (plies, yes) in [(4, false), (5, true), (7, true)] {
        let mut table = Table::make(&rt, rt.alloc(), 64);
        let underway = Underway::new(rt.alloc()).expect(&rt, "memory");
        let stop = PutsOff { underway };
        assert!(rt; table.decide_until(&position, Goal::Mate, plies, stop) == Some(yes));
    }
}
