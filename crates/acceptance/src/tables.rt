//! A table of true entries with one caller, for the tests.
ghost use Rattle.std.specs.Prelude.{◌≡◌, ◌≤◌, ◌+◌, ◌↔◌, IsTrue, IfSome};
ghost use Rattle.board.specs.declared.game.Side.TheVariants.{White};
ghost use Rattle.rules.specs.declared.goal.Goal.TheVariants.{Mate};
ghost use Rattle.rules.specs.Forces.{Forces};
ghost use Rattle.entry.specs.Packing.{entry_of};
ghost use Rattle.slots.specs.Promise.{IsSeatOf, AllNew};
ghost use Rattle.entry.specs.Truth.{IsTruePacking};

use board::{Position, Side};
use decision::{Decision, Memory, Scout, Stop, decide, decide_on, decide_until};
use entry::{Entry, Interval, MateLore, interval_laws, key_of, meet, pack};
use moves::{Board, Goal, read_sound};
use problems::Question;
use slots::{Probe, Seat, Slots, Store};
use std::alloc::Global;
use std::process::Abort;

#[derive(Drop)]
pub(crate) struct Table {
    slots: Slots<MateLore>,
    seat: Seat,
    ghost seated: { IsSeatOf slots seat },
}

pub(crate) fn position(rt: &impl Abort, text: &str) -> Position {
    read_sound(text.as_bytes()).expect(rt, "a position")
}

// The last seat, taken out.
pub(crate) fn last_seat(slots: &Slots<MateLore>, seats: &mut Vec<Seat>) -> Option<Seat>
    requires { AllNew slots.now seats.old.items }
    ensures { IfSome result (λ s. IsSeatOf slots.now s) }
{
    seats.pop()
}

// Whether White forces the goal.
fn question(position: &Position, goal: Goal) -> Question
    ensures position { result.position ≡ position.now }
    ensures attacker { result.attacker ≡ White }
    ensures goal { result.goal ≡ goal }
{
    Question {
        position: Board::of(position),
        attacker: Side::White,
        goal,
    }
}

impl Table {
    pub(crate) fn make(rt: &impl Abort, alloc: Global, count: usize) -> Table {
        let Ok(made) = Slots::<MateLore>::make(alloc, count, 1) else {
            panic!(rt; "no table")
        };
        let (slots, mut seats) = made;
        let Some(seat) = last_seat(&slots, &mut seats) else {
            panic!(rt; "no seat")
        };
        Table { slots, seat }
    }

    /// White attacks.
    pub(crate) fn decide(&mut self, position: &Position, goal: Goal, n: u8) -> Decision
        requires { n ≤ 63 }
        ensures { IsTrue result.yes ↔ Forces goal White position.now n }
    {
        decide(&self.slots, &mut self.seat, position, Side::White, goal, n)
    }

    /// White attacks.
    pub(crate) fn decide_until<S: Stop + Drop>(
        &mut self,
        position: &Position,
        goal: Goal,
        n: u8,
        stop: S,
    ) -> Option<bool>
        requires { n ≤ 63 }
        ensures { IfSome result (λ yes. IsTrue yes ↔ Forces goal White position.now n) }
    {
        let memory = Memory::new();
        let mut scout = Scout { stop, memory };
        Some(self.decide_by(&mut scout, position, goal, n)?.yes)
    }

    /// White attacks, and the caller's search state is used.
    pub(crate) fn decide_by<S: Stop>(
        &mut self,
        scout: &mut Scout<S>,
        position: &Position,
        goal: Goal,
        n: u8,
    ) -> Option<Decision>
        requires { n ≤ 63 }
        ensures { IfSome result (λ d. IsTrue d.yes ↔ Forces goal White position.now n) }
    {
        let q = question(position, goal);
        decide_until(&self.slots, &mut self.seat, scout, &q, n)
    }

    /// White attacks, and nothing stops it.
    pub(crate) fn decide_on(&mut self, position: &Position, goal: Goal, n: u8) -> bool
        requires { n ≤ 63 }
        ensures { IsTrue result ↔ Forces goal White position.now n }
    {
        decide_on(&self.slots, &mut self.seat, &question(position, goal), n).yes
    }

    pub(crate) fn probe(&mut self, rt: &impl Abort, slot: usize, words: [u64; 3]) -> Probe {
        assert!(rt; slot < self.slots.len());
        self.slots.probe(&mut self.seat, slot, key_of(words))
    }

    pub(crate) fn store(&mut self, rt: &impl Abort, slot: usize, words: [u64; 3]) -> Store
        requires { IsTruePacking words }
    {
        assert!(rt; slot < self.slots.len());
        self.slots.store(&mut self.seat, slot, words)
    }
}

/// An entry of the position, for White and mate.
fn entry(position: &Position, interval: Interval) -> Entry
    ensures { result ≡ entry_of position.now White Mate interval }
{
    Entry {
        position: *position,
        attacker: Side::White,
        goal: Goal::Mate,
        interval,
    }
}

/// The words of a mate within m + 1 plies, and if `fewest` is asked for not within m, where the decisions say so.
fn words_of(
    position: &Position,
    m: u8,
    fewest: bool,
    within: Decision,
    fewer: Decision,
) -> Option<[u64; 3]>
    requires plies { m ≤ 62 }
    requires within { IsTrue within.yes ↔ Forces Mate White position.now (m + 1) }
    requires fewer { IsTrue fewer.yes ↔ Forces Mate White position.now m }
    ensures { IfSome result IsTruePacking }
{
    interval_laws();
    if !within.yes {
        return None;
    }
    let upto = Interval {
        below: 0,
        upto: Some(m + 1),
    };
    if !fewest {
        return Some(pack(&entry(position, upto)));
    }
    if fewer.yes {
        return None;
    }
    let below = Interval {
        below: m + 1,
        upto: None,
    };
    Some(pack(&entry(position, meet(upto, below))))
}

/// The words of a true entry: White forces mate within m + 1 plies, and if `fewest` is asked for not within m.
pub(crate) fn learnt(
    rt: &impl Abort,
    alloc: Global,
    position: &Position,
    m: u8,
    fewest: bool,
) -> [u64; 3]
    requires { m ≤ 62 }
    ensures { IsTruePacking result }
{
    let mut table = Table::make(rt, alloc, 64);
    let within = table.decide(position, Goal::Mate, m + 1);
    let fewer = table.decide(position, Goal::Mate, m);
    words_of(position, m, fewest, within, fewer).expect(rt, "a mate")
}

/// The words of an entry that says nothing of the position, so a true one.
pub(crate) fn nothing_of(position: &Position) -> [u64; 3]
    ensures { IsTruePacking result }
{
    pack(&entry(
        position,
        Interval {
            below: 0,
            upto: None,
        },
    ))
}
