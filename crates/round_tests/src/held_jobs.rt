//! Tests that no job is decided before its call of `Gate::begin` has returned, and that each job is begun once.
ghost use Rattle.slots.specs.Promise.{IsSeatOf};

use crate::beginnings::{comes_above, count, counters};
use crate::lent_tables::problem;
use crate::solves::read;
use entry::{Interval, MateLore, interval_of, key_of, pack_board, slot_of};
use moves::Goal;
use problems::{Answer, Root};
use rounds::solve;
use searcher::{Ended, Gate};
use slots::{Probe, Seat, Slots};
use std::alloc::Global;
use std::process::Abort;
use std::sync::Wait;
use std::sync::atomic::{AtomicU64, Ordering};
use std::test::*;
use std::thread;
use std::thread::Threads;

// Returns whether a reply settles whether the goal is forced within this number of plies.
fn settles(reply: Probe, plies: u8) -> bool {
    let Probe::Hit(words) = reply else {
        return false;
    };
    match interval_of(words) {
        Some(known) => plies < known.below || known.upto.is_some_and(|upto| upto <= plies),
        None => false,
    }
}

// Returns whether the table settles the key's position within this number of plies, in one of the key's two slots.
fn is_answered(slots: &Slots<MateLore>, seat: &mut Seat, key: [u64; 3], plies: u8) -> bool
    requires { IsSeatOf slots.now seat.old }
    ensures { IsSeatOf slots.now seat.new }
{
    let count = slots.len();
    if count == 0 {
        return false;
    }
    let first = slot_of(&key, count) / 2 * 2;
    if settles(slots.probe(seat, first, key), plies) {
        return true;
    }
    first + 1 < count && settles(slots.probe(seat, first + 1, key), plies)
}

// Returns the key of the position after a job's move.
fn key_after(rt: &impl Abort, root: &Root, job: usize) -> [u64; 3] {
    let Some(m) = root.moves.get(job) else {
        panic!(rt; "no such job")
    };
    let Some(q) = root.question().after_if_lawful(*m) else {
        panic!(rt; "no lawful move")
    };
    let nothing = Interval {
        below: 0,
        upto: None,
    };
    key_of(pack_board(&q.position, q.attacker, q.goal, nothing))
}

// A gate that holds one job of a round in `begin` until the round's other jobs have ended, and then for some turns more.
#[derive(Drop)]
struct Held {
    round: u8,
    job: u16,
    key: [u64; 3],
    turns: u32,
    // How often each job of the round is begun.
    begun: Vec<AtomicU64>,
    // How often each job's end is reported.
    ended: Vec<AtomicU64>,
    // How many ends are reported.
    ends: AtomicU64,
    // How often the job had an answer or an end while it was held.
    early: AtomicU64,
}

impl Held {
    fn new(rt: &impl Abort, alloc: Global, root: &Root, round: u8, job: u16, turns: u32) -> Held {
        Held {
            round,
            job,
            key: key_after(rt, root, usize::from(job)),
            turns,
            begun: counters(alloc).expect(rt, "memory"),
            ended: counters(alloc).expect(rt, "memory"),
            ends: AtomicU64::new(0),
            early: AtomicU64::new(0),
        }
    }

    // Returns whether each of the root's 11 jobs was begun once and ended once, and the held one not before it was released.
    fn is_kept(&self) -> bool {
        let mut kept = self.early.load(Ordering::SeqCst) == 0;
        for job in 0..11 {
            kept = kept && count(&self.begun, job) == 1 && count(&self.ended, job) == 1;
        }
        kept && self.ends.load(Ordering::SeqCst) == 11
    }
}

impl Gate for Held {
    fn begin(&self, round: u8, job: u16, slots: &Slots<MateLore>, seat: &mut Seat) {
        if round != self.round {
            return;
        }
        if let Some(begun) = self.begun.get(usize::from(job)) {
            begun.fetch_add(1, Ordering::SeqCst);
        }
        if job != self.job {
            return;
        }
        let others = comes_above(&self.ends, 9);
        for _ in 0..self.turns {
            thread::yield_now();
        }
        let answered = is_answered(slots, seat, self.key, self.round.saturating_sub(1));
        if !others || answered || count(&self.ended, usize::from(job)) != 0 {
            self.early.fetch_add(1, Ordering::SeqCst);
        }
    }

    fn end(&self, round: u8, ended: Ended) {
        if round != self.round {
            return;
        }
        let (Ended::Wins(job) | Ended::Loses(job)) = ended else {
            return;
        };
        if let Some(times) = self.ended.get(usize::from(job)) {
            times.fetch_add(1, Ordering::SeqCst);
        }
        self.ends.fetch_add(1, Ordering::SeqCst);
    }
}

// White has 11 lawful moves, as a second reading of the rules has it, and mates in nine plies and no fewer, as another
// program has it: so no job of rounds 5 and 7 wins, and each is begun and ends. Each is held in turn.
fn hold_each<R: Threads + Wait + Abort + Sync>(
    rt: &R,
    alloc: Global,
    limit: u8,
    workers: u8,
    slots: usize,
) {
    let position = read(rt, b"6/p1P3/N4p/k5/6/4K1 w");
    let root = Root::of(&problem(rt, &position, Goal::Mate, limit));
    for job in 0..11 {
        let gate = Held::new(rt, alloc, &root, limit, job, 2_000);
        let answer = solve(
            rt,
            alloc,
            &position,
            Goal::Mate,
            limit,
            workers,
            slots,
            &gate,
        );
        assert!(rt; answer == Ok(Answer::NoneWithin(limit)));
        assert!(rt; gate.is_kept());
    }
}

#[test]
fn no_job_of_five_plies_is_decided_before_it_is_begun(rt: HostRuntime) {
    for workers in [2, 4, 16] {
        hold_each(&rt, rt.alloc(), 5, workers, 512);
        hold_each(&rt, rt.alloc(), 5, workers, 4096);
    }
}

#[test]
fn no_job_of_seven_plies_is_decided_before_it_is_begun(rt: HostRuntime) {
    for workers in [2, 4, 16] {
        hold_each(&rt, rt.alloc(), 7, workers, 512);
        hold_each(&rt, rt.alloc(), 7, workers, 4096);
    }
}

fn hold_each_over_a_large_table<R: Threads + Wait + Abort + Sync>(
    rt: &R,
    alloc: Global,
    workers: u8,
) {
    hold_each(rt, alloc, 5, workers, 1_048_573);
    hold_each(rt, alloc, 7, workers, 1_048_573);
}

#[test]
fn no_job_is_decided_before_two_workers_begin_it_over_a_large_table(rt: HostRuntime) {
    hold_each_over_a_large_table(&rt, rt.alloc(), 2);
}

#[test]
fn no_job_is_decided_before_four_workers_begin_it_over_a_large_table(rt: HostRuntime) {
    hold_each_over_a_large_table(&rt, rt.alloc(), 4);
}

#[test]
fn no_job_is_decided_before_sixteen_workers_begin_it_over_a_large_table(rt: HostRuntime) {
    hold_each_over_a_large_table(&rt, rt.alloc(), 16);
}
