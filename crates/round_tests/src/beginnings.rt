//! That each job is begun once, and by more than one thread.
use crate::lent_tables::{problem, table};
use crate::solves::{expected, read, root, solved};
use entry::MateLore;
use moves::Goal;
use problems::Answer;
use rounds::{Task, keys_over, solve};
use searcher::{Gate, Table};
use slots::{Seat, Slots};
use std::alloc::{AllocError, Global};
use std::process::Abort;
use std::sync::Wait;
use std::sync::atomic::{AtomicBool, AtomicU64, Ordering};
use std::test::*;
use std::thread;
use std::thread::Threads;

// How often each of the root's 17 jobs is begun in rounds 1 and 3, and how often any is.
#[derive(Drop)]
struct Record {
    first: Vec<AtomicU64>,
    third: Vec<AtomicU64>,
    all: AtomicU64,
}

pub(crate) fn counters(alloc: Global) -> Result<Vec<AtomicU64>, AllocError> {
    let mut row = Vec::with_capacity(alloc, 17)?;
    for _ in 0..17 {
        row.push(AtomicU64::new(0))?;
    }
    Ok(row)
}

pub(crate) fn count(row: &Vec<AtomicU64>, job: usize) -> u64 {
    match row.get(job) {
        Some(begun) => begun.load(Ordering::SeqCst),
        None => 99,
    }
}

impl Gate for Record {
    fn begin(&self, round: u8, job: u16, _slots: &Slots<MateLore>, _seat: &mut Seat) {
        self.all.fetch_add(1, Ordering::SeqCst);
        let row = if round == 1 { &self.first } else { &self.third };
        if let Some(begun) = row.get(usize::from(job)) {
            begun.fetch_add(1, Ordering::SeqCst);
        }
    }
}

#[test]
fn each_job_is_begun_once(rt: HostRuntime) -> Result<(), Fail> {
    for workers in [1, 2, 16] {
        let gate = Record {
            first: counters(rt.alloc())?,
            third: counters(rt.alloc())?,
            all: AtomicU64::new(0),
        };
        assert!(rt; solved(&rt, rt.alloc(), workers, 64, &gate) == expected());
        for job in 0..17 {
            assert!(rt; count(&gate.first, job) == 1);
        }
        for job in 0..16 {
            assert!(rt; count(&gate.third, job) == 1);
        }
        let last = count(&gate.third, 16);
        assert!(rt; last <= 1 && gate.all.load(Ordering::SeqCst) == 33 + last);
    }
    Ok(())
}

// How often each of the root's 11 jobs is begun in round 5.
#[derive(Drop)]
struct FifthRound {
    begun: Vec<AtomicU64>,
}

impl Gate for FifthRound {
    fn begin(&self, round: u8, job: u16, _slots: &Slots<MateLore>, _seat: &mut Seat) {
        if round != 5 {
            return;
        }
        if let Some(begun) = self.begun.get(usize::from(job)) {
            begun.fetch_add(1, Ordering::SeqCst);
        }
    }
}

// White has 11 lawful moves, as a second reading of the rules has it, and mates in nine plies and no fewer,
// as another program has it: so no job of round 5 wins, and none is left out or stopped.
#[test]
fn each_job_of_a_round_that_is_lost_is_begun_once(rt: HostRuntime) -> Result<(), Fail> {
    let position = read(&rt, b"6/p1P3/N4p/k5/6/4K1 w");
    for workers in [1, 4] {
        let gate = FifthRound {
            begun: counters(rt.alloc())?,
        };
        let answer = solve(
            &rt,
            rt.alloc(),
            &position,
            Goal::Mate,
            9,
            workers,
            64,
            &gate,
        );
        assert!(rt; matches!(answer, Ok(Answer::Mate { plies: 9, .. })));
        for job in 0..11 {
            assert!(rt; count(&gate.begun, job) == 1);
        }
        assert!(rt; count(&gate.begun, 11) == 0);
    }
    Ok(())
}

// Waits until the number is greater than this, for so many turns at most. Whether it came.
pub(crate) fn comes_above(number: &AtomicU64, least: u64) -> bool {
    for _ in 0..1_000_000 {
        if number.load(Ordering::SeqCst) > least {
            return true;
        }
        thread::yield_now();
    }
    false
}

// Until when a job that is begun in round 1 is held.
#[derive(Clone, Copy)]
enum Until {
    // So many others have begun.
    Others(u64),
    // Its partner has: the second is the first's, the fourth the third's, and so on.
    Partner,
    // A second one has, where it is the first.
    Second,
    // All others have, where it is the first.
    All,
    // All others have, where it has this number.
    AllOf(u16),
}

// How many of the 17 jobs have begun before it, at least, when the job is let go; it has so many before it.
fn awaited(until: Until, job: u16, before: u64) -> u64 {
    match until {
        Until::Others(others) => others,
        Until::Partner if before < 16 && before % 2 == 0 => before + 1,
        Until::Second if before == 0 => 1,
        Until::All if before == 0 => 16,
        Until::AllOf(held) if job == held => 16,
        _ => 0,
    }
}

// Holds the jobs of round 1, and notes the size of the table.
#[derive(Drop)]
struct Hold {
    until: Until,
    begun: AtomicU64,
    slots: AtomicU64,
    gave_up: AtomicBool,
}

impl Gate for Hold {
    fn begin(&self, round: u8, job: u16, slots: &Slots<MateLore>, _seat: &mut Seat) {
        if round != 1 {
            return;
        }
        self.slots.store(slots.len() as u64, Ordering::SeqCst);
        let before = self.begun.fetch_add(1, Ordering::SeqCst);
        if !comes_above(&self.begun, awaited(self.until, job, before)) {
            self.gave_up.store(true, Ordering::SeqCst);
        }
    }
}

impl Hold {
    // No job has begun.
    fn new(until: Until) -> Hold {
        Hold {
            until,
            begun: AtomicU64::new(0),
            slots: AtomicU64::new(0),
            gave_up: AtomicBool::new(false),
        }
    }

    // Whether all jobs could be held so long, and the table had this size.
    fn is_kept(&self, slots: usize) -> bool {
        !self.gave_up.load(Ordering::SeqCst) && self.slots.load(Ordering::SeqCst) == slots as u64
    }
}

// Whether all jobs could be held so long, in a solve over a table of the size asked.
fn held<R: Threads + Wait + Abort + Sync>(
    rt: &R,
    alloc: Global,
    workers: u8,
    slots: usize,
    until: Until,
) -> bool {
    let gate = Hold::new(until);
    solved(rt, alloc, workers, slots, &gate) == expected() && gate.is_kept(slots)
}

// A thread that holds a job begins no other, so each is held by its own: by a worker, or by the caller's.
#[test]
fn each_thread_holds_a_job_at_once(rt: HostRuntime) {
    for (workers, slots) in [(1, 64), (2, 1), (16, 64)] {
        let others = Until::Others(u64::from(workers));
        assert!(rt; held(&rt, rt.alloc(), workers, slots, others));
    }
}

// The first job that is begun, whichever it is, is held until another thread has begun a second one.
#[test]
fn the_first_job_is_held_until_a_second_has_begun(rt: HostRuntime) {
    assert!(rt; held(&rt, rt.alloc(), 2, 64, Until::Second));
}

#[test]
fn a_thread_goes_on_after_its_first_job(rt: HostRuntime) {
    assert!(rt; held(&rt, rt.alloc(), 1, 64, Until::Partner));
}

// One of two threads is held at its first job: the other begins all that were dealt to either.
#[test]
fn the_jobs_of_a_thread_that_is_held_are_stolen(rt: HostRuntime) {
    assert!(rt; held(&rt, rt.alloc(), 1, 64, Until::All));
}

// The jobs 0, 1 and 2 are the first that are dealt to each of three threads. Whichever of these is held at its own, or another that
// has stolen it, the rest begin all others: so they look for jobs at each thread.
#[test]
fn jobs_are_stolen_from_each_thread(rt: HostRuntime) {
    for (workers, job) in [(1, 0), (1, 1), (2, 2)] {
        assert!(rt; held(&rt, rt.alloc(), workers, 64, Until::AllOf(job)));
    }
}

// The keys are searched by a thread for each seat too: each of them is held at a job.
#[test]
fn each_thread_holds_a_job_of_the_keys_at_once(rt: HostRuntime) {
    let problem = problem(&rt, &root(&rt), Goal::Mate, 3);
    for workers in [1, 2, 16] {
        let gate = Hold::new(Until::Others(u64::from(workers)));
        let Table { slots, mut seats } = table(&rt, rt.alloc(), workers, 64);
        let task = Task {
            problem: &problem,
            slots: &slots,
            gate: &gate,
        };
        let keys = keys_over(&rt, rt.alloc(), &task, &mut seats).expect(&rt, "keys");
        assert!(rt; keys.len() == 1 && gate.is_kept(64));
        // each job by one of the threads, and again by the caller's own
        assert!(rt; gate.begun.load(Ordering::SeqCst) == 34);
    }
}
