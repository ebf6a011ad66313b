//! That a thread with no job left joins in a job that another thread has begun, and that threads that join end, each time.
use crate::solves::read;
use entry::MateLore;
use moves::{Goal, Move, Square};
use problems::Answer;
use rounds::solve;
use searcher::{Gate, NoGate};
use slots::{Seat, Slots};
use std::alloc::Global;
use std::process::Abort;
use std::sync::Wait;
use std::sync::atomic::{AtomicU64, Ordering};
use std::test::*;
use std::thread;
use std::thread::Threads;

// How often jobs of round 15 are begun, how often threads join in them, and how often one does so before the job's call of
// `begin` is over.
#[derive(Drop)]
struct Joins {
    begun: AtomicU64,
    joined: AtomicU64,
    early: AtomicU64,
}

impl Joins {
    fn new() -> Joins {
        Joins {
            begun: AtomicU64::new(0),
            joined: AtomicU64::new(0),
            early: AtomicU64::new(0),
        }
    }
}

impl Gate for Joins {
    fn begin(&self, round: u8, _job: u16, _slots: &Slots<MateLore>, _seat: &mut Seat) {
        if round != 15 {
            return;
        }
        // the other threads have time to find that no job is left
        for _ in 0..1_000 {
            thread::yield_now();
        }
        self.begun.fetch_add(1, Ordering::SeqCst);
    }

    fn join(&self, round: u8, job: u16) {
        if round != 15 {
            return;
        }
        self.joined.fetch_add(1, Ordering::SeqCst);
        if job != 0 || self.begun.load(Ordering::SeqCst) != 1 {
            self.early.fetch_add(1, Ordering::SeqCst);
        }
    }
}

// Whether a thread joins in one of several solves. White has one move, a4a3, as a second reading of the rules has it, and
// the pawns stand blocked for good, so nobody mates: each round has one job, which takes more than a moment.
fn some_thread_joins<R: Threads + Wait + Abort + Sync>(
    rt: &R,
    alloc: Global,
    workers: u8,
    slots: usize,
) -> bool {
    let position = read(rt, b"k5/1p4/KP4/1P4/6/6 w");
    for _ in 0..20 {
        let gate = Joins::new();
        let answer = solve(rt, alloc, &position, Goal::Mate, 15, workers, slots, &gate);
        assert!(rt; answer == Ok(Answer::NoneWithin(15)));
        assert!(rt; gate.begun.load(Ordering::SeqCst) == 1);
        assert!(rt; gate.early.load(Ordering::SeqCst) == 0);
        if gate.joined.load(Ordering::SeqCst) > 0 {
            return true;
        }
    }
    false
}

#[test]
fn a_thread_with_no_job_joins(rt: HostRuntime) {
    for workers in [1, 4] {
        assert!(rt; some_thread_joins(&rt, rt.alloc(), workers, 512));
    }
}

// Over a small table threads drive out what others found, so nobody joins.
#[test]
fn nobody_joins_over_a_small_table(rt: HostRuntime) {
    assert!(rt; !some_thread_joins(&rt, rt.alloc(), 2, 64));
}

// The mate takes five plies and is c1c5, as another program has it; so in round 5 threads have more jobs than one, of which all but one lose.
#[test]
fn threads_that_join_end_each_time(rt: HostRuntime) {
    let position = read(&rt, b"2qK1/3B1/1k1NQ/3b1/r1Q2 w");
    let first = Move {
        from: Square { file: 2, rank: 0 },
        to: Square { file: 2, rank: 4 },
        promotion: None,
    };
    for _ in 0..10 {
        for workers in [1, 3, 16] {
            let answer = solve(
                &rt,
                rt.alloc(),
                &position,
                Goal::Mate,
                5,
                workers,
                1024,
                &NoGate,
            );
            assert!(rt; answer == Ok(Answer::Mate { plies: 5, first }));
        }
    }
}
