//! What a gate is told of ends, and that what can't count any more isn't searched.
use crate::beginnings::{comes_above, count, counters};
use crate::lent_tables::{own_table, problem, table};
use crate::solves::{expected, read, root, solved};
use entry::MateLore;
use moves::Goal;
use problems::Answer;
use rounds::{Task, keys_over, solve_over};
use searcher::{Ended, Gate, Table};
use slots::{Seat, Slots};
use std::alloc::{AllocError, Global};
use std::process::Abort;
use std::sync::Wait;
use std::sync::atomic::{AtomicU64, Ordering};
use std::test::*;
use std::thread;
use std::thread::Threads;

// How often each of the root's 17 jobs is told to lose in rounds 1 and 3, how often to win, and how often a round is told.
#[derive(Drop)]
struct Ends {
    lost_first: Vec<AtomicU64>,
    lost_third: Vec<AtomicU64>,
    won_third: Vec<AtomicU64>,
    first_over: AtomicU64,
    all: AtomicU64,
}

impl Ends {
    fn new(alloc: Global) -> Result<Ends, AllocError> {
        Ok(Ends {
            lost_first: counters(alloc)?,
            lost_third: counters(alloc)?,
            won_third: counters(alloc)?,
            first_over: AtomicU64::new(0),
            all: AtomicU64::new(0),
        })
    }

    // The counter of what has ended, if there is one.
    fn counter(&self, round: u8, ended: Ended) -> Option<&AtomicU64> {
        match (round, ended) {
            (1, Ended::Loses(job)) => self.lost_first.get(usize::from(job)),
            (3, Ended::Loses(job)) => self.lost_third.get(usize::from(job)),
            (3, Ended::Wins(job)) => self.won_third.get(usize::from(job)),
            (1, Ended::Round) => Some(&self.first_over),
            _ => None,
        }
    }
}

impl Gate for Ends {
    fn begin(&self, _round: u8, _job: u16, _slots: &Slots<MateLore>, _seat: &mut Seat) {}

    fn end(&self, round: u8, ended: Ended) {
        self.all.fetch_add(1, Ordering::SeqCst);
        if let Some(counter) = self.counter(round, ended) {
            counter.fetch_add(1, Ordering::SeqCst);
        }
    }
}

// c4c5, job 15, wins in round 3. The last job isn't decided there where that is known by then.
#[test]
fn each_end_is_told_once(rt: HostRuntime) -> Result<(), Fail> {
    for workers in [1, 16] {
        let gate = Ends::new(rt.alloc())?;
        assert!(rt; solved(&rt, rt.alloc(), workers, 64, &gate) == expected());
        for job in 0..17 {
            assert!(rt; count(&gate.lost_first, job) == 1);
            assert!(rt; count(&gate.won_third, job) == u64::from(job == 15));
            assert!(rt; job >= 15 || count(&gate.lost_third, job) == 1);
        }
        let last = count(&gate.lost_third, 16);
        assert!(rt; last <= 1 && count(&gate.lost_third, 15) == 0);
        assert!(rt; gate.first_over.load(Ordering::SeqCst) == 1);
        assert!(rt; gate.all.load(Ordering::SeqCst) == 34 + last);
    }
    Ok(())
}

// Lists the keys within three plies, and expects that the gate is told of each end so many times: all jobs but c4c5 lose in both
// rounds, and no round is told.
fn expect_ends_of_keys<R: Threads + Wait + Abort + Sync>(
    rt: &R,
    alloc: Global,
    table: &mut Table,
    times: u64,
) -> Result<(), Fail> {
    let gate = Ends::new(alloc)?;
    let problem = problem(rt, &root(rt), Goal::Mate, 3);
    let task = Task {
        problem: &problem,
        slots: &table.slots,
        gate: &gate,
    };
    assert!(rt; keys_over(rt, alloc, &task, &mut table.seats).is_ok());
    for job in 0..17 {
        let (wins, loses) = if job == 15 { (times, 0) } else { (0, times) };
        assert!(rt; count(&gate.lost_first, job) == times);
        assert!(rt; count(&gate.lost_third, job) == loses);
        assert!(rt; count(&gate.won_third, job) == wins);
    }
    assert!(rt; gate.all.load(Ordering::SeqCst) == times.saturating_mul(34));
    Ok(())
}

// Each job by the thread that prepares it, and by the caller's own.
#[test]
fn each_end_of_the_keys_is_told_twice(rt: HostRuntime) -> Result<(), Fail> {
    expect_ends_of_keys(&rt, rt.alloc(), &mut table(&rt, rt.alloc(), 1, 64), 2)
}

#[test]
fn each_end_of_the_keys_of_one_seat_is_told_once(rt: HostRuntime) -> Result<(), Fail> {
    expect_ends_of_keys(&rt, rt.alloc(), &mut own_table(&rt, rt.alloc()), 1)
}

// How often jobs of round 3 are begun, and the greatest of them.
#[derive(Drop)]
struct Third {
    begun: AtomicU64,
    above: AtomicU64,
}

impl Gate for Third {
    fn begin(&self, round: u8, job: u16, _slots: &Slots<MateLore>, _seat: &mut Seat) {
        if round == 3 {
            self.begun.fetch_add(1, Ordering::SeqCst);
            if job > 15 {
                self.above.fetch_add(1, Ordering::SeqCst);
            }
        }
    }
}

// One thread takes the jobs in their order, so job 15 wins before the last is taken up.
#[test]
fn one_thread_begins_no_job_above_the_winner(rt: HostRuntime) {
    let gate = Third {
        begun: AtomicU64::new(0),
        above: AtomicU64::new(0),
    };
    let problem = problem(&rt, &root(&rt), Goal::Mate, 3);
    let Table { slots, mut seats } = own_table(&rt, rt.alloc());
    let task = Task {
        problem: &problem,
        slots: &slots,
        gate: &gate,
    };
    let answer = solve_over(&rt, rt.alloc(), &task, &mut seats);
    assert!(rt; answer == Ok(expected()));
    assert!(rt; gate.begun.load(Ordering::SeqCst) == 16);
    assert!(rt; gate.above.load(Ordering::SeqCst) == 0);
}

// In round 7 job 0 is held until job 1 has begun, and job 1 until job 0 has won.
#[derive(Drop)]
struct Overtaken {
    begun: AtomicU64,
    won: AtomicU64,
    decided: AtomicU64,
    gave_up: AtomicU64,
}

impl Overtaken {
    // Holds the job until the number is above 0.
    fn hold(&self, number: &AtomicU64) {
        if !comes_above(number, 0) {
            self.gave_up.fetch_add(1, Ordering::SeqCst);
        }
    }
}

impl Gate for Overtaken {
    fn begin(&self, round: u8, job: u16, _slots: &Slots<MateLore>, _seat: &mut Seat) {
        if round == 7 && job == 0 {
            self.hold(&self.begun);
        }
        if round == 7 && job == 1 {
            self.begun.fetch_add(1, Ordering::SeqCst);
            self.hold(&self.won);
            // that a job has won is told before the others can know it
            for _ in 0..10_000 {
                thread::yield_now();
            }
        }
    }

    fn end(&self, round: u8, ended: Ended) {
        match ended {
            Ended::Wins(0) => {
                self.won.fetch_add(1, Ordering::SeqCst);
            }
            Ended::Loses(1) if round == 7 => {
                self.decided.fetch_add(1, Ordering::SeqCst);
            }
            _ => {}
        }
    }
}

// a1b1, job 0, mates in seven plies and no fewer, as another program has it. Job 1 is begun by then, and is stopped.
#[test]
fn a_job_above_the_winner_is_stopped(rt: HostRuntime) {
    let position = read(&rt, b"2b2/4k/PRP2/5/Q3K w");
    let gate = Overtaken {
        begun: AtomicU64::new(0),
        won: AtomicU64::new(0),
        decided: AtomicU64::new(0),
        gave_up: AtomicU64::new(0),
    };
    let problem = problem(&rt, &position, Goal::Mate, 7);
    let Table { slots, mut seats } = table(&rt, rt.alloc(), 1, 4096);
    let task = Task {
        problem: &problem,
        slots: &slots,
        gate: &gate,
    };
    let answer = solve_over(&rt, rt.alloc(), &task, &mut seats);
    assert!(rt; matches!(answer, Ok(Answer::Mate { plies: 7, .. })));
    assert!(rt; gate.gave_up.load(Ordering::SeqCst) == 0);
    assert!(rt; gate.begun.load(Ordering::SeqCst) == 1 && gate.won.load(Ordering::SeqCst) == 1);
    assert!(rt; gate.decided.load(Ordering::SeqCst) == 0);
}
