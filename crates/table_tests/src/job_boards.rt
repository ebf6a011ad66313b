//! The sizes that a job board takes, and two callers of one: that a seat learns of a job which another lowered is in no clause.
ghost use Rattle.std.specs.Prelude.{◌≡◌, ◌⊎◌, ℕ, ◌<◌};
ghost use Rattle.jobs.specs.Promise.{IsJobSeatOf, JobWins};

use jobs::{JobSeat, Least, MakeFault, Wins};
use std::test::*;
use std::thread::{Threads, join, spawn};

// One job that wins.
#[derive(Drop)]
struct Only(u16);

impl Wins for Only {
    ghost wins = { λ only job. job ≡ only.0 };
}

// Two jobs that win.
#[derive(Drop)]
struct Either(u16, u16);

impl Wins for Either {
    ghost wins = { λ either job. (job ≡ either.0) ⊎ (job ≡ either.1) };
}

#[test]
fn sizes_out_of_range(rt: HostRuntime) {
    for (jobs, callers) in [(513, 1), (1, 0), (1, 18)] {
        let Err(fault) = Least::make(rt.alloc(), &Only(0), jobs, callers) else {
            panic!(rt; "made")
        };
        assert!(rt; fault == MakeFault::Size);
    }
}

// With no job lowered, the word is still the number of jobs.
#[test]
fn sizes_from_the_least_to_the_greatest(rt: HostRuntime) {
    for (jobs, callers) in [(0, 1), (6, 2), (300, 9), (512, 17)] {
        let Ok((least, mut seats)) = Least::make(rt.alloc(), &Only(3), jobs, callers) else {
            panic!(rt; "not made")
        };
        assert!(rt; seats.len() == usize::from(callers));
        let Some(seat) = seats.pop() else {
            panic!(rt; "no seat")
        };
        assert!(rt; least.finish(seat) == jobs);
    }
}

// Job 3 of six wins. Seat 1 lowers it, and seat 2 asks or not.
#[test]
fn another_seat_learns_of_the_job(rt: HostRuntime) {
    for asks in [true, false] {
        let Ok((least, mut seats)) = Least::make(rt.alloc(), &Only(3), 6, 2) else {
            panic!(rt; "not made")
        };
        let (Some(mut two), Some(mut one)) = (seats.pop(), seats.pop()) else {
            panic!(rt; "no seat")
        };
        least.lower(&mut one, 3);
        if asks {
            assert!(rt; least.is_below(&mut two, 5));
            assert!(rt; !least.is_below(&mut two, 3));
        }
        assert!(rt; least.finish(two) == 3);
    }
}

// Jobs 2 and 4 of six win, and are lowered in either order.
#[test]
fn the_lesser_job_stays(rt: HostRuntime) {
    for (first, second) in [(2, 4), (4, 2)] {
        let Ok((least, mut seats)) = Least::make(rt.alloc(), &Either(2, 4), 6, 2) else {
            panic!(rt; "not made")
        };
        let (Some(mut two), Some(mut one)) = (seats.pop(), seats.pop()) else {
            panic!(rt; "no seat")
        };
        least.lower(&mut one, first);
        least.lower(&mut two, second);
        assert!(rt; least.is_below(&mut one, 3) && !least.is_below(&mut one, 2));
        assert!(rt; least.finish(two) == 2);
    }
}

fn with_lowered<W: Wins>(least: &Least<W>, mut seat: JobSeat<W>, job: u16) -> JobSeat<W>
    requires seat { IsJobSeatOf least.now seat }
    requires wins { JobWins W.wins least.now job }
    ensures { IsJobSeatOf least.now result }
{
    least.lower(&mut seat, job);
    seat
}

// A thread for each seat, which lowers a job.
fn lowered_by_two<W: Wins + Send + Sync, R: Threads + Sync>(
    rt: &R,
    least: Least<W>,
    one: JobSeat<W>,
    two: JobSeat<W>,
    first: u16,
    second: u16,
) -> u16
    requires seats { IsJobSeatOf least one × IsJobSeatOf least two }
    requires wins { JobWins W.wins least first × JobWins W.wins least second }
{
    let board = &least;
    let (seat, _) = join(
        rt,
        move || -> JobSeat<W>
            requires { IsJobSeatOf board.now one × JobWins W.wins board.now first }
            ensures { IsJobSeatOf board.entry.now result }
        { with_lowered(board, one, first) },
        move || -> JobSeat<W>
            requires { IsJobSeatOf board.now two × JobWins W.wins board.now second }
        { with_lowered(board, two, second) },
    );
    least.finish(seat)
}

// Whether the system gives a thread: `join` makes its calls one after another where it doesn't.
fn starts_a_thread<R: Threads>(rt: &R) -> bool {
    match spawn(rt, || 7u8) {
        Ok(thread) => thread.join(rt) == 7,
        Err(_) => false,
    }
}

#[test]
fn two_threads_lower(rt: HostRuntime) {
    assert!(rt; starts_a_thread(&rt));
    for (first, second) in [(2, 4), (4, 2)] {
        let Ok((least, mut seats)) = Least::make(rt.alloc(), &Either(2, 4), 6, 2) else {
            panic!(rt; "not made")
        };
        let (Some(two), Some(one)) = (seats.pop(), seats.pop()) else {
            panic!(rt; "no seat")
        };
        assert!(rt; lowered_by_two(&rt, least, one, two, first, second) == 2);
    }
}
