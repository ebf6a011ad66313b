//! The keys of a position, searched by all threads.
ghost use Rattle.std.specs.Prelude.{◌≡◌, All, IfOk, length, vec_capacity};
ghost use Rattle.slots.specs.Promise.{IsSeatOf};
ghost use Rattle.problems.specs.Keys.{ListsKeys};
ghost use Rattle.problems.specs.Roots.{IsRoot};
ghost use Rattle.searcher.specs.Tables.{AreSeats, AreCallers};
ghost use Rattle.rounds.specs.Going.{SeatGoesOn, SeatsGoOn};

use crate::gated::Gated;
use crate::shared::Solve;
use crate::task::Task;
use problems::{Key, Root};
use searcher::{Decider, Gate, keys_of, plies_of};
use slots::Seat;
use std::alloc::{AllocError, Global};
use std::sync::Wait;
use std::sync::atomic::{AtomicU64, Ordering};
use std::thread;
use std::thread::Threads;

/// Decides jobs until all were taken by some thread: what it finds stands in the table alone.
fn decide_jobs<D: Decider>(decider: &mut D, root: &Root, next: &AtomicU64)
    requires { IsRoot root.now }
    ensures { D.goes decider.old decider.new }
{
    let jobs = root.jobs();
    for _ in 0..jobs {
        let Ok(job) = u16::try_from(next.fetch_add(1, Ordering::SeqCst)) else {
            return;
        };
        if jobs <= job {
            return;
        }
        let _ = plies_of(decider, root, job);
    }
}

/// All threads decide the jobs, each job by one of them. No answer rests on it.
fn prepare<T: Gate, R: Threads + Wait + Sync>(rt: &R, search: &Solve<'_, T>, seats: &mut Vec<Seat>)
    requires root { IsRoot search.now.root }
    requires seats { All (IsSeatOf search.now.slots.now) seats.old.items }
    ensures seats { AreSeats search.now.slots.now (length seats.old.items) seats.new.items }
    ensures capacity { vec_capacity seats.new ≡ vec_capacity seats.old }
    ensures go_on { SeatsGoOn T.keeps search.now.slots.now seats.old.items seats.new.items }
{
    let threads = seats.len();
    if threads < 2 {
        return;
    }
    let next = AtomicU64::new(0);
    thread::for_each_mut(
        rt,
        seats.as_mut_slice(),
        threads,
        &|_, seat: &mut Seat|
            requires { IsRoot search.now.root × IsSeatOf search.now.slots.now seat.now }
            ensures { IsSeatOf search.entry.now.slots.now seat.exit.now
                × SeatGoesOn T.keeps search.entry.now.slots.now seat.entry.now seat.exit.now }
        {
            let mut gated = Gated {
                slots: search.slots,
                seat,
                gate: search.gate,
            };
            decide_jobs(&mut gated, &search.root, &next)
        },
    );
}

/// All keys, decided by one seat.
fn own_keys<T: Gate>(
    alloc: Global,
    search: &Solve<'_, T>,
    seat: &mut Seat,
) -> Result<Vec<Key>, AllocError>
    requires root { IsRoot search.now.root }
    requires seat { IsSeatOf search.now.slots.now seat.old }
    ensures seat { IsSeatOf search.now.slots.now seat.new }
    ensures goes_on { SeatGoesOn T.keeps search.now.slots.now seat.old seat.new }
    ensures lists { IfOk result
        (λ keys. ListsKeys search.now.root.goal search.now.root.board search.now.root.limit keys.items) }
{
    let mut gated = Gated {
        slots: search.slots,
        seat,
        gate: search.gate,
    };
    match keys_of(alloc, &mut gated, &search.root) {
        Ok(keys) => Ok(keys),
        Err(_) => Err(AllocError),
    }
}

/// Each first move that forces the goal within the limit, in order, with the fewest plies that it takes:
/// searched by a thread for each seat of the task's table. After a want of memory the seats serve the next call. The
/// gate may be told of a job twice, by the thread that prepares it and by the caller's.
pub fn keys_over<T: Gate, R: Threads + Wait + Sync>(
    rt: &R,
    alloc: Global,
    task: &Task<'_, T>,
    seats: &mut Vec<Seat>,
) -> Result<Vec<Key>, AllocError>
    requires { AreCallers task.now.slots.now seats.old.items }
    ensures lists { IfOk result (λ keys. ListsKeys
        task.now.problem.now.goal task.now.problem.now.position task.now.problem.now.limit keys.items) }
    ensures seats { AreSeats task.now.slots.now (length seats.old.items) seats.new.items }
    ensures go_on { SeatsGoOn T.keeps task.now.slots.now seats.old.items seats.new.items }
{
    let search = Solve {
        root: Root::of(task.problem),
        slots: task.slots,
        gate: task.gate,
    };
    prepare(rt, &search, seats);
    let mut own = seats.take_last();
    let keys = own_keys(alloc, &search, &mut own);
    seats.push_reserved(own);
    keys
}
