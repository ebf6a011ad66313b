//! The deques of a round: each task is a job of the round.
ghost use Rattle.std.specs.Prelude.{◌≡◌, ℕ, ◌+◌, ◌<◌, ◌≤◌, ◌++◌, [], All, IfSome, IfOk};
ghost use Rattle.crossbeam_deque.specs.Handles.{worker_view};
ghost use Rattle.crossbeam_deque.specs.Steals.{MatchSteal};
ghost use Rattle.jobs.specs.Deals.{Deals};

use crossbeam_deque::protocol::{Outcome, Protocol};
use crossbeam_deque::{Steal, Stealer, Worker};
use std::alloc::{AllocError, Global};
use std::collections::LinkedList;
use std::marker::{Brand, PhantomData};
use std::sync::Wait;
use std::thread;

/// How many jobs a round has: each call of `round` picks it, since a deque's rule can name no value.
pub trait Count {
    ghost jobs: { ℕ };
}

impl Count for Brand {
    ghost jobs = { 0 };
}

/// The jobs that a deque's owner has put on it, in order. No value of it is made.
type Put = LinkedList<u16>;

/// The rule of a deque: each task is a job of the round.
pub struct Jobs<J> {
    of: PhantomData<J>,
}

impl<J: Count> Protocol<u16, Put> for Jobs<J> {
    ghost holds = { λ items _. All (λ x. x < J.jobs) items };

    ghost first = { [] };

    ghost guest = { [] };
}

/// A job is put.
struct Puts;

impl Outcome<u16, Put> for Puts {
    ghost then = { λ before xs after. after ≡ before ++ xs };
}

/// A job is taken.
struct Takes<J> {
    of: PhantomData<J>,
}

impl<J: Count> Outcome<u16, Put> for Takes<J> {
    ghost then = { λ _ xs _. All (λ x. x < J.jobs) xs };
}

/// A deque of jobs, in the hands of the thread that they were dealt to.
pub type Owner<J> = Worker<u16, Global, Put, Jobs<J>>;

/// What steals jobs from such a deque.
pub type Thief<J> = Stealer<u16, Global, Put, Jobs<J>>;

/// A deque with the jobs `from`, `from + step`, `from + 2 * step` and so on.
pub fn deal<J: Count>(
    alloc: Global,
    from: u16,
    step: u16,
    count: u16,
) -> Result<Owner<J>, AllocError>
    requires step { (0 < step) × (step ≤ 512) }
    requires few { count ≤ 512 }
    requires jobs { count ≡ J.jobs }
    ensures { IfOk result (λ owner. Deals step count from (worker_view owner)) }
{
    let mut local = Owner::fifo_as(alloc, usize::from(count))?;
    let mut job = from;
    while job < count {
        let Ok(()) = local.push_as::<Puts>(job) else {
            unreachable!()
        };
        job += step;
    }
    Ok(local)
}

/// A job of another thread's deque, without waiting.
fn steal<J: Count>(thief: &Thief<J>) -> Steal<u16>
    ensures { MatchSteal result (Unit {0}) (Unit {0}) (λ x. x < J.jobs) }
{
    let mut pass = thief.pass();
    thief.steal_as::<Takes<J>>(&mut pass)
}

/// A job that some thief finds. `None` where each deque was found empty.
fn steal_any<J: Count, R: Wait>(rt: &R, thieves: &Vec<Thief<J>>) -> Option<u16>
    ensures { IfSome result (λ x. x < J.jobs) }
{
    for _ in rt.forever() {
        let mut again = false;
        for thief in thieves {
            match steal(thief) {
                Steal::Success(job) => return Some(job),
                Steal::Retry => again = true,
                Steal::Empty => {}
            }
        }
        if !again {
            return None;
        }
        thread::yield_now();
    }
    unreachable!()
}

/// A job of one's own deque, or else one that is stolen.
pub fn next_job<J: Count, R: Wait>(
    rt: &R,
    local: &mut Owner<J>,
    thieves: &Vec<Thief<J>>,
) -> Option<u16>
    ensures { IfSome result (λ x. x < J.jobs) }
{
    match local.pop_as::<Takes<J>>() {
        Some(job) => Some(job),
        None => steal_any(rt, thieves),
    }
}
