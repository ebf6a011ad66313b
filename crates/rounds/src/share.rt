//! What one thread has in a round, and does.
ghost use Rattle.std.specs.Prelude.{◌≡◌, ◌<◌, ◌↔◌, IsTrue, IfSome, None, false};
ghost use Rattle.jobs.specs.Promise.{least_known};
ghost use Rattle.rounds.specs.declared.job_state.JobState.TheVariants.{Begun};

use crate::job_state::JobState;
use crate::shared::{JobStop, Round};
use crate::telling::job_ended;
use decision::{Memory, Scout, decide_until};
use jobs::{Count, Owner, Thief, next_job};
use searcher::Gate;
use slots::Seat;
use std::sync::Wait;
use std::thread;

/// What is known of a job in a round.
#[derive(Clone, Copy)]
pub(crate) enum Verdict {
    /// Nothing.
    Open,
    Wins,
    Loses,
}

/// A thread's share of a round: its deque, what leads its searches, what it found of each job, and its seat.
#[derive(Drop)]
pub(crate) struct Share<'a, J: Count> {
    pub local: Owner<J>,
    pub scout: Scout<JobStop<'a>>,
    pub row: Vec<Verdict>,
    pub seat: Seat,
}

/// What a thread remembers at first: the caller's, 0, nothing, and each other one wins by chance, so that threads at one job search it in
/// orders of their own.
pub(crate) fn memory_of(thread: u16) -> Memory {
    if thread == 0 {
        return Memory::new();
    }
    let mut won = [0; 1296];
    let mut word = u64::from(thread);
    for pair in 0..1296 {
        word = word
            .wrapping_mul(6_364_136_223_846_793_005)
            .wrapping_add(1_442_695_040_888_963_407);
        won[pair] = word.to_be_bytes()[0];
    }
    Memory::of(won)
}

impl<J: Count> Share<'_, J> {
    ghost use Rattle.std.specs.Prelude.{◌<◌};
    ghost use Rattle.decision.specs.Calls.{Continues};
    ghost use Rattle.rounds.specs.Joining.{IsJoined};
    ghost use Rattle.rounds.specs.Shares.{IsShare, WinsHere};
    ghost use Rattle.rounds.specs.Going.{SeatGoesOn};

    /// Writes down whether the job wins, and tells the threads that joined in it that it has its answer.
    fn note<T: Gate>(&mut self, round: &Round<'_, T>, job: u16, yes: bool)
        requires share { IsShare J.jobs round.now self.old }
        requires job { job < J.jobs }
        requires right { IsTrue yes ↔ WinsHere round.now job }
        ensures share { IsShare J.jobs round.now self.new }
        ensures seat { self.new.seat ≡ self.old.seat }
    {
        let stop = &mut self.scout.stop;
        stop.set(JobState::Answered);
        if yes {
            round.least.lower(&mut stop.seat, job);
            self.row[usize::from(job)] = Verdict::Wins;
        } else {
            self.row[usize::from(job)] = Verdict::Loses;
        }
    }

    /// Returns whether a job below this one is known to win.
    fn is_above_winner<T: Gate>(&mut self, round: &Round<'_, T>, job: u16) -> bool
        requires share { IsShare J.jobs round.now self.old }
        requires job { job < J.jobs }
        ensures share { IsShare J.jobs round.now self.new }
        ensures seat { self.new.seat ≡ self.old.seat }
        ensures below { IsTrue result ↔ (least_known self.new.scout.stop.seat < job) }
    {
        let stop = &mut self.scout.stop;
        round.least.is_below(&mut stop.seat, job)
    }

    /// Searches a job until it has the answer, a job below it is known to win or, where asked, another thread has the answer.
    fn search<T: Gate>(
        &mut self,
        round: &Round<'_, T>,
        job: u16,
        stops_at_answer: bool,
    ) -> Option<bool>
        requires share { IsShare J.jobs round.now self.old }
        requires job { job < J.jobs }
        ensures share { IsShare J.jobs round.now self.new }
        ensures continues { Continues round.now.search.now.slots.now self.old.seat self.new.seat }
        ensures right { IfSome result (λ yes. IsTrue yes ↔ WinsHere round.now job) }
        ensures job { self.new.scout.stop.job ≡ job }
        ensures open { stops_at_answer ≡ false → result ≡ None → least_known self.new.scout.stop.seat < job }
    {
        let stop = &mut self.scout.stop;
        stop.job = job;
        stop.stops_at_answer = stops_at_answer;
        let (slots, plies) = (round.search.slots, round.plies - 1);
        let q = round.search.root.question_of(job);
        let decision = decide_until(slots, &mut self.seat, &mut self.scout, &q, plies)?;
        Some(decision.yes)
    }

    /// Decides a job that this thread has begun, unless a job below it is known to win. Where a thread that joined has the
    /// answer first, the search stops and looks it up in the table; where the table has lost it, the search goes on.
    fn decide<T: Gate>(&mut self, round: &Round<'_, T>, job: u16) -> Option<bool>
        requires share { IsShare J.jobs round.now self.old }
        requires job { job < J.jobs }
        ensures share { IsShare J.jobs round.now self.new }
        ensures continues { Continues round.now.search.now.slots.now self.old.seat self.new.seat }
        ensures right { IfSome result (λ yes. IsTrue yes ↔ WinsHere round.now job) }
        ensures open { result ≡ None → least_known self.new.scout.stop.seat < job }
    {
        if let Some(yes) = self.search(round, job, true) {
            return Some(yes);
        }
        if self.is_above_winner(round, job) {
            return None;
        }
        self.search(round, job, false)
    }

    /// Begins a job and decides it, unless a job below it is known to win by then. The gate learns of both.
    fn take_up<T: Gate>(&mut self, round: &Round<'_, T>, job: u16)
        requires share { IsShare J.jobs round.now self.old }
        requires job { job < J.jobs }
        ensures share { IsShare J.jobs round.now self.new }
        ensures goes_on { SeatGoesOn T.keeps round.now.search.now.slots.now self.old.seat self.new.seat }
    {
        if self.is_above_winner(round, job) {
            return;
        }
        let (slots, gate) = (round.search.slots, round.search.gate);
        gate.begin(round.plies, job, slots, &mut self.seat);
        round.states.set(job, JobState::Begun);
        let Some(yes) = self.decide(round, job) else {
            return;
        };
        self.note(round, job, yes);
        gate.end(round.plies, job_ended(job, yes));
    }

    /// Searches a job beside the thread that has begun it, so that the table has its answer sooner. The thread that began the
    /// job decides it.
    fn join<T: Gate>(&mut self, round: &Round<'_, T>, job: u16, state: JobState)
        requires share { IsShare J.jobs round.now self.old }
        requires job { job < J.jobs }
        requires joined { IsJoined round.now.search.now round.now.plies }
        requires begun { state ≡ Begun }
        ensures share { IsShare J.jobs round.now self.new }
        ensures continues { Continues round.now.search.now.slots.now self.old.seat self.new.seat }
    {
        let _ = state;
        round.search.gate.join(round.plies, job);
        if self.search(round, job, true).is_some() {
            self.scout.stop.set(JobState::Answered);
        }
    }

    /// Joins in a job, if it is begun and not answered. Returns whether it waits to be begun.
    fn join_if_begun<T: Gate>(&mut self, round: &Round<'_, T>, job: u16) -> bool
        requires share { IsShare J.jobs round.now self.old }
        requires job { job < J.jobs }
        requires joined { IsJoined round.now.search.now round.now.plies }
        ensures share { IsShare J.jobs round.now self.new }
        ensures continues { Continues round.now.search.now.slots.now self.old.seat self.new.seat }
    {
        match round.states.get(job) {
            JobState::Waiting => true,
            JobState::Begun => {
                self.join(round, job, JobState::Begun);
                false
            }
            JobState::Answered => false,
        }
    }

    /// Joins, by number, in each job that is begun and not answered, up to the least job known to win. Returns whether a job
    /// waits to be begun.
    fn join_begun<T: Gate>(&mut self, round: &Round<'_, T>) -> bool
        requires share { IsShare J.jobs round.now self.old }
        requires joined { IsJoined round.now.search.now round.now.plies }
        ensures share { IsShare J.jobs round.now self.new }
        ensures continues { Continues round.now.search.now.slots.now self.old.seat self.new.seat }
    {
        let mut some_wait = false;
        for job in 0..round.search.root.jobs() {
            if self.is_above_winner(round, job) {
                break;
            }
            if self.join_if_begun(round, job) {
                some_wait = true;
            }
        }
        some_wait
    }

    /// Joins in the jobs of other threads, until none is left that may count.
    fn join_all<T: Gate, R: Wait>(&mut self, rt: &R, round: &Round<'_, T>)
        requires { IsShare J.jobs round.now self.old }
        ensures share { IsShare J.jobs round.now self.new }
        ensures continues { Continues round.now.search.now.slots.now self.old.seat self.new.seat }
    {
        if !round.search.is_joined(round.plies) {
            return;
        }
        for _ in rt.forever() {
            if !self.join_begun(round) {
                return;
            }
            thread::yield_now();
        }
    }

    /// Takes up one job after another, until none is found, and then joins in those of other threads.
    pub(crate) fn work<T: Gate, R: Wait>(
        &mut self,
        rt: &R,
        round: &Round<'_, T>,
        thieves: &Vec<Thief<J>>,
    )
        requires { IsShare J.jobs round.now self.old }
        ensures share { IsShare J.jobs round.now self.new }
        ensures goes_on { SeatGoesOn T.keeps round.now.search.now.slots.now self.old.seat self.new.seat }
    {
        for _ in rt.forever() {
            let Some(job) = next_job(rt, &mut self.local, thieves) else {
                break;
            };
            self.take_up(round, job);
        }
        self.join_all(rt, round);
    }
}
