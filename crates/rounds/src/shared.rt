//! What is solved, how its jobs are decided, what all threads of a round read, and what stops and orders the search of a job.
ghost use Rattle.std.specs.Prelude.{◌≡◌, ◌↔◌, IsTrue, length};
ghost use Rattle.jobs.specs.Promise.{IsJobSeatOf};
ghost use Rattle.rounds.specs.Joining.{IsJoined};

use crate::job_state::{JobState, JobStates};
use board::Position;
use decision::{Stop, Underway};
use entry::MateLore;
use jobs::{JobSeat, Least, Wins};
use moves::Goal;
use problems::Root;
use searcher::Gate;
use slots::Slots;

/// The jobs that win in a round: those whose moves win within so many plies.
#[derive(Drop)]
pub(crate) struct RootJobs {
    pub position: Position,
    pub goal: Goal,
    pub plies: u8,
}

impl Wins for RootJobs {
    ghost use Rattle.problems.specs.Jobs.{RootJobWins};

    ghost wins = { λ w job. RootJobWins w.goal w.position w.plies job };
}

/// What all rounds of a solve share.
#[derive(Drop)]
pub(crate) struct Solve<'a, T: Gate> {
    pub root: Root,
    pub slots: &'a Slots<MateLore>,
    pub gate: &'a T,
}

/// The fewest plies of a round in which threads join in jobs: below, a job is over before its moves are made.
const JOINED_FROM: u8 = 5;

/// The fewest slots over which threads join: in a smaller table they drive out what the others have found.
const JOINED_OVER: usize = 512;

impl<T: Gate> Solve<'_, T> {
    /// Returns whether threads join in jobs of a round of this number of plies.
    pub(crate) fn is_joined(&self, plies: u8) -> bool
        ensures { IsTrue result ↔ IsJoined self.now plies }
    {
        JOINED_FROM <= plies && JOINED_OVER <= self.slots.len()
    }
}

/// What all threads of a round read.
#[derive(Drop)]
pub(crate) struct Round<'a, T: Gate> {
    pub search: &'a Solve<'a, T>,
    pub plies: u8,
    /// The least job known to win.
    pub least: &'a Least<RootJobs>,
    /// How far each job is.
    pub states: &'a JobStates,
    /// Which positions are searched, where moves to these are put off.
    pub underway: &'a Option<Underway>,
}

/// Stops the search of a job once a job below it is known to win and, where asked, once some thread has the job's answer: the
/// round's words, a thread's seat of the least job known to win, and the job that the thread searches.
#[derive(Drop)]
pub(crate) struct JobStop<'a> {
    pub least: &'a Least<RootJobs>,
    pub states: &'a JobStates,
    pub underway: &'a Option<Underway>,
    pub seat: JobSeat<RootJobs>,
    pub jobs: u16,
    pub job: u16,
    /// Whether the search also stops once some thread has the job's answer.
    pub stops_at_answer: bool,
    ghost belongs: { IsJobSeatOf least.now seat },
    ghost of_board: { jobs ≡ least.now.jobs },
    ghost each: { length states.now.words.items ≡ jobs },
}

impl JobStop<'_> {
    /// Sets the state of the thread's job.
    pub(crate) fn set(&self, state: JobState) {
        if self.job < self.jobs {
            self.states.set(self.job, state);
        }
    }

    /// Returns whether some thread has the job's answer, where the search stops at that.
    fn is_answered(&self) -> bool
        ensures { IsTrue result → IsTrue self.now.stops_at_answer }
    {
        self.stops_at_answer
            && self.job < self.jobs
            && matches!(self.states.get(self.job), JobState::Answered)
    }
}

impl Stop for JobStop<'_> {
    ghost use Rattle.std.specs.Prelude.{◌<◌, ◌≤◌, false};
    ghost use Rattle.std.proofs.Common.{◌∙◌, refl, rules};
    ghost use Rattle.jobs.specs.Promise.{least_known};

    ghost told = { λ s. s.stops_at_answer ≡ false → least_known s.seat < s.job };

    ghost stays = { λ a b. (b.least.now ≡ a.least.now) × (b.job ≡ a.job)
        × (least_known b.seat ≤ least_known a.seat) × (b.stops_at_answer ≡ a.stops_at_answer) };

    fn is_set(&mut self) -> bool {
        if self.jobs <= self.job {
            return false;
        }
        if self.is_answered() {
            return true;
        }
        self.least.is_below(&mut self.seat, self.job)
    }

    fn underway(&self) -> Option<&Underway> {
        self.underway.as_ref()
    }

    ghost stays_at_once = { λ _. (refl, refl, Prim.search rules, refl) };

    ghost stays_on = { λ _ _ _ p q. (q.0 ∙ p.0, q.1 ∙ p.1, Prim.search rules, q.3 ∙ p.3) };
}
