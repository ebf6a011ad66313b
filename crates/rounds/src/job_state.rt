//! How far each job of a round is, as its threads see it.
ghost use Rattle.std.specs.Prelude.{◌≡◌, ◌<◌, IfOk, length};

use std::alloc::{AllocError, Global};
use std::sync::atomic::AtomicU8;
use std::sync::atomic::Ordering::SeqCst;

/// How far a job is.
#[derive(Clone, Copy)]
pub(crate) enum JobState {
    /// The gate's call that begins the job hasn't returned.
    Waiting,
    /// The thread that began the job searches it, and other threads may join.
    Begun,
    /// Some thread has searched the job to its end and stored the answer in the table.
    Answered,
}

/// The state of each job of a round. Threads read and write it without locks, and no answer rests on it.
#[derive(Drop)]
pub(crate) struct JobStates {
    words: Vec<AtomicU8>,
}

impl JobStates {
    /// Returns the states of this number of jobs, all waiting.
    pub(crate) fn all_waiting(alloc: Global, jobs: u16) -> Result<JobStates, AllocError>
        ensures { IfOk result (λ states. length states.words.items ≡ jobs) }
    {
        let mut words = Vec::with_capacity(alloc, usize::from(jobs))?;
        for _ in 0..jobs {
            words.push(AtomicU8::new(0))?;
        }
        Ok(JobStates { words })
    }

    /// Returns the state of a job.
    pub(crate) fn get(&self, job: u16) -> JobState
        requires { job < length self.now.words.items }
    {
        match self.words[usize::from(job)].load(SeqCst) {
            0 => JobState::Waiting,
            1 => JobState::Begun,
            _ => JobState::Answered,
        }
    }

    /// Sets the state of a job.
    pub(crate) fn set(&self, job: u16, state: JobState)
        requires { job < length self.now.words.items }
    {
        let word = match state {
            JobState::Waiting => 0,
            JobState::Begun => 1,
            JobState::Answered => 2,
        };
        self.words[usize::from(job)].store(word, SeqCst);
    }
}
