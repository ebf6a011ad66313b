//! Who decides whether a first move wins.
ghost use Rattle.std.specs.Prelude.{◌≤◌, ◌↔◌, IsTrue, MatchOption};
ghost use Rattle.problems.specs.Questions.{IsForced};
ghost use Rattle.problems.specs.Roots.{IsJobOf, IsLimit, WinsIn};

use problems::{Question, Root};

/// Decides what is forced, question after question. What is found by it rests on this contract alone, whoever it is.
pub trait Decider {
    /// It was told to stop.
    ghost told: { Self → Type 0 };

    /// It is the same, later.
    ghost goes: { Self → Self → Type 0 };

    /// Whether the attacker forces the goal within n plies, or `None` where it was told to stop.
    fn forces(&mut self, q: &Question, n: u8) -> Option<bool>
        requires { n ≤ 63 }
        ensures goes { goes self.old self.new }
        ensures answer { MatchOption result (told self.new) (λ yes. IsTrue yes ↔ IsForced q.now n) };

    /// Whether the job wins within so many plies, or `None` where it was told to stop.
    fn wins(&mut self, root: &Root, job: u16, plies: u8) -> Option<bool>
        requires job { IsJobOf root.now job }
        requires plies { IsLimit plies }
        ensures goes { goes self.old self.new }
        ensures wins { MatchOption result (told self.new) (λ yes. IsTrue yes ↔ WinsIn root.now plies job) }
    {
        let q = root.question_of(job);
        self.forces(&q, plies - 1)
    }

    /// The jobs, so many, are about to be decided: nothing is forced within so many plies.
    fn begin(&self, _none_within: u8, _jobs: u16) {}

    /// A job more was decided.
    fn step(&self) {}

    // Nothing happened.
    ghost goes_at_once: { (a : Self) → goes a a };

    // One thing happened after another.
    ghost goes_on: { (a b c : Self) → goes a b → goes b c → goes a c };
}
