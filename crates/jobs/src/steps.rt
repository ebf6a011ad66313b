//! One function for each kind of atomic step.
ghost use Rattle.std.specs.Prelude.{◌≡◌, ◌+◌, ◌≤◌, min};
ghost use Rattle.jobs.specs.Promise.{least_known, steps, IsJobSeatOf, JobWins, IsBest};

use crate::job_board::{JobSeat, Least};
use crate::rule::{Lower, Read};
use crate::wins::Wins;

impl<W: Wins> Least<W> {
    // Reads the word.
    pub(crate) fn read(&self, seat: &mut JobSeat<W>) -> u64
        requires { IsJobSeatOf self.now seat.old }
        ensures seat { IsJobSeatOf self.now seat.new }
        ensures best { IsBest W.wins self.now (least_known seat.new) }
        ensures falls { least_known seat.new ≤ least_known seat.old }
        ensures steps { steps seat.new ≡ steps seat.old + 1 }
        ensures known { least_known seat.new ≡ result }
    {
        self.table.shared.load::<Read<W>>(seat, 0)
    }

    // Makes the word the lesser of itself and the job, and answers what it was.
    pub(crate) fn fetch_min(&self, seat: &mut JobSeat<W>, job: u64) -> u64
        requires seat { IsJobSeatOf self.now seat.old }
        requires wins { JobWins W.wins self.now job }
        ensures seat { IsJobSeatOf self.now seat.new }
        ensures best { IsBest W.wins self.now (least_known seat.new) }
        ensures falls { least_known seat.new ≤ least_known seat.old }
        ensures steps { steps seat.new ≡ steps seat.old + 1 }
        ensures known { least_known seat.new ≡ min result job }
    {
        self.table.shared.fetch_min::<Lower<W>>(seat, 0, job)
    }
}
