//! The word, how it is made with its seats, lowered, asked and given up.
ghost use Rattle.std.specs.Prelude.{◌≡◌, ℕ, ◌+◌, ◌<◌, ◌≤◌, All, IfOk, IsErrOf, IsTrue, ◌↔◌, vec_len};
ghost use Rattle.jobs.specs.Promise.{least_known, steps, IsBoardSize, IsJobSeatOf, IsNewJobSeatOf, JobWins, IsBest, GivenUp};

use crate::fault::MakeFault;
use crate::rule::{Deal, Lowest};
use crate::views::{JobView, Terms};
use crate::wins::Wins;
use atomic_table::Table;
use std::alloc::{AllocError, Global};
use std::marker::Model;
use std::snapshot::Snapshot;

/// A caller's right to lower the word and to ask. It has no bytes.
pub type JobSeat<W> = atomic_table::Seat<(), JobView<W>>;

/// The most jobs of a round: as many as a list of moves holds.
pub const MOST_JOBS: u16 = 512;

/// The most callers: the workers, and the thread that asks.
pub const MOST_CALLERS: u8 = 17;

/// The least job known to win, one word that threads share. At first it is the number of jobs.
#[derive(Drop)]
pub struct Least<W: Wins> {
    pub(crate) table: Table<(), JobView<W>, Terms<W>, Lowest<W>, Global>,
}

impl<W: Wins> Model for Least<W> {
    ghost use Rattle.std.specs.Prelude.{◌≡◌, ◌≤◌};
    ghost use Rattle.jobs.specs.JobBoard.{JobBoard};

    ghost Value = { JobBoard W };

    ghost view = { λ l. record { table = l.table.shared.table_id; wins = l.table.shared.key.wins.value; jobs = l.table.shared.key.jobs } };

    ghost invariant = { λ l. (l.table.shared.table_id.words ≡ 1) × (l.table.shared.table_id.slots ≡ 0) × (l.table.shared.key.jobs ≤ 512) };
}

impl<W: Wins> Least<W> {
    /// A job board for these jobs, and a seat for each caller.
    pub fn make(
        alloc: Global,
        wins: &W,
        jobs: u16,
        callers: u8,
    ) -> Result<(Least<W>, Vec<JobSeat<W>>), MakeFault>
        ensures ok { IfOk result (λ r. (r.0.wins ≡ wins.now) × (r.0.jobs ≡ jobs) × (vec_len r.1 ≡ callers)) }
        ensures seats { IfOk result (λ r. All (IsNewJobSeatOf r.0) r.1.items) }
        ensures size { IsErrOf result MakeFault.Size ↔ (¬ IsBoardSize jobs callers) }
        ensures limits { (MOST_JOBS ≡ 512) × (MOST_CALLERS ≡ 17) }
    {
        if jobs > MOST_JOBS || callers < 1 || callers > MOST_CALLERS {
            return Err(MakeFault::Size);
        }
        let Ok((least, first)) = Least::open(alloc, wins, jobs) else {
            return Err(MakeFault::NoMemory);
        };
        let Ok(seats) = least.deal(alloc, first, callers) else {
            return Err(MakeFault::NoMemory);
        };
        Ok((least, seats))
    }

    /// Tells of a job that wins. One atomic step.
    pub fn lower(&self, seat: &mut JobSeat<W>, job: u16)
        requires seat { IsJobSeatOf self.now seat.old }
        requires wins { JobWins W.wins self.now job }
        ensures seat { IsJobSeatOf self.now seat.new }
        ensures lowered { least_known seat.new ≤ job }
        ensures falls { least_known seat.new ≤ least_known seat.old }
        ensures best { IsBest W.wins self.now (least_known seat.new) }
        ensures steps { steps seat.new ≡ steps seat.old + 1 }
    {
        self.fetch_min(seat, u64::from(job));
    }

    /// Whether a smaller job is known to win. One atomic step.
    pub fn is_below(&self, seat: &mut JobSeat<W>, job: u16) -> bool
        requires seat { IsJobSeatOf self.now seat.old }
        requires job { job < self.now.jobs }
        ensures seat { IsJobSeatOf self.now seat.new }
        ensures below { IsTrue result ↔ (least_known seat.new < job) }
        ensures wins { IsTrue result → JobWins W.wins self.now (least_known seat.new) }
        ensures falls { least_known seat.new ≤ least_known seat.old }
        ensures best { IsBest W.wins self.now (least_known seat.new) }
        ensures steps { steps seat.new ≡ steps seat.old + 1 }
    {
        self.read(seat) < u64::from(job)
    }

    /// The word at the end: the number of jobs where no job is known to win.
    pub fn finish(self, seat: JobSeat<W>) -> u16
        requires { IsJobSeatOf self seat }
        ensures best { IsBest W.wins self result }
        ensures known { result ≤ least_known seat }
        ensures rule { GivenUp W.wins self seat result }
    {
        let Least { table } = self;
        let closed = table.close_with(seat);
        let word = closed.word(0);
        closed.free();
        word as u16
    }

    // The word, and the seat that deals the others.
    fn open(alloc: Global, wins: &W, jobs: u16) -> Result<(Least<W>, JobSeat<W>), AllocError>
        requires { jobs ≤ 512 }
        ensures { IfOk result (λ r. (r.0.wins ≡ wins.now) × (r.0.jobs ≡ jobs) × IsNewJobSeatOf r.0 r.1) }
    {
        let terms = Terms {
            wins: Snapshot::of(wins),
            jobs: u64::from(jobs),
        };
        let (table, seat) = Table::of_words(alloc, &[u64::from(jobs)], &terms)?;
        Ok((Least { table }, seat))
    }

    // So many seats.
    fn deal(
        &self,
        alloc: Global,
        mut first: JobSeat<W>,
        callers: u8,
    ) -> Result<Vec<JobSeat<W>>, AllocError>
        requires { IsNewJobSeatOf self.now first }
        ensures { IfOk result (λ v. (vec_len v ≡ callers) × All (IsNewJobSeatOf self.now) v.items) }
    {
        let mut seats = Vec::with_capacity(alloc, usize::from(callers))?;
        for _ in 0..callers {
            seats.push(self.table.shared.split_seat::<Deal>(&mut first))?;
        }
        Ok(seats)
    }
}
