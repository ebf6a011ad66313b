//! A round: its jobs are dealt out, worked on by all threads, and settled by the caller.
ghost use Rattle.std.specs.Prelude.{◌≡◌, ◌+◌, ◌<◌, ◌≤◌, ◌↔◌, [], ◌++◌, All, IfOk, IsTrue, length, vec_capacity};
ghost use Rattle.rounds.specs.Verdicts.{IsVerdictRight};
ghost use Rattle.problems.specs.Roots.{IsRoot, IsLimit, EndsRound};
ghost use Rattle.searcher.specs.Tables.{AreSeats, AreCallers};
ghost use Rattle.rounds.specs.Seats.{AreJobSeats};
ghost use Rattle.rounds.specs.Shares.{IsRound, WinsHere, IsShare, AreDealt, seats_back};
ghost use Rattle.rounds.specs.Going.{SeatGoesOn, EachGoesOn, SeatsGoOn};

use crate::job_state::JobStates;
use crate::share::{Share, Verdict, memory_of};
use crate::shared::{JobStop, RootJobs, Round, Solve};
use crate::telling::decide_job;
use decision::{Scout, Underway};
use jobs::{Count, JobSeat, Least, MakeFault, Thief, deal};
use searcher::Gate;
use slots::Seat;
use std::alloc::{AllocError, Global};
use std::sync::Wait;
use std::thread;
use std::thread::Threads;

/// A share for each seat, and what steals from the deques: the last share has the first seat, and the first part of the jobs. A seat is taken once
/// its share has all its memory.
fn deal_out<'a, J: Count, T: Gate>(
    alloc: Global,
    round: &Round<'a, T>,
    mut job_seats: Vec<JobSeat<RootJobs>>,
    seats: &mut Vec<Seat>,
    shares: &mut Vec<Share<'a, J>>,
) -> Result<Vec<Thief<J>>, AllocError>
    requires round { IsRound J.jobs round.now }
    requires job_seats { AreJobSeats round.now.least.now (length seats.old.items) job_seats.items }
    requires seats { AreCallers round.now.search.now.slots.now seats.old.items }
    requires none { shares.old.items ≡ [] }
    requires room { length seats.old.items ≤ vec_capacity shares.old }
    ensures same { seats.new.items ++ seats_back shares.new.items ≡ seats.old.items }
    ensures capacity { vec_capacity seats.new ≡ vec_capacity seats.old }
    ensures count { IfOk result (λ thieves. (seats.new.items ≡ [])
        × (length shares.new.items ≡ length seats.old.items) × (length thieves.items ≡ length seats.old.items)) }
    ensures shares { IfOk result (λ _. All (IsShare J.jobs round.now) shares.new.items
        × AreDealt J.jobs (length seats.old.items) shares.new.items) }
{
    let count = round.search.root.jobs();
    let step = seats.len() as u16;
    let mut thieves = Vec::with_capacity(alloc, seats.len())?;
    for dealt in 0..step {
        let part = step - 1 - dealt;
        let local = deal(alloc, part, step, count)?;
        let thief = local.stealer()?;
        thieves.push(thief)?;
        let row = Vec::from_elem(alloc, Verdict::Open, usize::from(count))?;
        let job_seat = job_seats.take_last();
        let seat = seats.take_last();
        let stop = JobStop {
            least: round.least,
            states: round.states,
            underway: round.underway,
            seat: job_seat,
            jobs: count,
            job: 0,
            stops_at_answer: false,
        };
        let scout = Scout {
            stop,
            memory: memory_of(part),
        };
        shares.push_reserved(Share {
            local,
            scout,
            row,
            seat,
        });
    }
    thieves.as_mut_slice().reverse();
    Ok(thieves)
}

/// Which positions are searched, none yet. Two callers put nothing off, since it gains nothing, nor do more where none joins in another's jobs.
fn none_underway(
    alloc: Global,
    callers: u8,
    is_joined: bool,
) -> Result<Option<Underway>, AllocError> {
    if callers < 3 || !is_joined {
        return Ok(None);
    }
    Ok(Some(Underway::new(alloc)?))
}

/// The seats go back to where they came from, each to its place.
fn give_back<J: Count>(mut shares: Vec<Share<'_, J>>, seats: &mut Vec<Seat>)
    requires { length seats.old.items + length shares.items ≤ vec_capacity seats.old }
    ensures { seats.new.items ≡ seats.old.items ++ seats_back shares.entry.items }
{
    while let Some(share) = shares.pop() {
        seats.push_reserved(share.seat);
    }
}

/// What some share says of a job.
fn found<J: Count, T: Gate>(round: &Round<'_, T>, shares: &Vec<Share<'_, J>>, job: u16) -> Verdict
    requires shares { All (IsShare J.jobs round.now) shares.now.items }
    requires job { job < J.jobs }
    ensures { IsVerdictRight (WinsHere round.now job) result }
{
    let _ = round;
    for share in shares {
        match share.row[usize::from(job)] {
            Verdict::Open => {}
            verdict => return verdict,
        }
    }
    Verdict::Open
}

/// Whether a job wins. The caller decides it, by the last share's seat, where no share has.
fn wins<J: Count, T: Gate>(round: &Round<'_, T>, shares: &mut Vec<Share<'_, J>>, job: u16) -> bool
    requires some { 0 < length shares.old.items }
    requires shares { All (IsShare J.jobs round.now) shares.old.items }
    requires job { job < J.jobs }
    ensures shares { All (IsShare J.jobs round.now) shares.new.items }
    ensures go_on { EachGoesOn T.keeps round.now.search.now.slots.now shares.old.items shares.new.items }
    ensures wins { IsTrue result ↔ WinsHere round.now job }
{
    match found(round, shares, job) {
        Verdict::Wins => true,
        Verdict::Loses => false,
        Verdict::Open => {
            let last = shares.len() - 1;
            let own = &mut shares[last];
            decide_job(round.search, &mut own.seat, job, round.plies)
        }
    }
}

/// Decides, by number, each job that no share decided, up to the least that wins.
fn settle<J: Count, T: Gate>(round: &Round<'_, T>, shares: &mut Vec<Share<'_, J>>) -> Option<u16>
    requires round { IsRound J.jobs round.now }
    requires some { 0 < length shares.old.items }
    requires shares { All (IsShare J.jobs round.now) shares.old.items }
    ensures shares { All (IsShare J.jobs round.now) shares.new.items }
    ensures go_on { EachGoesOn T.keeps round.now.search.now.slots.now shares.old.items shares.new.items }
    ensures end { EndsRound round.now.search.now.root round.now.plies result }
{
    for job in 0..round.search.root.jobs() {
        if wins(round, shares, job) {
            return Some(job);
        }
    }
    None
}

/// The least job that wins in the round: each share is worked on by a thread of its own, where one can be made, and the last share by the
/// caller's. For want of memory the seats go back as they came.
fn work_all<J: Count + Send + Sync, T: Gate, R: Threads + Wait + Sync>(
    rt: &R,
    alloc: Global,
    round: &Round<'_, T>,
    job_seats: Vec<JobSeat<RootJobs>>,
    seats: &mut Vec<Seat>,
) -> Result<Option<u16>, AllocError>
    requires round { IsRound J.jobs round.now }
    requires job_seats { AreJobSeats round.now.least.now (length seats.old.items) job_seats.items }
    requires seats { AreCallers round.now.search.now.slots.now seats.old.items }
    ensures end { IfOk result (EndsRound round.now.search.now.root round.now.plies) }
    ensures seats { AreSeats round.now.search.now.slots.now (length seats.old.items) seats.new.items }
    ensures go_on { SeatsGoOn T.keeps round.now.search.now.slots.now seats.old.items seats.new.items }
{
    let mut shares = Vec::with_capacity(alloc, seats.len())?;
    let Ok(thieves) = deal_out(alloc, round, job_seats, seats, &mut shares) else {
        give_back(shares, seats);
        return Err(AllocError);
    };
    let thieves = &thieves;
    let threads = shares.len();
    thread::for_each_mut(
        rt,
        shares.as_mut_slice(),
        threads,
        &|_, share: &mut Share<'_, J>|
            requires { IsShare J.jobs round.now share.now }
            ensures { IsShare J.jobs round.entry.now share.exit.now
                × SeatGoesOn T.keeps round.entry.now.search.now.slots.now share.entry.now.seat share.exit.now.seat }
        { share.work(rt, round, thieves) },
    );
    let first = settle(round, &mut shares);
    give_back(shares, seats);
    Ok(first)
}

/// The least job that wins in the round of so many plies. J has the number of jobs. The seats are lent.
pub(crate) fn round<J: Count + Send + Sync, T: Gate, R: Threads + Wait + Sync>(
    rt: &R,
    alloc: Global,
    search: &Solve<'_, T>,
    plies: u8,
    seats: &mut Vec<Seat>,
) -> Result<Option<u16>, AllocError>
    requires jobs { length search.now.root.moves.items ≡ J.jobs }
    requires root { IsRoot search.now.root }
    requires plies { IsLimit plies }
    requires seats { AreCallers search.now.slots.now seats.old.items }
    ensures end { IfOk result (EndsRound search.now.root plies) }
    ensures seats { AreSeats search.now.slots.now (length seats.old.items) seats.new.items }
    ensures go_on { SeatsGoOn T.keeps search.now.slots.now seats.old.items seats.new.items }
{
    let root = &search.root;
    let wins = RootJobs {
        position: root.board.position(),
        goal: root.goal,
        plies,
    };
    let callers = seats.len() as u8;
    let (least, job_seats) = match Least::make(alloc, &wins, root.jobs(), callers) {
        Ok(made) => made,
        Err(MakeFault::NoMemory) => return Err(AllocError),
        Err(MakeFault::Size) => unreachable!(),
    };
    let states = JobStates::all_waiting(alloc, root.jobs())?;
    let underway = none_underway(alloc, callers, search.is_joined(plies))?;
    let round = Round {
        search,
        plies,
        least: &least,
        states: &states,
        underway: &underway,
    };
    work_all::<J, T, R>(rt, alloc, &round, job_seats, seats)
}
