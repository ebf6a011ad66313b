//! Replies that are made ahead: the lines at hand, several at once, each by one thread over the batch's table. Which lines these are, and which of them
//! get a reply so, no promise rests on: a reply that was made is the line's own, and the others are made one by one.
ghost use Rattle.std.specs.Prelude.{◌≡◌, ◌+◌, ◌<◌, ◌≤◌, [], All, IfOk, IfSome, OnErr, length, vec_capacity};
ghost use Rattle.atomic_table.specs.Seated.{TableId};
ghost use Rattle.slots.specs.Promise.{IsSeatOf};
ghost use Rattle.input_lines.specs.Lines.{IsUnread};
ghost use Rattle.batch_texts.specs.Asking.{IsFoundAt};
ghost use Rattle.batch_texts.specs.declared.asked.Batch.{Batch as TheBatch};
ghost use Rattle.batches.specs.BatchRun.{AreAhead, GivesNext, IsAhead, IsLane, IsSearched};

use crate::batch::{echoed, problem_of};
use batch_texts::{Batch, Found, asked_in, found_text, is_remark, said_in};
use context::Context;
use decision::{Memory, Scout, Stop};
use entry::MateLore;
use input_lines::{Next, Unread};
use problems::{Problem, Root};
use searcher::{Searcher, Table, keys_of, solve_by};
use slots::{Seat, Slots};
use std::alloc::{AllocError, Global};
use std::sync::atomic::{AtomicU64, Ordering};
use std::sync::{Arc, Wait};
use std::thread;
use std::thread::Threads;

/// So many positions a thread searches for a line, before it leaves that to all threads, where another has no line.
const PATIENCE: u32 = 4096;

/// So many at most: replies that are made wait for others that are made ahead.
const MOST_PATIENCE: u32 = 65_536;

/// What a line says, and what is written for it.
#[derive(Drop)]
pub struct Ahead {
    pub said: Vec<u8>,
    pub text: Vec<u8>,
}

/// A thread's seat, and the replies that it has made.
#[derive(Drop)]
pub struct Lane {
    pub seat: Seat,
    pub replies: Vec<Ahead>,
}

/// The table of a batch, with replies that were made ahead over it, those to later lines first; and the number of the last line that was looked at for
/// them.
#[derive(Drop)]
pub struct Lookahead {
    pub table: Table,
    pub rows: Vec<Vec<Ahead>>,
    pub looked_at: u64,
}

/// What the threads share: what is asked of each line, the lines, with their feeds, how many of them were taken, and after how many a thread has none.
#[derive(Drop)]
struct Lines<'a, 'b> {
    batch: &'a Batch,
    lines: Vec<&'a [u8]>,
    slots: &'b Slots<MateLore>,
    taken: Arc<AtomicU64>,
    busy: u64,
}

/// Stops the search of a line that is long: where another thread has no line, or others wait.
#[derive(Drop)]
struct Patience {
    taken: Arc<AtomicU64>,
    busy: u64,
    positions: u32,
}

impl Stop for Patience {
    ghost told = { λ _. Unit {0} };

    ghost stays = { λ _ _. Unit {0} };

    fn is_set(&mut self) -> bool {
        self.positions = self.positions.saturating_add(1);
        if self.positions < PATIENCE {
            return false;
        }
        MOST_PATIENCE < self.positions || self.busy < self.taken.load(Ordering::SeqCst)
    }

    ghost stays_at_once = { λ _. tt };

    ghost stays_on = { λ _ _ _ _ _. tt };
}

impl Lines<'_, '_> {
    /// What is asked at a problem, by one thread; or nothing where it stops, and where there is no move, which is told.
    fn find(
        &self,
        alloc: Global,
        seat: &mut Seat,
        problem: &Problem,
    ) -> Result<Option<Found>, AllocError>
        requires { IsSeatOf self.now.slots.now seat.old }
        ensures seat { IsSeatOf self.now.slots.now seat.new }
        ensures found { IfOk result (λ found. IfSome found
            (IsFoundAt self.now.batch.now.options.keys problem.now.goal problem.now.position problem.now.limit)) }
    {
        let root = Root::of(problem);
        if root.jobs() == 0 {
            return Ok(None);
        }
        let stop = Patience {
            taken: Arc::try_clone(&self.taken)?,
            busy: self.busy,
            positions: 0,
        };
        let mut scout = Scout {
            stop,
            memory: Memory::new(),
        };
        let mut searcher = Searcher {
            slots: self.slots,
            seat,
            scout: &mut scout,
        };
        if self.batch.options.keys {
            return match keys_of(alloc, &mut searcher, &root) {
                Ok(keys) => Ok(Some(Found::Keys(keys))),
                Err(_) => Ok(None),
            };
        }
        match solve_by(&mut searcher, &root) {
            Some(answer) => Ok(Some(Found::Answer(answer))),
            None => Ok(None),
        }
    }

    /// Makes the reply to what a line says, where it asks for what is found.
    fn answer(&self, alloc: Global, lane: &mut Lane, said: &[u8]) -> Result<(), AllocError>
        requires batch { IsSearched self.now.batch.now }
        requires lane { IsLane self.now.batch.now self.now.slots.now lane.old }
        ensures { IsLane self.now.batch.now self.now.slots.now lane.new }
    {
        if is_remark(said) {
            return Ok(());
        }
        let asked = asked_in(alloc, said)?;
        let Ok(problem) = problem_of(self.batch, &asked) else {
            return Ok(());
        };
        let Some(found) = self.find(alloc, &mut lane.seat, &problem)? else {
            return Ok(());
        };
        let plain = found_text(alloc, self.batch, &asked, &found)?;
        let text = echoed(alloc, self.batch, said, plain)?;
        let mut kept = Vec::new(alloc);
        kept.extend_from_slice(said)?;
        lane.replies.push(Ahead { said: kept, text })?;
        Ok(())
    }

    /// Makes the reply to one line after another, from the last one on, as long as one is left and there is memory.
    fn work(&self, alloc: Global, lane: &mut Lane) -> Result<(), AllocError>
        requires batch { IsSearched self.now.batch.now }
        requires lane { IsLane self.now.batch.now self.now.slots.now lane.old }
        ensures { IsLane self.now.batch.now self.now.slots.now lane.new }
    {
        for _ in 0..self.lines.len() {
            let taken = self.taken.fetch_add(1, Ordering::SeqCst) as usize;
            if self.lines.len() <= taken {
                return Ok(());
            }
            let line = self.lines[self.lines.len() - 1 - taken];
            self.answer(alloc, lane, said_in(line))?;
        }
        Ok(())
    }
}

/// A lane for each seat.
fn open_lanes(alloc: Global, seats: &mut Vec<Seat>) -> Result<Vec<Lane>, AllocError>
    ensures capacity { vec_capacity seats.new ≡ vec_capacity seats.old }
    ensures unopened { OnErr result (seats.new ≡ seats.old) }
    ensures count { IfOk result (λ lanes. (seats.new.items ≡ []) × (length lanes.items ≡ length seats.old.items)) }
    ensures lanes { IfOk result (λ lanes. (batch : TheBatch) (table : TableId)
        → All (IsSeatOf table) seats.old.items → All (IsLane batch table) lanes.items) }
{
    let mut lanes = Vec::with_capacity(alloc, seats.len())?;
    while let Some(seat) = seats.pop() {
        lanes.push_reserved(Lane {
            seat,
            replies: Vec::new(alloc),
        });
    }
    Ok(lanes)
}

/// The seats go back to where they came from, and the replies onto these.
fn close_lanes(mut lanes: Vec<Lane>, seats: &mut Vec<Seat>, ahead: &mut Vec<Vec<Ahead>>)
    requires seats { length seats.old.items + length lanes.items ≤ vec_capacity seats.old }
    requires ahead { length ahead.old.items + length lanes.items ≤ vec_capacity ahead.old }
    ensures count { length seats.new.items ≡ length seats.old.items + length lanes.items }
    ensures seats { (batch : TheBatch) (table : TableId) → All (IsLane batch table) lanes.items
        → All (IsSeatOf table) seats.old.items → All (IsSeatOf table) seats.new.items }
    ensures ahead { (batch : TheBatch) (table : TableId) → All (IsLane batch table) lanes.items
        → AreAhead batch ahead.old.items → AreAhead batch ahead.new.items }
{
    while let Some(lane) = lanes.pop() {
        seats.push_reserved(lane.seat);
        ahead.push_reserved(lane.replies);
    }
}

/// The replies to these lines, as far as they are made, by a thread for each seat of the table, or by as many as there are lines.
fn replies_ahead<'a, R: Threads + Wait + Sync + AllocGlobal>(
    rt: &R,
    batch: &'a Batch,
    table: &mut Table,
    read: Vec<&'a [u8]>,
) -> Result<Vec<Vec<Ahead>>, AllocError>
    requires { IsSearched batch.now }
    ensures { IfOk result (λ ahead. AreAhead batch.now ahead.items) }
{
    let alloc = rt.alloc();
    let mut ahead = Vec::with_capacity(alloc, table.seats.len())?;
    let taken = Arc::new(alloc, AtomicU64::new(0))?;
    let mut lanes = open_lanes(alloc, &mut table.seats)?;
    let threads = lanes.len().min(read.len()).max(1);
    let busy = if threads < lanes.len() { 0 } else { read.len() };
    let lines = Lines {
        batch,
        lines: read,
        slots: &table.slots,
        taken,
        busy: busy as u64,
    };
    let lines = &lines;
    thread::for_each_mut(
        rt,
        lanes.as_mut_slice(),
        threads,
        &|_, lane: &mut Lane|
            requires { IsSearched lines.now.batch.now × IsLane lines.now.batch.now lines.now.slots.now lane.now }
            ensures { IsLane lines.entry.now.batch.now lines.entry.now.slots.now lane.exit.now }
        {
            let _ = lines.work(alloc, lane);
        },
    );
    close_lanes(lanes, &mut table.seats, &mut ahead);
    Ok(ahead)
}

/// The bytes up to the first line feed, with it, and those behind it.
fn split_line(bytes: &[u8]) -> Option<(&[u8], &[u8])>
    ensures { IfSome result (λ parts. length parts.1.now < length bytes.now) }
{
    for place in 0..bytes.len() {
        if bytes[place] == b'\n' {
            return Some(bytes.split_at(place + 1));
        }
    }
    None
}

/// The line that was read, and those behind it whose ends are at hand.
fn lines_at_hand<'a>(
    alloc: Global,
    line: &'a [u8],
    unread: &'a Unread,
) -> Result<Vec<&'a [u8]>, AllocError>
    requires { IsUnread unread.now }
{
    let mut lines = Vec::new(alloc);
    lines.push(line)?;
    let mut rest = &unread.chunk[unread.from..unread.to];
    while let Some((next, behind)) = split_line(rest) {
        lines.push(next)?;
        rest = behind;
    }
    Ok(lines)
}

/// Makes the replies to the lines at hand ahead, if the line that was read wasn't among those that were looked at before.
pub(crate) fn look_ahead<R: Threads + Wait + Sync + AllocGlobal, C>(
    context: &Context<'_, R, C>,
    batch: &Batch,
    lookahead: &mut Lookahead,
    unread: &Unread,
    next: &Next,
)
    requires batch { IsSearched batch.now }
    requires unread { IsUnread unread.now }
    requires ahead { AreAhead batch.now lookahead.old.rows.items }
    ensures { AreAhead batch.now lookahead.new.rows.items }
{
    let Next::Line(line) = next else {
        return;
    };
    let number = context.number();
    if number <= lookahead.looked_at {
        return;
    }
    let Ok(lines) = lines_at_hand(context.rt.alloc(), line.as_slice(), unread) else {
        return;
    };
    lookahead.looked_at = (number - 1).saturating_add(lines.len() as u64);
    if let Ok(rows) = replies_ahead(context.rt, batch, &mut lookahead.table, lines) {
        lookahead.rows = rows;
    }
}

/// The reply that was made last, if it is to this.
fn take_if_next(replies: &mut Vec<Ahead>, said: &[u8]) -> Option<Ahead>
    ensures kept { (batch : TheBatch) → All (IsAhead batch) replies.old.items → All (IsAhead batch) replies.new.items }
    ensures taken { IfSome result (λ reply. (reply.said.items ≡ said.now)
        × ((batch : TheBatch) → All (IsAhead batch) replies.old.items → IsAhead batch reply)) }
{
    let reply = replies.pop()?;
    if reply.said.as_slice() == said {
        return Some(reply);
    }
    replies.push_reserved(reply);
    None
}

/// What is written for what comes next, where that was made ahead.
pub(crate) fn take_ahead(ahead: &mut Vec<Vec<Ahead>>, next: &Next) -> Option<Vec<u8>>
    ensures kept { (batch : TheBatch) → AreAhead batch ahead.old.items → AreAhead batch ahead.new.items }
    ensures text { IfSome result (λ text. (batch : TheBatch)
        → AreAhead batch ahead.old.items → GivesNext batch next.now (Some text)) }
{
    let Next::Line(line) = next else {
        return None;
    };
    let said = said_in(line.as_slice());
    for lane in 0..ahead.len() {
        let replies = &mut ahead[lane];
        if let Some(reply) = take_if_next(replies, said) {
            return Some(reply.text);
        }
    }
    None
}
