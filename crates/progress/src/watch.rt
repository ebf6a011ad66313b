//! What is known of a search while it lasts, and the thread that shows it on standard error.
ghost use Rattle.std.specs.Prelude.{◌≡◌, ◌↔◌, ◌<◌, ◌≤◌, ℕ, IfOk, IfSome, IsTrue, string_bytes, vec_len};
ghost use Rattle.progress.specs.Text.{drawn_text, sign_text};
ghost use Rattle.progress.specs.declared.sign.Sign.{Sign};
ghost use Rattle.progress.specs.Signs.{DrawsFirst, IsRoundAfter, IsSignOf, IsTargetOf, WatchesSearch};

use crate::ended::Ended;
use crate::place::{WINS, first_named};
use crate::sign::{CLEARED, Sign, Work, drawn, left_behind};
use board::Position;
use rules::{Move, lawful};
use std::alloc::{AllocError, Global};
use std::sync::Wait;
use std::sync::atomic::{AtomicU64, Ordering};
use std::thread::{Parker, Threads, join};
use std::time::{Clock, Duration, Instant};

/// A job of a search for keys that wins: it is decided, and the search goes on.
const KEY: u8 = 254;

/// How the jobs of a search are taken up.
#[derive(Clone, Copy)]
pub enum Course {
    /// All within so many plies, and then within more.
    Rounds,
    /// Each within more and more plies, up to these.
    Keys(u8),
}

/// Where a search stands: in a batch, and over which table.
#[derive(Clone, Copy)]
pub struct Setting {
    /// The number of the line, in a batch.
    pub line: Option<u64>,
    /// The slots of the table.
    pub slots: u32,
}

/// Where a search is, for all to read. No answer rests on it.
#[derive(Drop)]
pub struct Watch {
    alloc: Global,
    start: Instant,
    setting: Setting,
    course: Course,
    moves: Vec<Move>,
    /// Of each job the plies within which it is known not to win, or that it wins.
    known: Vec<AtomicU64>,
    /// The plies of the last round that ended with nothing.
    none: AtomicU64,
    over: AtomicU64,
    parker: Parker,
}

fn byte_of(number: &AtomicU64) -> u8 {
    u8::try_from(number.load(Ordering::SeqCst)).unwrap_or(WINS)
}

/// The plies of the round after one of so many.
fn next_round(plies: u8) -> u8
    ensures { IsRoundAfter plies result }
{
    if plies == 0 {
        1
    } else {
        plies.saturating_add(2)
    }
}

/// Whether a greater table is advised after so many seconds with so many slots.
fn is_advised(seconds: u64, slots: u32) -> bool
    ensures { IsTrue result ↔ ((10 ≤ seconds) × (slots < 100000)) }
{
    10 <= seconds && slots < 100_000
}

impl Watch {
    /// A watch over a search that has not begun.
    pub fn new(
        alloc: Global,
        start: Instant,
        setting: Setting,
        position: &Position,
        course: Course,
    ) -> Result<Watch, AllocError>
        ensures { IfOk result (λ watch. WatchesSearch watch setting position.now course) }
    {
        let mut moves = Vec::new(alloc);
        moves.extend_from_slice(lawful(position).as_slice())?;
        let mut known = Vec::new(alloc);
        for job in 0..moves.len() {
            known.push(AtomicU64::new(0))?;
        }
        Ok(Watch {
            alloc,
            start,
            setting,
            course,
            moves,
            known,
            none: AtomicU64::new(0),
            over: AtomicU64::new(0),
            parker: Parker::new(),
        })
    }

    /// Says that the search is over.
    fn finish(&self) {
        self.over.store(1, Ordering::SeqCst);
        self.parker.unpark();
    }

    /// Notes what is known of a job, unless more is known.
    fn note(&self, job: u16, plies: u8) {
        if let Some(known) = self.known.get(usize::from(job)) {
            if byte_of(known) < plies {
                known.store(u64::from(plies), Ordering::SeqCst);
            }
        }
    }

    /// Is told by any thread of the search what has ended within so many plies.
    pub fn end(&self, round: u8, ended: Ended) {
        match ended {
            Ended::Loses(job) => self.note(job, round),
            Ended::Wins(job) => match self.course {
                Course::Rounds => self.note(job, WINS),
                Course::Keys(_) => self.note(job, KEY),
            },
            Ended::Round => {
                self.none.store(u64::from(round), Ordering::SeqCst);
                self.parker.unpark();
            }
        }
    }

    /// The plies within which a job is to be decided, where rounds of so many plies have ended with nothing.
    fn target(&self, ended: u8) -> u8
        ensures { IsTargetOf self.now.course ended result }
    {
        match self.course {
            Course::Rounds => next_round(ended),
            Course::Keys(plies) => plies,
        }
    }

    /// The sign of a job of which this is known, drawn, where rounds of so many plies have ended with nothing.
    fn text_of(&self, seconds: u64, job: usize, known: u8, none: u8) -> Option<String>
        ensures { IfSome result (λ text. (sign : Sign) × IsSignOf self.now seconds job known none sign
            × (string_bytes text ≡ drawn_text (sign_text sign))) }
    {
        let first = *self.moves.get(job)?;
        let work = if known == WINS {
            Work::Wins { first }
        } else {
            Work::Open {
                number: job.saturating_add(1),
                jobs: self.moves.len(),
                first,
            }
        };
        let round = match self.course {
            Course::Rounds => next_round(none),
            Course::Keys(_) => next_round(known),
        };
        let sign = Sign {
            seconds,
            line: self.setting.line,
            none: if none == 0 { None } else { Some(none) },
            round,
            work,
            advises: is_advised(seconds, self.setting.slots),
        };
        drawn(self.alloc, &sign).ok()
    }

    /// What is known of each job by now.
    fn all_known(&self) -> Result<Vec<u8>, AllocError>
        ensures { IfOk result (λ all. vec_len all ≡ vec_len self.now.known) }
    {
        let mut all = Vec::new(self.alloc);
        for known in &self.known {
            all.push(byte_of(known))?;
        }
        Ok(all)
    }

    /// The sign of this moment, where a job is to be named and there is memory for it.
    fn text(&self, seconds: u64) -> Option<String>
        ensures { IfSome result (λ text. DrawsFirst self.now seconds (string_bytes text)) }
    {
        let all = self.all_known().ok()?;
        let none = byte_of(&self.none);
        let job = first_named(all.as_slice(), self.target(none))?;
        self.text_of(seconds, job, all[job], none)
    }
}

/// Leaves a line behind for each round that has ended with nothing since so many plies, and answers the plies
/// of the last one. Of a batch's search none is left. A failed write plays no part.
fn leave_rounds<R: Eprint>(rt: &R, watch: &Watch, told: u8) -> u8 {
    let none = byte_of(&watch.none);
    if watch.setting.line.is_some() {
        return none;
    }
    for before in told..none {
        // rounds have odd numbers of plies
        if before % 2 == 0 {
            if let Ok(text) = left_behind(watch.alloc, None, before + 1) {
                let _ = eprint!(rt; "{text}");
            }
        }
    }
    none
}

/// Draws the sign, where there is one.
fn draw<R: Eprint>(rt: &R, watch: &Watch, seconds: u64) {
    if let Some(text) = watch.text(seconds) {
        let _ = eprint!(rt; "{text}");
    }
}

/// Shows a search from its first second on until it is over. It alone writes on standard error as long as it runs.
fn show<R: Wait + Eprint + Clock>(rt: &R, watch: &Watch) {
    let mut told = 0;
    let mut shows = false;
    for _ in rt.forever() {
        let over = watch.over.load(Ordering::SeqCst) != 0;
        let passed = watch.start.elapsed(rt).unwrap_or(Duration::ZERO);
        shows = passed.as_secs() != 0;
        if shows {
            told = leave_rounds(rt, watch, told);
        }
        if over {
            break;
        }
        if shows {
            draw(rt, watch, passed.as_secs());
        }
        let rest = 1000 - u64::from(passed.subsec_millis());
        watch.parker.park_timeout(rt, Duration::from_millis(rest));
    }
    if shows {
        let _ = eprint!(rt; "{CLEARED}");
    }
}

/// What the work gives, with a thread beside it that shows the search which it tells the watch of, from its first second on until the work
/// is done.
pub fn shown<R: Threads + Wait + Eprint + Clock + Sync, T, F: FnOnce() -> T>(
    rt: &R,
    watch: &Watch,
    work: F,
) -> T
    requires { F.pre work }
    ensures { F.post work result }
{
    let (_, found) = join(
        rt,
        || show(rt, watch),
        move || -> T
            requires { F.pre work }
            ensures { F.post work result }
        {
            let found = work();
            watch.finish();
            found
        },
    );
    found
}
