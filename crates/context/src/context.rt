//! What a run is given, and the watch over its search.
ghost use Rattle.std.specs.Prelude.{◌≡◌, ◌≢◌, ◌<◌, All, Any, IfSome, None, MatchBool, MatchOption, false};
ghost use Rattle.command_line.specs.Words.{progress_word};
ghost use Rattle.progress.specs.Signs.{IsLastRound};
ghost use Rattle.progress.specs.declared.watch.Course.{Course as TheCourse};
ghost use Rattle.context.specs.Searching.{IsCourse, WatchesAt};

use crate::limits::search_of;
use board::Position;
use command_line::{Limits, asks_progress};
use progress::{Course, Setting, Watch, shown};
use std::convert::AsStr;
use std::sync::Wait;
use std::thread::Threads;
use std::time::{Clock, Instant};

/// What a run is given, who searches for it, and whether it shows how far a search is.
#[derive(Drop)]
pub struct Context<'a, R, C> {
    pub rt: &'a R,
    pub crew: C,
    pub shows: bool,
    /// The number of a batch's line, where there is a batch.
    pub line: Option<u64>,
}

/// The context of what these words ask for, which shows how far a search is where they say so.
pub fn context_of<'a, R, C, W: AsStr>(rt: &'a R, crew: C, words: &[W]) -> Context<'a, R, C>
    ensures { MatchBool result.shows (Any (λ word. W.text word ≡ progress_word) words.now)
        (All (λ word. W.text word ≢ progress_word) words.now) }
{
    Context {
        rt,
        crew,
        shows: asks_progress(words),
        line: None,
    }
}

impl<R, C> Context<'_, R, C> {
    /// The number of a batch's line, and 0 where there is no batch.
    pub fn number(&self) -> u64
        ensures { MatchOption self.now.line (result ≡ 0) (λ number. result ≡ number) }
    {
        self.line.unwrap_or(0)
    }
}

impl<R: Clock + AllocGlobal, C> Context<'_, R, C> {
    /// A watch over a search at a position that begins now, if it is to be shown.
    fn watch(&self, position: &Position, course: Course, slots: u32) -> Option<Watch>
        ensures quiet { self.now.shows ≡ false → result ≡ None }
        ensures watches { IfSome result (WatchesAt position.now course slots) }
        ensures line { IfSome result (λ watch. watch.setting.line ≡ self.now.line) }
    {
        if !self.shows {
            return None;
        }
        let start = Instant::now(self.rt).ok()?;
        let setting = Setting {
            line: self.line,
            slots,
        };
        Watch::new(self.rt.alloc(), start, setting, position, course).ok()
    }

    /// A watch over a search for an answer, or for keys, if it is to be shown.
    pub fn watch_of(&self, position: &Position, keys: bool, limits: Limits) -> Option<Watch>
        ensures quiet { self.now.shows ≡ false → result ≡ None }
        ensures watches { IfSome result (λ watch. (way : TheCourse) × IsCourse keys limits.limit way
            × WatchesAt position.now way limits.slots watch) }
        ensures line { IfSome result (λ watch. watch.setting.line ≡ self.now.line) }
    {
        let course = if keys {
            Course::Keys(last_round(limits))
        } else {
            Course::Rounds
        };
        self.watch(position, course, limits.slots)
    }
}

/// What the work gives, with a thread beside it that shows how far it is, where there is a watch.
pub fn beside<R: Threads + Wait + Eprint + Clock + Sync, T, F: FnOnce() -> T>(
    rt: &R,
    watch: Option<&Watch>,
    work: F,
) -> T
    requires { F.pre work }
    ensures { F.post work result }
{
    match watch {
        Some(watch) => shown(rt, watch, work),
        None => work(),
    }
}

/// The last round up to the limit.
fn last_round(limits: Limits) -> u8
    ensures { 0 < limits.limit → limits.limit < 256 → IsLastRound limits.limit result }
{
    let limit = search_of(limits).limit;
    limit - (1 - limit % 2).min(limit)
}
