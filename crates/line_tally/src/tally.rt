//! The progress line of a batch or of a certificate, drawn on standard error at most once a second.
ghost use Rattle.std.specs.Prelude.{◌≡◌, ◌⊎◌, [], false, None, IfSome, OnOk};
ghost use Rattle.std.specs.Io.KnownBytes.{Appends};
ghost use Rattle.line_tally.specs.Quiet.{IsQuiet};
ghost use Rattle.line_tally.specs.Drawing.{CountsOnce, clearing, count_of, message_text};
ghost use Rattle.line_tally.specs.Text.{count_over_line};

use crate::count::{Count, Lines};
use progress::CLEARED;
use std::io::{self, Write};
use std::time::{Clock, Instant};

/// The state of the progress line. It changes no reply.
#[derive(Drop)]
pub struct Tally {
    /// When the batch began, or `None` if no progress is shown.
    start: Option<Instant>,
    lines: Lines,
    /// How many lines at the beginning of the input were skipped.
    skipped: u32,
    /// The second in which the progress line was drawn last.
    told: u32,
    /// Whether the progress line is on the terminal.
    is_drawn: bool,
}

impl Tally {
    /// Starts the progress of a batch that begins now. Shows nothing if `lines` is `None`.
    pub fn new<R: Clock>(rt: &R, lines: Option<Lines>, skipped: u32) -> Tally
        ensures quiet { lines ≡ None → IsQuiet result }
        ensures lines { IfSome lines (λ count. result.lines ≡ count) }
        ensures fresh { (result.told ≡ 0) × (result.is_drawn ≡ false) × (result.skipped ≡ skipped) }
    {
        let (start, lines) = match lines {
            Some(lines) => (Instant::now(rt).ok(), lines),
            None => (None, Lines::Unknown),
        };
        Tally {
            start,
            lines,
            skipped,
            told: 0,
            is_drawn: false,
        }
    }

    /// Returns the count to draw after this number of seconds, once the line of this number is answered. Returns `None` if the line was
    /// drawn in this second already.
    pub fn due(&mut self, number: u64, seconds: u32) -> Option<Count>
        ensures { CountsOnce self.old self.new number seconds result }
    {
        if seconds <= self.told {
            return None;
        }
        self.told = seconds;
        self.is_drawn = true;
        Some(Count {
            number,
            lines: self.lines,
            skipped: self.skipped,
            seconds,
        })
    }

    /// Returns the count to draw now, by the clock, or `None` if none is due or no progress is shown.
    fn due_now<R: Clock>(&mut self, rt: &R, number: u64) -> Option<Count>
        ensures quiet { IsQuiet self.old → result ≡ None }
        ensures count { IfSome result (λ count. count ≡ count_of self.old number self.new.told) }
        ensures once { self.new.told ≡ self.old.told → result ≡ None }
    {
        let start = self.start?;
        let passed = start.elapsed(rt).ok()?;
        let seconds = u32::try_from(passed.as_secs()).unwrap_or(u32::MAX);
        self.due(number, seconds)
    }

    /// Draws how many lines are answered, if a second has passed since the line was drawn last.
    pub fn tell<R: Clock, E: Write>(
        &mut self,
        rt: &R,
        number: u64,
        errors: &mut E,
    ) -> io::Result<()>
        ensures quiet { IsQuiet self.old → errors.new ≡ errors.old }
        ensures once { self.new.told ≡ self.old.told → errors.new ≡ errors.old }
        ensures text { OnOk result ((errors.new ≡ errors.old) ⊎ Appends (E.contents errors.old) (E.contents errors.new)
            (count_over_line (count_of self.old number self.new.told))) }
    {
        match self.due_now(rt, number) {
            Some(count) => write!(errors, "\r{count}\u{1b}[K"),
            None => Ok(()),
        }
    }

    /// Shows on the process's standard error how many lines are written, if a second has passed since the last time. Ignores errors.
    pub fn show<R: Clock + Eprint>(&mut self, rt: &R, number: u64) {
        if let Some(count) = self.due_now(rt, number) {
            let _ = eprint!(rt; "\r{count}\u{1b}[K");
        }
    }

    /// Clears the progress line that `show` drew, once all lines are written.
    pub fn hide<R: Eprint>(&mut self, rt: &R)
        ensures { self.new.is_drawn ≡ false }
    {
        if self.is_drawn {
            let _ = eprint!(rt; "{CLEARED}");
        }
        self.is_drawn = false;
    }

    /// Clears the progress line, if it is on the terminal.
    pub fn clear<E: Write>(&mut self, errors: &mut E) -> io::Result<()>
        ensures cleared { self.new.is_drawn ≡ false }
        ensures text { OnOk result (Appends (E.contents errors.old) (E.contents errors.new) (clearing self.old.is_drawn)) }
    {
        if !self.is_drawn {
            return Ok(());
        }
        self.is_drawn = false;
        errors.write_all(CLEARED.as_bytes())
    }

    /// Writes a message on a line of its own: clears the progress line first.
    pub fn message<E: Write>(&mut self, errors: &mut E, message: &[u8]) -> io::Result<()>
        ensures text { OnOk result (Appends (E.contents errors.old) (E.contents errors.new)
            (message_text self.old.is_drawn message.now)) }
    {
        if message.is_empty() {
            return Ok(());
        }
        self.clear(errors)?;
        errors.write_all(message)
    }
}
