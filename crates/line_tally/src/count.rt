//! The text of the progress line: how many lines are answered, and how long the others may take.
ghost use Rattle.std.specs.Prelude.{◌≡◌};
ghost use Rattle.line_tally.specs.Text.{named_lines, seconds_left};

use std::fmt;

/// The number of lines of an input.
#[derive(Clone, Copy)]
pub enum Lines {
    Unknown,
    Known(u32),
}

impl Lines {
    /// The number of lines that the option `--lines` names, where 0 says that it isn't known.
    pub fn of(count: u32) -> Lines
        ensures { result ≡ named_lines count }
    {
        match count {
            0 => Lines::Unknown,
            _ => Lines::Known(count),
        }
    }
}

/// The progress of a batch: how many lines are answered after a number of seconds.
#[derive(Clone, Copy)]
pub struct Count {
    /// The number of the line that was answered last. The first line of the input has the number 1.
    pub number: u64,
    /// The lines of the whole input.
    pub lines: Lines,
    /// The lines at the beginning of the input that were skipped, and so took no time.
    pub skipped: u32,
    /// The whole seconds since the first line was read.
    pub seconds: u32,
}

/// Estimates the seconds until the last line is answered, from the mean time of a line so far. Returns `None` before the first answer,
/// and if the number of lines isn't known or is too low.
fn seconds_left(count: &Count) -> Option<u64>
    ensures { result ≡ seconds_left count.now }
{
    let Lines::Known(lines) = count.lines else {
        return None;
    };
    let (lines, skipped) = (u64::from(lines), u64::from(count.skipped));
    if lines < count.number || count.number <= skipped {
        return None;
    }
    Some((lines - count.number) * u64::from(count.seconds) / (count.number - skipped))
}

/// A time, in seconds.
#[derive(Clone, Copy)]
struct Time(u64);

/// Writes seconds below two minutes, and whole minutes from there on: `119 s`, `2 minutes`.
impl fmt::Display for Time {
    ghost use Rattle.std.specs.Prelude.{Some};
    ghost use Rattle.line_tally.specs.Text.{time_text};

    ghost output = { λ time. Some (time_text time.0) };

    fn fmt<W: fmt::Write>(&self, f: &mut fmt::Formatter<W>) -> fmt::Result {
        let seconds = self.0;
        if seconds < 120 {
            return write!(f, "{seconds} s");
        }
        let minutes = seconds / 60;
        write!(f, "{minutes} minutes")
    }
}

/// Writes `20 of 100 lines, 8 s to go at this rate`, or `20 lines, 2 s` if there is no estimate.
impl fmt::Display for Count {
    ghost use Rattle.std.specs.Prelude.{Some};
    ghost use Rattle.line_tally.specs.Text.{count_text};

    ghost output = { λ count. Some (count_text count) };

    fn fmt<W: fmt::Write>(&self, f: &mut fmt::Formatter<W>) -> fmt::Result {
        let Count {
            number,
            lines,
            seconds,
            ..
        } = *self;
        match (lines, seconds_left(self)) {
            (Lines::Known(lines), Some(left)) => {
                let left = Time(left);
                write!(f, "{number} of {lines} lines, {left} to go at this rate")
            }
            _ => write!(f, "{number} lines, {seconds} s"),
        }
    }
}
