//! The text of a sign of life, and how it is drawn over the line before it.
ghost use Rattle.std.specs.Prelude.{◌≡◌, IfOk, string_bytes};
ghost use Rattle.progress.specs.Text.{advice_text, drawn_text, held_text, left_text, line_text, sign_text, work_text};

use rules::Move;
use std::alloc::{AllocError, Global};

/// What the first job does that isn't known to lose.
#[derive(Clone, Copy)]
pub enum Work {
    /// It isn't decided yet: its number from 1, the number of all, and its move.
    Open {
        number: usize,
        jobs: usize,
        first: Move,
    },
    Wins {
        first: Move,
    },
}

/// What a sign of life says.
#[derive(Clone, Copy)]
pub struct Sign {
    pub seconds: u64,
    /// The number of the line, in a batch.
    pub line: Option<u64>,
    /// The plies that hold nothing, once a round has ended so.
    pub none: Option<u8>,
    pub round: u8,
    pub work: Work,
    /// Whether a greater table is advised.
    pub advises: bool,
}

/// What clears the line that was drawn last.
pub const CLEARED: &str = "\r\u{1b}[K";

fn line_text(alloc: Global, line: Option<u64>) -> Result<String, AllocError>
    ensures { IfOk result (λ text. string_bytes text ≡ line_text line) }
{
    match line {
        Some(number) => format!(in alloc; "line {number}, "),
        None => Ok(String::new(alloc)),
    }
}

fn held_text(alloc: Global, none: Option<u8>) -> Result<String, AllocError>
    ensures { IfOk result (λ text. string_bytes text ≡ held_text none) }
{
    match none {
        Some(plies) => format!(in alloc; "none within {plies}, "),
        None => Ok(String::new(alloc)),
    }
}

fn work_text(alloc: Global, work: Work) -> Result<String, AllocError>
    ensures { IfOk result (λ text. string_bytes text ≡ work_text work) }
{
    match work {
        Work::Open {
            number,
            jobs,
            first,
        } => format!(in alloc; "move {number} of {jobs}, {first}"),
        Work::Wins { first } => format!(in alloc; "{first} wins"),
    }
}

fn advice_text(advises: bool) -> &'static str
    ensures { result.now ≡ advice_text advises }
{
    if advises {
        "; --slots 1048573 may be faster"
    } else {
        ""
    }
}

fn sign_text(alloc: Global, sign: &Sign) -> Result<String, AllocError>
    ensures { IfOk result (λ text. string_bytes text ≡ sign_text sign.now) }
{
    let Sign { seconds, round, .. } = *sign;
    let line = line_text(alloc, sign.line)?;
    let none = held_text(alloc, sign.none)?;
    let work = work_text(alloc, sign.work)?;
    let advice = advice_text(sign.advises);
    format!(in alloc; "{seconds} s, {line}{none}round {round}: {work}{advice}")
}

/// The sign, drawn over what stands on the line, and cut off at the terminal's width.
pub fn drawn(alloc: Global, sign: &Sign) -> Result<String, AllocError>
    ensures { IfOk result (λ text. string_bytes text ≡ drawn_text (sign_text sign.now)) }
{
    let text = sign_text(alloc, sign)?;
    format!(in alloc; "\r\u{1b}[?7l{text}\u{1b}[K\u{1b}[?7h")
}

/// What a round that ended with nothing leaves behind.
pub fn left_behind(alloc: Global, line: Option<u64>, plies: u8) -> Result<String, AllocError>
    ensures { IfOk result (λ text. string_bytes text ≡ left_text line plies) }
{
    let line = line_text(alloc, line)?;
    format!(in alloc; "\r{line}none within {plies}\u{1b}[K\n")
}
