//! Reading the words of a command line.
ghost use Rattle.std.specs.Prelude.{◌≡◌, ◌≢◌, ◌↔◌, ◌*◌, ◌-◌, All, Any, IfErr, IfOk, IsTrue, MatchBool, MatchOption, None, Some, codes, map, min};
ghost use Rattle.clap.specs.declared.error.kind.ErrorKind.TheVariants.{OutOfMemory};
ghost use Rattle.clap.specs.Words.{FailsBy, fault_of, first_of, found_of, kind_of, rows_of, subcommand_of, subcommand_rows_of};
ghost use Rattle.command_line.specs.declared.reading.LineFault.TheVariants.{NoMemory, Words};
ghost use Rattle.command_line.specs.declared.line.Order.{Order as TheOrder};
ghost use Rattle.command_line.specs.Making.{HasMove, Reads};
ghost use Rattle.command_line.specs.Program.{program};
ghost use Rattle.command_line.specs.Words.{HasBatchOptions, HasDrawing, HasGoal, HasLimit, HasLimits, HasLine, HasNumberIfGiven, HasOrder, HasSolutionOptions, HasSubject, IsGiven, MeansAction, MeansFound, MeansNoOrder, MeansOrder, progress_word};

use crate::line::{
    Action, BatchOptions, Drawing, Limits, Line, NamedMove, Order, SolutionOptions, Subject,
};
use crate::making::command;
use clap::error::ErrorKind;
use clap::{ArgMatches, Error};
use rules::Goal;
use std::alloc::Global;
use std::convert::AsStr;

const PROGRESS_WORD: &str = "--progress";

/// Why the words are no line.
#[derive(Clone, Copy, Debug, thiserror::Error)]
pub enum LineFault {
    /// They were refused, or they ask for help or the version.
    #[error("the words are no command line")]
    Words,
    #[error("memory was refused")]
    NoMemory,
}

impl From<Error> for LineFault {
    ghost from_gives = { λ error fault. (fault ≡ NoMemory) ↔ (kind_of error ≡ OutOfMemory) };

    fn from(error: Error) -> LineFault {
        match error.kind() {
            ErrorKind::OutOfMemory => LineFault::NoMemory,
            _ => LineFault::Words,
        }
    }
}

/// What `clap` makes of the words.
pub fn matches<'a, W: AsStr>(alloc: Global, words: &'a [W]) -> Result<ArgMatches<'a>, Error>
    ensures found { IfOk result (λ m. subcommand_rows_of m ≡ subcommand_of program (map W.text words.entry.now)) }
    ensures kinds { FailsBy (fault_of program (map W.text words.entry.now)) result }
{
    command(alloc)?.try_get_matches_from(words)
}

/// The first text that was found.
fn text_of<'a>(values: &ArgMatches<'a>, id: &str) -> Option<&'a str>
    ensures { MatchOption result (first_of id.now (rows_of (found_of values.now)) ≡ None)
        (λ text. first_of id.now (rows_of (found_of values.now)) ≡ Some text.now) }
{
    values.get_str(id)
}

/// Its bytes.
fn word_of<'a>(values: &ArgMatches<'a>, id: &str) -> Option<&'a [u8]>
    ensures { MatchOption result (first_of id.now (rows_of (found_of values.now)) ≡ None)
        (λ word. first_of id.now (rows_of (found_of values.now)) ≡ Some word.now) }
{
    Some(text_of(values, id)?.as_bytes())
}

fn number_of(values: &ArgMatches<'_>, id: &str) -> Option<u32>
    ensures { HasNumberIfGiven id.now (rows_of (found_of values.now)) result }
{
    values.get_one::<u32>(id)
}

/// Whether an option that takes no value was given.
fn is_given(values: &ArgMatches<'_>, id: &str) -> bool
    ensures { IsTrue result ↔ IsGiven id.now (rows_of (found_of values.now)) }
{
    matches!(text_of(values, id), Some("true"))
}

/// The plies of a mate in so many moves, or the greatest number where they are more.
fn plies_of(moves: u32) -> u32
    ensures { result ≡ min (2 * moves - 1) 4294967295 }
{
    moves.saturating_sub(1).saturating_add(moves)
}

/// The most plies, by `--limit` or by `--mate`. Where both are given, or neither, there is none.
fn limit_of(values: &ArgMatches<'_>) -> Option<u32>
    ensures { Reads (HasLimit (rows_of (found_of values.now))) result }
{
    match text_of(values, "mate") {
        None => number_of(values, "limit"),
        Some(_) => match text_of(values, "limit") {
            None => Some(plies_of(number_of(values, "mate")?)),
            Some(_) => None,
        },
    }
}

fn limits(values: &ArgMatches<'_>) -> Option<Limits>
    ensures { Reads (HasLimits (rows_of (found_of values.now))) result }
{
    Some(Limits {
        limit: limit_of(values)?,
        workers: number_of(values, "workers")?,
        slots: number_of(values, "slots")?,
    })
}

fn goal_of(values: &ArgMatches<'_>) -> Option<Goal>
    ensures { Reads (HasGoal (rows_of (found_of values.now))) result }
{
    match text_of(values, "goal")? {
        "mate" => Some(Goal::Mate),
        "stale" => Some(Goal::MateOrStale),
        _ => None,
    }
}

fn batch_options(values: &ArgMatches<'_>) -> BatchOptions
    ensures { HasBatchOptions (rows_of (found_of values.now)) result }
{
    BatchOptions {
        echo: is_given(values, "echo"),
        keys: is_given(values, "keys"),
        json: is_given(values, "json"),
        lines: number_of(values, "lines"),
        skip: number_of(values, "skip"),
    }
}

fn solution_options<'a>(values: &ArgMatches<'a>) -> SolutionOptions<'a>
    ensures { HasSolutionOptions (rows_of (found_of values.now)) result }
{
    SolutionOptions {
        set_play: is_given(values, "set"),
        tries: is_given(values, "tries"),
        figurines: is_given(values, "figurines"),
        short: is_given(values, "short"),
        json: is_given(values, "json"),
        svg: is_given(values, "svg"),
        first: word_of(values, "first"),
    }
}

fn drawing_of(values: &ArgMatches<'_>) -> Drawing
    ensures { HasDrawing (rows_of (found_of values.now)) result }
{
    Drawing {
        svg: is_given(values, "svg"),
        unicode: is_given(values, "unicode"),
        black: is_given(values, "black"),
    }
}

fn subject_of<'a>(values: &ArgMatches<'a>) -> Option<Subject<'a>>
    ensures { Reads (HasSubject (rows_of (found_of values.now))) result }
{
    Some(Subject {
        fen: word_of(values, "FEN")?,
        goal: goal_of(values)?,
    })
}

/// The position, and the move of that name of an argument.
fn named_move<'a>(values: &ArgMatches<'a>, id: &str) -> Option<NamedMove<'a>>
    ensures { Reads (HasMove id.now (rows_of (found_of values.now))) result }
{
    Some(NamedMove {
        fen: word_of(values, "FEN")?,
        name: word_of(values, id)?,
    })
}

/// A command that searches, and is no batch.
fn search_of(name: &str, goal: Goal, limits: Limits, values: &ArgMatches<'_>) -> Option<Action>
    requires goal { HasGoal (rows_of (found_of values.now)) goal }
    requires limits { HasLimits (rows_of (found_of values.now)) limits }
    requires name { (name.now ≢ codes "moves") × (name.now ≢ codes "check") }
    ensures { Reads (MeansAction name.now (rows_of (found_of values.now))) result }
{
    match name {
        "solve" => Some(Action::Solve(goal, limits)),
        "keys" => Some(Action::Keys(goal, limits)),
        "tree" => match text_of(values, "first") {
            None => Some(Action::Tree(goal, limits)),
            _ => None,
        },
        _ => None,
    }
}

fn action_of(name: &str, values: &ArgMatches<'_>) -> Option<Action>
    ensures { Reads (MeansAction name.now (rows_of (found_of values.now))) result }
{
    match name {
        "moves" => Some(Action::Moves),
        "check" => Some(Action::Check(goal_of(values)?)),
        _ => search_of(name, goal_of(values)?, limits(values)?, values),
    }
}

/// The command of that name, at a position.
fn line_of<'a>(name: &str, values: &ArgMatches<'a>) -> Option<Line<'a>>
    ensures { Reads (HasLine name.now (rows_of (found_of values.now))) result }
{
    Some(Line {
        fen: word_of(values, "FEN")?,
        action: action_of(name, values)?,
    })
}

fn order_at<'a>(name: &str, values: &ArgMatches<'a>) -> Option<Order<'a>>
    ensures { Reads (MeansFound name.now (rows_of (found_of values.now))) result }
{
    match name {
        "batch" => Some(Order::Batch(goal_of(values)?, limits(values)?, batch_options(values))),
        "verify" => Some(Order::Verify(subject_of(values)?)),
        "certify" => Some(Order::Certify(subject_of(values)?, limits(values)?)),
        "after" => Some(Order::After(named_move(values, "MOVE")?)),
        "show" => Some(Order::Show(word_of(values, "FEN")?, drawing_of(values))),
        "solution" => {
            let (subject, limits) = (subject_of(values)?, limits(values)?);
            Some(Order::Solution(subject, limits, solution_options(values)))
        }
        "tree" => match named_move(values, "first") {
            None => Some(Order::One(line_of(name, values)?)),
            Some(played) => Some(Order::TreeAfter(played, goal_of(values)?, limits(values)?)),
        },
        _ => Some(Order::One(line_of(name, values)?)),
    }
}

/// The order that was found. That there is none is the words' fault, and no want of memory.
fn found_order<'a>(matches: &ArgMatches<'a>) -> Result<Order<'a>, LineFault>
    ensures order { IfOk result (HasOrder (subcommand_rows_of matches.now)) }
    ensures fault { IfErr result (λ fault. (fault ≡ Words)
        × ((order : TheOrder) → HasOrder (subcommand_rows_of matches.now) order → ⊥)) }
{
    match matches.subcommand() {
        Some((name, values)) => order_at(name, values).ok_or(LineFault::Words),
        None => Err(LineFault::Words),
    }
}

/// Whether a sign of life is asked for, by words that mean an order which searches.
pub fn asks_progress<W: AsStr>(words: &[W]) -> bool
    ensures { MatchBool result (Any (λ word. W.text word ≡ progress_word) words.now)
        (All (λ word. W.text word ≢ progress_word) words.now) }
{
    for word in words {
        if word.as_str() == PROGRESS_WORD {
            return true;
        }
    }
    false
}

/// The order that the words mean. The first word is the program's name.
pub fn read_order<'a, W: AsStr>(alloc: Global, words: &'a [W]) -> Result<Order<'a>, LineFault>
    ensures order { IfOk result (MeansOrder (map W.text words.entry.now)) }
    ensures refused { IfErr result (λ fault. fault ≡ Words → MeansNoOrder (map W.text words.entry.now)) }
{
    let matches = matches(alloc, words)?;
    found_order(&matches)
}
