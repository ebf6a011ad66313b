//! Words that mean nothing that the program answers, or can't be had.
ghost use Rattle.std.specs.Prelude.{◌≡◌, ◌⊎◌, ◌<◌, OnOk};
ghost use Rattle.std.specs.Io.KnownBytes.{Appends};
ghost use Rattle.std.specs.IoError.{error_kind};
ghost use Rattle.endings.specs.Run.{ending_of, MayTell};
ghost use Rattle.endings.specs.Words.{EndsWordless, no_text, no_goal};

use crate::ending::{REFUSED_WORDS, give_up_for_memory};
use clap::ArgMatches;
use devices::Sink;
use refusals::{advise_limit, advise_words};
use std::alloc::Global;
use std::io::{self, Write};

/// Says that a word is no text.
fn say_no_text<E: Write>(errors: &mut E) -> io::Result<()>
    ensures { OnOk result (Appends (E.contents errors.old) (E.contents errors.new) no_text) }
{
    errors.write_all(b"error: a word of the command line is not UTF-8\n")
}

/// Says that the goal is none.
fn say_no_goal<E: Write>(errors: &mut E) -> io::Result<()>
    ensures { OnOk result (Appends (E.contents errors.old) (E.contents errors.new) no_goal) }
{
    errors.write_all(b"error: --goal is mate or stale: write one of these\n")
}

/// Whether the goal that was found is one.
fn has_goal(values: &ArgMatches<'_>) -> bool {
    match values.get_str("goal") {
        Some(goal) => goal == "mate" || goal == "stale",
        None => false,
    }
}

/// Says why what was found is no order of these commands: it is another program's, the goal is none, or a search has both limits,
/// or neither.
fn say_no_order<E: Write>(
    errors: &mut E,
    own: &[&str],
    matches: &ArgMatches<'_>,
) -> io::Result<()> {
    match matches.subcommand() {
        Some((name, _)) if !own.contains(&name) => write!(
            errors,
            "error: {name} is another program's: write minimate {name}\n"
        ),
        Some((_, values)) if has_goal(values) => {
            advise_limit(errors, values.get_str("limit").is_some())
        }
        _ => say_no_goal(errors),
    }
}

/// Says why the words mean no order of these commands, or gives the help that they ask for. The parser takes any word for a goal.
fn explain<E: Write>(
    alloc: Global,
    own: &[&str],
    words: &[String],
    errors: &mut E,
) -> io::Result<()> {
    match command_line::matches(alloc, words) {
        Ok(found) => say_no_order(errors, own, &found),
        Err(error) => {
            write!(errors, "{error}")?;
            advise_words(errors, words)
        }
    }
}

/// Where a run ended for its words, says why they mean no order of a program that answers these commands alone.
pub fn explain_if_refused<E: Write>(
    alloc: Global,
    own: &[&str],
    status: u8,
    words: &[String],
    errors: &mut E,
)
    ensures silent { (status ≡ 2) ⊎ (errors.new ≡ errors.old) }
{
    if status == REFUSED_WORDS {
        let _ = explain(alloc, own, words, errors);
    }
}

/// Ends a run whose words can't be had: for want of memory, or since one of them is no text.
pub fn end_wordless<K: Sink, E: Write>(error: &io::Error, writer: &mut K, errors: &mut E) -> u8
    requires { K.failures writer.old < u64.MAX }
    ensures ends { EndsWordless (error_kind error.now) (ending_of K.contents K.failures writer.old writer.new result) }
    ensures silent { (result ≡ 2) ⊎ MayTell result ⊎ (errors.new ≡ errors.old) }
{
    if error.kind() == io::ErrorKind::OutOfMemory {
        return give_up_for_memory(writer, errors);
    }
    let _ = say_no_text(errors);
    REFUSED_WORDS
}
