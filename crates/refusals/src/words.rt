//! What is told of words that are no line: one change after which they are.
ghost use Rattle.std.specs.Prelude.{◌≡◌, ◌⊎◌, OnOk};
ghost use Rattle.std.specs.Io.KnownBytes.{Appends};
ghost use Rattle.refusals.specs.Sentences.{AppendsLine, error_beginning, limits_text};

use crate::sentence::Part::{Behind, Text};
use crate::sentence::{NO, Sentence, write_line};
use std::io::{self, Write};

/// The commands that search, at a position of the line or at many.
const SEARCHES: &[&str] = &["solve", "keys", "tree", "solution", "certify", "batch"];

const COMMANDS: &[&str] = &[
    "solve", "keys", "tree", "solution", "certify", "batch", "check", "verify", "moves", "show",
    "after",
];

/// The options that have no value.
const FLAGS: &[&str] = &[
    "--progress",
    "--echo",
    "--keys",
    "--json",
    "--set",
    "--tries",
    "--figurines",
    "--short",
    "--svg",
    "--unicode",
    "--black",
];

/// An option that only some commands have: its name, the commands as a sentence names them, and the commands.
#[derive(Clone, Copy)]
struct Owned<'a>(&'a str, &'a str, &'a [&'a str]);

const OWNED: [Owned<'static>; 12] = [
    Owned("--echo", "batch", &["batch"]),
    Owned("--keys", "batch", &["batch"]),
    Owned("--lines", "batch", &["batch"]),
    Owned("--skip", "batch", &["batch"]),
    Owned("--json", "batch and solution", &["batch", "solution"]),
    Owned("--set", "solution", &["solution"]),
    Owned("--tries", "solution", &["solution"]),
    Owned("--figurines", "solution", &["solution"]),
    Owned("--short", "solution", &["solution"]),
    Owned("--svg", "solution and show", &["solution", "show"]),
    Owned("--unicode", "show", &["show"]),
    Owned("--black", "show", &["show"]),
];

/// What an option takes: how far to search, another number of a search, a goal, or a number that a batch alone takes.
#[derive(Clone, Copy)]
enum Takes {
    Limit,
    Number,
    Goal,
    Lines,
}

/// An option that has a value: its name and how few bytes of it stand for it, another word for it, what it takes, in which range, and
/// one such value.
#[derive(Clone, Copy)]
struct Known<'a>(&'a str, usize, &'a str, Takes, &'a str, &'a str);

const OPTIONS: [Known<'static>; 7] = [
    Known("--limit", 3, "", Takes::Limit, "from 1 to 63", "3"),
    Known("--mate", 3, "--moves", Takes::Limit, "from 1 to 32", "2"),
    Known(
        "--workers",
        3,
        "--threads",
        Takes::Number,
        "from 1 to 16",
        "2",
    ),
    Known(
        "--slots",
        4,
        "",
        Takes::Number,
        "from 1 to 1048576",
        "1048573",
    ),
    Known("--goal", 3, "", Takes::Goal, "", "mate"),
    Known(
        "--lines",
        7,
        "",
        Takes::Lines,
        "from 0 to 4294967295",
        "100",
    ),
    Known("--skip", 6, "", Takes::Lines, "from 0 to 4294967295", "100"),
];

/// A word of a line, read as an option.
#[derive(Clone, Copy)]
struct Word<'a> {
    text: &'a str,
    /// The name in the word, as of `--limit=3`, or else the whole word.
    name: &'a str,
    /// The value in the word, or else the word behind it.
    value: &'a str,
    has_number: bool,
    /// The number behind an option, if one stands there as a word of its own.
    behind: &'a str,
    option: Option<Known<'a>>,
    /// Whether it is called so here.
    is_whole: bool,
}

/// The word at this place, and none behind the last.
fn text_at(words: &[String], place: usize) -> &str {
    match words.get(place) {
        Some(word) => word.as_str(),
        None => "",
    }
}

/// Whether the name is this option, or its beginning, written with one dash in place of two.
fn has_one_dash(own: &str, name: &str, least: usize) -> bool {
    match own.strip_prefix("-") {
        Some(behind) => least <= name.len().saturating_add(1) && behind.starts_with(name),
        None => false,
    }
}

/// The option that is written so.
fn option_of<'a>(name: &str) -> Option<Known<'a>> {
    for option in OPTIONS {
        let Known(own, least, other, ..) = option;
        let is_other = other.len() == name.len() && other.starts_with(name);
        let is_begun = least <= name.len() && (is_other || own.starts_with(name));
        if is_begun || has_one_dash(own, name, least) {
            return Some(option);
        }
    }
    None
}

fn word_at(words: &[String], place: usize) -> Word<'_> {
    let text = text_at(words, place);
    let (name, value, is_one) = match text.split_once('=') {
        Some((name, value)) => (name, value, true),
        None => (text, text_at(words, place.saturating_add(1)), false),
    };
    let (option, has_number) = (option_of(name), value.parse::<u32>().is_ok());
    let is_whole = match option {
        Some(Known(own, ..)) => own == name,
        None => false,
    };
    let is_behind = has_number && !is_one && option.is_some();
    let behind = if is_behind { value } else { "" };
    Word {
        text,
        name,
        value,
        has_number,
        behind,
        option,
        is_whole,
    }
}

/// What a word means that is no option, behind a command that searches.
fn of_lone(words: &[String], place: usize) -> Option<Sentence<'_>> {
    let (word, last) = (
        text_at(words, place),
        text_at(words, place.saturating_sub(1)),
    );
    // As far as one can tell of an option that there isn't, the word is its value.
    let is_value = last.starts_with("-") && !last.contains("=") && !FLAGS.contains(&last);
    if is_value || word.starts_with("-") {
        return None;
    }
    let parts = (Text(word), Text(word), NO, NO);
    if word.parse::<u32>().is_ok() {
        for i in 0..words.len() {
            if let Some(Known(_, _, _, Takes::Limit, ..)) = word_at(words, i).option {
                return None;
            }
        }
        return Some(Sentence(LONE_NUMBER, parts));
    }
    if text_at(words, 1) != "batch" || matches!(word, "mate" | "stale") {
        return None;
    }
    let is_position = word.contains("/") && word.contains(" ");
    Some(Sentence(if is_position { NO_INPUT } else { INPUT }, parts))
}

const LONE_NUMBER: &str = "a limit comes after its option: write '--limit %' in place of '%'";

const INPUT: &str = "batch reads positions from its input: write '< %' in place of '%'";

const NO_INPUT: &str =
    "batch reads positions from its input: write solve in place of batch for one position";

/// The sentence on an option that only other commands have. It names these commands.
fn of_another(words: &[String], place: usize) -> Option<Sentence<'_>> {
    let (word, command) = (word_at(words, place), text_at(words, 1));
    for Owned(name, owners, commands) in OWNED {
        if name == word.name && !commands.contains(&command) {
            let parts = (
                Text(name),
                Text(owners),
                Text(word.text),
                Behind(word.behind),
            );
            return Some(Sentence("% is an option of %: leave out %%", parts));
        }
    }
    None
}

/// What a word means behind a command that searches.
fn of_search(words: &[String], place: usize) -> Option<Sentence<'_>> {
    let word = word_at(words, place);
    let Some(Known(name, _, _, takes, range, value)) = word.option else {
        return of_lone(words, place);
    };
    let (own, is_one) = (word.value, word.text != word.name);
    let is_missing = own.is_empty() || own.starts_with("--") || own.contains("/");
    if !word.is_whole {
        let text = match word.name {
            "--moves" => "moves of the attacker are counted by --mate: write %% in place of %",
            "--threads" => "threads are counted by --workers: write %% in place of %",
            _ => "write %% in place of %",
        };
        let value = Behind(if is_missing { value } else { "" });
        return Some(Sentence(text, (Text(name), value, Text(word.name), NO)));
    }
    let is_taken = match takes {
        Takes::Limit | Takes::Number => true,
        Takes::Goal => false,
        Takes::Lines => text_at(words, 1) == "batch",
    };
    if word.has_number || !is_taken {
        return None;
    }
    let parts = (Text(name), Text(range), Text(value), Text(own));
    if is_missing && !is_one {
        Some(Sentence("% is a number %: write % after it", parts))
    } else {
        Some(Sentence("% is a number %: write % in place of '%'", parts))
    }
}

/// What an option of every search, one that has a number or the sign of life, means behind a command that makes none.
fn of_idle(words: &[String], place: usize) -> Option<Sentence<'_>> {
    let word = word_at(words, place);
    let parts = (
        Text(text_at(words, 1)),
        Text(word.text),
        Behind(word.behind),
        NO,
    );
    let mut has_more = false;
    for i in place..words.len() {
        let word = word_at(words, i);
        let is_of_search = match word.option {
            Some(Known(_, _, _, Takes::Limit | Takes::Number, ..)) => word.is_whole,
            Some(_) => false,
            None => word.name == "--progress",
        };
        if i == place && !is_of_search {
            return None;
        }
        has_more = has_more || (i > place && is_of_search);
    }
    if has_more {
        Some(Sentence(IDLE, parts))
    } else {
        Some(Sentence("% makes no search: leave out %%", parts))
    }
}

const IDLE: &str = "% makes no search: leave out %%, and the other options of a search";

/// Of two options that say the same the one that is wrong is to be left out, or else the second.
fn surplus<'a>(first: &Word<'a>, second: &Word<'a>) -> Option<Sentence<'a>> {
    let is_same = match (first.option?, second.option?) {
        (Known(_, _, _, Takes::Limit, ..), Known(_, _, _, Takes::Limit, ..)) => true,
        (Known(one, ..), Known(other, ..)) => one == other,
    };
    if !is_same {
        return None;
    }
    let is_right = first.is_whole && (first.has_number || first.name == "--goal");
    let is_next_right = second.is_whole && (second.has_number || second.name == "--goal");
    let is_second = is_right || (!is_next_right && first.is_whole);
    let stays = if is_second { first } else { second };
    let goes = if is_second { second } else { first };
    let parts = (Text(stays.name), Text(goes.text), Behind(goes.behind), NO);
    Some(Sentence("% is there already: leave out %%", parts))
}

/// An option before this place that says the same as the one here.
fn again_before(words: &[String], place: usize) -> Option<Sentence<'_>> {
    for i in 2..place {
        let found = surplus(&word_at(words, i), &word_at(words, place));
        if found.is_some() {
            return found;
        }
    }
    None
}

/// What is looked for behind a command, one thing after another.
#[derive(Clone, Copy)]
enum Turn {
    /// The parts of a position. The first word is the program's own name, and no part of one.
    Parts,
    /// Two options of a search that say the same.
    Again,
    /// An option of other commands.
    Another,
    /// What a word means.
    Word,
}

/// The first that is found of what is looked for.
fn first_found(words: &[String], turn: Turn) -> Option<Sentence<'_>> {
    let searches = SEARCHES.contains(&text_at(words, 1));
    for i in 2..words.len() {
        let found = match turn {
            Turn::Parts => cut_position(words, i),
            Turn::Again => again_before(words, i),
            Turn::Another => of_another(words, i),
            Turn::Word if searches => of_search(words, i),
            Turn::Word => of_idle(words, i),
        };
        if found.is_some() {
            return found;
        }
    }
    None
}

/// The word here and the one before, if they are the parts of a position.
fn cut_position(words: &[String], place: usize) -> Option<Sentence<'_>> {
    let (board, side) = (
        text_at(words, place.saturating_sub(1)),
        text_at(words, place),
    );
    if !board.contains("/") || board.contains(" ") || !matches!(side, "w" | "b") {
        return None;
    }
    let parts = (Text(board), Text(side), NO, NO);
    Some(Sentence("a position is one word, so quote it: '% %'", parts))
}

/// What is to be changed first. Of words whose command nobody knows nothing is told.
fn change_of(words: &[String]) -> Option<Sentence<'_>> {
    let command = text_at(words, 1);
    let parts = first_found(words, Turn::Parts);
    if parts.is_some() {
        return parts;
    }
    if COMMANDS.contains(&command) {
        let another = first_found(words, Turn::Another);
        if another.is_some() {
            return another;
        }
        return match first_found(words, Turn::Again) {
            Some(again) if SEARCHES.contains(&command) => Some(again),
            _ => first_found(words, Turn::Word),
        };
    }
    let name = command.strip_prefix("--")?;
    if COMMANDS.contains(&name) {
        let parts = (Text(name), NO, NO, NO);
        return Some(Sentence("% is a command: write it without dashes", parts));
    }
    for word in words {
        if COMMANDS.contains(&word.as_str()) {
            return Some(Sentence(BEFORE, (Text(command), NO, NO, NO)));
        }
    }
    None
}

const BEFORE: &str = "options come after the command: write it before %";

/// Tells of words that are refused what is to be written instead, where that can be seen.
pub fn advise_words<E: Write>(errors: &mut E, words: &[String]) -> io::Result<()>
    ensures { OnOk result ((errors.new ≡ errors.old)
        ⊎ AppendsLine error_beginning (E.contents errors.old) (E.contents errors.new)) }
{
    match change_of(words) {
        Some(sentence) => write_line(errors, &sentence),
        None => Ok(()),
    }
}

/// Tells of a search that has both limits, or none.
pub fn advise_limit<E: Write>(errors: &mut E, has_both: bool) -> io::Result<()>
    ensures { OnOk result (Appends (E.contents errors.old) (E.contents errors.new) (limits_text has_both)) }
{
    if has_both {
        errors.write_all(b"error: --limit and --mate say the same: leave one of them out\n")
    } else {
        errors.write_all(
            b"error: a search has a limit: add --limit 3, in plies, or --mate 2, in moves\n",
        )
    }
}
