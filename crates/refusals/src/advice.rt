//! What standard error is told of a refusal: one sentence, which says what to write instead.
ghost use Rattle.std.specs.Prelude.{◌≡◌, ◌≢◌, ℕ, OnOk, IfSome};
ghost use Rattle.std.specs.Io.KnownBytes.{Appends};
ghost use Rattle.refusals.specs.Sentences.{AppendsLine, AppendsText, AppendsSentence, AppendsSentenceLine, beginning_of, sentence_of};
ghost use Rattle.refusals.specs.declared.refusal.Refusal.TheVariants.{Grammar};

use crate::board_text::{Board, count_of, split_run};
use crate::kings::check_sentence;
use crate::refusal::Refusal;
use crate::sentence::Part::{Bytes, Fault, Number, Pair, Text};
use crate::sentence::{NO, Sentence, write_told};
use crate::spelling::slip_of;
use moves::Goal;
use std::io::{self, Write};

/// How many bytes of what a certificate begins with are told at most.
pub const MOST_KNOWN: usize = 64;

/// What was asked where something was refused.
#[derive(Clone, Copy)]
pub enum Asking<'a> {
    /// A search, with options of its own.
    Search,
    /// The line of a batch of this number.
    Line(u64),
    /// What a certificate proves of this goal, and the bytes that it begins with, as far as they are known.
    Proof(Goal, &'a [u8]),
    /// Anything else.
    Plain,
}

/// What was refused.
#[derive(Clone, Copy)]
pub struct Refused<'a> {
    pub refusal: Refusal,
    /// The text of the position.
    pub fen: &'a [u8],
    pub asking: Asking<'a>,
}

/// What the line begins with.
fn write_beginning<E: Write>(errors: &mut E, asking: Asking<'_>) -> io::Result<()>
    ensures { OnOk result (Appends (E.contents errors.old) (E.contents errors.new) (beginning_of asking.entry)) }
{
    match asking {
        Asking::Line(number) => write!(errors, "error: line {number}: "),
        _ => errors.write_all(b"error: "),
    }
}

/// Tells in one sentence why something was refused, and what to write instead.
pub fn advise<E: Write>(errors: &mut E, refused: &Refused<'_>) -> io::Result<()>
    ensures line { OnOk result (AppendsLine (beginning_of refused.now.asking)
        (E.contents errors.old) (E.contents errors.new)) }
    ensures sentence { OnOk result (AppendsSentenceLine refused.now.refusal refused.now.asking
        (E.contents errors.old) (E.contents errors.new)) }
{
    write_beginning(errors, refused.asking)?;
    write_sentence(errors, refused)?;
    errors.write_all(b"\n")
}

/// What is wrong, and what to write instead, without the line's number and its end.
pub fn write_sentence<E: Write>(errors: &mut E, refused: &Refused<'_>) -> io::Result<()>
    ensures text { OnOk result (AppendsText (E.contents errors.old) (E.contents errors.new)) }
    ensures sentence { OnOk result (AppendsSentence refused.now.refusal refused.now.asking
        (E.contents errors.old) (E.contents errors.new)) }
{
    match refused.refusal {
        Refusal::Grammar(0) => errors.write_all(
            b"the input doesn't begin with a move: if `tree` printed no tree, there is none to check; a byte order mark is no part of a tree",
        ),
        Refusal::Grammar(offset) => write!(
            errors,
            "after its first {offset} bytes the input is no tree: a tree is a move and then #, = or the replies, as c4c5{{a6a5:b1a1#}}, and at most one line feed, without a carriage return"
        ),
        Refusal::Fields | Refusal::Shape | Refusal::Letter | Refusal::Run | Refusal::Side => {
            write_told(errors, &position_sentence(refused))
        }
        Refusal::Kings | Refusal::Units | Refusal::PawnRank | Refusal::OtherInCheck => {
            write_told(errors, &position_sentence(refused))
        }
        other => errors.write_all(plain_advice(other, refused.asking).as_bytes()),
    }
}

/// The sentence of a refusal that rests on no text of a position, and names no place.
fn plain_advice(refusal: Refusal, asking: Asking<'_>) -> &'static str
    ensures { ((offset : ℕ) → refusal ≢ Grammar offset)
        → IfSome (sentence_of refusal asking.entry) (λ sentence. result.now ≡ sentence) }
{
    match (refusal, asking) {
        (Refusal::TooLong, Asking::Line(_)) => "a line has at most 256 bytes",
        (Refusal::TooLong, _) =>
            "a tree has at most 1048576 bytes, its line feed counted, and a line of a certificate 8192",
        (Refusal::Limit, Asking::Line(_)) =>
            "after ; dm a line has its number of moves: write one from 1 to 32",
        (Refusal::Limit, _) =>
            "--limit is 1 to 63 plies: a mate in M moves is --limit 2M-1, or --mate M, 1 to 32",
        (Refusal::Answer, _) => answer_advice(asking),
        (Refusal::NoMemory, Asking::Search | Asking::Line(_)) =>
            "out of memory: a search takes less with fewer --slots or --workers",
        (Refusal::NoMemory, Asking::Proof(..)) =>
            "out of memory: the checker keeps each claim of a certificate, so give the process more memory",
        (Refusal::NoMemory, Asking::Plain) => "out of memory: give the process more",
        (Refusal::Move, _) =>
            "no lawful move has this name: a move is two squares and what a pawn becomes, as c4c5q",
        (Refusal::Workers, _) => "--workers is 1 to 16",
        (Refusal::Slots, _) => "--slots is 1 to 1048576",
        (Refusal::Deep, _) =>
            "more than 32 moves of the attacker are nested: no tree of 63 plies needs so many",
        _ => "this line is missing, isn't a claim, or is false for this position and goal",
    }
}

/// What is wrong with the first line of a certificate, or with all that is known of it.
fn answer_advice(asking: Asking<'_>) -> &'static str {
    let (goal, text) = match asking {
        Asking::Proof(goal, text) => (goal, text),
        _ => (Goal::Mate, b"".as_slice()),
    };
    let (line, behind) = split_run(text, b"\n", false);
    let has_feed = !behind.is_empty();
    match goal {
        Goal::Mate if line.starts_with(b"goal ") =>
            "the first line is an answer for the other goal: add --goal stale",
        Goal::MateOrStale if line.starts_with(b"mate ") =>
            "the first line is an answer for the other goal: leave out --goal stale",
        _ if line.ends_with(b"\r") && has_feed =>
            "the first line ends with a carriage return: end each line with a line feed only",
        _ if !line.is_empty() && line.len() < MOST_KNOWN && !has_feed =>
            "the first line has no line feed: write one after it",
        Goal::Mate =>
            "the first line is no answer: write it as `solve` prints it for this goal, as mate 3 c4c5",
        Goal::MateOrStale =>
            "the first line is no answer: write it as `solve` prints it for this goal, as goal 1 b1b5",
    }
}

const SIDES: &str = "the side to move is w or b: here is '%'";

const SLASH: &str = "the board has one / too many %: leave it out%";

const LETTER_OF_SIDE: &str = "the side to move is w or b: write % in place of '%'";

const RANKS: &str = "here are % squares: write % ranks, as % has%";

const BOARDS: &str =
    "a board has six ranks of six squares or five of five, with / between them: here are %";

const WIDTHS: &str =
    "a board has six ranks of six squares or five of five, with / between them: here are %, most of % squares";

const UNEVEN: &str = "a board of % squares in each: here rank %";

const TWO_UNEVEN: &str = "a board of % squares in each: here rank %, and rank %";

const LETTER: &str = "rank % has '%': the units of % are K Q R% N P, and in lower case Black's";

const LETTERS: &str = "the units of % are K Q R% N P, and in lower case Black's";

const RUN: &str = "rank % has '%': write each run of empty squares as one digit from 1 to %";

const RUNS: &str = "write each run of empty squares as one digit from 1 to %";

const KINGS: &str = "each side has one king, K and k: here are % K and % k";

const UNITS: &str = "a side has at most % units in %: here White has % and Black %";

const PAWNS: &str = "rank % has a pawn: pawns can only be on ranks 2 to %";

/// What is wrong with a position's text: how it is written, or else its board or its side.
fn position_sentence<'a>(refused: &Refused<'a>) -> Sentence<'a> {
    let (fen, refusal, board) = (refused.fen, refused.refusal, Board::of(refused.fen));
    if let Refusal::Fields | Refusal::Shape | Refusal::Letter | Refusal::Side = refusal {
        if let Some(slip) = slip_of(fen, matches!(refused.asking, Asking::Line(_))) {
            return slip;
        }
    }
    match refusal {
        Refusal::Shape => shape_sentence(&board),
        Refusal::OtherInCheck => check_sentence(fen),
        Refusal::Fields | Refusal::Side => {
            let (_, behind) = split_run(fen, b" ", false);
            let (_, side) = behind.split_at(behind.len().min(1));
            side_sentence(side)
        }
        _ => units_sentence(refusal, &board),
    }
}

/// Whether the board has a letter that is no unit's, or a run of empty squares that is not one digit.
fn has_fault(board: &Board<'_>) -> bool {
    board.foreign_letter().is_some() || board.split_digits().is_some()
}

/// The sentence on a side to move that is neither w nor b. It names the letter to write if the word names a side.
fn side_sentence(side: &[u8]) -> Sentence<'_> {
    match side {
        b"W" | b"white" | b"White" => Sentence(LETTER_OF_SIDE, (Text("w"), Bytes(side), NO, NO)),
        b"B" | b"black" | b"Black" => Sentence(LETTER_OF_SIDE, (Text("b"), Bytes(side), NO, NO)),
        _ => Sentence(SIDES, (Bytes(side), NO, NO, NO)),
    }
}

/// That there are too few ranks, or too many, of the squares that a game has, or else which ranks hadn't as many as there are
/// ranks, two at most.
fn shape_sentence<'a>(board: &Board<'a>) -> Sentence<'a> {
    let ranks = board.ranks;
    if let Some(place) = board.extra_slash() {
        let (text, ranks) = (board.text, ranks.saturating_sub(1));
        let fault = has_fault(&Board { text, ranks });
        return Sentence(SLASH, (Text(place), Fault(fault), NO, NO));
    }
    for (width, game) in [(6, "Los Alamos chess"), (5, "Gardner minichess")] {
        if ranks > 1 && board.uneven(width, ranks).is_none() {
            let (here, text) = (Pair(ranks, " ranks of ", width), board.text);
            let whole = Board { text, ranks: width };
            return Sentence(
                RANKS,
                (here, Number(width), Text(game), Fault(has_fault(&whole))),
            );
        }
    }
    if let Some(width) = board.other_width() {
        return Sentence(WIDTHS, (Number(ranks), Number(width), NO, NO));
    }
    let (Some((rank, width)), 5 | 6) = (board.uneven(ranks, ranks), ranks) else {
        return Sentence(BOARDS, (Number(ranks), NO, NO, NO));
    };
    let (each, first) = (
        Pair(ranks, " ranks has ", ranks),
        Pair(rank, " has ", width),
    );
    match board.uneven(ranks, rank.saturating_sub(1)) {
        Some((below, other)) => {
            Sentence(TWO_UNEVEN, (each, first, Pair(below, " has ", other), NO))
        }
        None => Sentence(UNEVEN, (each, first, NO, NO)),
    }
}

/// Which letter is no unit's, or which run of empty squares is no single digit, or which units are too few or too many, or stand
/// where they can't.
fn units_sentence<'a>(refusal: Refusal, board: &Board<'a>) -> Sentence<'a> {
    let (text, ranks) = (board.text, board.ranks);
    let (game, bishop, most) = match ranks {
        6 => (Text("Los Alamos chess"), Text(""), Number(12)),
        _ => (Text("Gardner minichess"), Text(" B"), Number(10)),
    };
    match refusal {
        Refusal::Letter => match board.foreign_letter() {
            Some((rank, letter)) => Sentence(LETTER, (Number(rank), Bytes(letter), game, bishop)),
            None => Sentence(LETTERS, (game, bishop, NO, NO)),
        },
        Refusal::Run => match board.split_digits() {
            Some((rank, run)) => Sentence(RUN, (Number(rank), Bytes(run), Number(ranks), NO)),
            None => Sentence(RUNS, (Number(ranks), NO, NO, NO)),
        },
        Refusal::Kings => {
            let (white, black) = (count_of(text, b'K', b'K'), count_of(text, b'k', b'k'));
            Sentence(KINGS, (Number(white), Number(black), NO, NO))
        }
        Refusal::Units => {
            let (white, black) = (count_of(text, b'A', b'Z'), count_of(text, b'a', b'z'));
            Sentence(UNITS, (most, game, Number(white), Number(black)))
        }
        _ => {
            let mut on_first = false;
            for c in text {
                on_first = *c != b'/' && (on_first || matches!(*c, b'P' | b'p'));
            }
            let (rank, most) = (if on_first { 1 } else { ranks }, ranks.saturating_sub(1));
            Sentence(PAWNS, (Number(rank), Number(most), NO, NO))
        }
    }
}
