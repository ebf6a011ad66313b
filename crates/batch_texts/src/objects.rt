//! What a batch writes as JSON: an object for each line.
ghost use Rattle.std.specs.Prelude.{◌≡◌, IfOk, OnOk, codes, option_map, string_bytes};
ghost use Rattle.std.specs.Str.Lossy.{utf8_lossy};
ghost use Rattle.json_data.specs.Data.{Appends, member};
ghost use Rattle.batch_texts.specs.Forms.{answer_members, answer_word, found_members, found_object, judged_member, position_data, refused_object};

use crate::asked::Found;
use json::Writer;
use json_data::{Outcome, begin_problem, into_line, member};
use moves::Goal;
use problems::Answer;
use refusals::Refusal;
use std::alloc::{AllocError, Global};

fn answer_word(goal: Goal) -> &'static str
    ensures { result.now ≡ answer_word goal }
{
    match goal {
        Goal::Mate => "mate",
        Goal::MateOrStale => "goal",
    }
}

/// What an object says of an answer.
fn write_answer(alloc: Global, writer: &mut Writer, goal: Goal, answer: Answer) -> Outcome
    ensures { OnOk result (Appends writer.old writer.new (answer_members goal answer)) }
{
    match answer {
        Answer::Mate { plies, first } => {
            member(alloc, writer, "answer", &answer_word(goal))?;
            member(alloc, writer, "plies", &plies)?;
            member(alloc, writer, "first", &first)
        }
        Answer::NoneWithin(_) => {
            member(alloc, writer, "answer", &"none")?;
            member(alloc, writer, "plies", &None::<u8>)?;
            member(alloc, writer, "first", &None::<u8>)
        }
    }
}

/// What an object says of what was found.
fn write_found(alloc: Global, writer: &mut Writer, goal: Goal, found: &Found) -> Outcome
    ensures { OnOk result (Appends writer.old writer.new (found_members goal found.now)) }
{
    match found {
        Found::Answer(answer) => write_answer(alloc, writer, goal, *answer),
        Found::Keys(keys) => member(alloc, writer, "keys", keys),
    }
}

/// Whether the moves that were said are those, where some were said.
fn write_judged(alloc: Global, writer: &mut Writer, agrees: Option<bool>) -> Outcome
    ensures { OnOk result (Appends writer.old writer.new (judged_member agrees)) }
{
    match agrees {
        None => Ok(()),
        Some(agrees) => member(alloc, writer, "ok", &agrees),
    }
}

/// The object of what was found, on a line.
pub fn found_object(
    alloc: Global,
    fen: &[u8],
    terms: (Goal, u32),
    found: &Found,
    agrees: Option<bool>,
) -> Result<String, AllocError>
    ensures { IfOk result (λ text. string_bytes text ≡ found_object fen.now terms.0 terms.1 found.now agrees) }
{
    let (goal, limit) = terms;
    let fen = String::from_utf8_lossy(alloc, fen)?;
    let mut writer = Writer::new(Vec::new(alloc));
    begin_problem(alloc, &mut writer, fen.as_str(), goal)?;
    member(alloc, &mut writer, "limit", &limit)?;
    write_found(alloc, &mut writer, goal, found)?;
    write_judged(alloc, &mut writer, agrees)?;
    writer.end_object()?;
    into_line(writer)
}

/// A line's position, or null where it was too long to be kept.
fn write_position(alloc: Global, writer: &mut Writer, fen: Option<&[u8]>) -> Outcome
    ensures { OnOk result (Appends writer.old writer.new
        (member (codes "position") (position_data (option_map (λ f. f.now) fen.entry)))) }
{
    match fen {
        None => member(alloc, writer, "position", &None::<u8>),
        Some(fen) => member(
            alloc,
            writer,
            "position",
            &String::from_utf8_lossy(alloc, fen)?,
        ),
    }
}

/// The object of a refusal, on a line, with a sentence on it.
pub fn refused_object(
    alloc: Global,
    fen: Option<&[u8]>,
    refusal: Refusal,
    sentence: &[u8],
) -> Result<String, AllocError>
    ensures { IfOk result (λ text. string_bytes text
        ≡ refused_object (option_map (λ f. f.now) fen.entry) refusal (utf8_lossy sentence.now)) }
{
    let mut writer = Writer::new(Vec::new(alloc));
    writer.begin_object()?;
    write_position(alloc, &mut writer, fen)?;
    member(
        alloc,
        &mut writer,
        "refused",
        &format!(in alloc; "{refusal}")?,
    )?;
    member(
        alloc,
        &mut writer,
        "sentence",
        &String::from_utf8_lossy(alloc, sentence)?,
    )?;
    writer.end_object()?;
    into_line(writer)
}
