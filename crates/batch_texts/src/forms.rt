//! What a batch writes of what was found of a position, on a line or as JSON.
ghost use Rattle.std.specs.Prelude.{◌≡◌, IfOk, string_bytes};
ghost use Rattle.batch_texts.specs.Forms.{IsFoundText, found_line, judged_line, keys_line, keys_listed};

use crate::asked::{Asked, Batch, Found};
use crate::asking::{judged, limit_of};
use crate::objects::found_object;
use answer_texts::{answer_text, keys_text};
use devices::without_line_feed;
use moves::Goal;
use problems::Key;
use std::alloc::{AllocError, Global};
use std::fmt::Write;

/// The keys with the plies that they take, parted by commas.
fn keys_listed(alloc: Global, keys: &[Key]) -> Result<String, AllocError>
    ensures { IfOk result (λ text. string_bytes text ≡ keys_listed keys.now) }
{
    let [first, rest @ ..] = keys else {
        return Ok(String::new(alloc));
    };
    let Key { first, plies } = *first;
    let mut text = format!(in alloc; "{first} {plies}")?;
    for key in rest {
        let Key { first, plies } = *key;
        write!(text, ",{first} {plies}")?;
    }
    Ok(text)
}

/// The keys on one line, or that nothing is forced within the limit.
fn keys_line(alloc: Global, limit: u32, keys: &[Key]) -> Result<String, AllocError>
    ensures { IfOk result (λ text. string_bytes text ≡ keys_line limit keys.now) }
{
    if keys.is_empty() {
        return keys_text(alloc, limit, keys);
    }
    let mut text = keys_listed(alloc, keys)?;
    text.push('\n')?;
    Ok(text)
}

/// The line of what was found.
fn found_line(alloc: Global, goal: Goal, limit: u32, found: &Found) -> Result<String, AllocError>
    ensures { IfOk result (λ text. string_bytes text ≡ found_line goal limit found.now) }
{
    match found {
        Found::Answer(answer) => answer_text(alloc, goal, *answer),
        Found::Keys(keys) => keys_line(alloc, limit, keys.as_slice()),
    }
}

/// The line, and behind it whether the moves that were said are those.
fn judged_line(alloc: Global, agrees: Option<bool>, line: Vec<u8>) -> Result<Vec<u8>, AllocError>
    ensures { IfOk result (λ text. text.items ≡ judged_line agrees line.items) }
{
    let words = match agrees {
        None => return Ok(line),
        Some(true) => b" ok\n".as_slice(),
        Some(false) => b" differs\n".as_slice(),
    };
    let mut text = Vec::new(alloc);
    text.extend_from_slice(without_line_feed(line.as_slice()))?;
    text.extend_from_slice(words)?;
    Ok(text)
}

/// What is written of what was found.
pub fn found_text(
    alloc: Global,
    batch: &Batch,
    asked: &Asked<'_>,
    found: &Found,
) -> Result<Vec<u8>, AllocError>
    ensures { IfOk result (λ text. IsFoundText batch.now asked.now found.now text.items) }
{
    let agrees = judged(asked.moves, found);
    let limit = limit_of(batch.limits.limit, asked.moves);
    if batch.options.json {
        let terms = (batch.goal, limit);
        return Ok(found_object(alloc, asked.fen, terms, found, agrees)?.into_bytes());
    }
    let line = found_line(alloc, batch.goal, limit, found)?;
    judged_line(alloc, agrees, line.into_bytes())
}
