//! The lines of answers: of a solve, of keys, of moves and of a tree that was checked.
ghost use Rattle.std.specs.Prelude.{◌≡◌, IfOk, string_bytes};
ghost use Rattle.std.specs.List.{flat_map};
ghost use Rattle.answer_texts.specs.Answers.{answer_text, checked_text, key_text, keys_text, moves_text, none_text};

use moves::{Goal, Move};
use problems::{Answer, Key};
use std::alloc::{AllocError, Allocator};
use std::fmt::Write;

/// What is printed of an answer.
pub fn answer_text<A: Allocator>(
    alloc: A,
    goal: Goal,
    answer: Answer,
) -> Result<String<A>, AllocError>
    ensures { IfOk result (λ text. string_bytes text ≡ answer_text goal answer) }
{
    match answer {
        Answer::Mate { plies, first } => match goal {
            Goal::Mate => format!(in alloc; "mate {plies} {first}\n"),
            Goal::MateOrStale => format!(in alloc; "goal {plies} {first}\n"),
        },
        Answer::NoneWithin(limit) => none_text(alloc, u32::from(limit)),
    }
}

/// That nothing is forced within the limit.
pub fn none_text<A: Allocator>(alloc: A, limit: u32) -> Result<String<A>, AllocError>
    ensures { IfOk result (λ text. string_bytes text ≡ none_text limit) }
{
    format!(in alloc; "none within {limit}\n")
}

/// Each key with its plies, on a line of its own; or that nothing is forced within the limit.
pub fn keys_text<A: Allocator>(alloc: A, limit: u32, keys: &[Key]) -> Result<String<A>, AllocError>
    ensures { IfOk result (λ text. string_bytes text ≡ keys_text limit keys.now) }
{
    match keys {
        [] => none_text(alloc, limit),
        _ => key_lines(alloc, keys),
    }
}

fn key_lines<A: Allocator>(alloc: A, keys: &[Key]) -> Result<String<A>, AllocError>
    ensures { IfOk result (λ text. string_bytes text ≡ flat_map key_text keys.now) }
{
    let mut text = String::new(alloc);
    for key in keys {
        let Key { first, plies } = *key;
        writeln!(text, "{first} {plies}")?;
    }
    Ok(text)
}

/// Each move by its name, on a line of its own.
pub fn moves_text<A: Allocator>(alloc: A, moves: &[Move]) -> Result<String<A>, AllocError>
    ensures { IfOk result (λ text. string_bytes text ≡ moves_text moves.now) }
{
    let mut text = String::new(alloc);
    for m in moves {
        writeln!(text, "{m}")?;
    }
    Ok(text)
}

/// In how many plies a tree wins, or that it doesn't.
pub fn checked_text<A: Allocator>(alloc: A, plies: Option<u8>) -> Result<String<A>, AllocError>
    ensures { IfOk result (λ text. string_bytes text ≡ checked_text plies) }
{
    match plies {
        Some(plies) => format!(in alloc; "yes {plies}\n"),
        None => format!(in alloc; "no\n"),
    }
}
