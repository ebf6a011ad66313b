//! The short form of a solution as data.
ghost use Rattle.std.specs.Prelude.{◌≡◌, IfOk, string_bytes};
ghost use Rattle.solution_text.specs.Data.{none_data, solution_data};

use json::Writer;
use json_data::{begin_problem, into_line, member};
use moves::{Goal, Move};
use solutions::Solution;
use std::alloc::{AllocError, Allocator};

/// The solution of the position of this text, as an object of JSON on a line.
pub fn solution_data<A: Allocator + Copy, B: Allocator>(
    alloc: A,
    fen: &str,
    goal: Goal,
    sooner: bool,
    solution: &Solution<B>,
) -> Result<String<A>, AllocError>
    ensures { IfOk result (λ text. string_bytes text ≡ solution_data fen.now goal sooner solution.now) }
{
    let mut writer = Writer::new(Vec::new(alloc));
    begin_problem(alloc, &mut writer, fen, goal)?;
    member(alloc, &mut writer, "plies", &solution.plies)?;
    member(alloc, &mut writer, "short", &sooner)?;
    member(alloc, &mut writer, "keys", &solution.keys)?;
    member(alloc, &mut writer, "set_play", &solution.set_play)?;
    member(alloc, &mut writer, "tries", &solution.tries)?;
    writer.end_object()?;
    into_line(writer)
}

/// That nothing is forced at the position of this text, as such an object.
pub fn none_data<A: Allocator + Copy>(
    alloc: A,
    fen: &str,
    goal: Goal,
) -> Result<String<A>, AllocError>
    ensures { IfOk result (λ text. string_bytes text ≡ none_data fen.now goal) }
{
    let mut writer = Writer::new(Vec::new(alloc));
    begin_problem(alloc, &mut writer, fen, goal)?;
    member(alloc, &mut writer, "plies", &None::<u8>)?;
    member(alloc, &mut writer, "short", &false)?;
    member(alloc, &mut writer, "keys", &Vec::<Move, A>::new(alloc))?;
    member(alloc, &mut writer, "set_play", &None::<u8>)?;
    member(alloc, &mut writer, "tries", &None::<u8>)?;
    writer.end_object()?;
    into_line(writer)
}
