//! Objects of JSON: their members, and such an object on a line.
ghost use Rattle.std.specs.Prelude.{◌≡◌, ◌++◌, [], IfOk, OnOk, codes, string_bytes};
ghost use Rattle.json.specs.Print.{print};
ghost use Rattle.json_data.specs.Data.{Appends, member, problem_data};

use crate::datum::{Datum, Outcome};
use json::Writer;
use rules::Goal;
use std::alloc::{AllocError, Allocator};

/// A member of an object: its name and its value.
pub fn member<A: Allocator + Copy, T: Datum>(
    alloc: A,
    writer: &mut Writer<A>,
    name: &str,
    value: &T,
) -> Outcome
    ensures { OnOk result (Appends writer.old writer.new (member name.now (T.tokens value.now))) }
{
    writer.key(name)?;
    value.write(alloc, writer)
}

/// The beginning of an object: the position's text and the goal.
pub fn begin_problem<A: Allocator + Copy>(
    alloc: A,
    writer: &mut Writer<A>,
    fen: &str,
    goal: Goal,
) -> Outcome
    ensures { OnOk result (Appends writer.old writer.new (problem_data fen.now goal)) }
{
    writer.begin_object()?;
    member(alloc, writer, "position", &fen)?;
    member(alloc, writer, "goal", &goal)
}

/// What was written from nothing, as a line.
pub fn into_line<A: Allocator>(writer: Writer<A>) -> Result<String<A>, AllocError>
    requires { writer.before ≡ [] }
    ensures { IfOk result (λ text. string_bytes text ≡ print writer.tokens ++ codes "\n") }
{
    let Ok(mut text) = String::from_utf8(writer.into_inner()) else {
        unreachable!();
    };
    text.push('\n')?;
    Ok(text)
}
