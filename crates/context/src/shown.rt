//! What is shown where nothing is found.
ghost use Rattle.std.specs.Prelude.{◌≡◌, vec_items};
ghost use Rattle.refusals.specs.Outcome.{Gives};
ghost use Rattle.refusals.specs.Reply.{answered};
ghost use Rattle.answer_texts.specs.Answers.{none_text};

use answer_texts::none_text;
use refusals::Refusal;
use std::alloc::Allocator;

/// That there is no tree, on one line.
pub fn none_line<A: Allocator>(alloc: A, limit: u8) -> Result<Vec<u8, A>, Refusal>
    ensures { Gives vec_items (λ reply. reply ≡ answered (none_text limit)) result }
{
    Ok(none_text(alloc, u32::from(limit))?.into_bytes())
}
