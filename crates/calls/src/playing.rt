//! What is told of a position beside the program's lines, for whoever draws a board.
ghost use Rattle.std.specs.Prelude.{◌≡◌, ◌++◌, IfErr, IfOk, List, ℕ, vec_items};
ghost use Rattle.refusals.specs.Outcome.{Gives};
ghost use Rattle.refusals.specs.Reply.{refused};
ghost use Rattle.refusals.specs.declared.refusal.Refusal.TheVariants.{NoMemory as no_memory};
ghost use Rattle.calls.specs.Playing.{IsFaultReply};

use moves::read_sound;
use refusals::{Asking, Refusal, Refused, advise, refused_text};
use std::alloc::Allocator;

/// What standard error would be told of the refusal of this text.
fn sentence_of<A: Allocator>(alloc: A, refusal: Refusal, fen: &[u8]) -> Result<Vec<u8, A>, Refusal>
    ensures { IfErr result (λ why. why ≡ no_memory) }
{
    let mut sentence = Vec::new(alloc);
    let refused = Refused {
        refusal,
        fen,
        asking: Asking::Plain,
    };
    match advise(&mut sentence, &refused) {
        Ok(()) => Ok(sentence),
        Err(_) => Err(Refusal::NoMemory),
    }
}

fn refusal_told<A: Allocator + Copy>(
    alloc: A,
    refusal: Refusal,
    fen: &[u8],
) -> Result<Vec<u8, A>, Refusal>
    ensures told { IfOk result (λ text. (sentence : List ℕ) × (text.items ≡ (refused refusal).text ++ sentence)) }
    ensures fault { IfErr result (λ why. why ≡ no_memory) }
{
    let mut text = refused_text(alloc, refusal)?.into_bytes();
    let sentence = sentence_of(alloc, refusal, fen)?;
    text.extend_from_slice(sentence.as_slice())?;
    Ok(text)
}

/// Why the text is no sound position's, in a line and in a sentence; nothing where it is one's.
pub(crate) fn fault_reply<A: Allocator + Copy>(alloc: A, fen: &[u8]) -> Result<Vec<u8, A>, Refusal>
    ensures { Gives vec_items (IsFaultReply fen.now) result }
{
    match read_sound(fen) {
        Ok(_) => Ok(Vec::new(alloc)),
        Err(fault) => refusal_told(alloc, Refusal::from(fault), fen),
    }
}
