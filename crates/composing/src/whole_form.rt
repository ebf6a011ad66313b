//! A solution in its whole form, which is written as it is found: what stands before the keys, and then key after key.
ghost use Rattle.std.specs.Prelude.{◌≡◌, ◌<◌, All};
ghost use Rattle.problems.specs.Answer.{Wins, IsFewest};
ghost use Rattle.problems.specs.Roots.{IsRoot};
ghost use Rattle.composing.specs.Claims.{writing_of};
ghost use Rattle.composing.specs.Parts.{EndsKeys, EndsSolution, EndsText, TellsLines};
ghost use Rattle.composing.specs.declared.whole_form.CutOff.TheVariants.{WriteFailed, NoMemory};

use decision::{Memory, Never, Scout};
use devices::{Failed, Sink, write_all};
use moves::Move;
use problems::Root;
use searcher::{Decider, Halt, Searcher, Table};
use solution_text::{Beginning, SolutionStyle, played_key, whole_beginning};
use std::alloc::Global;
use thiserror::Error;

/// A root whose limit is the fewest plies, and how its whole solution is told.
#[derive(Drop)]
pub struct WholeForm {
    pub root: Root,
    pub style: SolutionStyle,
}

/// What a whole solution is to be told of, and the table of what has found the fewest plies.
#[derive(Drop)]
pub struct Solved {
    pub asked: WholeForm,
    pub table: Table,
}

/// What ends a solution before its last key.
#[derive(Clone, Copy, Debug, Error)]
pub enum CutOff {
    #[error("the output could not be written to its end")]
    WriteFailed,
    #[error("memory was refused")]
    NoMemory,
}

impl From<Failed> for CutOff {
    ghost from_gives = { λ _ cut. cut ≡ WriteFailed };

    fn from(_failed: Failed) -> CutOff {
        CutOff::WriteFailed
    }
}

impl From<Halt> for CutOff {
    ghost from_gives = { λ _ cut. cut ≡ NoMemory };

    // nothing tells the search to stop
    fn from(_halt: Halt) -> CutOff {
        CutOff::NoMemory
    }
}

/// Makes the lines of a key and writes them.
fn write_key<D: Decider, K: Sink>(
    alloc: Global,
    decider: &mut D,
    asked: &WholeForm,
    key: Move,
    writer: &mut K,
) -> Result<(), CutOff>
    requires key { Wins asked.now.root.goal asked.now.root.board asked.now.root.limit key }
    requires writes { K.failures writer.old < u64.MAX }
    ensures { EndsText (TellsLines asked.now key) (writing_of K.contents K.failures writer.old writer.new) result }
{
    let lines = played_key(alloc, decider, &asked.root, asked.style, key)?;
    write_all(writer, lines.as_bytes())?;
    Ok(())
}

/// Makes and writes the lines of key after key, to the last or until something cuts them off.
fn write_keys<D: Decider, K: Sink>(
    alloc: Global,
    decider: &mut D,
    asked: &WholeForm,
    keys: &[Move],
    writer: &mut K,
) -> Result<(), CutOff>
    requires keys { All (Wins asked.now.root.goal asked.now.root.board asked.now.root.limit) keys.now }
    requires writes { K.failures writer.old < u64.MAX }
    ensures { EndsKeys asked.now keys.now (writing_of K.contents K.failures writer.old writer.new) result }
{
    for key in keys {
        write_key(alloc, decider, asked, *key, writer)?;
    }
    Ok(())
}

/// Writes what stands before the keys, and then the keys.
fn write_parts<D: Decider, K: Sink>(
    alloc: Global,
    decider: &mut D,
    asked: &WholeForm,
    writer: &mut K,
) -> Result<(), CutOff>
    requires root { IsRoot asked.now.root }
    requires fewest { IsFewest asked.now.root.goal asked.now.root.board asked.now.root.limit }
    requires writes { K.failures writer.old < u64.MAX }
    ensures { EndsSolution asked.now (writing_of K.contents K.failures writer.old writer.new) result }
{
    let Beginning { text, keys } = whole_beginning(alloc, decider, &asked.root, asked.style)?;
    write_all(writer, text.as_bytes())?;
    write_keys(alloc, decider, asked, keys.as_slice(), writer)
}

/// Makes and writes the whole solution, by one seat over the table.
pub(crate) fn write_solution<K: Sink>(
    alloc: Global,
    solved: Solved,
    writer: &mut K,
) -> Result<(), CutOff>
    requires root { IsRoot solved.asked.root }
    requires fewest { IsFewest solved.asked.root.goal solved.asked.root.board solved.asked.root.limit }
    requires writes { K.failures writer.old < u64.MAX }
    ensures { EndsSolution solved.asked (writing_of K.contents K.failures writer.old writer.new) result }
{
    let Solved { asked, table } = solved;
    let (slots, mut seat) = table.into_alone();
    let mut scout = Scout {
        stop: Never,
        memory: Memory::new(),
    };
    let mut searcher = Searcher {
        slots: &slots,
        seat: &mut seat,
        scout: &mut scout,
    };
    write_parts(alloc, &mut searcher, &asked, writer)
}
