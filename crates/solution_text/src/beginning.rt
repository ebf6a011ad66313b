//! A whole solution part by part: what stands before the keys, and the lines of one key.
ghost use Rattle.std.specs.Prelude.{◌≡◌, IfErr, IfOk, None, string_bytes};
ghost use Rattle.problems.specs.Answer.{Wins, IsFewest};
ghost use Rattle.problems.specs.Roots.{IsRoot};
ghost use Rattle.searcher.specs.declared.halt.Halt.TheVariants.{Stopped};
ghost use Rattle.solution_text.specs.Cut.{IsBeginning};
ghost use Rattle.solution_text.specs.Telling.{TellsKey};
ghost use Rattle.solution_text.specs.WholeText.{held_against};

use crate::broken::Broken;
use crate::teller::{Teller, teller_of, teller_of_keys};
use crate::virtual_play::whole_tries;
use crate::whole::headline;
use crate::whole_lines::{played_text, whole_set_play};
use algebraic::Symbols;
use moves::Move;
use problems::Root;
use searcher::{Decider, Halt};
use solutions::{Extras, continuations_of};
use std::alloc::Allocator;

/// How a whole solution is told.
#[derive(Clone, Copy, PartialEq, Eq, Debug)]
pub struct SolutionStyle {
    pub symbols: Symbols,
    pub extras: Extras,
}

/// What stands before the keys of a whole solution, and these.
#[derive(Drop)]
pub struct Beginning<A: Allocator> {
    /// The headline, and the set play and the tries where they were asked for.
    pub text: String<A>,
    pub keys: Vec<Move, A>,
}

/// What stands before the keys, where the root's limit is the fewest plies.
pub(crate) fn beginning_of<D: Decider, A: Allocator + Copy>(
    teller: &Teller<A>,
    decider: &mut D,
    root: &Root,
    extras: Extras,
) -> Result<Beginning<A>, Broken>
    requires number { teller.now.number ≡ 1 }
    requires goal { teller.now.notation.goal ≡ root.now.goal }
    requires set { teller.now.set ≡ None }
    requires root { IsRoot root.now }
    requires fewest { IsFewest root.now.goal root.now.board root.now.limit }
    ensures goes { D.goes decider.old decider.new }
    ensures beginning { IfOk result (λ beginning. IsBeginning teller.now.notation root.now.board root.now.limit
        extras beginning.keys.items (string_bytes beginning.text)) }
    ensures halt { IfErr result (λ broken. broken.halt ≡ Stopped → D.told decider.new) }
{
    let alloc = teller.alloc;
    let keys = continuations_of(alloc, decider, root, root.limit)?;
    let head = headline(alloc, root.goal, extras.sooner, root.limit, keys.len())?;
    let set_play = whole_set_play(teller, decider, root, extras.set_play)?;
    let tries = whole_tries(teller, decider, root, extras.tries)?;
    let text = format!(in alloc; "{head}{set_play}{tries}")?;
    Ok(Beginning { text, keys })
}

/// What stands before the keys in the text of the whole solution of a root whose limit is the fewest plies to the goal, and these; or
/// that the decider was told to stop, or that memory is wanting. The lines of each key follow it, in this order.
pub fn whole_beginning<D: Decider, A: Allocator + Copy>(
    alloc: A,
    decider: &mut D,
    root: &Root,
    style: SolutionStyle,
) -> Result<Beginning<A>, Halt>
    requires root { IsRoot root.now }
    requires fewest { IsFewest root.now.goal root.now.board root.now.limit }
    ensures goes { D.goes decider.old decider.new }
    ensures beginning { IfOk result (λ beginning. IsBeginning (record { symbols = style.symbols; goal = root.now.goal })
        root.now.board root.now.limit style.extras beginning.keys.items (string_bytes beginning.text)) }
    ensures halt { IfErr result (λ halt. halt ≡ Stopped → D.told decider.new) }
{
    let teller = teller_of(alloc, style.symbols, root.goal);
    match beginning_of(&teller, decider, root, style.extras) {
        Ok(beginning) => Ok(beginning),
        Err(broken) => Err(broken.halt),
    }
}

/// The lines of a key in the whole solution of a root whose limit is the fewest plies to the goal; or that the decider was told to stop, or
/// that memory is wanting.
pub fn played_key<D: Decider, A: Allocator + Copy>(
    alloc: A,
    decider: &mut D,
    root: &Root,
    style: SolutionStyle,
    key: Move,
) -> Result<String<A>, Halt>
    requires key { Wins root.now.goal root.now.board root.now.limit key }
    ensures goes { D.goes decider.old decider.new }
    ensures key { IfOk result (λ text. TellsKey (record { symbols = style.symbols; goal = root.now.goal })
        (held_against root.now.board root.now.limit style.extras.set_play) root.now.board root.now.limit key (string_bytes text)) }
    ensures halt { IfErr result (λ halt. halt ≡ Stopped → D.told decider.new) }
{
    let teller = teller_of(alloc, style.symbols, root.goal);
    let beside = teller_of_keys(&teller, root, style.extras.set_play);
    match played_text(&beside, decider, root, key) {
        Ok(text) => Ok(text),
        Err(broken) => Err(broken.halt),
    }
}
