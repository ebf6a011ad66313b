//! The whole solution of a problem, told as it is found.
ghost use Rattle.std.specs.Prelude.{◌≡◌, ◌≤◌, All, IfErr, IfOk, IfSome, None, string_bytes};
ghost use Rattle.problems.specs.Answer.{Wins, IsFewest};
ghost use Rattle.problems.specs.Roots.{IsRoot};
ghost use Rattle.searcher.specs.declared.halt.Halt.TheVariants.{Stopped};
ghost use Rattle.solution_text.specs.Telling.{TellsKey, TellsKeys, TellsSetPlay};
ghost use Rattle.solution_text.specs.WholeText.{IsWholeSolution};

use crate::beginning::{Beginning, beginning_of};
use crate::broken::Broken;
use crate::sequels::{play_text, sequels_text};
use crate::teller::{Teller, teller_of, teller_of_keys};
use algebraic::Symbols;
use moves::{Move, after};
use problems::Root;
use searcher::{Decider, Halt};
use solutions::{Extras, passed};
use std::alloc::Allocator;

/// A key with the play behind it, where the root's limit is the fewest plies.
pub(crate) fn played_text<D: Decider, A: Allocator + Copy>(
    teller: &Teller<A>,
    decider: &mut D,
    root: &Root,
    key: Move,
) -> Result<String<A>, Broken>
    requires number { teller.now.number ≡ 1 }
    requires goal { teller.now.notation.goal ≡ root.now.goal }
    requires set { IfSome teller.now.set (λ posed. posed.plies ≤ 63) }
    requires key { Wins root.now.goal root.now.board root.now.limit key }
    ensures goes { D.goes decider.old decider.new }
    ensures key { IfOk result (λ text.
        TellsKey teller.now.notation teller.now.set root.now.board root.now.limit key (string_bytes text)) }
    ensures halt { IfErr result (λ broken. broken.halt ≡ Stopped → D.told decider.new) }
{
    let next = after(&root.board, key);
    let name = teller.notation.name(&root.board, key);
    let play = play_text(teller, decider, &next, root.limit.saturating_sub(2), "")?;
    Ok(format!(in teller.alloc; "1.{name}!{play}")?)
}

/// These keys, each with the play behind it.
fn plays_text<D: Decider, A: Allocator + Copy>(
    teller: &Teller<A>,
    decider: &mut D,
    root: &Root,
    keys: &[Move],
) -> Result<String<A>, Broken>
    requires number { teller.now.number ≡ 1 }
    requires goal { teller.now.notation.goal ≡ root.now.goal }
    requires set { IfSome teller.now.set (λ posed. posed.plies ≤ 63) }
    requires keys { All (Wins root.now.goal root.now.board root.now.limit) keys.now }
    ensures goes { D.goes decider.old decider.new }
    ensures keys { IfOk result (λ text.
        TellsKeys teller.now.notation teller.now.set root.now.board root.now.limit keys.now (string_bytes text)) }
    ensures halt { IfErr result (λ broken. broken.halt ≡ Stopped → D.told decider.new) }
{
    let mut text = String::new(teller.alloc);
    for key in keys {
        let one = played_text(teller, decider, root, *key)?;
        text.push_str(one.as_str())?;
    }
    Ok(text)
}

/// The set play, where it is asked for.
pub(crate) fn whole_set_play<D: Decider, A: Allocator + Copy>(
    teller: &Teller<A>,
    decider: &mut D,
    root: &Root,
    asked: bool,
) -> Result<String<A>, Broken>
    requires number { teller.now.number ≡ 1 }
    requires goal { teller.now.notation.goal ≡ root.now.goal }
    requires set { teller.now.set ≡ None }
    ensures goes { D.goes decider.old decider.new }
    ensures set_play { IfOk result (λ text.
        TellsSetPlay teller.now.notation root.now.board root.now.limit asked (string_bytes text)) }
    ensures halt { IfErr result (λ broken. broken.halt ≡ Stopped → D.told decider.new) }
{
    if !asked {
        return Ok(String::new(teller.alloc));
    }
    let Some(next) = passed(&root.board) else {
        return Ok(format!(in teller.alloc; "no set play\n")?);
    };
    let lines = sequels_text(teller, decider, &next, root.limit.saturating_sub(2))?;
    if lines.as_str().is_empty() {
        return Ok(format!(in teller.alloc; "no set play\n")?);
    }
    Ok(format!(in teller.alloc; "set play\n{lines}")?)
}

/// The lines of the whole solution.
fn lines_text<D: Decider, A: Allocator + Copy>(
    teller: &Teller<A>,
    decider: &mut D,
    root: &Root,
    extras: Extras,
) -> Result<String<A>, Broken>
    requires number { teller.now.number ≡ 1 }
    requires goal { teller.now.notation.goal ≡ root.now.goal }
    requires set { teller.now.set ≡ None }
    requires root { IsRoot root.now }
    requires fewest { IsFewest root.now.goal root.now.board root.now.limit }
    ensures goes { D.goes decider.old decider.new }
    ensures solution { IfOk result (λ text. IsWholeSolution
        teller.now.notation.symbols root.now.goal root.now.board extras (string_bytes text)) }
    ensures halt { IfErr result (λ broken. broken.halt ≡ Stopped → D.told decider.new) }
{
    let Beginning { text, keys } = beginning_of(teller, decider, root, extras)?;
    let beside = teller_of_keys(teller, root, extras.set_play);
    let plays = plays_text(&beside, decider, root, keys.as_slice())?;
    Ok(format!(in teller.alloc; "{text}{plays}")?)
}

/// The text of the whole solution of a root whose limit is the fewest plies to the goal; or that the decider was told to stop, or that
/// memory is wanting. It is kept in memory until it is whole, and grows with each reply of each move.
pub fn whole_solution<D: Decider, A: Allocator + Copy>(
    alloc: A,
    decider: &mut D,
    root: &Root,
    symbols: Symbols,
    extras: Extras,
) -> Result<String<A>, Halt>
    requires root { IsRoot root.now }
    requires fewest { IsFewest root.now.goal root.now.board root.now.limit }
    ensures goes { D.goes decider.old decider.new }
    ensures solution { IfOk result (λ text.
        IsWholeSolution symbols root.now.goal root.now.board extras (string_bytes text)) }
    ensures halt { IfErr result (λ halt. halt ≡ Stopped → D.told decider.new) }
{
    let teller = teller_of(alloc, symbols, root.goal);
    match lines_text(&teller, decider, root, extras) {
        Ok(text) => Ok(text),
        Err(broken) => Err(broken.halt),
    }
}
