//! Tries and other moves that are refuted, with the play behind them, told as it is found.
ghost use Rattle.std.specs.Prelude.{◌≡◌, All, IfErr, IfOk, None, string_bytes};
ghost use Rattle.rules.specs.Moves.{IsLawful};
ghost use Rattle.problems.specs.Roots.{IsRoot};
ghost use Rattle.searcher.specs.declared.halt.Halt.TheVariants.{Stopped};
ghost use Rattle.solutions.specs.Solutions.{IsTry};
ghost use Rattle.solution_text.specs.Text.{AreTexts};
ghost use Rattle.solution_text.specs.WholeText.{IsRefutationText};
ghost use Rattle.solution_text.specs.Telling.{LeavesReplies, TellsRefuted, TellsTry, TellsPlayedTries, TellsTries};

use crate::broken::Broken;
use crate::sequels::play_text;
use crate::teller::Teller;
use algebraic::Notation;
use moves::{Board, Move, after};
use problems::Root;
use searcher::Decider;
use solutions::{Try, tries_of};
use std::alloc::{AllocError, Allocator};
use std::fmt::Write;

/// Each as a reply that refutes, on a line of its own.
fn refutations_text<A: Allocator>(
    alloc: A,
    notation: Notation,
    board: &Board,
    replies: &[Move],
) -> Result<String<A>, AllocError>
    requires { All (IsLawful board.now) replies.now }
    ensures { IfOk result (λ text. AreTexts (IsRefutationText notation board.now) replies.now (string_bytes text)) }
{
    let mut text = String::new(alloc);
    for reply in replies {
        let name = notation.name(board, *reply);
        write!(text, "  but 1...{name}!\n")?;
    }
    Ok(text)
}

/// A first move with the virtual play behind it, and last the replies that refute it, where the root's limit is the fewest plies.
pub(crate) fn refuted_text<D: Decider, A: Allocator + Copy>(
    teller: &Teller<A>,
    decider: &mut D,
    root: &Root,
    first: Move,
    refutations: &[Move],
) -> Result<String<A>, Broken>
    requires number { teller.now.number ≡ 1 }
    requires goal { teller.now.notation.goal ≡ root.now.goal }
    requires set { teller.now.set ≡ None }
    requires replies { LeavesReplies root.now.board first refutations.now }
    ensures goes { D.goes decider.old decider.new }
    ensures refuted { IfOk result (λ text.
        TellsRefuted teller.now.notation root.now.board root.now.limit first refutations.now (string_bytes text)) }
    ensures halt { IfErr result (λ broken. broken.halt ≡ Stopped → D.told decider.new) }
{
    let next = after(&root.board, first);
    let name = teller.notation.name(&root.board, first);
    let play = play_text(teller, decider, &next, root.limit.saturating_sub(2), "")?;
    let last = refutations_text(teller.alloc, teller.notation, &next, refutations)?;
    Ok(format!(in teller.alloc; "1.{name}?{play}{last}")?)
}

/// A try with the play behind it, and last the reply that refutes it, where the root's limit is the fewest plies.
fn played_try<D: Decider, A: Allocator + Copy>(
    teller: &Teller<A>,
    decider: &mut D,
    root: &Root,
    first_try: Try,
) -> Result<String<A>, Broken>
    requires number { teller.now.number ≡ 1 }
    requires goal { teller.now.notation.goal ≡ root.now.goal }
    requires set { teller.now.set ≡ None }
    requires first_try { IsTry root.now.goal root.now.board root.now.limit first_try }
    ensures goes { D.goes decider.old decider.new }
    ensures first_try { IfOk result (λ text.
        TellsTry teller.now.notation root.now.board root.now.limit first_try (string_bytes text)) }
    ensures halt { IfErr result (λ broken. broken.halt ≡ Stopped → D.told decider.new) }
{
    let Try { first, refutation } = first_try;
    refuted_text(teller, decider, root, first, &[refutation])
}

/// These tries, each with the play behind it.
fn played_tries<D: Decider, A: Allocator + Copy>(
    teller: &Teller<A>,
    decider: &mut D,
    root: &Root,
    tries: &[Try],
) -> Result<String<A>, Broken>
    requires number { teller.now.number ≡ 1 }
    requires goal { teller.now.notation.goal ≡ root.now.goal }
    requires set { teller.now.set ≡ None }
    requires tries { All (IsTry root.now.goal root.now.board root.now.limit) tries.now }
    ensures goes { D.goes decider.old decider.new }
    ensures tries { IfOk result (λ text.
        TellsPlayedTries teller.now.notation root.now.board root.now.limit tries.now (string_bytes text)) }
    ensures halt { IfErr result (λ broken. broken.halt ≡ Stopped → D.told decider.new) }
{
    let mut text = String::new(teller.alloc);
    for first_try in tries {
        let one = played_try(teller, decider, root, *first_try)?;
        text.push_str(one.as_str())?;
    }
    Ok(text)
}

/// The tries, where they are asked for.
pub(crate) fn whole_tries<D: Decider, A: Allocator + Copy>(
    teller: &Teller<A>,
    decider: &mut D,
    root: &Root,
    asked: bool,
) -> Result<String<A>, Broken>
    requires number { teller.now.number ≡ 1 }
    requires goal { teller.now.notation.goal ≡ root.now.goal }
    requires set { teller.now.set ≡ None }
    requires root { IsRoot root.now }
    ensures goes { D.goes decider.old decider.new }
    ensures tries { IfOk result (λ text.
        TellsTries teller.now.notation root.now.board root.now.limit asked (string_bytes text)) }
    ensures halt { IfErr result (λ broken. broken.halt ≡ Stopped → D.told decider.new) }
{
    if !asked {
        return Ok(String::new(teller.alloc));
    }
    let found = tries_of(teller.alloc, decider, root, root.limit)?;
    let tries = found.as_slice();
    if tries.is_empty() {
        return Ok(format!(in teller.alloc; "no tries\n")?);
    }
    let lines = played_tries(teller, decider, root, tries)?;
    Ok(format!(in teller.alloc; "tries\n{lines}")?)
}
