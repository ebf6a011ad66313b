//! The play behind a first move that is given, told as it is found.
ghost use Rattle.std.specs.Prelude.{◌≡◌, IfErr, IfOk, None, Some, slice_get, string_bytes};
ghost use Rattle.rules.specs.Squares.{Ply};
ghost use Rattle.rules.specs.Moves.{IsLawful};
ghost use Rattle.problems.specs.Answer.{Wins, IsFewest};
ghost use Rattle.problems.specs.Roots.{IsJobOf};
ghost use Rattle.searcher.specs.declared.halt.Halt.TheVariants.{Stopped};
ghost use Rattle.solution_text.specs.Telling.{TellsFirst};
ghost use Rattle.solution_text.specs.WholeText.{IsFirstSolution};

use crate::broken::Broken;
use crate::teller::Teller;
use crate::virtual_play::refuted_text;
use crate::whole_lines::played_text;
use algebraic::{Notation, Symbols};
use moves::{Move, after, has_lawful_move};
use problems::Root;
use searcher::{Decider, Halt};
use solutions::refutations_of;
use std::alloc::Allocator;

/// A first move that is no key, where the root's limit is the fewest plies: with what is met behind it and what refutes it, or that it
/// stalemates.
fn missed_text<D: Decider, A: Allocator + Copy>(
    teller: &Teller<A>,
    decider: &mut D,
    root: &Root,
    first: Move,
) -> Result<String<A>, Broken>
    requires number { teller.now.number ≡ 1 }
    requires goal { teller.now.notation.goal ≡ root.now.goal }
    requires set { teller.now.set ≡ None }
    requires first { IsLawful root.now.board first }
    requires no_key { Wins root.now.goal root.now.board root.now.limit first → ⊥ }
    ensures goes { D.goes decider.old decider.new }
    ensures first { IfOk result (λ text.
        TellsFirst teller.now.notation root.now.board root.now.limit first (string_bytes text)) }
    ensures halt { IfErr result (λ broken. broken.halt ≡ Stopped → D.told decider.new) }
{
    let alloc = teller.alloc;
    let next = after(&root.board, first);
    if !has_lawful_move(&next) {
        let name = teller.notation.name(&root.board, first);
        return Ok(format!(in alloc; "1.{name}? stalemate\n")?);
    }
    let left = root.limit.saturating_sub(2);
    let refutations = refutations_of(alloc, decider, &next, root.goal, left)?;
    refuted_text(teller, decider, root, first, refutations.as_slice())
}

/// The move of this job, where the root's limit is the fewest plies, with what follows it.
fn first_text<D: Decider, A: Allocator + Copy>(
    teller: &Teller<A>,
    decider: &mut D,
    root: &Root,
    job: u16,
) -> Result<String<A>, Broken>
    requires number { teller.now.number ≡ 1 }
    requires goal { teller.now.notation.goal ≡ root.now.goal }
    requires set { teller.now.set ≡ None }
    requires job { IsJobOf root.now job }
    requires fewest { IsFewest root.now.goal root.now.board root.now.limit }
    ensures goes { D.goes decider.old decider.new }
    ensures first { IfOk result (λ text. (m : Ply) × (slice_get root.now.moves.items job ≡ Some m)
        × IsFirstSolution teller.now.notation.symbols root.now.goal root.now.board m (string_bytes text)) }
    ensures halt { IfErr result (λ broken. broken.halt ≡ Stopped → D.told decider.new) }
{
    let first = root.moves[usize::from(job)];
    let Some(wins) = decider.wins(root, job, root.limit) else {
        return Err(Broken::from(Halt::Stopped));
    };
    if wins {
        played_text(teller, decider, root, first)
    } else {
        missed_text(teller, decider, root, first)
    }
}

/// The text of the play behind the move of this job, of a root whose limit is the fewest plies to the goal; or that the decider was told
/// to stop, or that memory is wanting. A key is told as in a whole solution, and another move as a try is, with each reply that refutes it.
pub fn first_move_solution<D: Decider, A: Allocator + Copy>(
    alloc: A,
    decider: &mut D,
    root: &Root,
    symbols: Symbols,
    job: u16,
) -> Result<String<A>, Halt>
    requires job { IsJobOf root.now job }
    requires fewest { IsFewest root.now.goal root.now.board root.now.limit }
    ensures goes { D.goes decider.old decider.new }
    ensures solution { IfOk result (λ text. (m : Ply) × (slice_get root.now.moves.items job ≡ Some m)
        × IsFirstSolution symbols root.now.goal root.now.board m (string_bytes text)) }
    ensures halt { IfErr result (λ halt. halt ≡ Stopped → D.told decider.new) }
{
    let teller = Teller {
        alloc,
        notation: Notation {
            symbols,
            goal: root.goal,
        },
        number: 1,
        set: None,
    };
    match first_text(&teller, decider, root, job) {
        Ok(text) => Ok(text),
        Err(broken) => Err(broken.halt),
    }
}
