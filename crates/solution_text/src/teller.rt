//! What lines are told with.
ghost use Rattle.std.specs.Prelude.{◌≡◌, ◌+◌, ◌<◌, IfOk, None, string_bytes};
ghost use Rattle.solution_text.specs.WholeText.{held_against, indent};

use crate::posed::Posed;
use algebraic::{Notation, Symbols};
use moves::Goal;
use problems::Root;
use std::alloc::{AllocError, Allocator};

/// What each line of a play is told with: how moves are named, the number of the attacker's move that comes next or came last, and the
/// problem with whose set play the replies to a key are compared.
#[derive(Drop)]
pub(crate) struct Teller<A: Allocator> {
    pub(crate) alloc: A,
    pub(crate) notation: Notation,
    pub(crate) number: u16,
    pub(crate) set: Option<Posed>,
}

/// The problem of the root, if its set play is asked for.
fn held_against(root: &Root, asked: bool) -> Option<Posed>
    ensures { result ≡ held_against root.now.board root.now.limit asked }
{
    if !asked {
        return None;
    }
    Some(Posed {
        board: root.board.copied(),
        plies: root.limit,
    })
}

/// What lines are told with from the first move on, where nothing is compared.
pub(crate) fn teller_of<A: Allocator>(alloc: A, symbols: Symbols, goal: Goal) -> Teller<A>
    ensures notation { result.notation ≡ record { symbols = symbols; goal = goal } }
    ensures number { result.number ≡ 1 }
    ensures set { result.set ≡ None }
{
    Teller {
        alloc,
        notation: Notation { symbols, goal },
        number: 1,
        set: None,
    }
}

/// The same for the keys, which are compared with the root's set play, if it is asked for.
pub(crate) fn teller_of_keys<A: Allocator + Copy>(
    teller: &Teller<A>,
    root: &Root,
    set_play: bool,
) -> Teller<A>
    ensures notation { result.notation ≡ teller.now.notation }
    ensures number { result.number ≡ 1 }
    ensures set { result.set ≡ held_against root.now.board root.now.limit set_play }
{
    Teller {
        alloc: teller.alloc,
        notation: teller.notation,
        number: 1,
        set: held_against(root, set_play),
    }
}

/// What lines are told with one move of the attacker farther on, where nothing is compared.
pub(crate) fn farther<A: Allocator + Copy>(teller: &Teller<A>) -> Teller<A>
    requires { teller.now.number < 999 }
    ensures notation { result.notation ≡ teller.now.notation }
    ensures number { result.number ≡ teller.now.number + 1 }
    ensures set { result.set ≡ None }
{
    Teller {
        alloc: teller.alloc,
        notation: teller.notation,
        number: teller.number + 1,
        set: None,
    }
}

/// Two blanks for each move.
pub(crate) fn indent<A: Allocator>(alloc: A, number: u16) -> Result<String<A>, AllocError>
    ensures { IfOk result (λ text. string_bytes text ≡ indent number) }
{
    let mut text = String::new(alloc);
    for told in 0..number {
        text.push_str("  ")?;
    }
    Ok(text)
}
