//! The first level below the given position: the table is asked of each position as it stands, in its own slots too.
ghost use Rattle.std.specs.Prelude.{◌<◌, ◌≤◌, ◌↔◌, IsTrue, IfSome, MatchOption, length};
ghost use Rattle.decision.specs.Callers.{OnAdded, Searches};
ghost use Rattle.problems.specs.Questions.{IsForced};
ghost use Rattle.problems.specs.Tried.{ListsAll};
ghost use Rattle.decision.specs.Decisions.{IsAsked, AsksBelow};

use crate::asking::{decided, look};
use crate::caller::Caller;
use crate::lead::Lead;
use crate::scout::Stop;
use crate::searching::search_in_rounds;
use crate::storing::keep;
use moves::Move;
use problems::Question;
use std::alloc::Allocator;

/// The answer for n plies. The table is asked first, and what is found is stored last.
fn visit_child<S: Stop, A: Allocator>(
    caller: &mut Caller<'_, A>,
    lead: &mut Lead<'_, S>,
    q: &Question,
    n: u8,
) -> Option<bool>
    requires { n ≤ 63 }
    ensures goes_on { Searches S.stays caller.old caller.new lead.old lead.new }
    ensures asked { OnAdded (IsAsked q.now) caller.old caller.new }
    ensures answer { MatchOption result (S.told lead.new.scout.now.stop) (λ yes. IsTrue yes ↔ IsForced q.now n) }
{
    let known = look(caller, q, n);
    if let Some(yes) = decided(known, n) {
        return Some(yes);
    }
    let found = search_in_rounds(caller, lead, q, n, known)?;
    keep(caller, q, found.known);
    Some(found.yes)
}

/// The answer for n plies by trying the moves, which are all, in turn, until one ends the search. The table is asked of each position
/// below, as it stands.
pub(crate) fn try_moves<S: Stop, A: Allocator>(
    caller: &mut Caller<'_, A>,
    lead: &mut Lead<'_, S>,
    q: &Question,
    n: u8,
    moves: &[Move],
) -> Option<bool>
    requires plies { (0 < n) × (n ≤ 63) }
    requires lists { ListsAll q.now.position moves.now }
    requires some { 0 < length moves.now }
    ensures goes_on { Searches S.stays caller.old caller.new lead.old lead.new }
    ensures answer { MatchOption result (S.told lead.new.scout.now.stop) (λ yes. IsTrue yes ↔ IsForced q.now n) }
    ensures below { IfSome result
        (λ yes. OnAdded (λ slots number. AsksBelow q.now slots number yes) caller.old caller.new) }
{
    let own = q.is_own_turn();
    for m in moves {
        let yes = visit_child(caller, lead, &q.after(*m), n - 1)?;
        if yes == own {
            lead.scout.memory.remember(*m, n, own);
            return Some(own);
        }
    }
    Some(!own)
}
