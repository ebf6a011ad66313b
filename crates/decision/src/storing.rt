//! What is stored after a search.
ghost use Rattle.std.specs.Prelude.{◌≡◌, ◌<◌, ◌≤◌, ◌↔◌, IsTrue};
ghost use Rattle.slots.specs.Promise.{slots_of};
ghost use Rattle.entry.specs.Bounds.{meeting};
ghost use Rattle.entry.specs.Truth.{IsTruePacking};
ghost use Rattle.decision.specs.Callers.{GoesOn, OnAdded, OffersKnown};
ghost use Rattle.decision.specs.Questions.{said, IsKnownOf};
ghost use Rattle.problems.specs.Questions.{IsForced};
ghost use Rattle.decision.specs.Decisions.{OffersBoth};

use crate::asking::{far_slot, first_slot};
use crate::caller::Caller;
use crate::image::{image, table_key};
use entry::{Interval, interval_laws, meet, pack_board};
use problems::Question;
use slots::Store;
use std::alloc::Allocator;

/// What an answer for n plies says.
pub(crate) fn said(yes: bool, n: u8) -> Interval
    requires { n ≤ 63 }
    ensures { result ≡ said yes n }
{
    if yes {
        Interval {
            below: 0,
            upto: Some(n),
        }
    } else {
        Interval {
            below: n + 1,
            upto: None,
        }
    }
}

/// What is known with the answer for n plies.
pub(crate) fn known_with(q: &Question, n: u8, yes: bool, known: Interval) -> Interval
    requires plies { n ≤ 63 }
    requires answer { IsTrue yes ↔ IsForced q.now n }
    requires known { IsKnownOf q.now known }
    ensures right { IsKnownOf q.now result }
    ensures met { result ≡ meeting (said yes n) known }
{
    let _ = q;
    interval_laws();
    meet(said(yes, n), known)
}

/// Offers the words to both slots, if the table has the second.
fn offer<A: Allocator>(caller: &mut Caller<'_, A>, slot: usize, words: [u64; 3])
    requires slot { slot < slots_of caller.old.slots.now }
    requires holds { IsTruePacking words }
    ensures goes_on { GoesOn caller.old caller.new }
    ensures offered { OnAdded (λ slots number. OffersBoth slot slots number words) caller.old caller.new }
{
    let count = caller.slots.len();
    caller.store(slot, words);
    if slot + 1 < count {
        caller.store(slot + 1, words);
    }
}

/// Stores what is known of the question: the entry of its image in one of the far slots, and last its own entry in its own two.
pub(crate) fn keep<A: Allocator>(caller: &mut Caller<'_, A>, q: &Question, known: Interval)
    requires { IsKnownOf q.now known }
    ensures goes_on { GoesOn caller.old caller.new }
    ensures kept { OnAdded (OffersKnown q.now known) caller.old caller.new }
{
    keep_far(caller, &image(q.copied()), known);
    let words = pack_board(&q.position, q.attacker, q.goal, known);
    let slot = first_slot(caller.slots, table_key(q));
    offer(caller, slot, words);
}

/// Stores what is known of the question, which is turned, in one of the far slots: the second, where another entry is preferred in the
/// first.
pub(crate) fn keep_far<A: Allocator>(caller: &mut Caller<'_, A>, q: &Question, known: Interval)
    requires { IsKnownOf q.now known }
    ensures { GoesOn caller.old caller.new }
{
    let key = table_key(q);
    let entry = pack_board(&q.position, q.attacker, q.goal, known);
    let slot = far_slot(caller.slots, key);
    let count = caller.slots.len();
    match caller.store(slot, entry) {
        Store::Kept(_) if slot + 1 < count => {
            caller.store(slot + 1, entry);
        }
        _ => {}
    }
}
