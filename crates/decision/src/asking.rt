//! Asking the table, and what its replies say.
ghost use Rattle.std.specs.Prelude.{◌≡◌, ◌<◌, Bool, MatchOption};
ghost use Rattle.slots.specs.Promise.{slots_of};
ghost use Rattle.decision.specs.Callers.{GoesOn, OnAdded, HasAsked, IsReplyTo};
ghost use Rattle.decision.specs.Questions.{key_for, first_slot, Says, Tells, IsKnownOf};
ghost use Rattle.decision.specs.Decisions.{IsAsked};

use crate::caller::Caller;
use crate::image::{NOTHING, image, table_key};
use entry::{Interval, MateLore, interval_laws, interval_of, meet, slot_of};
use problems::Question;
use slots::{Probe, Slots};
use std::alloc::Allocator;

/// The first of the key's two slots.
pub(crate) fn first_slot<A: Allocator>(slots: &Slots<MateLore, A>, key: [u64; 3]) -> usize
    ensures value { result ≡ first_slot key (slots_of slots.now) }
    ensures below { result < slots_of slots.now }
{
    slot_of(&key, slots.len()) / 2 * 2
}

/// The first of two slots more, in which the entry of a question's image is kept. Their number mixes all bits of the key: that of the
/// format leaves some squares out where the number of slots is a power of two, and spreads small endings over few slots.
pub(crate) fn far_slot<A: Allocator>(slots: &Slots<MateLore, A>, key: [u64; 3]) -> usize
    ensures { result < slots_of slots.now }
{
    let first = key[0].wrapping_mul(0x9E3779B97F4A7C15);
    let second = key[1].wrapping_mul(0xC2B2AE3D27D4EB4F).rotate_left(21);
    let third = key[2].wrapping_mul(0x165667B19E3779F9).rotate_left(42);
    let mixed = first ^ second ^ third;
    let number = (mixed ^ (mixed >> 32)).wrapping_mul(0xD6E8FEB86659FD93) >> 32;
    number as usize % slots.len() / 2 * 2
}

/// What the reply tells: the interval of a hit, and else nothing.
pub(crate) fn told(reply: Probe) -> Interval
    ensures { Tells reply result }
{
    match reply {
        Probe::Hit(words) => interval_of(words).unwrap_or(NOTHING),
        _ => NOTHING,
    }
}

/// What the interval says of n plies, if it decides them.
pub(crate) fn decided(interval: Interval, n: u8) -> Option<bool>
    ensures { MatchOption result ((answer : Bool) → Says interval n answer → ⊥)
        (λ answer. Says interval n answer) }
{
    if n < interval.below {
        return Some(false);
    }
    match interval.upto {
        Some(end) if end <= n => Some(true),
        _ => None,
    }
}

/// Asks the first slot, and then the second, if the table has it, where the first reply doesn't decide n plies. The reply is
/// the one that decides them, or else the first slot's.
fn ask<A: Allocator>(caller: &mut Caller<'_, A>, key: [u64; 3], slot: usize, n: u8) -> Probe
    requires slot { slot < slots_of caller.old.slots.now }
    ensures { HasAsked key slot n result caller.old caller.new }
{
    let count = caller.slots.len();
    let reply = caller.probe(slot, key);
    if decided(told(reply), n).is_some() {
        return reply;
    }
    if count <= slot + 1 {
        return reply;
    }
    let second = caller.probe(slot + 1, key);
    if decided(told(second), n).is_some() {
        second
    } else {
        reply
    }
}

/// Asks the question's own two slots, as `ask` does.
pub(crate) fn ask_near<A: Allocator>(caller: &mut Caller<'_, A>, q: &Question, n: u8) -> Probe
    ensures asked { HasAsked (key_for q.now) (first_slot (key_for q.now) (slots_of caller.old.slots.now)) n result
        caller.old caller.new }
    ensures reply { IsReplyTo q.now result }
{
    let key = table_key(q);
    let slot = first_slot(caller.slots, key);
    ask(caller, key, slot, n)
}

/// What the table knows of the question: its own two slots are asked, and its image's far slots where these don't decide n plies.
pub(crate) fn look<A: Allocator>(caller: &mut Caller<'_, A>, q: &Question, n: u8) -> Interval
    ensures goes_on { GoesOn caller.old caller.new }
    ensures asked { OnAdded (IsAsked q.now) caller.old caller.new }
    ensures right { IsKnownOf q.now result }
{
    let near = told(ask_near(caller, q, n));
    if decided(near, n).is_some() {
        return near;
    }
    let far = look_far(caller, &image(q.copied()), n);
    interval_laws();
    meet(near, far)
}

/// What the table knows of the question, which is turned, in the far slots: no others stand there.
pub(crate) fn look_far<A: Allocator>(caller: &mut Caller<'_, A>, q: &Question, n: u8) -> Interval
    ensures goes_on { GoesOn caller.old caller.new }
    ensures right { IsKnownOf q.now result }
{
    let key = table_key(q);
    let slot = far_slot(caller.slots, key);
    told(ask(caller, key, slot, n))
}
