//! Whether an attacker forces the goal within so many plies.
ghost use Rattle.std.specs.Prelude.{◌<◌, ◌≤◌, ◌↔◌, IsTrue, IfSome, MatchOption};
ghost use Rattle.rules.specs.Squares.{Ply};
ghost use Rattle.rules.specs.Moves.{IsLawful};
ghost use Rattle.rules.specs.Forces.{Forces};
ghost use Rattle.slots.specs.Promise.{slots_of, number, IsSeatOf};
ghost use Rattle.decision.specs.Calls.{added, Continues, KnowsCalls};
ghost use Rattle.decision.specs.Callers.{GoesOn, OnAdded, IsFound, IsReplyTo, Searches};
ghost use Rattle.problems.specs.Questions.{question, IsForced};
ghost use Rattle.decision.specs.Questions.{IsKnownOf};
ghost use Rattle.decision.specs.Decisions.{Decides, AsksBelow, IsDecided};

use crate::asking::{ask_near, decided, look_far, told};
use crate::caller::Caller;
use crate::decision::Decision;
use crate::first::try_moves;
use crate::image::image;
use crate::lead::{Lead, Rooms};
use crate::leaf::{answer_now, short_leaf};
use crate::memory::Memory;
use crate::order::order_into;
use crate::scout::{Never, Scout, Stop};
use crate::searching::search_from;
use crate::storing::{keep, known_with};
use arrayvec::ArrayVec;
use board::{Position, Side};
use entry::{Interval, MateLore};
use moves::{Board, Goal};
use problems::Question;
use slots::{Probe, Seat, Slots};
use std::alloc::Allocator;

/// The answer by the positions below.
fn search_given<S: Stop, A: Allocator>(
    caller: &mut Caller<'_, A>,
    lead: &mut Lead<'_, S>,
    q: &Question,
    n: u8,
) -> Option<bool>
    requires { n ≤ 63 }
    ensures goes_on { Searches S.stays caller.old caller.new lead.old lead.new }
    ensures answer { MatchOption result (S.told lead.new.scout.now.stop) (λ yes. IsTrue yes ↔ IsForced q.now n) }
    ensures below { IfSome result
        (λ yes. 0 < n → ((m : Ply) × IsLawful q.now.position m)
        → OnAdded (λ slots number. AsksBelow q.now slots number yes) caller.old caller.new) }
{
    if n == 0 {
        return Some(answer_now(q));
    }
    let mut moves = ArrayVec::new();
    order_into(&lead.scout.memory, q, n, &mut lead.rooms.costed, &mut moves);
    if moves.is_empty() {
        return Some(answer_now(q));
    }
    try_moves(caller, lead, q, n, moves.as_slice())
}

/// The decision by a search, where the table's reply doesn't decide n plies, or `None` where it was told to stop. It is stored last.
// It stands apart, since the lists of a search are cleared as they are made, and mostly the table knows the answer.
#[inline(never)]
fn search_and_keep<S: Stop, A: Allocator>(
    caller: &mut Caller<'_, A>,
    scout: &mut Scout<S>,
    q: &Question,
    n: u8,
    reply: Probe,
) -> Option<Decision>
    requires plies { n ≤ 63 }
    requires reply { IsReplyTo q.now reply }
    ensures goes_on { GoesOn caller.old caller.new }
    ensures stop { S.stays scout.old.stop scout.new.stop }
    ensures found { MatchOption result (S.told scout.new.stop)
        (λ d. OnAdded (λ slots number. IsFound q.now slots n number reply d) caller.old caller.new) }
{
    let mut lead = Lead {
        scout,
        rooms: Rooms::new(),
    };
    lead.scout.memory.expanded = 0;
    let yes = search_given(caller, &mut lead, q, n)?;
    let expanded = lead.scout.memory.expanded.saturating_add(1);
    keep(caller, q, known_with(q, n, yes, told(reply)));
    Some(Decision {
        yes,
        expanded,
        first: reply,
    })
}

/// `search_and_keep`, with a memory of its own, where nothing stops it.
#[inline(never)]
fn search_and_keep_alone<A: Allocator>(
    caller: &mut Caller<'_, A>,
    q: &Question,
    n: u8,
    reply: Probe,
) -> Decision
    requires plies { n ≤ 63 }
    requires reply { IsReplyTo q.now reply }
    ensures goes_on { GoesOn caller.old caller.new }
    ensures found { OnAdded (λ slots number. IsFound q.now slots n number reply result) caller.old caller.new }
{
    let mut scout = Scout {
        stop: Never,
        memory: Memory::new(),
    };
    let Some(decision) = search_and_keep(caller, &mut scout, q, n, reply) else {
        unreachable!()
    };
    decision
}

/// The decision, or `None` where it was told to stop.
fn decide_with<S: Stop, A: Allocator>(
    caller: &mut Caller<'_, A>,
    scout: &mut Scout<S>,
    q: &Question,
    n: u8,
) -> Option<Decision>
    requires { n ≤ 63 }
    ensures goes_on { GoesOn caller.old caller.new }
    ensures stop { S.stays scout.old.stop scout.new.stop }
    ensures history { KnowsCalls caller.new.seat.now }
    ensures decided { MatchOption result (S.told scout.new.stop)
        (λ d. OnAdded (λ slots number. IsDecided q.now slots n number d) caller.old caller.new) }
{
    let reply = ask_near(caller, q, n);
    match decided(told(reply), n) {
        Some(yes) => Some(Decision {
            yes,
            expanded: 0,
            first: reply,
        }),
        None => search_and_keep(caller, scout, q, n, reply),
    }
}

/// The decision, where nothing stops it. A memory is made where the table doesn't know it.
fn decide_alone<A: Allocator>(caller: &mut Caller<'_, A>, q: &Question, n: u8) -> Decision
    requires { n ≤ 63 }
    ensures goes_on { GoesOn caller.old caller.new }
    ensures history { KnowsCalls caller.new.seat.now }
    ensures decided { OnAdded (λ slots number. IsDecided q.now slots n number result) caller.old caller.new }
{
    let reply = ask_near(caller, q, n);
    match decided(told(reply), n) {
        Some(yes) => Decision {
            yes,
            expanded: 0,
            first: reply,
        },
        None => search_and_keep_alone(caller, q, n, reply),
    }
}

/// Whether the attacker forces the goal within n plies, whatever the table holds and whatever its other callers do, or `None`
/// where the search was told to stop. The table is asked first of this position, in its own two slots. Where it doesn't know the
/// answer, it is asked of the positions directly below, in their own two slots and, turned about, in the far slots; and of those
/// further down that have three plies left or more, turned about, in the far slots alone. What it was asked of and didn't know is
/// stored after its own subtree, and stays in the table where the search is stopped.
pub fn decide_until<S: Stop, A: Allocator>(
    slots: &Slots<MateLore, A>,
    seat: &mut Seat,
    scout: &mut Scout<S>,
    q: &Question,
    n: u8,
) -> Option<Decision>
    requires seat { IsSeatOf slots.now seat.old }
    requires plies { n ≤ 63 }
    ensures continues { Continues slots.now seat.old seat.new }
    ensures history { KnowsCalls seat.new }
    ensures stop { S.stays scout.old.stop scout.new.stop }
    ensures decided { MatchOption result (S.told scout.new.stop)
        (λ d. IsDecided q.now (slots_of slots.now) n (number seat.old) d (added seat.old seat.new)) }
{
    let mut caller = Caller { slots, seat };
    decide_with(&mut caller, scout, q, n)
}

/// `decide_until`, where nothing stops it. Where the table knows the answer, no memory is made for a search.
pub fn decide_on<A: Allocator>(
    slots: &Slots<MateLore, A>,
    seat: &mut Seat,
    q: &Question,
    n: u8,
) -> Decision
    requires seat { IsSeatOf slots.now seat.old }
    requires plies { n ≤ 63 }
    ensures continues { Continues slots.now seat.old seat.new }
    ensures history { KnowsCalls seat.new }
    ensures decided { IsDecided q.now (slots_of slots.now) n (number seat.old) result (added seat.old seat.new) }
{
    let mut caller = Caller { slots, seat };
    decide_alone(&mut caller, q, n)
}

/// The answer alone by a search from what is known on, or `None` where it was told to stop.
// It stands apart, since the lists of a search are cleared as they are made, and mostly the table knows the answer.
#[inline(never)]
fn search_on<S: Stop, A: Allocator>(
    caller: &mut Caller<'_, A>,
    scout: &mut Scout<S>,
    q: &Question,
    n: u8,
    known: Interval,
) -> Option<bool>
    requires plies { n ≤ 63 }
    requires known { IsKnownOf q.now known }
    ensures goes_on { GoesOn caller.old caller.new }
    ensures stop { S.stays scout.old.stop scout.new.stop }
    ensures answer { MatchOption result (S.told scout.new.stop) (λ yes. IsTrue yes ↔ IsForced q.now n) }
{
    let mut lead = Lead {
        scout,
        rooms: Rooms::new(),
    };
    search_from(caller, &mut lead, q, n, known)
}

/// Up to so many plies the answer alone is found sooner than the table is asked.
const UNASKED: u8 = 2;

/// Whether the attacker forces the goal within n plies, or `None` where the search was told to stop: the answer alone. The far slots
/// are asked, for the position turned about, and an attacker's position is searched round by round.
pub fn is_forced_until<S: Stop, A: Allocator>(
    slots: &Slots<MateLore, A>,
    seat: &mut Seat,
    scout: &mut Scout<S>,
    q: &Question,
    n: u8,
) -> Option<bool>
    requires seat { IsSeatOf slots.now seat.old }
    requires plies { n ≤ 63 }
    ensures continues { Continues slots.now seat.old seat.new }
    ensures stop { S.stays scout.old.stop scout.new.stop }
    ensures answer { MatchOption result (S.told scout.new.stop) (λ yes. IsTrue yes ↔ IsForced q.now n) }
{
    if n <= UNASKED {
        return Some(short_leaf(&mut scout.memory, q, n));
    }
    let mut caller = Caller { slots, seat };
    let image = image(q.copied());
    let known = look_far(&mut caller, &image, n);
    match decided(known, n) {
        Some(yes) => Some(yes),
        None => search_on(&mut caller, scout, &image, n, known),
    }
}

/// Whether the attacker forces the goal from the position within n plies, whatever the table holds and whatever its other callers
/// do. The table is asked first of this position, in its own two slots, and where it doesn't know the answer, of those below, as
/// `decide_until` says. What it was asked of and didn't know is stored after its own subtree.
pub fn decide<A: Allocator>(
    slots: &Slots<MateLore, A>,
    seat: &mut Seat,
    position: &Position,
    attacker: Side,
    goal: Goal,
    n: u8,
) -> Decision
    requires seat { IsSeatOf slots.now seat.old }
    requires plies { n ≤ 63 }
    ensures continues { Continues slots.now seat.old seat.new }
    ensures history { KnowsCalls seat.new }
    ensures answer { IsTrue result.yes ↔ Forces goal attacker position.now n }
    ensures calls { Decides (question position.now attacker goal) (slots_of slots.now) n (number seat.old) result
        (added seat.old seat.new) }
    ensures below { 0 < result.expanded → 0 < n → ((m : Ply) × IsLawful position.now m)
        → AsksBelow (question position.now attacker goal) (slots_of slots.now) (number seat.old) result.yes
        (added seat.old seat.new) }
{
    let q = Question {
        position: Board::of(position),
        attacker,
        goal,
    };
    decide_on(slots, seat, &q, n)
}
