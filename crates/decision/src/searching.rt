//! The search below the first level. The table is asked of each position but those of the last plies, in the far slots alone; positions
//! that are images of one another are searched as one. Moves may be put off whose positions other callers search.
ghost use Rattle.std.specs.Prelude.{◌≡◌, ◌<◌, ◌≤◌, ◌↔◌, IsTrue, IfSome, All, MatchOption, length};
ghost use Rattle.arrayvec.specs.ArrayVec.{array_vec_len};
ghost use Rattle.rules.specs.Moves.{IsLawful};
ghost use Rattle.decision.specs.Callers.{GoesOn, Searches, PassTells};
ghost use Rattle.problems.specs.Questions.{IsForced};
ghost use Rattle.decision.specs.Questions.{IsKnownOf};
ghost use Rattle.problems.specs.Tried.{ListsAll};

use crate::asking::{decided, look_far};
use crate::caller::Caller;
use crate::image::{image, table_key};
use crate::lead::Lead;
use crate::leaf::{answer_now, leaf};
use crate::scout::Stop;
use crate::storing::{keep_far, known_with};
use arrayvec::ArrayVec;
use entry::Interval;
use moves::Move;
use problems::Question;
use std::alloc::Allocator;

/// The most plies of the leaf.
const LEAF: u8 = 3;

/// From so many plies on the table is asked of all positions below before one is searched.
const LOOKED_FROM: u8 = 6;

/// From so many plies on an attacker's position is searched round by round.
const ROUNDS_FROM: u8 = 11;

/// The answer for n plies, where the table knows of a position below that ends the search: on the attacker's turn one that wins, on the
/// defender's one that escapes.
fn known_below<A: Allocator>(
    caller: &mut Caller<'_, A>,
    q: &Question,
    n: u8,
    moves: &[Move],
) -> Option<bool>
    requires plies { (0 < n) × (n ≤ 63) }
    requires lawful { All (IsLawful q.now.position) moves.now }
    ensures goes_on { GoesOn caller.old caller.new }
    ensures answer { IfSome result (λ yes. IsTrue yes ↔ IsForced q.now n) }
{
    if n < LOOKED_FROM {
        return None;
    }
    let own = q.is_own_turn();
    for m in moves {
        let below = image(q.after(*m));
        let known = look_far(caller, &below, n - 1);
        match decided(known, n - 1) {
            Some(yes) if yes == own => return Some(own),
            _ => {}
        }
    }
    None
}

/// A list of the moves.
fn copied<const CAP: usize>(moves: &[Move]) -> ArrayVec<Move, CAP>
    requires { length moves.now ≤ CAP }
    ensures { result.items ≡ moves.now }
{
    let mut list = ArrayVec::new();
    let Ok(()) = list.try_extend_from_slice(moves) else {
        unreachable!()
    };
    list
}

/// The answer for n plies by the positions after the moves, which are all: they are tried in turn, until one ends the search. The table is
/// asked of each position below, turned about.
#[cycle(searching)]
fn try_listed<S: Stop, A: Allocator>(
    caller: &mut Caller<'_, A>,
    lead: &mut Lead<'_, S>,
    q: &Question,
    n: u8,
    moves: &[Move],
) -> Option<bool>
    requires plies { (3 < n) × (n ≤ 63) }
    requires lists { ListsAll q.now.position moves.now }
    requires some { 0 < length moves.now }
    ensures goes_on { Searches S.stays caller.old caller.new lead.old lead.new }
    ensures answer { MatchOption result (S.told lead.new.scout.now.stop) (λ yes. IsTrue yes ↔ IsForced q.now n) }
{
    let own = q.is_own_turn();
    for m in moves {
        let yes = visit(caller, lead, &image(q.after(*m)), n - 1)?;
        if yes == own {
            lead.scout.memory.remember(*m, n, own);
            return Some(own);
        }
    }
    Some(!own)
}

/// What a pass over the moves found, which may put some off.
#[derive(Clone, Copy)]
enum Pass {
    /// The answer: a move ended the search, or none was put off.
    Answers(bool),
    /// Nothing: some moves were put off, and the others don't end the search.
    PutOff,
}

/// Whether the move at this place of the list, which leads to the position, is put off. The first never is.
fn is_put_off<S: Stop>(stop: &S, place: usize, next: &Question) -> bool {
    match stop.underway() {
        Some(underway) => 0 < place && underway.has(table_key(next)),
        None => false,
    }
}

/// A pass over the moves, which are all: those that aren't put off are tried in turn, until one ends the search.
#[cycle(searching)]
#[inline(never)]
fn try_free<S: Stop, A: Allocator>(
    caller: &mut Caller<'_, A>,
    lead: &mut Lead<'_, S>,
    q: &Question,
    n: u8,
    moves: &[Move],
) -> Option<Pass>
    requires plies { (3 < n) × (n ≤ 63) }
    requires lists { ListsAll q.now.position moves.now }
    requires some { 0 < length moves.now }
    ensures goes_on { Searches S.stays caller.old caller.new lead.old lead.new }
    ensures found { MatchOption result (S.told lead.new.scout.now.stop) (PassTells q.now n) }
{
    let own = q.is_own_turn();
    let mut some_put_off = false;
    for (place, m) in moves.iter().enumerate() {
        let next = image(q.after(*m));
        if is_put_off(&lead.scout.stop, place, &next) {
            some_put_off = true;
            continue;
        }
        if visit(caller, lead, &next, n - 1)? == own {
            lead.scout.memory.remember(*m, n, own);
            return Some(Pass::Answers(own));
        }
    }
    if some_put_off {
        return Some(Pass::PutOff);
    }
    Some(Pass::Answers(!own))
}

/// The answer by a pass that may put moves off, and where it did and no move ended the search, by all of them: the table knows those that
/// were tried. Other callers learn that the pass begins, and that it ends.
#[cycle(searching)]
#[inline(never)]
fn search_entered<S: Stop, A: Allocator>(
    caller: &mut Caller<'_, A>,
    lead: &mut Lead<'_, S>,
    q: &Question,
    n: u8,
    moves: &[Move],
) -> Option<bool>
    requires plies { (3 < n) × (n ≤ 63) }
    requires lists { ListsAll q.now.position moves.now }
    requires some { 0 < length moves.now }
    ensures goes_on { Searches S.stays caller.old caller.new lead.old lead.new }
    ensures answer { MatchOption result (S.told lead.new.scout.now.stop) (λ yes. IsTrue yes ↔ IsForced q.now n) }
{
    let key = table_key(q);
    if let Some(underway) = lead.scout.stop.underway() {
        underway.enter(key);
    }
    let found = try_free(caller, lead, q, n, moves);
    if let Some(underway) = lead.scout.stop.underway() {
        underway.leave(key);
    }
    match found? {
        Pass::Answers(yes) => Some(yes),
        Pass::PutOff => try_listed(caller, lead, q, n, moves),
    }
}

/// The answer for n plies by the positions after the moves, which are all.
#[cycle(searching)]
fn search_listed<S: Stop, A: Allocator>(
    caller: &mut Caller<'_, A>,
    lead: &mut Lead<'_, S>,
    q: &Question,
    n: u8,
    moves: &[Move],
) -> Option<bool>
    requires plies { (3 < n) × (n ≤ 63) }
    requires lists { ListsAll q.now.position moves.now }
    requires some { 0 < length moves.now }
    ensures goes_on { Searches S.stays caller.old caller.new lead.old lead.new }
    ensures answer { MatchOption result (S.told lead.new.scout.now.stop) (λ yes. IsTrue yes ↔ IsForced q.now n) }
{
    if let Some(yes) = known_below(caller, q, n, moves) {
        return Some(yes);
    }
    if lead.scout.stop.underway().is_none() {
        return try_listed(caller, lead, q, n, moves);
    }
    search_entered(caller, lead, q, n, moves)
}

/// The answer by the moves in the room for them, where they are many.
#[cycle(searching)]
#[inline(never)]
fn search_many<S: Stop, A: Allocator>(
    caller: &mut Caller<'_, A>,
    lead: &mut Lead<'_, S>,
    q: &Question,
    n: u8,
) -> Option<bool>
    requires plies { (3 < n) × (n ≤ 63) }
    requires lists { ListsAll q.now.position lead.old.rooms.moves.items }
    requires some { 0 < array_vec_len lead.old.rooms.moves }
    ensures goes_on { Searches S.stays caller.old caller.new lead.old lead.new }
    ensures answer { MatchOption result (S.told lead.new.scout.now.stop) (λ yes. IsTrue yes ↔ IsForced q.now n) }
{
    let many = copied::<512>(lead.rooms.moves.as_slice());
    search_listed(caller, lead, q, n, many.as_slice())
}

/// The answer for n plies by the positions below.
#[cycle(searching)]
fn search<S: Stop, A: Allocator>(
    caller: &mut Caller<'_, A>,
    lead: &mut Lead<'_, S>,
    q: &Question,
    n: u8,
) -> Option<bool>
    requires { n ≤ 63 }
    ensures goes_on { Searches S.stays caller.old caller.new lead.old lead.new }
    ensures answer { MatchOption result (S.told lead.new.scout.now.stop) (λ yes. IsTrue yes ↔ IsForced q.now n) }
{
    if n <= LEAF {
        return Some(leaf(&mut lead.scout.memory, &mut lead.rooms, q, n));
    }
    if lead.scout.stop.is_set() {
        return None;
    }
    lead.scout.memory.count();
    lead.rooms.order(&lead.scout.memory, q, n);
    let count = lead.rooms.moves.len();
    if count == 0 {
        return Some(answer_now(q));
    }
    if count > 64 {
        return search_many(caller, lead, q, n);
    }
    // A longer list takes longer to clear.
    let few = copied::<64>(lead.rooms.moves.as_slice());
    search_listed(caller, lead, q, n, few.as_slice())
}

/// The answer for some plies, and what is known with it.
#[derive(Drop)]
pub(crate) struct Outcome {
    pub(crate) yes: bool,
    pub(crate) known: Interval,
}

/// The answer for n plies, and what is known with it: an attacker's position is searched for three plies, for five and so on, from what is
/// known on.
#[cycle(searching)]
pub(crate) fn search_in_rounds<S: Stop, A: Allocator>(
    caller: &mut Caller<'_, A>,
    lead: &mut Lead<'_, S>,
    q: &Question,
    n: u8,
    known: Interval,
) -> Option<Outcome>
    requires plies { n ≤ 63 }
    requires known { IsKnownOf q.now known }
    ensures goes_on { Searches S.stays caller.old caller.new lead.old lead.new }
    ensures found { MatchOption result (S.told lead.new.scout.now.stop)
        (λ found. (IsTrue found.yes ↔ IsForced q.now n) × IsKnownOf q.now found.known) }
{
    let mut known = known;
    let mut plies = first_round(q, n, known);
    loop {
        let yes = search(caller, lead, q, plies)?;
        known = known_with(q, plies, yes, known);
        if yes || plies == n {
            return Some(Outcome { yes, known });
        }
        plies = (plies + 2).min(n);
    }
}

/// The plies of the first round.
fn first_round(q: &Question, n: u8, known: Interval) -> u8
    ensures { result ≤ n }
{
    if n < ROUNDS_FROM || !q.is_own_turn() {
        return n;
    }
    (known.below | 1).max(3).min(n)
}

/// The answer for n plies by a search, from what is known on; what is found is stored last.
#[cycle(searching)]
pub(crate) fn search_from<S: Stop, A: Allocator>(
    caller: &mut Caller<'_, A>,
    lead: &mut Lead<'_, S>,
    q: &Question,
    n: u8,
    known: Interval,
) -> Option<bool>
    requires plies { n ≤ 63 }
    requires known { IsKnownOf q.now known }
    ensures goes_on { Searches S.stays caller.old caller.new lead.old lead.new }
    ensures answer { MatchOption result (S.told lead.new.scout.now.stop) (λ yes. IsTrue yes ↔ IsForced q.now n) }
{
    let found = search_in_rounds(caller, lead, q, n, known)?;
    keep_far(caller, q, found.known);
    Some(found.yes)
}

/// The answer for n plies. The far slots are asked first, and what is found is stored last.
#[cycle(searching)]
fn visit<S: Stop, A: Allocator>(
    caller: &mut Caller<'_, A>,
    lead: &mut Lead<'_, S>,
    q: &Question,
    n: u8,
) -> Option<bool>
    requires { n ≤ 63 }
    ensures goes_on { Searches S.stays caller.old caller.new lead.old lead.new }
    ensures answer { MatchOption result (S.told lead.new.scout.now.stop) (λ yes. IsTrue yes ↔ IsForced q.now n) }
{
    let known = look_far(caller, q, n);
    if let Some(yes) = decided(known, n) {
        return Some(yes);
    }
    search_from(caller, lead, q, n, known)
}
