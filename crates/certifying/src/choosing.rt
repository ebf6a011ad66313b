//! Which move a line names, by decisions over a table.
ghost use Rattle.std.specs.Prelude.{◌≡◌, ◌<◌, ◌≤◌, All, IfSome};
ghost use Rattle.rules.specs.Moves.{IsLawful};
ghost use Rattle.slots.specs.Promise.{IsSeatOf};

use arrayvec::ArrayVec;
use decision::{Memory, Never, Scout, in_order, is_forced_until};
use entry::MateLore;
use moves::Move;
use problems::Question;
use slots::{Seat, Slots};
use std::alloc::Global;

/// The table of a solve and a seat there, by which moves are chosen, with what leads the searches, and a memory of nothing for the order of
/// moves, which rests on no search before.
#[derive(Drop)]
pub(crate) struct Chooser {
    pub(crate) alloc: Global,
    pub(crate) slots: Slots<MateLore>,
    pub(crate) seat: Seat,
    pub(crate) scout: Scout<Never>,
    pub(crate) memory: Memory,
    ghost belongs: { IsSeatOf slots seat },
}

impl Chooser {
    /// Whether the attacker forces the goal within n plies.
    fn is_forced(&mut self, q: &Question, n: u8) -> bool
        requires { n ≤ 63 }
    {
        let Some(yes) = is_forced_until(&self.slots, &mut self.seat, &mut self.scout, q, n) else {
            unreachable!()
        };
        yes
    }

    /// The first of the moves after which the goal is forced within n plies, or isn't, as it is wanted.
    fn first_of(&mut self, q: &Question, moves: &[Move], n: u8, is_wanted: bool) -> Option<Move>
        requires plies { n ≤ 63 }
        requires lawful { All (IsLawful q.now.position) moves.now }
        ensures { IfSome result (IsLawful q.now.position) }
    {
        for m in moves {
            if self.is_forced(&q.after(*m), n) == is_wanted {
                return Some(*m);
            }
        }
        None
    }

    /// The first move, by `in_order`, after which the goal is forced within n plies, or isn't, as it is wanted.
    pub(crate) fn choose(&mut self, q: &Question, n: u8, is_wanted: bool) -> Option<Move>
        requires { n < 63 }
        ensures { IfSome result (IsLawful q.now.position) }
    {
        let mut moves = ArrayVec::new();
        in_order(&self.memory, q, n + 1, &mut moves);
        self.first_of(q, moves.as_slice(), n, is_wanted)
    }

    /// The fewest plies, an odd number, within which the attacker, who is to move, forces the goal; the limit where it takes no fewer.
    pub(crate) fn fewest(&mut self, q: &Question, limit: u8) -> u8
        requires { limit ≤ 63 }
        ensures { result ≤ limit }
    {
        for half in 0..limit / 2 {
            let plies = 2 * half + 1;
            if self.is_forced(q, plies) {
                return plies;
            }
        }
        limit
    }
}
