//! The rule of a slot's cell, and what each step of it tells.
ghost use Rattle.std.specs.Prelude.{ℕ, List};
ghost use Rattle.cell_slots.specs.Cell.{newcomer, spent, hearer, told, CellHolds, Probes, Stores};

use crate::views::View;
use atomic_table::{Join, Split};
use crossbeam_utils::atomic::seq_cell::{Pass, RuledSeqCell};
use crossbeam_utils::rule::{Outcome, Protocol};
use slots::Lore;
use std::marker::{Brand, PhantomData};

/// One legal history, in which each caller's calls stand.
pub struct InOneOrder<L> {
    lore: PhantomData<L>,
}

impl<L: Lore> Protocol<[u64; 3], View> for InOneOrder<L> {
    ghost holds = { CellHolds L.key L.meets };

    ghost first = { newcomer };
}

/// One slot.
pub type Cell<L> = RuledSeqCell<[u64; 3], View, InOneOrder<L>, 3>;

/// One caller's token for one slot.
pub type Token = Pass<[u64; 3], View>;

/// Who makes a call, at which slot, and with which words. The call picks them, since what a step tells has no parameter of its own.
pub trait Told {
    ghost by: { ℕ };

    ghost slot: { ℕ };

    ghost words: { List ℕ };
}

impl Told for Brand {
    ghost use Rattle.std.specs.Prelude.{[]};

    ghost by = { 0 };

    ghost slot = { 0 };

    ghost words = { [] };
}

/// A probe that asks for the key `K.words`.
pub struct Probed<L, K> {
    lore: PhantomData<L>,
    told: PhantomData<K>,
}

impl<L: Lore, K: Told> Outcome<[u64; 3], View> for Probed<L, K> {
    ghost then = { Probes L.key L.meets K.slot K.by K.words };
}

/// A store.
pub struct Put<L, K> {
    lore: PhantomData<L>,
    told: PhantomData<K>,
}

impl<L: Lore, K: Told> Outcome<[u64; 3], View> for Put<L, K> {
    ghost then = { Stores L.key K.slot K.by };
}

/// What one caller tells another, which is then spent.
pub struct Hear;

impl Split<View> for Hear {
    ghost left = { λ _. spent };

    ghost right = { hearer };
}

impl Join<View> for Hear {
    ghost both = { told };

    ghost spent = { spent };
}
