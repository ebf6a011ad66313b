//! The rule that every step keeps.
use crate::lore::Lore;
use crate::views::View;
use atomic_table::TableRule;
use std::marker::PhantomData;

/// The rule of a table under the lore.
pub struct Slotted<L> {
    lore: PhantomData<L>,
}

impl<L: Lore> TableRule<u8, View, usize> for Slotted<L> {
    ghost use Rattle.slots.specs.Rule.{TableHolds, dealer};
    ghost use Rattle.slots.specs.Promise.{way_of};

    ghost holds = { λ slots. TableHolds (way_of L.key L.prefers) L.meets slots };

    ghost first = { dealer };
}
