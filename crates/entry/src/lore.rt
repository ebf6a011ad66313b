//! Which words may stand in a slot, and which stay there.

use crate::{keys, worth};
use slots::Lore;

/// The packings of true entries.
pub struct MateLore;

impl Lore for MateLore {
    ghost use Rattle.entry.specs.Keys.{key_words};
    ghost use Rattle.entry.specs.Truth.{IsTruePacking};
    ghost use Rattle.entry.specs.Preference.{mate_prefers, zeros_give_way};
    ghost use Rattle.entry.specs.NoZeros.{zeros_apart};

    ghost meets = { IsTruePacking };

    ghost key = { key_words };

    fn key_of(words: [u64; 3]) -> [u64; 3] {
        keys::key_of(words)
    }

    ghost prefers = { mate_prefers };

    fn prefers(old: [u64; 3], new: [u64; 3]) -> bool {
        worth::prefers(old, new)
    }

    fn stays(old: [u64; 3], new: [u64; 3]) -> bool {
        worth::stays(old, new)
    }

    ghost no_zeros_preferred = { zeros_give_way };

    ghost no_zeros = { zeros_apart };
}
