//! Entries with a key and two bounds.
ghost use Rattle.std.specs.Prelude.{◌≡◌};
ghost use Rattle.table_tests.specs.Bounded.{same_key, greater_end};

use slots::Lore;

const KEY: u64 = 1 << 48;

// Three words with a key and two bounds, and the first word not 0.
pub struct Bounded;

/// Nothing is known of its upper bound.
pub const PLAIN: [u64; 3] = [0x8000000000100000, 0, 0x00FF000007000000];
/// Another key, whose first word is that of `PLAIN`.
pub const OTHER: [u64; 3] = [0x8000000000100000, 0, 0x00FF000070000000];
/// Both bounds are 3.
pub const EXACT: [u64; 3] = [0x8000000000000030, 0x0003000100000000, 0x0003000007000000];
/// The key of `EXACT`, with no lower bound.
pub const LOOSE: [u64; 3] = [0x8000000000000030, 0x0000000100000000, 0x0003000007000000];

fn has_same_key(v: [u64; 3], w: [u64; 3]) -> bool
    ensures { result ≡ same_key v w }
{
    if v[0] == w[0] {
        if v[1] % KEY == w[1] % KEY {
            v[2] % KEY == w[2] % KEY
        } else {
            false
        }
    } else {
        false
    }
}

// The greater of the bounds that are known.
fn weight_of(words: [u64; 3]) -> u64
    ensures { result ≡ greater_end words }
{
    let lower = words[1] / KEY;
    let upper = words[2] / KEY;
    if upper < 255 {
        if lower < upper { upper } else { lower }
    } else {
        lower
    }
}

impl Lore for Bounded {
    ghost use Rattle.table_tests.specs.Bounded.{IsBounded, bounded_key, bounded_prefers, zeros_unbounded, zeros_never_stay};

    ghost meets = { IsBounded };

    ghost key = { bounded_key };

    fn key_of(words: [u64; 3]) -> [u64; 3] {
        [words[0], words[1] % KEY, words[2] % KEY]
    }

    ghost prefers = { bounded_prefers };

    fn prefers(old: [u64; 3], new: [u64; 3]) -> bool {
        if old[0] == 0 {
            false
        } else if has_same_key(old, new) {
            if old[1] / KEY < new[1] / KEY {
                false
            } else {
                old[2] / KEY <= new[2] / KEY
            }
        } else {
            weight_of(new) < weight_of(old)
        }
    }

    ghost no_zeros_preferred = { zeros_never_stay };

    ghost no_zeros = { zeros_unbounded };
}
