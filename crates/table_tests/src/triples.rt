//! Entries x, x + 1 and x + 2.
use slots::Lore;

// The words x, x + 1 and x + 2, for x from 1 to the greatest u32. The key is x modulo 4, and the greater x stays.
pub struct Triples;

impl Lore for Triples {
    ghost use Rattle.table_tests.specs.Triples.{IsTriple, triple_key, triple_prefers, zeros_no_triple, zeros_never};

    ghost meets = { IsTriple };

    ghost key = { triple_key };

    fn key_of(words: [u64; 3]) -> [u64; 3] {
        [words[0] % 4, 0, 0]
    }

    ghost prefers = { triple_prefers };

    fn prefers(old: [u64; 3], new: [u64; 3]) -> bool {
        if old[0] < new[0] { false } else { 0 < old[0] }
    }

    ghost no_zeros_preferred = { zeros_never };

    ghost no_zeros = { zeros_no_triple };
}
