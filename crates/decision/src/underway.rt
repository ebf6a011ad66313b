//! Which positions the callers of a table search, so that others put moves to these off. No answer rests on it.
ghost use Rattle.std.specs.Prelude.{◌≡◌, length};

use std::alloc::{AllocError, Global};
use std::sync::atomic::AtomicU64;
use std::sync::atomic::Ordering::SeqCst;

/// So many positions are told of at most.
const PLACES: u16 = 1024;

/// The words of the positions that are searched, each at the place that it gives, where that is searched no more 0.
#[derive(Drop)]
pub struct Underway {
    places: Vec<AtomicU64>,
    ghost all: { length places.items ≡ 1024 },
}

/// A word for a key. None is 0.
fn word_of(key: [u64; 3]) -> u64 {
    let first = key[0].wrapping_mul(0x9E37_79B9_7F4A_7C15);
    let second = key[1].wrapping_mul(0xC2B2_AE3D_27D4_EB4F).rotate_left(21);
    let third = key[2].wrapping_mul(0x1656_67B1_9E37_79F9).rotate_left(42);
    (first ^ second ^ third) | 1
}

impl Underway {
    /// No position is searched yet.
    pub fn new(alloc: Global) -> Result<Underway, AllocError> {
        let mut places = Vec::with_capacity(alloc, usize::from(PLACES))?;
        for _ in 0..PLACES {
            places.push(AtomicU64::new(0))?;
        }
        Ok(Underway { places })
    }

    /// The place of a word.
    fn place(&self, word: u64) -> &AtomicU64 {
        &self.places[(word >> 32) as usize % usize::from(PLACES)]
    }

    /// Whether some caller searches the position of this key, as far as is told.
    pub(crate) fn has(&self, key: [u64; 3]) -> bool {
        let word = word_of(key);
        self.place(word).load(SeqCst) == word
    }

    /// A search of the position begins.
    pub(crate) fn enter(&self, key: [u64; 3]) {
        let word = word_of(key);
        self.place(word).store(word, SeqCst);
    }

    /// A search of the position ends.
    pub(crate) fn leave(&self, key: [u64; 3]) {
        let word = word_of(key);
        let place = self.place(word);
        if place.load(SeqCst) == word {
            place.store(0, SeqCst);
        }
    }
}
