//! Which three words may stand in a slot.
ghost use Rattle.std.specs.Prelude.{◌≡◌, ℕ, Bool, false, List, [], ◌∷◌};
ghost use Rattle.slots.specs.Steps.{IsWhole};

/// What the user of a table knows of its entries, each of three words.
pub trait Lore {
    /// The three words may stand in a slot. It is known to contracts alone.
    ghost meets: { List ℕ → Type 0 };

    /// The key of three words.
    ghost key: { List ℕ → List ℕ };

    /// The key, by which a probe asks.
    fn key_of(words: [u64; 3]) -> [u64; 3]
        ensures { result ≡ key words };

    /// The old words stay where the new ones are offered, in slots of even number.
    ghost prefers: { List ℕ → List ℕ → Bool };

    /// Whether the old words stay. It answers for any words, also for such as can't stand in a slot.
    fn prefers(old: [u64; 3], new: [u64; 3]) -> bool
        ensures { result ≡ prefers old new };

    /// Whether the old words stay where words that may stand in a slot are offered, and whole ones stand. Of others it may say
    /// anything, so it needn't look at all of them: a store that read a mixture doesn't end by what this says.
    fn stays(old: [u64; 3], new: [u64; 3]) -> bool
        ensures { meets new → IsWhole meets old → result ≡ prefers old new }
    {
        Self::prefers(old, new)
    }

    // Three zero words are never preferred: they stand for nothing.
    ghost no_zeros_preferred: { (new : List ℕ) → prefers (0 ∷ 0 ∷ 0 ∷ []) new ≡ false };

    // Three zero words may not stand in a slot.
    ghost no_zeros: { meets (0 ∷ 0 ∷ 0 ∷ []) → ⊥ };
}
