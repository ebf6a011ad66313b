//! What leads a search: what may stop it, and what it remembers.
ghost use Rattle.std.specs.Prelude.{IsTrue};

use crate::memory::Memory;
use crate::underway::Underway;

/// What may stop a search, and is told how far it is. It is asked before the moves of a position are tried, down to the last plies.
pub trait Stop {
    /// It was told to stop.
    ghost told: { Self → Type 0 };

    /// It is the same, later.
    ghost stays: { Self → Self → Type 0 };

    /// Whether it was told to stop.
    fn is_set(&mut self) -> bool
        ensures told { IsTrue result → told self.new }
        ensures stays { stays self.old self.new };

    /// The root's moves, so many, are about to be tried: nothing is forced within so many plies. Whoever doesn't tell it further does nothing.
    fn begin(&self, _none_within: u8, _moves: u16) {}

    /// A move of the root more was tried.
    fn step(&self) {}

    /// Which positions callers search, where moves to these are put off. No answer rests on it: it changes the order alone.
    fn underway(&self) -> Option<&Underway> {
        None
    }

    // Nothing happened.
    ghost stays_at_once: { (a : Self) → stays a a };

    // One thing happened after another.
    ghost stays_on: { (a b c : Self) → stays a b → stays b c → stays a c };
}

/// What leads a search.
#[derive(Drop)]
pub struct Scout<S> {
    pub stop: S,
    pub memory: Memory,
}

/// Nothing stops a search.
#[derive(Clone, Copy)]
pub struct Never;

impl Stop for Never {
    ghost told = { λ _. ⊥ };

    ghost stays = { λ _ _. Unit {0} };

    fn is_set(&mut self) -> bool {
        false
    }

    ghost stays_at_once = { λ _. tt };

    ghost stays_on = { λ _ _ _ _ _. tt };
}
