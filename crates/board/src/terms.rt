//! The terms of a piece string, and the steps that they denote.
ghost use Rattle.std.specs.Prelude.{◌≡◌, ◌↔◌, IsTrue, false, All, MatchOption};
ghost use Rattle.board.specs.Denotation.{IsLeap, IsAtomLeap, IsTermLeap, Denotes, AreDistinct, ListsSteps};
ghost use Rattle.board.specs.declared.step.Mode.TheVariants.{Both};

use crate::{Mode, Moves, Step};

/// What a letter of the notation stands for.
#[derive(Clone, Copy, PartialEq, Eq, Default)]
pub enum Atom {
    #[default]
    Wazir,
    Ferz,
    Knight,
}

/// An atom with its modifiers.
#[derive(Clone, Copy, Default)]
pub struct Term {
    pub mode: Mode,
    pub forward: bool,
    pub atom: Atom,
    pub rider: bool,
}

/// Every leap of every atom, in order.
const LEAPS: [(i8, i8); 16] = [
    (-2, -1),
    (-2, 1),
    (-1, -2),
    (-1, -1),
    (-1, 0),
    (-1, 1),
    (-1, 2),
    (0, -1),
    (0, 1),
    (1, -2),
    (1, -1),
    (1, 0),
    (1, 1),
    (1, 2),
    (2, -1),
    (2, 1),
];

/// Whether this is a leap of the (m, n)-leaper.
fn is_leap(m: u8, n: u8, leap: &(i8, i8)) -> bool
    ensures { IsTrue result ↔ IsLeap m n leap.now.0 leap.now.1 }
{
    let (x, y) = (leap.0.unsigned_abs(), leap.1.unsigned_abs());
    (x == m && y == n) || (x == n && y == m)
}

impl Atom {
    /// Whether this is one of the atom's leaps.
    fn has_leap(self, leap: &(i8, i8)) -> bool
        ensures { IsTrue result ↔ IsAtomLeap self leap.now.0 leap.now.1 }
    {
        match self {
            Atom::Wazir => is_leap(1, 0, leap),
            Atom::Ferz => is_leap(1, 1, leap),
            Atom::Knight => is_leap(1, 2, leap),
        }
    }
}

impl Term {
    /// The atom with no modifier, once or doubled.
    pub fn bare(atom: Atom, rider: bool) -> Term
        ensures { result ≡ record { mode = Both; forward = false; atom = atom; rider = rider } }
    {
        Term {
            mode: Mode::Both,
            forward: false,
            atom,
            rider,
        }
    }

    /// Whether this is one of the term's leaps.
    fn has_leap(self, leap: &(i8, i8)) -> bool
        ensures { IsTrue result ↔ IsTermLeap self leap.now.0 leap.now.1 }
    {
        (!self.forward || leap.1 > 0) && self.atom.has_leap(leap)
    }
}

/// The step of these terms at this leap.
fn step_at(terms: &[Term], leap: &(i8, i8)) -> Option<Step>
    ensures { MatchOption result
        (All (λ t. IsTermLeap t leap.now.0 leap.now.1 → ⊥) terms.now)
        (λ s. (s.dx ≡ leap.now.0) × (s.dy ≡ leap.now.1) × Denotes terms.now s) }
{
    for term in terms {
        if term.has_leap(leap) {
            return Some(Step {
                dx: leap.0,
                dy: leap.1,
                rider: term.rider,
                mode: term.mode,
            });
        }
    }
    None
}

/// The steps that the terms denote, in order.
pub fn steps_of(terms: &[Term]) -> Moves
    requires { AreDistinct terms.now }
    ensures { ListsSteps terms.now result.items }
{
    let mut steps = Moves::new();
    for leap in &LEAPS {
        if let Some(step) = step_at(terms, leap) {
            steps.push(step);
        }
    }
    steps
}
