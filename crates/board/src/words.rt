//! The words that a piece string is made of.
ghost use Rattle.std.specs.Prelude.{◌≡◌, ℕ, Bool, false, List, [], ◌∷◌, ◌++◌, MatchOption};
ghost use Rattle.board.specs.declared.step.Mode.TheVariants.{Both};
ghost use Rattle.board.specs.declared.terms.Atom.{Atom as AnAtom};
ghost use Rattle.board.specs.declared.terms.Term.{Term as ATerm};
ghost use Rattle.board.specs.Notation.{IsShorthand, IsFirstWord, IsWord, IsWritten, StartsNoMode, StartsNot, atom_text, doubled_text, forward_text, mode_text, term_text};

use crate::Mode;
use crate::terms::{Atom, Term};
use arrayvec::ArrayVec;

/// The mode that the text begins with, and what follows it.
fn read_mode(text: &[u8]) -> (Mode, &[u8])
    ensures text { text.now ≡ mode_text result.0 ++ result.1.now }
    ensures longest { result.0 ≡ Both → StartsNoMode result.1.now }
{
    match text {
        [b'm', rest @ ..] => (Mode::Move, rest),
        [b'c', rest @ ..] => (Mode::Capture, rest),
        _ => (Mode::Both, text),
    }
}

/// Whether the text begins with an `f`, and what follows it.
fn read_forward(text: &[u8]) -> (bool, &[u8])
    ensures text { text.now ≡ forward_text result.0 ++ result.1.now }
    ensures longest { result.0 ≡ false → StartsNot 102 result.1.now }
{
    match text {
        [b'f', rest @ ..] => (true, rest),
        _ => (false, text),
    }
}

/// The atom of a letter.
fn atom_of(letter: u8) -> Option<Atom>
    ensures { MatchOption result
        ((a : AnAtom) → letter ∷ [] ≡ atom_text a → ⊥)
        (λ a. letter ∷ [] ≡ atom_text a) }
{
    match letter {
        b'W' => Some(Atom::Wazir),
        b'F' => Some(Atom::Ferz),
        b'N' => Some(Atom::Knight),
        _ => None,
    }
}

/// Whether the letter stands there once more, and what follows.
fn read_double(text: &[u8], letter: u8) -> (bool, &[u8])
    ensures text { letter ∷ text.now ≡ doubled_text result.0 (letter ∷ []) ++ result.1.now }
    ensures longest { result.0 ≡ false → StartsNot letter result.1.now }
{
    match text {
        [c, rest @ ..] if *c == letter => (true, rest),
        _ => (false, text),
    }
}

/// The longest term that the text begins with, and what follows it.
fn read_term(text: &[u8]) -> Option<(Term, &[u8])>
    ensures { MatchOption result
        ((t : ATerm) (rest : List ℕ) → IsWritten t → text.now ≡ term_text t ++ rest → ⊥)
        (λ r. IsFirstWord text.now (r.0 ∷ []) r.1.now) }
{
    let (mode, text) = read_mode(text);
    let (forward, text) = read_forward(text);
    let [letter, rest @ ..] = text else {
        return None;
    };
    let atom = atom_of(*letter)?;
    if forward && atom == Atom::Knight {
        return None;
    }
    let (rider, rest) = read_double(rest, *letter);
    let term = Term {
        mode,
        forward,
        atom,
        rider,
    };
    Some((term, rest))
}

/// A word of one term.
fn one(term: Term) -> ArrayVec<Term, 2>
    ensures { result.items ≡ term ∷ [] }
{
    let mut terms = ArrayVec::new();
    terms.push(term);
    terms
}

/// A word of two terms.
fn two(first: Term, second: Term) -> ArrayVec<Term, 2>
    ensures { result.items ≡ first ∷ second ∷ [] }
{
    let mut terms = one(first);
    terms.push(second);
    terms
}

/// The terms that a letter is short for.
fn shorthand(letter: u8) -> Option<ArrayVec<Term, 2>>
    ensures { MatchOption result
        ((terms : List ATerm) → IsShorthand (letter ∷ []) terms → ⊥)
        (λ terms. IsShorthand (letter ∷ []) terms.items) }
{
    let (wazir, ferz) = (Atom::Wazir, Atom::Ferz);
    match letter {
        b'R' => Some(one(Term::bare(wazir, true))),
        b'B' => Some(one(Term::bare(ferz, true))),
        b'Q' => Some(two(Term::bare(wazir, true), Term::bare(ferz, true))),
        b'K' => Some(two(Term::bare(wazir, false), Term::bare(ferz, false))),
        _ => None,
    }
}

/// The terms of the longest word that the text begins with, and what follows it.
pub fn read_word(text: &[u8]) -> Option<(ArrayVec<Term, 2>, &[u8])>
    ensures { MatchOption result
        ((bytes rest : List ℕ) (terms : List ATerm) → IsWord bytes terms → text.now ≡ bytes ++ rest → ⊥)
        (λ r. IsFirstWord text.now r.0.items r.1.now) }
{
    let [first, rest @ ..] = text else {
        return None;
    };
    if let Some(terms) = shorthand(*first) {
        return Some((terms, rest));
    }
    let (term, rest) = read_term(text)?;
    Some((one(term), rest))
}
