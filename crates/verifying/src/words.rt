//! The words of a claim's line.
ghost use Rattle.std.specs.Prelude.{◌≡◌, ◌≢◌, ◌<◌, ◌≤◌, ◌∷◌, ◌++◌, [], ℕ, List, IfOk, IsTrue, MatchOption, false, length, replicate};
ghost use Rattle.verifying.specs.Words.{place_letter, word_text, words_line};

use std::alloc::{AllocError, Allocator};

/// What a line says of a move or of a reply.
#[derive(Clone, Copy, PartialEq, Eq, Debug)]
pub enum Word {
    /// `.`: no claim is needed, as the checker looks three plies ahead.
    Seen,
    /// `=`: a claim that was made before says it.
    Claimed,
    /// `-`: the defender has no reply.
    Stalemated,
    /// A place in a list, from 0: a letter, after a Z for each 50.
    Place(usize),
}

/// The place below 50 of the letter.
fn place_of(letter: u8) -> Option<u8>
    ensures { MatchOption result
        ((n : ℕ) → n < 50 → letter ≢ place_letter n)
        (λ n. (n < 50) × (letter ≡ place_letter n)) }
{
    if letter >= b'a' && letter <= b'z' {
        return Some(letter - b'a');
    }
    if letter >= b'A' && letter <= b'X' {
        return Some(letter - b'A' + 26);
    }
    None
}

/// The word that ends with the byte, after so many Zs.
fn word_of(fifties: usize, byte: u8) -> Option<Word>
    requires { fifties ≤ 8192 }
    ensures { MatchOption result
        ((word : Word) → word_text word ≢ replicate fifties 90 ++ byte ∷ [])
        (λ word. word_text word ≡ replicate fifties 90 ++ byte ∷ []) }
{
    match place_of(byte) {
        Some(place) => Some(Word::Place(fifties * 50 + place as usize)),
        None if fifties > 0 => None,
        None => match byte {
            b'.' => Some(Word::Seen),
            b'=' => Some(Word::Claimed),
            b'-' => Some(Word::Stalemated),
            _ => None,
        },
    }
}

/// Puts the words of the line into the list, in place of what it held. Answers whether the line is one of words.
pub(crate) fn read_words<A: Allocator>(
    line: &[u8],
    words: &mut Vec<Word, A>,
) -> Result<bool, AllocError>
    requires { length line.now ≤ 8192 }
    ensures read { IfOk result (λ all. IsTrue all → line.now ≡ words_line words.new.items) }
    ensures refuses { IfOk result (λ all. all ≡ false → (other : List Word) → line.now ≡ words_line other → ⊥) }
{
    words.clear();
    let mut fifties = 0;
    for byte in line {
        if *byte == b'Z' {
            fifties += 1;
            continue;
        }
        let Some(word) = word_of(fifties, *byte) else {
            return Ok(false);
        };
        words.push(word)?;
        fifties = 0;
    }
    Ok(fifties == 0)
}
