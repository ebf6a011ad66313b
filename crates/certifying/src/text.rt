//! The text of a line.
ghost use Rattle.std.specs.Prelude.{◌≡◌, ◌<◌, ◌++◌, ◌∷◌, [], IfOk, OnOk};
ghost use Rattle.verifying.specs.Words.{place_letter, words_line, word_text};
ghost use Rattle.verifying.specs.declared.words.Word.TheVariants.{Place as place};

use std::alloc::{AllocError, Global};
use verifying::Word;

/// The letter of a place below 50.
fn letter_of(number: u8) -> u8
    requires { number < 50 }
    ensures { result ≡ place_letter number }
{
    if number < 26 {
        b'a' + number
    } else {
        b'A' + (number - 26)
    }
}

/// Puts the place behind the text.
fn put_place(text: &mut Vec<u8>, number: usize) -> Result<(), AllocError>
    ensures { OnOk result (text.new.items ≡ text.old.items ++ word_text (place number)) }
{
    for _ in 0..number / 50 {
        text.push(b'Z')?;
    }
    text.push(letter_of((number % 50) as u8))?;
    Ok(())
}

/// Puts the word behind the text.
fn put_word(text: &mut Vec<u8>, word: Word) -> Result<(), AllocError>
    ensures { OnOk result (text.new.items ≡ text.old.items ++ word_text word) }
{
    match word {
        Word::Seen => text.push(b'.')?,
        Word::Claimed => text.push(b'=')?,
        Word::Stalemated => text.push(b'-')?,
        Word::Place(number) => put_place(text, number)?,
    }
    Ok(())
}

/// The line of the words, without its feed.
pub(crate) fn text_of(alloc: Global, words: &[Word]) -> Result<Vec<u8>, AllocError>
    ensures { IfOk result (λ text. text.items ≡ words_line words.now) }
{
    let mut text = Vec::new(alloc);
    for word in words {
        put_word(&mut text, *word)?;
    }
    Ok(text)
}

/// The line with its feed.
pub(crate) fn fed(mut line: Vec<u8>) -> Result<Vec<u8>, AllocError>
    ensures { IfOk result (λ text. text.items ≡ line.items ++ 10 ∷ []) }
{
    line.push(b'\n')?;
    Ok(line)
}
