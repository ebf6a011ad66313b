//! A sentence as a value, and how it is written.
ghost use Rattle.std.specs.Prelude.{OnOk};
ghost use Rattle.refusals.specs.Sentences.{AppendsLine, AppendsText, error_beginning};

use moves::{Move, Square};
use std::io::{self, Write};

/// What a sentence names.
#[derive(Clone, Copy)]
pub enum Part<'a> {
    Text(&'a str),
    /// A word behind a blank, or nothing where it is empty.
    Behind(&'a str),
    Number(usize),
    /// Two numbers, and what stands between them.
    Pair(usize, &'a str, usize),
    On(Square),
    /// Bytes that someone wrote. Bytes that are neither printable ASCII nor part of a chess symbol are escaped.
    Bytes(&'a [u8]),
    /// That the board has another fault, if so.
    Fault(bool),
    /// A move by its squares.
    Played(Move),
    /// Moves, each behind a blank: all, or those from this square.
    Moves(&'a [Move], Option<Square>),
}

/// What is put where a sentence names less than four things.
pub const NO: Part<'static> = Part::Text("");

/// A sentence: a text, and the parts that stand in it for each `%` in turn. It is told without those for which it has none.
#[derive(Clone, Copy)]
pub struct Sentence<'a>(pub &'a str, pub (Part<'a>, Part<'a>, Part<'a>, Part<'a>));

/// Splits off the chess symbol at the beginning of the text, if there is one: the three bytes of a character from U+2654, the white
/// king, to U+265F, the black pawn.
fn split_symbol(bytes: &[u8]) -> Option<(&[u8], &[u8])> {
    match bytes {
        [0xE2, 0x99, 0x94..=0x9F, ..] => Some(bytes.split_at(3)),
        _ => None,
    }
}

/// Writes a byte, escaped if it is not printable ASCII.
fn write_byte<E: Write>(errors: &mut E, byte: &[u8]) -> io::Result<()>
    ensures { OnOk result (AppendsText (E.contents errors.old) (E.contents errors.new)) }
{
    for c in byte.escape_ascii() {
        errors.write_all(&[c])?;
    }
    Ok(())
}

/// Writes the chess symbol or the byte at the beginning of the text. Returns the bytes behind it.
fn write_first<'a, E: Write>(errors: &mut E, text: &'a [u8]) -> io::Result<&'a [u8]>
    ensures { OnOk result (AppendsText (E.contents errors.old) (E.contents errors.new)) }
{
    if let Some((symbol, behind)) = split_symbol(text) {
        errors.write_all(symbol)?;
        return Ok(behind);
    }
    let (byte, behind) = text.split_at(text.len().min(1));
    write_byte(errors, byte)?;
    Ok(behind)
}

/// Writes bytes: chess symbols as they are, and each other byte escaped if it is not printable ASCII.
fn write_escaped<E: Write>(errors: &mut E, bytes: &[u8]) -> io::Result<()>
    ensures { OnOk result (AppendsText (E.contents errors.old) (E.contents errors.new)) }
{
    let mut rest = bytes;
    for _ in 0..bytes.len() {
        rest = write_first(errors, rest)?;
    }
    Ok(())
}

/// Writes moves, each behind a blank: all, or those from this square.
fn write_moves<E: Write>(errors: &mut E, moves: &[Move], from: Option<Square>) -> io::Result<()>
    ensures { OnOk result (AppendsText (E.contents errors.old) (E.contents errors.new)) }
{
    for m in moves {
        let is_told = match from {
            Some(from) => m.from == from,
            None => true,
        };
        if !is_told {
            continue;
        }
        write!(errors, " {m}")?;
    }
    Ok(())
}

fn write_part<E: Write>(errors: &mut E, part: &Part<'_>) -> io::Result<()>
    ensures { OnOk result (AppendsText (E.contents errors.old) (E.contents errors.new)) }
{
    match part {
        Part::Behind("") => Ok(()),
        Part::Behind(word) => write!(errors, " {word}"),
        Part::Text(text) => errors.write_all(text.as_bytes()),
        Part::Number(number) => write!(errors, "{number}"),
        Part::Pair(number, between, next) => write!(errors, "{number}{between}{next}"),
        Part::On(square) => write!(errors, "{square}"),
        Part::Bytes(bytes) => write_escaped(errors, bytes),
        Part::Fault(true) => errors.write_all(b"; the board has a fault too"),
        Part::Fault(false) => Ok(()),
        Part::Played(m) => write!(errors, "{m}"),
        Part::Moves(moves, from) => write_moves(errors, moves, *from),
    }
}

/// Writes a text up to its first `%`, and the part that stands there. Answers what follows in the text.
fn write_next<'a, E: Write>(errors: &mut E, text: &'a str, part: &Part<'_>) -> io::Result<&'a str>
    ensures { OnOk result (AppendsText (E.contents errors.old) (E.contents errors.new)) }
{
    let Some((before, behind)) = text.split_once('%') else {
        return Ok(text);
    };
    errors.write_all(before.as_bytes())?;
    write_part(errors, part)?;
    Ok(behind)
}

/// Writes a sentence, without an end of the line.
pub fn write_told<E: Write>(errors: &mut E, sentence: &Sentence<'_>) -> io::Result<()>
    ensures { OnOk result (AppendsText (E.contents errors.old) (E.contents errors.new)) }
{
    let Sentence(text, (first, second, third, fourth)) = sentence;
    let text = write_next(errors, text, first)?;
    let text = write_next(errors, text, second)?;
    let text = write_next(errors, text, third)?;
    let text = write_next(errors, text, fourth)?;
    errors.write_all(text.as_bytes())
}

/// Writes a sentence as an error, on a line of its own.
pub fn write_line<E: Write>(errors: &mut E, sentence: &Sentence<'_>) -> io::Result<()>
    ensures { OnOk result (AppendsLine error_beginning (E.contents errors.old) (E.contents errors.new)) }
{
    errors.write_all(b"error: ")?;
    write_told(errors, sentence)?;
    errors.write_all(b"\n")
}
