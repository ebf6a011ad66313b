//! The first two fields of a FEN of six fields.
ghost use Rattle.std.specs.Prelude.{◌≡◌, ◌++◌, ◌∷◌, [], IfSome, MatchOption};
ghost use Rattle.batch_texts.specs.Fields.{all_of, are_counts, fields_of, is_made_of, is_one_of, position_of};

fn is_one_of(bytes: &[u8], x: u8) -> bool
    ensures { result ≡ is_one_of bytes.now x }
{
    for y in bytes {
        if x == *y {
            return true;
        }
    }
    false
}

fn all_of(bytes: &[u8], field: &[u8]) -> bool
    ensures { result ≡ all_of bytes.now field.now }
{
    for x in field {
        if !is_one_of(bytes, *x) {
            return false;
        }
    }
    true
}

/// Returns whether the field isn't empty and has no byte but these.
fn is_made_of(bytes: &[u8], field: &[u8]) -> bool
    ensures { result ≡ is_made_of bytes.now field.now }
{
    match field {
        [] => false,
        _ => all_of(bytes, field),
    }
}

/// Splits the text at its first space: returns the first field, and the text after the space if there is one.
fn split_field(text: &[u8]) -> (&[u8], Option<&[u8]>)
    ensures fields { MatchOption result.1 (fields_of text.now ≡ result.0.now ∷ [])
        (λ rest. fields_of text.now ≡ result.0.now ∷ fields_of rest.now) }
    ensures parts { IfSome result.1 (λ rest. text.now ≡ result.0.now ++ 32 ∷ rest.now) }
{
    for place in 0..text.len() {
        if text[place] == b' ' {
            return (&text[..place], Some(&text[place + 1..]));
        }
    }
    (text, None)
}

/// Returns whether the text is the third to the sixth field of a FEN: castling rights, an en passant square, and two counts.
fn are_counts(text: &[u8]) -> bool
    ensures { result ≡ are_counts (fields_of text.now) }
{
    let (castling, Some(rest)) = split_field(text) else {
        return false;
    };
    let (passant, Some(rest)) = split_field(rest) else {
        return false;
    };
    let (half, Some(rest)) = split_field(rest) else {
        return false;
    };
    match split_field(rest) {
        (full, None) => {
            is_made_of(b"-KQkq", castling)
                && is_made_of(b"-abcdefgh12345678", passant)
                && is_made_of(b"0123456789", half)
                && is_made_of(b"0123456789", full)
        }
        (_, Some(_)) => false,
    }
}

/// Returns the first two fields of a FEN of six fields, the board and the side to move. Any other text is returned whole.
pub fn position_of(text: &[u8]) -> &[u8]
    ensures { result.now ≡ position_of text.now }
{
    let (board, Some(behind)) = split_field(text) else {
        return text;
    };
    let (side, Some(counts)) = split_field(behind) else {
        return text;
    };
    if !are_counts(counts) {
        return text;
    }
    &text[..board.len() + 1 + side.len()]
}
