//! What a line of a batch says.
ghost use Rattle.std.specs.Prelude.{◌≡◌};
ghost use Rattle.batch_texts.specs.Said.{is_remark, said_in, without_return};

/// The bytes without one carriage return at their end.
fn without_return(bytes: &[u8]) -> &[u8]
    ensures { result.now ≡ without_return bytes.now }
{
    match bytes {
        [front @ .., b'\r'] => front,
        _ => bytes,
    }
}

/// What a line says: without its feed, and without one carriage return before that.
pub fn said_in(line: &[u8]) -> &[u8]
    ensures { result.now ≡ said_in line.now }
{
    match line {
        [front @ .., b'\n'] => without_return(front),
        _ => line,
    }
}

/// Whether the line says nothing, or is a comment.
pub fn is_remark(said: &[u8]) -> bool
    ensures { result ≡ is_remark said.now }
{
    match said {
        [] => true,
        [first, ..] => *first == b'#',
    }
}
