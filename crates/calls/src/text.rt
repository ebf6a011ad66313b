//! A text in memory, read as an input is: no read of it fails.
ghost use Rattle.std.specs.Prelude.{◌≡◌, ◌++◌, Some, drop, length, min, take};

use devices::{Failed, Source};

/// What is left of a text.
#[derive(Drop)]
pub(crate) struct Text<'a> {
    pub(crate) rest: &'a [u8],
}

/// Copies as many bytes as both have, and answers how many.
fn copy_front(from: &[u8], to: &mut [u8]) -> usize
    ensures count { result ≡ min (length from.now) (length to.old) }
    ensures copied { to.new ≡ take result from.now ++ drop result to.old }
{
    let count = from.len().min(to.len());
    to[..count].copy_from_slice(&from[..count]);
    count
}

impl Source for Text<'_> {
    ghost remaining = { λ text. Some text.rest.now };

    ghost failures = { λ text. 0 };

    fn read(&mut self, buffer: &mut [u8]) -> Result<usize, Failed> {
        let count = copy_front(self.rest, buffer);
        self.rest = &self.rest[count..];
        Ok(count)
    }
}
