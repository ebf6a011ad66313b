//! What an input begins with, which is kept, so that what is wrong with it can be told.
ghost use Rattle.std.specs.Prelude.{◌≡◌};

use devices::{Counted, Failed, Source};
use refusals::MOST_KNOWN;
use std::io::Read;

/// An input that tells what it began with.
pub trait Input {
    /// The first bytes that it gave, as far as they are kept.
    fn beginning(&self) -> &[u8];
}

impl<R: Read> Input for Counted<R> {
    fn beginning(&self) -> &[u8] {
        b""
    }
}

/// A source whose first bytes are kept.
#[derive(Drop)]
pub struct Keeping<S> {
    pub source: S,
    /// How many bytes are kept.
    pub count: usize,
    pub bytes: [u8; MOST_KNOWN],
}

impl<S: Source> Keeping<S> {
    /// The source, of which nothing was read.
    pub fn new(source: S) -> Keeping<S>
        ensures { result.source ≡ source }
    {
        Keeping {
            source,
            count: 0,
            bytes: [0; MOST_KNOWN],
        }
    }

    /// Keeps the bytes, as far as there is room.
    fn keep(&mut self, bytes: &[u8])
        ensures { self.new.source ≡ self.old.source }
    {
        for c in bytes {
            if self.count < MOST_KNOWN {
                self.bytes[self.count] = *c;
                self.count += 1;
            }
        }
    }
}

impl<S: Source> Source for Keeping<S> {
    ghost remaining = { λ keeping. S.remaining keeping.source };

    ghost failures = { λ keeping. S.failures keeping.source };

    fn read(&mut self, buffer: &mut [u8]) -> Result<usize, Failed> {
        match self.source.read(buffer) {
            Ok(count) => {
                self.keep(&buffer[..count]);
                Ok(count)
            }
            Err(failed) => Err(failed),
        }
    }
}

impl<S: Source> Input for Keeping<S> {
    fn beginning(&self) -> &[u8] {
        &self.bytes[..self.count.min(MOST_KNOWN)]
    }
}
