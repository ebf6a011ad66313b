//! What the program reads from and writes to: devices that count their failures.
ghost use Rattle.std.specs.Prelude.{◌≡◌, ℕ, List, Option, ◌+◌, ◌<◌, ◌≤◌, length, IfOk, OnOk, OnErr};
ghost use Rattle.std.specs.Io.KnownBytes.{ReadConsumes, WriteAppends};

use std::io::{Read, Write};
use thiserror::Error;

/// A read or a write that failed. Why it failed plays no part.
#[derive(Debug, Drop, Error)]
#[error("a read or a write failed")]
pub struct Failed;

/// What can be read from.
pub trait Source {
    // the bytes that are left, where the device tells
    ghost remaining: { Self → Option (List ℕ) };

    // how many reads have failed
    ghost failures: { Self → ℕ };

    /// Fills a beginning of `buffer`. Without an error, 0 bytes are read at the end alone.
    fn read(&mut self, buffer: &mut [u8]) -> Result<usize, Failed>
        requires { failures self.old < u64.MAX }
        ensures fits { IfOk result (λ count. count ≤ length buffer.new) }
        ensures bytes { ReadConsumes (remaining self.old) (remaining self.new) result buffer.new }
        ensures ok { OnOk result (failures self.new ≡ failures self.old) }
        ensures err { OnErr result (failures self.new ≡ failures self.old + 1) };
}

/// What can be written to.
pub trait Sink {
    // the bytes that were written, where the device tells
    ghost contents: { Self → Option (List ℕ) };

    // how many writes have failed or taken 0 bytes
    ghost failures: { Self → ℕ };

    /// Takes a beginning of `bytes`, at least one byte of it. A write that takes none has failed.
    fn write(&mut self, bytes: &[u8]) -> Result<usize, Failed>
        requires some { 0 < length bytes.now }
        requires room { failures self.old < u64.MAX }
        ensures takes { IfOk result (λ count. (0 < count) × (count ≤ length bytes.now)) }
        ensures bytes { WriteAppends (contents self.old) (contents self.new) result bytes.now }
        ensures ok { OnOk result (failures self.new ≡ failures self.old) }
        ensures err { OnErr result (failures self.new ≡ failures self.old + 1) };
}

/// A reader or a writer of the standard library, with the count of its failures.
#[derive(Drop)]
pub struct Counted<D> {
    pub device: D,
    pub failures: u64,
}

impl<D> Counted<D> {
    /// The device, of which nothing has failed yet.
    pub fn new(device: D) -> Counted<D>
        ensures device { result.device ≡ device }
        ensures none { result.failures ≡ 0 }
    {
        Counted {
            device,
            failures: 0,
        }
    }
}

impl<R: Read> Source for Counted<R> {
    ghost remaining = { λ counted. R.remaining counted.device };

    ghost failures = { λ counted. counted.failures };

    fn read(&mut self, buffer: &mut [u8]) -> Result<usize, Failed> {
        match self.device.read(buffer) {
            Ok(count) => Ok(count),
            Err(_) => {
                self.failures += 1;
                Err(Failed)
            }
        }
    }
}

impl<W: Write> Sink for Counted<W> {
    ghost contents = { λ counted. W.contents counted.device };

    ghost failures = { λ counted. counted.failures };

    fn write(&mut self, bytes: &[u8]) -> Result<usize, Failed> {
        match self.device.write(bytes) {
            Ok(count) if 0 < count => Ok(count),
            _ => {
                self.failures += 1;
                Err(Failed)
            }
        }
    }
}
