//! All the input in, all the output out.
ghost use Rattle.std.specs.Prelude.{◌≡◌, ◌+◌, ◌<◌, IfErr, IfOk, OnOk, OnErr};
ghost use Rattle.std.specs.Io.KnownBytes.{Appends};
ghost use Rattle.devices.specs.Device.{AppendsBeginning};
ghost use Rattle.devices.specs.Input.{IsInput, IsTooLong, failed_reads, without_line_feed};
ghost use Rattle.devices.specs.declared.transfer.InputFault.TheVariants.{ReadFailed, TooLong, NoMemory};

use crate::device::{Failed, Sink, Source};
use std::alloc::{AllocError, Global};
use thiserror::Error;

/// Writes all the bytes, or fails at the first failure and tries nothing again.
pub fn write_all<K: Sink>(writer: &mut K, bytes: &[u8]) -> Result<(), Failed>
    requires { K.failures writer.old < u64.MAX }
    ensures all { OnOk result (Appends (K.contents writer.old) (K.contents writer.new) bytes.now) }
    ensures ok { OnOk result (K.failures writer.new ≡ K.failures writer.old) }
    ensures beginning { OnErr result (AppendsBeginning (K.contents writer.old) (K.contents writer.new) bytes.now) }
    ensures err { OnErr result (K.failures writer.new ≡ K.failures writer.old + 1) }
{
    let mut rest = bytes;
    'writing: while !rest.is_empty() {
        let count = writer.write(rest)?;
        rest = &rest[count..];
    }
    Ok(())
}

const CHUNK: usize = 4096;

/// Why an input was not taken.
#[derive(Debug, Drop, Error)]
pub enum InputFault {
    #[error("a read failed")]
    ReadFailed,
    #[error("the input has more than 1,048,576 bytes, or a line of it more than 8,192")]
    TooLong,
    #[error("out of memory")]
    NoMemory,
}

impl From<Failed> for InputFault {
    ghost from_gives = { λ _ fault. fault ≡ ReadFailed };

    fn from(_failed: Failed) -> InputFault {
        InputFault::ReadFailed
    }
}

impl From<AllocError> for InputFault {
    ghost from_gives = { λ _ fault. fault ≡ NoMemory };

    fn from(_error: AllocError) -> InputFault {
        InputFault::NoMemory
    }
}

/// Reads to the end, or until there are more than `most` bytes, or fails at the first failure and tries
/// nothing again.
pub fn read_all<S: Source>(
    alloc: Global,
    reader: &mut S,
    most: usize,
) -> Result<Vec<u8>, InputFault>
    requires { S.failures reader.old < u64.MAX }
    ensures all { IfOk result (λ bytes. IsInput most (S.remaining reader.old) bytes.items) }
    ensures too_long { IfErr result (λ fault. fault ≡ TooLong → IsTooLong most (S.remaining reader.old)) }
    ensures counts { S.failures reader.new ≡ S.failures reader.old + failed_reads result }
{
    let mut bytes = Vec::new(alloc);
    let mut chunk = [0u8; CHUNK];
    'reading: while bytes.len() <= most {
        let count = reader.read(&mut chunk)?;
        if count == 0 {
            return Ok(bytes);
        }
        bytes.extend_from_slice(&chunk[..count])?;
    }
    Err(InputFault::TooLong)
}

/// The bytes without one line feed at their end.
pub fn without_line_feed(bytes: &[u8]) -> &[u8]
    ensures { result.now ≡ without_line_feed bytes.now }
{
    match bytes {
        [front @ .., b'\n'] => front,
        _ => bytes,
    }
}
