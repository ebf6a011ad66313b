//! An input, line by line.
ghost use Rattle.std.specs.Prelude.{◌≡◌, ◌≢◌, ◌+◌, ◌<◌, ◌++◌, ◌∷◌, [], ℕ, IfErr, IfOk, List, OnErr, OnOk};
ghost use Rattle.devices.specs.Input.{failed_reads};
ghost use Rattle.devices.specs.declared.transfer.InputFault.TheVariants.{TooLong as too_long};
ghost use Rattle.input_lines.specs.Lines.{Fills, HasNoFeed, HoldsLine, IsReadAs, IsUnread, TakesByte, TakesLine, left_of};

use devices::{Failed, InputFault, Source};
use std::alloc::{AllocError, Global};
use std::sync::Wait;

const CHUNK: usize = 4096;

/// The most bytes of a line, its feed not counted.
const MOST_LINE: usize = 256;

/// What was read of an input and not used yet.
#[derive(Drop)]
pub struct Unread {
    pub chunk: [u8; CHUNK],
    pub from: usize,
    pub to: usize,
}

/// What comes next of an input.
#[derive(Drop)]
pub struct Taken {
    pub next: Next,
    /// Whether the reader had no more, so that it isn't asked again.
    pub is_last: bool,
}

/// A line, if there is one.
#[derive(Drop)]
pub enum Next {
    End,
    /// A line with its feed, if it has one.
    Line(Vec<u8>),
    /// A line of more than 256 bytes.
    TooLong,
}

impl Unread {
    /// Nothing was read yet.
    pub fn new() -> Unread
        ensures bounds { IsUnread result }
        ensures none { (result.from ≡ 0) × (result.to ≡ 0) }
    {
        Unread {
            chunk: [0; CHUNK],
            from: 0,
            to: 0,
        }
    }

    /// Reads on, where all that was read is used.
    fn fill<S: Source>(&mut self, reader: &mut S) -> Result<(), Failed>
        requires bounds { IsUnread self.old }
        requires room { S.failures reader.old < u64.MAX }
        ensures bounds { IsUnread self.new }
        ensures fills { OnOk result (Fills self.old self.new (S.remaining reader.old) (S.remaining reader.new)) }
        ensures ok { OnOk result (S.failures reader.new ≡ S.failures reader.old) }
        ensures err { OnErr result (S.failures reader.new ≡ S.failures reader.old + 1) }
    {
        if self.from == self.to {
            self.to = reader.read(&mut self.chunk)?;
            self.from = 0;
        }
        Ok(())
    }

    /// The next byte, or none at the end of the input.
    pub(crate) fn next_byte<S: Source>(&mut self, reader: &mut S) -> Result<Option<u8>, Failed>
        requires bounds { IsUnread self.old }
        requires room { S.failures reader.old < u64.MAX }
        ensures bounds { IsUnread self.new }
        ensures takes { IfOk result (TakesByte (left_of self.old (S.remaining reader.old))
            (left_of self.new (S.remaining reader.new))) }
        ensures ok { OnOk result (S.failures reader.new ≡ S.failures reader.old) }
        ensures err { OnErr result (S.failures reader.new ≡ S.failures reader.old + 1) }
    {
        self.fill(reader)?;
        if self.from == self.to {
            return Ok(None);
        }
        let byte = self.chunk[self.from];
        self.from += 1;
        Ok(Some(byte))
    }

    /// The next line. One that is too long is passed over.
    pub fn next_line<R: Wait, S: Source>(
        &mut self,
        rt: &R,
        alloc: Global,
        reader: &mut S,
    ) -> Result<Taken, InputFault>
        requires bounds { IsUnread self.old }
        requires room { S.failures reader.old < u64.MAX }
        ensures bounds { IsUnread self.new }
        ensures takes { IfOk result (TakesLine (left_of self.old (S.remaining reader.old))
            (left_of self.new (S.remaining reader.new))) }
        ensures counts { S.failures reader.new ≡ S.failures reader.old + failed_reads result }
        ensures passed { IfErr result (λ fault. fault ≢ too_long) }
    {
        let mut held = Held::new(alloc);
        for _ in rt.forever() {
            let Some(byte) = self.next_byte(reader)? else {
                return Ok(Taken {
                    next: held.last(),
                    is_last: true,
                });
            };
            if byte == b'\n' {
                return Ok(Taken {
                    next: held.ended()?,
                    is_last: false,
                });
            }
            held.hold(byte)?;
        }
        unreachable!()
    }
}

/// What is held of a line that is read: all of it, as long as it isn't too long.
#[derive(Drop)]
pub struct Held {
    pub bytes: Vec<u8>,
    pub is_long: bool,
}

impl Held {
    fn new(alloc: Global) -> Held
        ensures { HoldsLine [] result }
    {
        Held {
            bytes: Vec::new(alloc),
            is_long: false,
        }
    }

    fn hold(&mut self, byte: u8) -> Result<(), AllocError>
        ensures { OnOk result ((raw : List ℕ) → HoldsLine raw self.old → HoldsLine (raw ++ byte ∷ []) self.new) }
    {
        if self.bytes.len() < MOST_LINE {
            self.bytes.extend_from_slice(&[byte])?;
        } else {
            self.is_long = true;
        }
        Ok(())
    }

    /// The line at the end of the input, which has no feed.
    fn last(self) -> Next
        ensures { (raw : List ℕ) → HasNoFeed raw → HoldsLine raw self → IsReadAs raw result }
    {
        if self.is_long {
            return Next::TooLong;
        }
        if self.bytes.is_empty() {
            return Next::End;
        }
        Next::Line(self.bytes)
    }

    /// The line, where a feed comes next.
    fn ended(self) -> Result<Next, AllocError>
        ensures { IfOk result (λ next. (raw : List ℕ) → HasNoFeed raw → HoldsLine raw self
            → IsReadAs (raw ++ 10 ∷ []) next) }
    {
        if self.is_long {
            return Ok(Next::TooLong);
        }
        let mut line = self.bytes;
        line.extend_from_slice(b"\n")?;
        Ok(Next::Line(line))
    }
}
