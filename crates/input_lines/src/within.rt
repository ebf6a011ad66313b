//! An input line by line, of lines of at most so many bytes, into memory that is used again.
ghost use Rattle.std.specs.Prelude.{◌≡◌, ◌+◌, ◌<◌, ◌≤◌, IfErr, IfOk, length};
ghost use Rattle.devices.specs.Input.{failed_reads};
ghost use Rattle.input_lines.specs.Lines.{IsUnread, left_of};
ghost use Rattle.input_lines.specs.Within.{BeginsLong, ReadsText};
ghost use Rattle.devices.specs.declared.transfer.InputFault.TheVariants.{TooLong};

use crate::lines::Unread;
use devices::{InputFault, Source};
use std::alloc::Allocator;

impl Unread {
    /// Reads the next line without its feed into the list, in place of what that held. Answers whether a feed ended it; else the input
    /// did. A line of more than `most` bytes is an error.
    pub fn next_line_within<S: Source, A: Allocator>(
        &mut self,
        reader: &mut S,
        line: &mut Vec<u8, A>,
        most: usize,
    ) -> Result<bool, InputFault>
        requires bounds { IsUnread self.old }
        requires room { S.failures reader.old < u64.MAX }
        ensures bounds { IsUnread self.new }
        ensures reads { IfOk result (ReadsText (left_of self.old (S.remaining reader.old))
            (left_of self.new (S.remaining reader.new)) line.new.items) }
        ensures short { IfOk result (λ fed. length line.new.items ≤ most) }
        ensures long { IfErr result (λ fault. fault ≡ TooLong
            → BeginsLong most (left_of self.old (S.remaining reader.old))) }
        ensures counts { S.failures reader.new ≡ S.failures reader.old + failed_reads result }
    {
        line.clear();
        'reading: while line.len() <= most {
            let Some(byte) = self.next_byte(reader)? else {
                return Ok(false);
            };
            if byte == b'\n' {
                return Ok(true);
            }
            line.extend_from_slice(&[byte])?;
        }
        Err(InputFault::TooLong)
    }
}
