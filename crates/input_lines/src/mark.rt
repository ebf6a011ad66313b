//! The byte order mark at the beginning of an input, which some programs write before a text of UTF-8: the bytes EF BB BF.
ghost use Rattle.std.specs.Prelude.{◌≡◌, [], false, ◌+◌, ◌<◌, ◌≤◌, IfOk, IfSome, MatchBool, OnErr, OnOk, Some, length};
ghost use Rattle.input_lines.specs.Lines.{IsUnread, left_of, unread_bytes};
ghost use Rattle.input_lines.specs.Mark.{SkipsMark, begins_mark, has_mark};

use crate::lines::Unread;
use devices::{Failed, Source};

/// The bytes of a mark.
const MARK: usize = 3;

/// Whether the bytes begin with a mark.
fn has_mark(bytes: &[u8]) -> bool
    ensures { result ≡ has_mark bytes.now }
{
    match bytes {
        [x, y, z, ..] => *x == 0xEF && *y == 0xBB && *z == 0xBF,
        _ => false,
    }
}

/// Whether a mark may follow from these bytes, of which none or too few are read so far.
fn begins_mark(bytes: &[u8]) -> bool
    ensures { result ≡ begins_mark bytes.now }
{
    match bytes {
        [] => true,
        [x] => *x == 0xEF,
        [x, y] => *x == 0xEF && *y == 0xBB,
        _ => false,
    }
}

impl Unread {
    /// Reads on behind the bytes at hand. Answers whether more bytes came, which they did unless the input ended.
    fn read_more<S: Source>(&mut self, reader: &mut S) -> Result<bool, Failed>
        requires first { self.old.from ≡ 0 }
        requires space { self.old.to < length self.old.chunk }
        requires room { S.failures reader.old < u64.MAX }
        ensures first { self.new.from ≡ 0 }
        ensures bounds { IsUnread self.new }
        ensures size { length self.new.chunk ≡ length self.old.chunk }
        ensures left { OnOk result (IfSome (left_of self.old (S.remaining reader.old))
            (λ xs. left_of self.new (S.remaining reader.new) ≡ Some xs)) }
        ensures more { IfOk result (λ more. MatchBool more (self.old.to < self.new.to)
            (IfSome (left_of self.old (S.remaining reader.old)) (λ xs. xs ≡ unread_bytes self.old))) }
        ensures ok { OnOk result (S.failures reader.new ≡ S.failures reader.old) }
        ensures err { OnErr result (S.failures reader.new ≡ S.failures reader.old + 1) }
    {
        let count = reader.read(&mut self.chunk[self.to..])?;
        self.to += count;
        Ok(count != 0)
    }

    /// Skips a byte order mark at the beginning of the input, of which nothing is read yet. It reads on only where the bytes that
    /// came may begin a mark. Answers whether more may come: where the input is empty, the reader isn't asked again.
    pub fn skip_mark<S: Source>(&mut self, reader: &mut S) -> Result<bool, Failed>
        requires fresh { (self.old.from ≡ 0) × (self.old.to ≡ 0) }
        requires bounds { IsUnread self.old }
        requires room { S.failures reader.old < u64.MAX }
        ensures bounds { IsUnread self.new }
        ensures skips { OnOk result (SkipsMark (left_of self.old (S.remaining reader.old))
            (left_of self.new (S.remaining reader.new))) }
        ensures empty { IfOk result (λ more. more ≡ false → IfSome (left_of self.old (S.remaining reader.old)) (λ xs. xs ≡ [])) }
        ensures ok { OnOk result (S.failures reader.new ≡ S.failures reader.old) }
        ensures err { OnErr result (S.failures reader.new ≡ S.failures reader.old + 1) }
    {
        'reading: while self.to < MARK {
            if !begins_mark(&self.chunk[..self.to]) {
                return Ok(true);
            }
            let is_first = self.to == 0;
            if !self.read_more(reader)? {
                return Ok(!is_first);
            }
        }
        if has_mark(&self.chunk[..self.to]) {
            self.from = MARK;
        }
        Ok(true)
    }
}
