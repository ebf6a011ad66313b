//! Readers and writers of the standard library that fail once and would work if they were asked again.
ghost use Rattle.std.specs.Prelude.{None};

use crate::whole_runs::run_quietly;
use devices::Counted;
use std::io::{self, Read, Write};
use std::test::Fail;

const FEN: &str = "k5/6/2K3/6/6/1R4 w";

const TREE: &[u8] = b"c4c5{a6a5:b1a1#}\n";

const CERTIFICATE: &[u8] = b"mate 3 c4c5\np.\naaaaaaaa-aaaaaa\n\n";

/// The kinds of failures: the first is one that other readers and writers try again.
const KINDS: [io::ErrorKind; 3] = [
    io::ErrorKind::Interrupted,
    io::ErrorKind::WouldBlock,
    io::ErrorKind::Other,
];

/// A reader that gives four bytes a call, and fails at one of its calls alone.
#[derive(Drop)]
struct Stumbling<'a> {
    bytes: &'a [u8],
    calls: u64,
    fails_at: u64,
    kind: io::ErrorKind,
}

impl Read for Stumbling<'_> {
    ghost remaining = { λ _. None };

    fn read(&mut self, buffer: &mut [u8]) -> io::Result<usize> {
        self.calls = self.calls.saturating_add(1);
        if self.calls == self.fails_at {
            return Err(io::Error::from(self.kind));
        }
        let most = buffer.len().min(4);
        self.bytes.read(&mut buffer[..most])
    }
}

/// A writer that takes three bytes a call, and fails at one of its calls alone.
#[derive(Drop)]
struct Halting {
    taken: Vec<u8>,
    calls: u64,
    fails_at: u64,
    kind: io::ErrorKind,
}

impl Write for Halting {
    ghost contents = { λ _. None };

    fn write(&mut self, bytes: &[u8]) -> io::Result<usize> {
        self.calls = self.calls.saturating_add(1);
        if self.calls == self.fails_at {
            return Err(io::Error::from(self.kind));
        }
        let count = bytes.len().min(3);
        self.taken.write(&bytes[..count])
    }

    fn flush(&mut self) -> io::Result<()> {
        Ok(())
    }
}

#[test]
fn reads_nothing_after_a_failed_read(rt: HostRuntime) {
    let words = ["minimate", "check", FEN];
    for kind in KINDS {
        for fails_at in [1, 2, 5] {
            let mut reader = Counted::new(Stumbling {
                bytes: TREE,
                calls: 0,
                fails_at,
                kind,
            });
            let mut writer = Counted::new(Vec::new(rt.alloc()));
            let status = run_quietly(&rt, words.as_slice(), &mut reader, &mut writer);
            assert_eq!(rt; status, 4);
            assert_eq!(rt; reader.device.calls, fails_at);
            assert_eq!(rt; writer.device.as_slice(), b"".as_slice());
        }
    }
}

#[test]
fn reads_no_certificate_on_after_a_failed_read(rt: HostRuntime) {
    let words = ["minimate", "verify", FEN];
    for kind in KINDS {
        for fails_at in [1, 4, 8] {
            let mut reader = Counted::new(Stumbling {
                bytes: CERTIFICATE,
                calls: 0,
                fails_at,
                kind,
            });
            let mut writer = Counted::new(Vec::new(rt.alloc()));
            let status = run_quietly(&rt, words.as_slice(), &mut reader, &mut writer);
            assert_eq!(rt; status, 4);
            assert_eq!(rt; reader.device.calls, fails_at);
            assert_eq!(rt; writer.device.as_slice(), b"".as_slice());
        }
    }
}

// The reader gives four bytes a call, and fails at the call behind the one that gives the end of the line with the fault.
#[test]
fn reads_no_certificate_on_after_its_first_fault(rt: HostRuntime) {
    let words = ["minimate", "verify", FEN];
    let long = [b'a'; 8200];
    for (bytes, calls, output) in [
        (b"goal 1 b1b5\ni\n\n".as_slice(), 3, "refused: Answer\n"),
        (
            b"mate 3 c4c6\np.\naaaaaaaa-aaaaaa\n\n",
            4,
            "refused: Claim at line 2\n",
        ),
        (&long, 2049, "refused: TooLong\n"),
    ] {
        let mut reader = Counted::new(Stumbling {
            bytes,
            calls: 0,
            fails_at: calls + 1,
            kind: io::ErrorKind::Other,
        });
        let mut writer = Counted::new(Vec::new(rt.alloc()));
        let status = run_quietly(&rt, words.as_slice(), &mut reader, &mut writer);
        assert_eq!(rt; status, 1);
        assert_eq!(rt; reader.device.calls, calls);
        assert_eq!(rt; writer.device.as_slice(), output.as_bytes());
    }
}

#[test]
fn writes_nothing_after_a_failed_write(rt: HostRuntime) {
    let words = ["minimate", "tree", "--limit", "3", FEN];
    for kind in KINDS {
        for (fails_at, taken) in [(1, ""), (2, "c4c"), (6, "c4c5{a6a5:b1a1#")] {
            let mut reader = Counted::new(b"".as_slice());
            let mut writer = Counted::new(Halting {
                taken: Vec::new(rt.alloc()),
                calls: 0,
                fails_at,
                kind,
            });
            let status = run_quietly(&rt, words.as_slice(), &mut reader, &mut writer);
            assert_eq!(rt; status, 4);
            assert_eq!(rt; writer.device.calls, fails_at);
            assert_eq!(rt; writer.device.taken.as_slice(), taken.as_bytes());
        }
    }
}

// The same reader and writer, where the call that would fail isn't made.
#[test]
fn works_where_nothing_fails(rt: HostRuntime) {
    let words = ["minimate", "check", FEN];
    let mut reader = Counted::new(Stumbling {
        bytes: TREE,
        calls: 0,
        fails_at: 7,
        kind: io::ErrorKind::Interrupted,
    });
    let mut writer = Counted::new(Halting {
        taken: Vec::new(rt.alloc()),
        calls: 0,
        fails_at: 3,
        kind: io::ErrorKind::Interrupted,
    });
    let status = run_quietly(&rt, words.as_slice(), &mut reader, &mut writer);
    assert_eq!(rt; status, 0);
    assert_eq!(rt; writer.device.taken.as_slice(), b"yes 3\n".as_slice());
}

/// A reader that has given all after its first part, and would give the second if it were asked again, as a
/// terminal does after its sign of the end.
#[derive(Drop)]
struct Pausing<'a> {
    first: &'a [u8],
    second: &'a [u8],
    calls: u64,
}

impl Read for Pausing<'_> {
    ghost remaining = { λ _. None };

    fn read(&mut self, buffer: &mut [u8]) -> io::Result<usize> {
        self.calls = self.calls.saturating_add(1);
        match self.calls {
            1 => self.first.read(buffer),
            2 => Ok(0),
            _ => self.second.read(buffer),
        }
    }
}

#[test]
fn a_batch_ends_with_its_reader(rt: HostRuntime) {
    let words = ["minimate", "batch", "--limit", "1"];
    for (first, answer) in [
        (b"k5/6/1K4/6/6/5R w".as_slice(), b"mate 1 f1f6\n".as_slice()),
        (b"# kings".as_slice(), b"# kings\n".as_slice()),
        (b"".as_slice(), b"".as_slice()),
    ] {
        let mut reader = Counted::new(Pausing {
            first,
            second: b"k5/6/1K4/6/6/5R w\n",
            calls: 0,
        });
        let mut writer = Counted::new(Vec::new(rt.alloc()));
        let status = run_quietly(&rt, words.as_slice(), &mut reader, &mut writer);
        assert_eq!(rt; status, 0);
        assert_eq!(rt; reader.device.calls, if first.is_empty() { 1 } else { 2 });
        assert_eq!(rt; writer.device.as_slice(), answer);
    }
}
