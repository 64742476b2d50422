//! Scripts that are refused, and readers and writers that fail.
use script_run::{Failure, script};
use std::io::{self, ErrorKind, Read, Write};
use std::test::Fail;
use wire::Refusal;

/// A writer that has room for some bytes and then fails.
#[derive(Drop)]
struct Narrow {
    room: usize,
    fails: usize,
}

impl Write for Narrow {
    fn write(&mut self, buf: &[u8]) -> io::Result<usize> {
        if self.room < buf.len() {
            self.fails = self.fails.saturating_add(1);
            return Err(io::Error::from(ErrorKind::StorageFull));
        }
        self.room -= buf.len();
        Ok(buf.len())
    }

    fn flush(&mut self) -> io::Result<()> {
        Ok(())
    }
}

/// A reader that gives some bytes and then fails.
#[derive(Drop)]
struct Broken {
    reads: usize,
    kind: ErrorKind,
}

impl Read for Broken {
    fn read(&mut self, buf: &mut [u8]) -> io::Result<usize> {
        if self.reads == 0 || buf.is_empty() {
            return Err(io::Error::from(self.kind));
        }
        self.reads -= 1;
        buf[0] = b'\n';
        Ok(1)
    }
}

const BEGUN: &str =
    "setup 3 1 4096 1\nuser 1 create 0\nsettle\nuser 1 extend 0 none 1 2 3\nsettle\n";

/// Texts that are no scripts, each with the line that is told.
const REFUSED: &[(&[u8], usize)] = &[
    // Lines that are none: the first of them is told.
    (b"setup 3 1 4096 1\nfoo\n", 2),
    (b"setup 3 1 4096 1\nfoo", 2),
    (b"setup 3 1 4096 1\nsettle\nfoo\nsettle\nbar\n", 3),
    (b"setup 3 1 4096 1\nshow 3 1\nshow 4 1\nfoo\n", 3),
    // Empty lines count.
    (b"\n\r\nsetup 3 1 4096 1\r\n\r\n\nsettle\r\nfoo\r\n", 7),
    // A carriage return is part of the last line.
    (b"setup 3 1 4096 1\nsettle\r", 2),
    // What is no text.
    (b"setup 3 1 4096 1\nuser 1 create 0\nsettle\xff\n", 3),
    (b"setup 3 1 4096 1\nuser 1 create 0\n\xff\nfoo\n", 3),
    (b"setup 3 1 4096 1\nuser 1 create 0\nfoo\n\xff\n", 3),
    (b"setup 3 1 4096 1\nuser 1 create 0\nsettle\n\xff", 4),
    (b"\xff", 1),
    // No setup, or none below the empty lines.
    (b"", 1),
    (b"\n\r\n", 3),
    (b"\n\n\n", 4),
    (b"\nsettle\nsetup 3 1 4096 1\n", 2),
    (b"settle\n", 1),
    (b"setup 2 1 4096 1\n", 1),
    (b"setup 13 1 4096 1\n", 1),
    (b"setup 3 0 4096 1\n", 1),
    (b"setup 3 5 4096 1\n", 1),
    (b"setup 3 1 4095 1\n", 1),
    (b"setup 3 1 16777217 1\n", 1),
    (b"setup 3 1 4096 0\n", 1),
    (b"setup 3 1 4096 1025\n", 1),
    (b"setup 3 1 4096\n", 1),
    (b"setup 3 1 4096 1 1\n", 1),
    (b" setup 3 1 4096 1\n", 1),
];

/// Lines that are none below `BEGUN`.
const LINES: &[&str] = &[
    "settle ",
    " settle",
    "settle now",
    "setup 3 1 4096 1",
    "deliver",
    "deliver +1",
    "deliver -1",
    "deliver 1 2",
    "deliver 18446744073709551616",
    "show 1",
    "show 0 1",
    "show 4 1",
    "show 257 1",
    "show 1 x",
    "user 1",
    "user x create 0",
    "user 1  create 0",
    "user 1 create",
    "user 1 create 4",
    "user 1 create 0 0",
    "user 1 extend 0 None 1 2 3",
    "user 1 extend 0 none 1 2",
    "user 1 extend 4 none 1 2 3",
    "user 1 extend 0 none 1 2 x",
    "user 1 append 1",
    "user 1 append 1 1 ",
    "user 1 append 1 1 a  b",
    "user 1 append 1 1 16777217*a",
    "user 1 append 1 1 18446744073709551616*a",
    "user 1 read 1 1 0",
    "user 1 read 1 1 0 x",
    "user 1 content 1 1",
    "user 1 content 1 1 0 0",
    "user 1 route",
    "user 1 route a b",
    "checkpoint 1 1",
    "checkpoint 1 x plain",
    "checkpoint 1 1 Plain",
    "checkpoint 1 1 Combine",
    "checkpoint 1 1 plain now",
    "split 1 1",
    "split x 1 m",
    "split 1 x m",
    "split 1 1 m n",
    "split 1 1 ",
    "Split 1 1 m",
    "merge 1 2",
    "merge x 2 3",
    "merge 1 x 3",
    "merge 1 2 x",
    "merge 1 2 3 4",
    "Merge 1 2 3",
    "renew 1 1",
    "renew 1 x 100",
    "cut",
    "cut n",
    "cut n0",
    "cut x1",
    "cut M",
    "heal 1",
    "heal n1 n2",
];

/// Whether a text is refused at this line, before anything is printed.
fn is_refused(rt: &HostRuntime, text: &[u8], line: usize) -> bool {
    let mut out = Vec::new(rt.alloc());
    let ended = script(rt.alloc(), text, &mut out);
    out.is_empty() && matches!(ended, Err(Failure::BadScript(told)) if told == line)
}

/// Whether a script with this line below the five of `BEGUN` is refused there.
fn is_refused_in(rt: &HostRuntime, line: &str) -> Result<bool, Fail> {
    let text = format!(in rt.alloc(); "{BEGUN}{line}\nsettle\n")?;
    Ok(is_refused(rt, text.as_bytes(), 6))
}

#[test]
fn refuses_what_is_no_script(rt: HostRuntime) -> Result<(), Fail> {
    for &(text, line) in REFUSED {
        assert!(rt; is_refused(&rt, text, line), "at {text:?}");
    }
    for &line in LINES {
        assert!(rt; is_refused_in(&rt, line)?, "at {line:?}");
    }
    Ok(())
}

#[test]
fn names_a_failed_reader(rt: HostRuntime) {
    for (kind, want) in [
        (ErrorKind::BrokenPipe, Refusal::NoFile),
        (ErrorKind::OutOfMemory, Refusal::Memory),
    ] {
        let mut out = Vec::new(rt.alloc());
        let ended = script(rt.alloc(), Broken { reads: 3, kind }, &mut out);
        assert!(rt; matches!(ended, Err(failure) if failure.refusal() == Some(want)));
        assert!(rt; out.is_empty());
    }
}

#[test]
fn stops_at_a_failed_writer(rt: HostRuntime) {
    let mut out = Narrow { room: 17, fails: 0 };
    let ended = script(rt.alloc(), BEGUN.as_bytes(), &mut out);
    assert!(rt; matches!(ended, Err(Failure::Output(_))));
    assert_eq!(rt; out.room, 0);
    assert_eq!(rt; out.fails, 1);
}
