//! A spool over writers that take little at once, and that fail.
use super::LineSpool;
use std::alloc::Global;
use std::io::{self, ErrorKind, Write};
use std::test::Fail;

/// A writer that takes so many bytes at once, and fails once it holds so many.
#[derive(Drop)]
struct Narrow {
    at_once: usize,
    room: usize,
    taken: Vec<u8>,
    fails: usize,
}

impl Write for Narrow {
    fn write(&mut self, buf: &[u8]) -> io::Result<usize> {
        if self.taken.len() >= self.room {
            self.fails = self.fails.saturating_add(1);
            return Err(io::Error::from(ErrorKind::StorageFull));
        }
        let count = buf.len().min(self.at_once);
        self.taken.extend_from_slice(&buf[..count])?;
        Ok(count)
    }

    fn flush(&mut self) -> io::Result<()> {
        Ok(())
    }
}

fn writer_of(alloc: Global, at_once: usize, room: usize) -> Narrow {
    Narrow {
        at_once,
        room,
        taken: Vec::new(alloc),
        fails: 0,
    }
}

/// A line of so many bytes, of which the last is its end.
fn line(alloc: Global, length: usize) -> io::Result<Vec<u8>> {
    let mut line = Vec::new(alloc);
    line.resize(length.saturating_sub(1), b'a')?;
    line.push(b'\n')?;
    Ok(line)
}

#[test]
fn whole_lines_leave(rt: HostRuntime) -> Result<(), Fail> {
    let mut spool = LineSpool::new(rt.alloc(), writer_of(rt.alloc(), 1000, usize::MAX))?;
    let line = line(rt.alloc(), 3000)?;
    for _ in 0..21 {
        spool.write_all(line.as_slice())?;
    }
    assert_eq!(rt; spool.writer.taken.len(), 0);
    spool.write_all(line.as_slice())?;
    assert_eq!(rt; spool.writer.taken.len(), 63_000);
    spool.write_all(b"begun")?;
    spool.flush()?;
    assert_eq!(rt; spool.writer.taken.len(), 66_000);
    spool.write_all(b" and ended\n")?;
    spool.flush()?;
    assert!(rt;
        spool
            .writer
            .taken
            .as_slice()
            .ends_with(b"aa\nbegun and ended\n")
    );
    assert_eq!(rt; spool.writer.taken.len(), 66_016);
    Ok(())
}

#[test]
fn a_line_may_be_longer(rt: HostRuntime) -> Result<(), Fail> {
    let mut spool = LineSpool::new(rt.alloc(), writer_of(rt.alloc(), usize::MAX, usize::MAX))?;
    let mut begun = Vec::new(rt.alloc());
    begun.resize(150_000, b'a')?;
    spool.write_all(b"short\n")?;
    spool.write_all(begun.as_slice())?;
    assert!(rt; spool.writer.taken.as_slice() == b"short\n".as_slice());
    let ended = line(rt.alloc(), 150_000)?;
    spool.write_all(ended.as_slice())?;
    spool.flush()?;
    assert_eq!(rt; spool.writer.taken.len(), 300_006);
    Ok(())
}

#[test]
fn nothing_leaves_after_a_failure(rt: HostRuntime) -> Result<(), Fail> {
    let mut spool = LineSpool::new(rt.alloc(), writer_of(rt.alloc(), 4, 8))?;
    spool.write_all(b"one line\nand one more\n")?;
    assert!(rt; spool.flush().is_err());
    assert!(rt; spool.writer.taken.as_slice() == b"one line".as_slice());
    assert_eq!(rt; spool.writer.fails, 1);
    spool.writer.room = usize::MAX;
    assert!(rt; spool.write_all(b"a third\n").is_err());
    assert!(rt; spool.flush().is_err());
    assert!(rt; spool.writer.taken.as_slice() == b"one line".as_slice());
    assert_eq!(rt; spool.writer.fails, 1);
    Ok(())
}
