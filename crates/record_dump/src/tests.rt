//! What files of records are dumped as.
use crate::{BytesFault, dump_bytes};
use std::alloc::Global;
use std::io::{self, ErrorKind, Write};
use std::test::Fail;

/// A record in version 1 and in version 2, and its line.
type Case = (&'static [u8], &'static [u8], &'static str);

const MAKE: &[u8] = b"\0\0\0\x18\x01\0\0\0\0\0\0\0\x01\0\0\0\0\0\0\0\x02\0\0\x10\0\x05\x03\x04";

const FENCE: &[u8] = b"\0\0\0\x11\x03\0\0\0\0\0\0\0\x01\0\0\0\0\0\0\0\x09";

const FREEZE: &[u8] = b"\0\0\0\x09\x04\xff\xff\xff\xff\xff\xff\xff\xff";

const SEAL: &[u8] = b"\0\0\0\x0d\x05\0\0\0\0\0\0\0\x01\0\0\0\x0a";

const MANAGE: &[u8] = b"\0\0\0\x06\x07hello";

const EMPTY_MANAGE: &[u8] = b"\0\0\0\x01\x07";

// The block `abc`, in version 2 with the digest of FIPS 180-4.
const APPEND_1: &[u8] = b"\0\0\0\x15\x02\0\0\0\0\0\0\0\x01\0\0\0\0\x01\0\0\0\x03abc";

const APPEND_2: &[u8] = b"\0\0\0\x35\x02\0\0\0\0\0\0\0\x01\0\0\0\0\x01\0\0\0\x03abc\
    \xba\x78\x16\xbf\x8f\x01\xcf\xea\x41\x41\x40\xde\x5d\xae\x22\x23\
    \xb0\x03\x61\xa3\x96\x17\x7a\x9c\xb4\x10\xff\x61\xf2\x00\x15\xad";

// The block `abd`, in version 2 with the digest of `abc`.
const OTHER_1: &[u8] = b"\0\0\0\x15\x02\0\0\0\0\0\0\0\x01\0\0\0\0\x01\0\0\0\x03abd";

const OTHER_2: &[u8] = b"\0\0\0\x35\x02\0\0\0\0\0\0\0\x01\0\0\0\0\x01\0\0\0\x03abd\
    \xba\x78\x16\xbf\x8f\x01\xcf\xea\x41\x41\x40\xde\x5d\xae\x22\x23\
    \xb0\x03\x61\xa3\x96\x17\x7a\x9c\xb4\x10\xff\x61\xf2\x00\x15\xad";

const FILL_1: &[u8] = b"\0\0\0\x1d\x06\0\0\0\0\0\0\0\x01\0\0\0\x0a\0\0\0\x0d\0\0\0\x01\
    \x01\0\0\0\x03abc";

const FILL_2: &[u8] = b"\0\0\0\x3d\x06\0\0\0\0\0\0\0\x01\0\0\0\x0a\0\0\0\x0d\0\0\0\x01\
    \x01\0\0\0\x03abc\
    \xba\x78\x16\xbf\x8f\x01\xcf\xea\x41\x41\x40\xde\x5d\xae\x22\x23\
    \xb0\x03\x61\xa3\x96\x17\x7a\x9c\xb4\x10\xff\x61\xf2\x00\x15\xad";

const CASES: &[Case] = &[
    (MAKE, MAKE, "make 1 2 4096 5 3 4\n"),
    (APPEND_1, APPEND_2, "append 1 0 3\n"),
    (FENCE, FENCE, "fence 1 9\n"),
    (FREEZE, FREEZE, "freeze 18446744073709551615\n"),
    (SEAL, SEAL, "seal 1 10\n"),
    (FILL_1, FILL_2, "fill 1 10 13\n"),
    (MANAGE, MANAGE, "manage 5\n"),
    (EMPTY_MANAGE, EMPTY_MANAGE, "manage 0\n"),
];

const ALL: &str = "make 1 2 4096 5 3 4\nappend 1 0 3\nfence 1 9\nfreeze 18446744073709551615\n\
    seal 1 10\nfill 1 10 13\nmanage 5\nmanage 0\n";

/// The file of these records.
fn file_of(alloc: Global, letters: &[u8], records: &[&[u8]]) -> Result<Vec<u8>, Fail> {
    let mut bytes = Vec::from_slice(alloc, letters)?;
    for record in records {
        bytes.push(1)?;
        bytes.extend_from_slice(record)?;
    }
    bytes.push(0)?;
    Ok(bytes)
}

/// Whether these bytes are dumped as this text, or where none is wanted are damaged (21) before a line was written.
fn is_dumped(alloc: Global, bytes: Vec<u8>, wanted: Option<&str>) -> bool {
    let mut text = Vec::new(alloc);
    match dump_bytes(alloc, bytes, &mut text) {
        Ok(()) => wanted.is_some_and(|wanted| wanted.as_bytes() == text.as_slice()),
        Err(BytesFault::Damaged) => wanted.is_none() && text.is_empty(),
        Err(_) => false,
    }
}

/// Whether a file of one record is dumped as its line, in both versions.
fn is_told(alloc: Global, case: &Case) -> Result<bool, Fail> {
    let (first, second, line) = *case;
    let old = file_of(alloc, b"XRF1", &[first])?;
    let new = file_of(alloc, b"XRF2", &[second])?;
    Ok(is_dumped(alloc, old, Some(line)) && is_dumped(alloc, new, Some(line)))
}

/// All records in version 2.
fn whole(alloc: Global) -> Result<Vec<u8>, Fail> {
    let mut records = Vec::new(alloc);
    for (_, record, _) in CASES {
        records.push(*record)?;
    }
    file_of(alloc, b"XRF2", records.as_slice())
}

#[test]
fn tells_each_kind_in_both_versions(rt: HostRuntime) -> Result<(), Fail> {
    for case in CASES {
        assert!(rt; is_told(rt.alloc(), case)?, "{}", case.2);
    }
    assert!(rt; is_dumped(rt.alloc(), whole(rt.alloc())?, Some(ALL)));
    Ok(())
}

#[test]
fn tells_nothing_of_no_record(rt: HostRuntime) -> Result<(), Fail> {
    for letters in [b"XRF1", b"XRF2"] {
        let bytes = file_of(rt.alloc(), letters, &[])?;
        assert!(rt; is_dumped(rt.alloc(), bytes, Some("")), "{letters:?}");
    }
    Ok(())
}

/// The letters of a file, its one record, and what it is dumped as.
const ONE_RECORD: &[(&[u8], &[u8], Option<&str>)] = &[
    (b"XRF1", APPEND_1, Some("append 1 0 3\n")),
    (b"XRF2", APPEND_2, Some("append 1 0 3\n")),
    (b"XRF1", OTHER_1, Some("append 1 0 3\n")),
    (b"XRF2", OTHER_2, None),
    (b"XRF1", APPEND_2, None),
    (b"XRF2", APPEND_1, None),
    (b"XRF3", APPEND_1, None),
    (b"xrf1", APPEND_1, None),
    (b"YRF1", APPEND_1, None),
];

#[test]
fn damaged_where_letters_or_digest_differ(rt: HostRuntime) -> Result<(), Fail> {
    for (letters, record, wanted) in ONE_RECORD {
        let bytes = file_of(rt.alloc(), letters, &[*record])?;
        assert!(rt; is_dumped(rt.alloc(), bytes, *wanted), "{letters:?}");
    }
    Ok(())
}

#[test]
fn damaged_where_it_is_cut(rt: HostRuntime) -> Result<(), Fail> {
    let whole = whole(rt.alloc())?;
    for len in 0..whole.len() {
        let bytes = Vec::from_slice(rt.alloc(), &whole[..len])?;
        assert!(rt; is_dumped(rt.alloc(), bytes, None), "{len}");
    }
    Ok(())
}

/// A writer that takes so many lines, and then fails.
#[derive(Drop)]
struct Narrow {
    lines: usize,
    taken: Vec<u8>,
    fails: usize,
}

impl Write for Narrow {
    fn write(&mut self, buf: &[u8]) -> io::Result<usize> {
        if self.lines == 0 {
            self.fails = self.fails.saturating_add(1);
            return Err(io::Error::from(ErrorKind::StorageFull));
        }
        self.taken.extend_from_slice(buf)?;
        if buf.last() == Some(&b'\n') {
            self.lines -= 1;
        }
        Ok(buf.len())
    }

    fn flush(&mut self) -> io::Result<()> {
        Ok(())
    }
}

#[test]
fn ends_where_the_writer_fails(rt: HostRuntime) -> Result<(), Fail> {
    let mut writer = Narrow {
        lines: 1,
        taken: Vec::new(rt.alloc()),
        fails: 0,
    };
    let ended = dump_bytes(rt.alloc(), whole(rt.alloc())?, &mut writer);
    assert!(rt; matches!(ended, Err(BytesFault::Output(_))));
    assert!(rt; writer.taken.as_slice() == b"make 1 2 4096 5 3 4\n".as_slice());
    assert_eq!(rt; writer.fails, 1);
    Ok(())
}
