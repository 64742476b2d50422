//! Record files that are migrated, over files of the system. What is printed of them has a clause.
use record_dump::dump_bytes;
use stampctl_tasks::perform;
use stampctl_words::Task;
use std::alloc::Global;
use std::fs;
use std::io::ErrorKind;
use std::process::ExitCode;
use std::test::Fail;

// Make(1, 1, 4096; 1, 2, 3) and Append(1, 0, `abc`) in version 1.
const OLD: &[u8] = b"XRF1\
    \x01\0\0\0\x18\x01\0\0\0\0\0\0\0\x01\0\0\0\0\0\0\0\x01\0\0\x10\0\x01\x02\x03\
    \x01\0\0\0\x15\x02\0\0\0\0\0\0\0\x01\0\0\0\0\x01\0\0\0\x03abc\0";

// The same in version 2, with the digest of FIPS 180-4.
const NEW: &[u8] = b"XRF2\
    \x01\0\0\0\x18\x01\0\0\0\0\0\0\0\x01\0\0\0\0\0\0\0\x01\0\0\x10\0\x01\x02\x03\
    \x01\0\0\0\x35\x02\0\0\0\0\0\0\0\x01\0\0\0\0\x01\0\0\0\x03abc\
    \xba\x78\x16\xbf\x8f\x01\xcf\xea\x41\x41\x40\xde\x5d\xae\x22\x23\
    \xb0\x03\x61\xa3\x96\x17\x7a\x9c\xb4\x10\xff\x61\xf2\x00\x15\xad\0";

const LINES: &str = "make 1 1 4096 1 2 3\nappend 1 0 3\n";

fn migrated(rt: &HostRuntime, file: &str, new: &str) -> ExitCode {
    perform(rt, rt.alloc(), Ok(Task::Migrate { file, new }))
}

/// Whether the file with this name has these bytes, or is not there.
fn has(rt: &HostRuntime, path: &str, wanted: Option<&[u8]>) -> bool {
    match fs::read(rt, path) {
        Ok(bytes) => wanted == Some(bytes.as_slice()),
        Err(error) => error.kind() == ErrorKind::NotFound && wanted.is_none(),
    }
}

/// Puts these bytes into the file with this name, or takes it away.
fn put(rt: &HostRuntime, path: &str, bytes: Option<&[u8]>) -> Result<(), Fail> {
    let _ = fs::remove_file(rt, path);
    if let Some(bytes) = bytes {
        fs::write(rt, path, bytes)?;
    }
    Ok(())
}

fn is_dumped(alloc: Global, bytes: &[u8]) -> Result<bool, Fail> {
    let mut text = Vec::new(alloc);
    dump_bytes(alloc, Vec::from_slice(alloc, bytes)?, &mut text)?;
    Ok(text.as_slice() == LINES.as_bytes())
}

#[test]
fn dumps_the_same_in_both_versions(rt: HostRuntime) -> Result<(), Fail> {
    assert!(rt; OLD.len() == 60 && NEW.len() == 92);
    assert!(rt; is_dumped(rt.alloc(), OLD)? && is_dumped(rt.alloc(), NEW)?);
    Ok(())
}

/// What the file and the new one have, where they are there.
struct Files {
    file: Option<&'static [u8]>,
    new: Option<&'static [u8]>,
}

/// What the two files have before a call, its status, and what they have after it.
struct Case {
    about: &'static str,
    before: Files,
    status: ExitCode,
    after: Files,
}

const CASES: &[Case] = &[
    Case {
        about: "two records of version 1",
        before: Files {
            file: Some(OLD),
            new: None,
        },
        status: ExitCode::SUCCESS,
        after: Files {
            file: Some(OLD),
            new: Some(NEW),
        },
    },
    Case {
        about: "two records of version 2",
        before: Files {
            file: Some(NEW),
            new: None,
        },
        status: ExitCode::SUCCESS,
        after: Files {
            file: Some(NEW),
            new: Some(NEW),
        },
    },
    Case {
        about: "no record",
        before: Files {
            file: Some(b"XRF1\0"),
            new: None,
        },
        status: ExitCode::SUCCESS,
        after: Files {
            file: Some(b"XRF1\0"),
            new: Some(b"XRF2\0"),
        },
    },
    Case {
        about: "the new file is there",
        before: Files {
            file: Some(OLD),
            new: Some(b"there"),
        },
        status: ExitCode::FAILURE,
        after: Files {
            file: Some(OLD),
            new: Some(b"there"),
        },
    },
    Case {
        about: "no file",
        before: Files {
            file: None,
            new: None,
        },
        status: ExitCode::FAILURE,
        after: Files {
            file: None,
            new: None,
        },
    },
    Case {
        about: "a damaged file",
        before: Files {
            file: Some(b"XRF1\x01\0"),
            new: None,
        },
        status: ExitCode::FAILURE,
        after: Files {
            file: Some(b"XRF1\x01\0"),
            new: None,
        },
    },
];

const PATH: &str = "migrated.records";

const NEW_PATH: &str = "migrated.new";

/// Whether a call ends as wanted.
fn ends(rt: &HostRuntime, case: &Case) -> Result<bool, Fail> {
    put(rt, PATH, case.before.file)?;
    put(rt, NEW_PATH, case.before.new)?;
    let status = migrated(rt, PATH, NEW_PATH);
    Ok(status == case.status && has(rt, PATH, case.after.file) && has(rt, NEW_PATH, case.after.new))
}

#[test]
fn makes_a_new_file_or_changes_nothing(rt: HostRuntime) -> Result<(), Fail> {
    for case in CASES {
        assert!(rt; ends(&rt, case)?, "{}", case.about);
    }
    Ok(())
}

const SAME_PATH: &str = "migrated_to.itself";

const NO_FOLDER: &str = "no_folder/migrated.new";

#[test]
fn makes_no_file_where_none_can_be(rt: HostRuntime) -> Result<(), Fail> {
    put(&rt, SAME_PATH, Some(OLD))?;
    for new in [SAME_PATH, NO_FOLDER, ""] {
        assert!(rt; migrated(&rt, SAME_PATH, new) == ExitCode::FAILURE, "{new}");
        assert!(rt; has(&rt, SAME_PATH, Some(OLD)), "{new}");
    }
    Ok(())
}

// As many blocks of 64 KiB are in a group, and so many groups are more than an extent has room for.
const BLOCKS: usize = 64;

const GROUPS: usize = 5;

/// A file of version 1 with one Fill, longer than any extent.
fn long_fill(alloc: Global) -> Result<Vec<u8>, Fail> {
    let length = GROUPS * BLOCKS * 65_536;
    let body = 21 + GROUPS * (1 + BLOCKS * 65_540);
    let mut bytes = Vec::from_slice(alloc, b"XRF1\x01")?;
    bytes.extend_from_slice(&(body as u32).to_be_bytes())?;
    bytes.extend_from_slice(b"\x06\0\0\0\0\0\0\0\x01\0\0\0\0")?;
    bytes.extend_from_slice(&(length as u32).to_be_bytes())?;
    bytes.extend_from_slice(&(GROUPS as u32).to_be_bytes())?;
    for _ in 0..GROUPS {
        bytes.push(BLOCKS as u8)?;
        for _ in 0..BLOCKS {
            bytes.extend_from_slice(b"\0\x01\0\0")?;
            bytes.resize(bytes.len() + 65_536, b'a')?;
        }
    }
    bytes.push(0)?;
    Ok(bytes)
}

const LONG_PATH: &str = "migrated_long.records";

const LONG_NEW_PATH: &str = "migrated_long.new";

#[test]
fn refuses_a_fill_longer_than_any_extent(rt: HostRuntime) -> Result<(), Fail> {
    let bytes = long_fill(rt.alloc())?;
    let mut text = Vec::new(rt.alloc());
    dump_bytes(rt.alloc(), bytes.clone()?, &mut text)?;
    assert!(rt; text.as_slice() == b"fill 1 0 20971520\n".as_slice());
    put(&rt, LONG_PATH, Some(bytes.as_slice()))?;
    put(&rt, LONG_NEW_PATH, None)?;
    assert!(rt; migrated(&rt, LONG_PATH, LONG_NEW_PATH) == ExitCode::FAILURE);
    assert!(rt; has(&rt, LONG_NEW_PATH, None));
    Ok(())
}
