//! Texts with the eight numbers, and texts without them.
use stampctl_settings::{Config, ConfigError, config};
use std::alloc::{AllocError, Global};
use std::process::Abort;
use std::test::Fail;

/// The numbers of a storm, each under its key.
const NUMBERS: [(&str, &str); 8] = [
    ("nodes", "6"),
    ("servers", "2"),
    ("target", "4096"),
    ("batch", "8"),
    ("clients", "4"),
    ("workers", "5"),
    ("requests", "100"),
    ("events", "20000"),
];

/// A key, its lowest and its highest number, and the numbers next below and above them.
const RANGES: [(&str, [&str; 2], [&str; 2]); 8] = [
    ("nodes", ["3", "12"], ["2", "13"]),
    ("servers", ["1", "4"], ["0", "5"]),
    ("target", ["4096", "16777216"], ["4095", "16777217"]),
    ("batch", ["1", "1024"], ["0", "1025"]),
    ("clients", ["1", "1_000_000"], ["0", "1_000_001"]),
    ("workers", ["1", "1_000_000"], ["0", "1_000_001"]),
    ("requests", ["1", "1_000_000"], ["0", "1_000_001"]),
    ("events", ["1", "1_000_000"], ["0", "1_000_001"]),
];

/// What is no whole number from 1 on, and what is no value.
const NO_NUMBERS: [&str; 10] = [
    "6.0",
    "\"6\"",
    "-6",
    "true",
    "[6]",
    "{ a = 6 }",
    "1979-05-27",
    "9223372036854775808",
    "six",
    "",
];

fn add_line(text: &mut String, key: &str, value: &str) -> Result<(), AllocError> {
    text.push_str(key)?;
    text.push_str(" = ")?;
    text.push_str(value)?;
    text.push_str("\n")
}

/// The numbers as a document, but for the one at a key.
fn without(alloc: Global, numbers: &[(&str, &str)], key: &str) -> Result<String, AllocError> {
    let mut text = String::new(alloc);
    for (name, value) in numbers {
        if *name != key {
            add_line(&mut text, name, value)?;
        }
    }
    Ok(text)
}

/// Why the numbers are refused, where this value stands at a key.
fn refusal(
    alloc: Global,
    numbers: &[(&str, &str)],
    key: &str,
    value: &str,
) -> Result<Option<ConfigError>, AllocError> {
    let mut text = without(alloc, numbers, key)?;
    add_line(&mut text, key, value)?;
    Ok(config(alloc, &text).err())
}

fn read_all<R: Abort + AllocGlobal>(rt: &R, text: &str) -> Result<(), Fail> {
    let Config {
        setup,
        clients,
        workers,
        requests,
        events,
    } = config(rt.alloc(), text)?;
    assert_eq!(rt;
        (setup.nodes, setup.servers, setup.target, setup.batch),
        (6, 2, 4096, 8)
    );
    assert_eq!(rt; (clients, workers, requests, events), (4, 5, 100, 20_000));
    Ok(())
}

fn read_ranges<R: Abort + AllocGlobal>(
    rt: &R,
    numbers: &[(&str, &str)],
    ranges: &[(&str, [&str; 2], [&str; 2])],
) -> Result<(), Fail> {
    for (key, ends, beyond) in ranges {
        for value in ends {
            assert_eq!(rt;
                refusal(rt.alloc(), numbers, key, value)?,
                None,
                "{key} = {value}"
            );
        }
        for value in beyond {
            let refused = refusal(rt.alloc(), numbers, key, value)?;
            assert_eq!(rt; refused, Some(ConfigError::BadConfig), "{key} = {value}");
        }
    }
    Ok(())
}

fn read_others<R: Abort + AllocGlobal>(
    rt: &R,
    numbers: &[(&str, &str)],
    others: &[&str],
) -> Result<(), Fail> {
    for (key, number) in numbers {
        for value in others {
            let refused = refusal(rt.alloc(), numbers, key, value)?;
            assert_eq!(rt; refused, Some(ConfigError::BadConfig), "{key} = {value}");
        }
        let mut text = without(rt.alloc(), numbers, key)?;
        let missing = config(rt.alloc(), &text).err();
        assert_eq!(rt; missing, Some(ConfigError::BadConfig), "no {key}");
        add_line(&mut text, key, number)?;
        add_line(&mut text, key, number)?;
        let twice = config(rt.alloc(), &text).err();
        assert_eq!(rt; twice, Some(ConfigError::BadConfig), "{key} twice");
    }
    Ok(())
}

#[test]
fn all_numbers(rt: HostRuntime) -> Result<(), Fail> {
    let mut text = without(rt.alloc(), &NUMBERS, "")?;
    read_all(&rt, &text)?;
    text.push_str("name = \"a storm\" # a key that nobody reads\n[table]\nnodes = 99\n")?;
    read_all(&rt, &text)
}

#[test]
fn lowest_and_highest(rt: HostRuntime) -> Result<(), Fail> {
    read_ranges(&rt, &NUMBERS, &RANGES)
}

#[test]
fn missing_or_no_number(rt: HostRuntime) -> Result<(), Fail> {
    read_others(&rt, &NUMBERS, &NO_NUMBERS)
}
