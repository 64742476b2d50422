//! What the words of the command line name, and which are wrong.
use stampctl_words::{Task, command};
use std::alloc::Global;
use std::test::Fail;

/// A task, as the table below spells it.
#[derive(Clone, Copy, PartialEq)]
enum Wanted<'a> {
    Run(Option<&'a str>),
    Trace(Option<&'a str>),
    Draw(Option<&'a str>, Option<u64>, Option<u64>),
    Dump(&'a str),
    Migrate(&'a str, &'a str),
    Wrong,
}

use Wanted::{Draw, Dump, Migrate, Run, Trace, Wrong};

/// Words, and the task that they name.
type Case = (&'static [&'static str], Wanted<'static>);

const CASES: &[Case] = &[
    (&["stampctl"], Run(None)),
    (&["stampctl", "--"], Run(None)),
    (&["stampctl", "run", "a b"], Run(Some("a b"))),
    (&["stampctl", "run", "--", "-x"], Run(Some("-x"))),
    (&["stampctl", "run", "c", "--"], Run(Some("c"))),
    (&["stampctl", "run", "-"], Run(Some("-"))),
    (&["stampctl", "run"], Run(None)),
    (&["stampctl", "run", "--"], Run(None)),
    (&["stampctl", "run", ""], Run(Some(""))),
    (&["stampctl", "run", "run"], Run(Some("run"))),
    (&["stampctl", "trace"], Trace(None)),
    (&["stampctl", "trace", "a"], Trace(Some("a"))),
    (
        &["stampctl", "trace", "--", "--from"],
        Trace(Some("--from")),
    ),
    (&["stampctl", "draw"], Draw(None, None, None)),
    (&["stampctl", "draw", "a"], Draw(Some("a"), None, None)),
    (
        &[
            "stampctl",
            "draw",
            "a",
            "--from",
            "3",
            "--to",
            "18446744073709551615",
        ],
        Draw(Some("a"), Some(3), Some(u64::MAX)),
    ),
    (
        &["stampctl", "draw", "--to", "0", "a"],
        Draw(Some("a"), None, Some(0)),
    ),
    (
        &["stampctl", "draw", "--to=07", "--from=+5"],
        Draw(None, Some(5), Some(7)),
    ),
    (
        &["stampctl", "draw", "--from", "9", "--", "--to"],
        Draw(Some("--to"), Some(9), None),
    ),
    (
        &["stampctl", "draw", "a", "--to", "2", "--"],
        Draw(Some("a"), None, Some(2)),
    ),
    (&["stampctl", "dump", "a"], Dump("a")),
    (&["stampctl", "dump", "-"], Dump("-")),
    (&["stampctl", "dump", "--", "-x"], Dump("-x")),
    (&["stampctl", "dump", "a", "--"], Dump("a")),
    (&["stampctl", "migrate", "a", "b"], Migrate("a", "b")),
    (&["stampctl", "migrate", "a", "-"], Migrate("a", "-")),
    (
        &["stampctl", "migrate", "--", "-x", "--"],
        Migrate("-x", "--"),
    ),
    (
        &["stampctl", "migrate", "a", "--", "-x"],
        Migrate("a", "-x"),
    ),
    (&["stampctl", "migrate", "a", "a", "--"], Migrate("a", "a")),
    (&["stampctl", "a"], Wrong),
    (&["stampctl", "--", "run"], Wrong),
    (&["stampctl", "storm", "a"], Wrong),
    (&["stampctl", "run", "a", "b"], Wrong),
    (&["stampctl", "run", "-x"], Wrong),
    (&["stampctl", "run", "--from", "3"], Wrong),
    (&["stampctl", "trace", "a", "--to=3"], Wrong),
    (&["stampctl", "draw", "a", "b"], Wrong),
    (&["stampctl", "draw", "--from"], Wrong),
    (&["stampctl", "draw", "--from", "--to", "3"], Wrong),
    (&["stampctl", "draw", "--from", "--", "3"], Wrong),
    (&["stampctl", "draw", "--from", "3", "--from", "3"], Wrong),
    (&["stampctl", "draw", "--to", "3", "a", "--to=4"], Wrong),
    (&["stampctl", "draw", "--from", "a"], Wrong),
    (&["stampctl", "draw", "--from="], Wrong),
    (&["stampctl", "draw", "--from", "-3"], Wrong),
    (&["stampctl", "draw", "--to", "18446744073709551616"], Wrong),
    (&["stampctl", "draw", "--fro", "3"], Wrong),
    (&["stampctl", "draw", "--events", "3"], Wrong),
    (&["stampctl", "draw", "-f", "3"], Wrong),
    (&["stampctl", "dump"], Wrong),
    (&["stampctl", "dump", "--"], Wrong),
    (&["stampctl", "dump", "a", "b"], Wrong),
    (&["stampctl", "dump", "-x"], Wrong),
    (&["stampctl", "dump", "a", "--from", "3"], Wrong),
    (&["stampctl", "migrate"], Wrong),
    (&["stampctl", "migrate", "a"], Wrong),
    (&["stampctl", "migrate", "--", "a"], Wrong),
    (&["stampctl", "migrate", "a", "b", "c"], Wrong),
    (&["stampctl", "migrate", "a", "b", "--", "c"], Wrong),
    (&["stampctl", "migrate", "-x", "a"], Wrong),
    (&["stampctl", "migrate", "a", "--new", "b"], Wrong),
];

fn owned(alloc: Global, words: &[&str]) -> Result<Vec<String>, Fail> {
    let mut owned = Vec::new(alloc);
    for word in words {
        owned.push(word.to_string(alloc)?)?;
    }
    Ok(owned)
}

fn names(alloc: Global, words: &[String], wanted: Wanted<'_>) -> bool {
    match command(alloc, words) {
        Ok(Task::Run(file)) => wanted == Run(file),
        Ok(Task::Trace(file)) => wanted == Trace(file),
        Ok(Task::Draw { file, from, to }) => wanted == Draw(file, from, to),
        Ok(Task::Dump(file)) => wanted == Dump(file),
        Ok(Task::Migrate { file, new }) => wanted == Migrate(file, new),
        Err(_wrong) => wanted == Wrong,
    }
}

#[test]
fn reads_words(rt: HostRuntime) -> Result<(), Fail> {
    for (words, wanted) in CASES {
        let told = owned(rt.alloc(), *words)?;
        assert!(rt; names(rt.alloc(), told.as_slice(), *wanted), "{words:?}");
    }
    Ok(())
}
