//! The words of the command line.
ghost use Rattle.std.specs.Prelude.{◌≡◌, IfErr, IfOk, IsSome, Some, drop, false};
ghost use Rattle.clap.specs.Words.{app_of, first_value, found_of, kind_of, rule_of, shape_of};
ghost use Rattle.clap.specs.declared.builder.command.Command.TheViews.{out-Command};
ghost use Rattle.stampctl_words.specs.CommandLine.{drawing_shape, dumping_shape, event_rule, file_shape, migrating_shape, program};
ghost use Rattle.stampctl_words.specs.Words.{Call, IsFile, MayBeFile, Names, call_of, texts};

use clap::error::ErrorKind;
use clap::{Arg, ArgMatches, value_parser};
use std::alloc::{AllocError, Global};
use thiserror::Error as ThisError;

/// What the program is asked to do: with a script, that of a file or without one the script on standard input, or with a record
/// file.
#[derive(Clone, Copy)]
pub enum Task<'a> {
    /// Runs it and prints what is observed.
    Run(Option<&'a str>),
    /// Runs it and prints each event, the packets that it sent and what is observed.
    Trace(Option<&'a str>),
    /// Runs it and draws the events from one to another, both included. The first event is 1; without the one bound the drawing
    /// begins there, without the other it goes on to the last.
    Draw {
        file: Option<&'a str>,
        from: Option<u64>,
        to: Option<u64>,
    },
    /// Prints the records of the record file with this name.
    Dump(&'a str),
    /// Makes a record file of version 2 with the records of another.
    Migrate {
        file: &'a str,
        new: &'a str,
    },
}

/// What the help ends with.
const AFTER_HELP: &str = "\
Without a command, the script on standard input is run.
The lines of a script and of a dump are those of docs/FORMATS.md, and crates/tests_rows/data has some scripts.
Status 0: the script ran to its end, or the file was dumped or migrated. 1: it was refused, as the last line says. 2: wrong words.";

/// A subcommand with one file, which may be left out.
fn with_file<'a>(
    alloc: Global,
    name: &'a str,
    about: &'a str,
) -> Result<clap::Command<'a>, AllocError>
    ensures shape { IfOk result (λ c. shape_of c ≡ file_shape name.entry.now) }
    ensures local { IfOk result (λ c. (out-Command c).has_globals ≡ false) }
{
    let file = Arg::new(alloc, "file").value_name("FILE").help(
        "The script: a setup, and events, one a line; by default standard input",
    );
    clap::Command::new(alloc, name).about(about).arg(file)
}

/// An option whose value is the number of an event.
fn event_option<'a>(alloc: Global, name: &'a str, value: &'a str, help: &'a str) -> Arg<'a>
    ensures rule { rule_of result ≡ event_rule name.entry.now }
    ensures local { result.global ≡ false }
{
    Arg::new(alloc, name)
        .long(name)
        .value_name(value)
        .value_parser(value_parser!(u64))
        .help(help)
}

/// The subcommand that draws.
fn drawing<'a>(alloc: Global) -> Result<clap::Command<'a>, AllocError>
    ensures shape { IfOk result (λ c. shape_of c ≡ drawing_shape) }
    ensures local { IfOk result (λ c. (out-Command c).has_globals ≡ false) }
{
    let from = event_option(
        alloc,
        "from",
        "N",
        "The first event that is drawn, counted from 1",
    );
    let to = event_option(alloc, "to", "M", "The last event that is drawn");
    with_file(
        alloc,
        "draw",
        "Runs a script and writes a drawing of its events and packets, as SVG",
    )?
    .arg(from)?
    .arg(to)
}

/// The subcommand that dumps a record file.
fn dumping<'a>(alloc: Global) -> Result<clap::Command<'a>, AllocError>
    ensures shape { IfOk result (λ c. shape_of c ≡ dumping_shape) }
    ensures local { IfOk result (λ c. (out-Command c).has_globals ≡ false) }
{
    let file = Arg::new(alloc, "file")
        .value_name("FILE")
        .required(true)
        .help("The record file of an actor, which is only read");
    clap::Command::new(alloc, "dump")
        .about("Prints the records of a record file, a line for each")
        .arg(file)
}

/// The subcommand that migrates a record file.
fn migrating<'a>(alloc: Global) -> Result<clap::Command<'a>, AllocError>
    ensures shape { IfOk result (λ c. shape_of c ≡ migrating_shape) }
    ensures local { IfOk result (λ c. (out-Command c).has_globals ≡ false) }
{
    let file = Arg::new(alloc, "file")
        .value_name("FILE")
        .required(true)
        .help("The record file of an actor, which is only read");
    let new = Arg::new(alloc, "new")
        .value_name("NEW")
        .required(true)
        .help("The file that is made, which must not be there yet");
    clap::Command::new(alloc, "migrate")
        .about("Makes a record file of version 2 with the records of another")
        .arg(file)?
        .arg(new)
}

/// The program's command line.
fn command_line<'a>(alloc: Global) -> Result<clap::Command<'a>, AllocError>
    ensures { IfOk result (λ c. app_of c ≡ program) }
{
    let run = with_file(alloc, "run", "Runs a script and prints what is observed")?;
    let trace = with_file(
        alloc,
        "trace",
        "Runs a script and prints each event, the packets that it sent and what is observed",
    )?;
    let draw = drawing(alloc)?;
    let dump = dumping(alloc)?;
    let migrate = migrating(alloc)?;
    clap::Command::new(alloc, "stampctl")
        .about("Runs a script, by default the one on standard input")
        .after_help(AFTER_HELP)
        .disable_help_subcommand(true)
        .subcommand(run)?
        .subcommand(trace)?
        .subcommand(draw)?
        .subcommand(dump)?
        .subcommand(migrate)
}

/// Why the words were not read.
#[derive(Debug, Drop, ThisError)]
pub enum CommandError {
    #[error("out of memory")]
    Memory,
    /// The words name no task. They are wrong, and the text says how, or they ask for help.
    #[error("{0}")]
    WrongWords(clap::Error),
}

impl From<AllocError> for CommandError {
    ghost use Rattle.stampctl_words.specs.declared.named.CommandError.TheVariants.{Memory};

    ghost from_gives = { λ _ error. error ≡ Memory };

    fn from(_refused: AllocError) -> Self {
        CommandError::Memory
    }
}

impl From<clap::Error> for CommandError {
    ghost use Rattle.stampctl_words.specs.declared.named.CommandError.TheVariants.{Memory};
    ghost use Rattle.clap.specs.declared.error.kind.ErrorKind.TheVariants.{OutOfMemory};

    ghost from_gives = { λ given error. kind_of given ≡ OutOfMemory → error ≡ Memory };

    fn from(error: clap::Error) -> Self {
        match error.kind() {
            ErrorKind::OutOfMemory => CommandError::Memory,
            _ => CommandError::WrongWords(error),
        }
    }
}

/// The value of an argument that may not be left out.
fn needed<'a>(given: &ArgMatches<'a>, id: &str) -> &'a str
    requires { IsSome (first_value (found_of given.now) id.now) }
    ensures { Some result.now ≡ first_value (found_of given.now) id.now }
{
    match given.get_str(id) {
        Some(value) => value,
        None => unreachable!(),
    }
}

/// Reads the words of a command line, of which the first is the program's name.
pub fn command<'a>(alloc: Global, words: &'a [String]) -> Result<Task<'a>, CommandError>
    // The task is the one that the words name.
    ensures named { IfOk result (λ task. Names MayBeFile (drop 1 (texts words.entry.now)) (call_of task)) }
    // Words that name one are read, unless memory runs out.
    ensures taken { IfErr result (λ e. (call : Call) → Names IsFile (drop 1 (texts words.entry.now)) call
        → e ≡ CommandError.Memory) }
{
    let matches = command_line(alloc)?.try_get_matches_from(words)?;
    match matches.subcommand() {
        None => Ok(Task::Run(None)),
        Some(("trace", given)) => Ok(Task::Trace(given.get_str("file"))),
        Some(("draw", given)) => Ok(Task::Draw {
            file: given.get_str("file"),
            from: given.get_one("from"),
            to: given.get_one("to"),
        }),
        Some(("dump", given)) => Ok(Task::Dump(needed(given, "file"))),
        Some(("migrate", given)) => Ok(Task::Migrate {
            file: needed(given, "file"),
            new: needed(given, "new"),
        }),
        Some((_run, given)) => Ok(Task::Run(given.get_str("file"))),
    }
}
